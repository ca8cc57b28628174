// 01's order before the work: 15, 14, 1, 2, 3, 4, 5, 7; then the work, and its number into the output.
ghost use Rattle.std.specs.Prelude.{◌≡◌};
ghost use Rattle.refusals.specs.Code.{answer_code_of};
ghost use Rattle.questions.specs.Call.{inputs_of, permit_of, call_code, call_output};

use crate::Question;
use crate::work::{asked, worked};
use inputs::{asked_inputs, state_inputs};
use records::read;
use refusals::{Permit, Refusal, tested};
use words::{bits, put_word};

// 15, 14, 1, 2, 3, 4, 5.
fn inputs(question: Result<Question, Refusal>) -> Permit
    ensures { result ≡ inputs_of question }
{
    match question? {
        Question::State(fluid, t, rho) => state_inputs(fluid, t, rho),
        Question::Search(fluid, t, p, _) => asked_inputs(fluid, t, p),
    }
}

// 7 after those, where the output has less than 8 bytes.
fn permit(question: Result<Question, Refusal>, room: usize) -> Permit
    ensures { result ≡ permit_of question room }
{
    let before = inputs(question);
    tested(before, 8 <= room, Refusal::TooShort)
}

// Answers a record of exactly 18 bytes, of the fluid of its mark, up to that fluid's own top where it searches: the bits of the pressure in Pa or of
// the density in mol/dm³ in the first eight bytes of out, the lowest first; or the refusal, and out as it was.
pub fn answer_into(marked: &[u8], out: &mut [u8]) -> Result<(), Refusal>
    ensures { (answer_code_of result ≡ call_code marked.now out.old)
        × (out.new ≡ call_output marked.now out.old) }
{
    let question = asked(read(marked));
    permit(question, out.len())?;
    let x = worked(question)?;
    put_word(out, bits(x));
    Ok(())
}
