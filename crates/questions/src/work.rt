// What a record asks, and its answer.
ghost use Rattle.std.specs.Prelude.{◌≡◌};
ghost use Rattle.questions.specs.Asked.{asked_by, asked_of, density_at, work_of, answer_of};

use crate::Question;
use density::plain_of;
use fluids::Fluid;
use outcomes::found_answer;
use properties::{Property, answer_of};
use records::{Kind, Record, read};
use refusals::{Answer, Refusal};
use search::Side;
use words::number;

// What two numbers of a kind ask of a fluid: no side given is taken from below, and a no-reading record asks nothing, 1.
fn asked_by(fluid: Fluid, kind: Kind, t: f64, x: f64) -> Result<Question, Refusal>
    ensures { result ≡ asked_by fluid kind t x }
{
    match kind {
        Kind::Density => Ok(Question::State(fluid, t, x)),
        Kind::FromBelow => Ok(Question::Search(fluid, t, x, Side::FromBelow)),
        Kind::FromAbove => Ok(Question::Search(fluid, t, x, Side::FromAbove)),
        Kind::NoSide => Ok(Question::Search(fluid, t, x, Side::FromBelow)),
        Kind::NoReading => Err(Refusal::NoReading),
    }
}

// What a record asks, or its refusal: 15, 14, 1. A function, and no `TryFrom<Record>`: the record may not have been read (definition `asked_of`).
pub fn asked(marked: Result<Record, Refusal>) -> Result<Question, Refusal>
    ensures { result ≡ asked_of marked }
{
    let record = marked?;
    let (t, x) = (number(record.first), number(record.second));
    asked_by(record.fluid, record.kind, t, x)
}

// The density of a fluid by the plain search up to its own top, alone; or 2, 3, 5, then 8, 9, 12.
// 8, 9 and 12 never occur (docs/NO-ANSWER.md). The probe asks the same by a number, which may be no fluid's.
pub fn density_at(fluid: Fluid, t: f64, p: f64, side: Side) -> Answer
    ensures { result ≡ density_at fluid t p side }
{
    let numbers = fluids::single_numbers(fluid);
    found_answer(plain_of(fluid, t, p, numbers.top_cells, side))
}

// The answer to what a record asks. A match, as in the tests of the inputs: there are two questions, and each hands on other things.
pub(crate) fn worked(question: Result<Question, Refusal>) -> Answer
    ensures { result ≡ work_of question }
{
    match question? {
        Question::State(fluid, t, rho) => answer_of(Property::Pressure, fluid, t, rho),
        Question::Search(fluid, t, p, side) => density_at(fluid, t, p, side),
    }
}

// The answer to a record, of the fluid of its mark: the pressure in Pa or the density in mol/dm³; or 15, 14, 1, 2, 3, 4, 5, then
// 8, 9, 12. 8, 9 and 12 never occur (docs/NO-ANSWER.md).
pub fn answer(s: &[u8]) -> Answer
    ensures { result ≡ answer_of s.now }
{
    worked(asked(read(s)))
}
