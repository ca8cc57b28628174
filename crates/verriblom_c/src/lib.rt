// The archive for C: each function hands on to the one of its name in the crate verriblom, under the same promise. include/verriblom.h says what
// each is asked and answers. Two functions for each name: theorems are about a library's functions, and an archive is not one.
#![tactic(auto)]

ghost use Rattle.std.specs.Prelude.{◌≡◌};
ghost use Rattle.refusals.specs.Code.{answer_code_of};
ghost use Rattle.inputs.specs.Numbered.{by_number};
ghost use Rattle.coexistence.specs.Judge.{judge_of};
ghost use Rattle.coexistence.specs.Call.{saturation_of};
ghost use Rattle.questions.specs.Call.{call_code, call_output};
ghost use Rattle.runs.specs.Answers.{run_code, run_output, run_codes};
ghost use Rattle.writing.specs.Write.{write_of};

// Answers a record of exactly 18 bytes, up to the fluid's own top where it searches: 0, and the bits of the pressure in Pa or of the
// density in mol/dm³ in the first eight bytes of out, the lowest first; or the refusal's number, and out as it was.
#[unsafe(no_mangle)]
pub extern "C" fn verriblom_answer(marked: &[u8], out: &mut [u8]) -> u32
    ensures { (result ≡ call_code marked.now out.old)
        × (out.new ≡ call_output marked.now out.old) }
{
    verriblom::verriblom_answer(marked, out)
}

// Answers a run of records, each as `verriblom_answer` does with its own eight bytes of out: 0, and for each record in turn its code in codes, and its
// number's bits in those bytes, which stay as they were where it is refused; or 7 where out or codes is short, then 18 for more than 4,096
// records, and both as they were.
#[unsafe(no_mangle)]
pub extern "C" fn verriblom_answers(run: &[u8], out: &mut [u8], codes: &mut [u32]) -> u32
    ensures { (result ≡ run_code run.now out.old codes.old)
        × (out.new ≡ run_output run.now out.old codes.old)
        × (codes.new ≡ run_codes run.now out.old codes.old) }
{
    verriblom::verriblom_answers(run, out, codes)
}

// Writes the record of a kind, a fluid and two numbers' bits into the 18 bytes of buffer from place on, its other bytes as they were: 0. The kind is the
// code of the mark's second letter; a no-reading record gets sixteen zero bytes, whatever bits are handed over. Or 14 for another kind, then 17 where
// no fluid has the number, then 7 where 18 bytes have no room there; and the whole buffer is as it was.
#[unsafe(no_mangle)]
pub extern "C" fn verriblom_write(
    kind: u32,
    fluid: u32,
    first: u64,
    second: u64,
    buffer: &mut [u8],
    place: usize,
) -> u32
    ensures { (result, buffer.new) ≡ write_of kind fluid first second buffer.old place }
{
    verriblom::verriblom_write(kind, fluid, first, second, buffer, place)
}

// The saturation pair of a fluid at t K: 0, and the bits of the liquid's and then of the vapour's density, mol/dm³, in the first sixteen bytes of out, the
// lowest first; or 17, 2, 3, 7 where out has less than sixteen bytes, 13 above the critical temperature, 20 where no pair was found, and out as it was.
#[unsafe(no_mangle)]
pub extern "C" fn verriblom_saturation(fluid: u32, t: f64, out: &mut [u8]) -> u32
    ensures { (result, out.new) ≡ saturation_of fluid t out.old }
{
    verriblom::verriblom_saturation(fluid, t, out)
}

// Whether a liquid's and a vapour's density, mol/dm³, are a saturation pair of a fluid at t K: 0; or 17, 2, 3, 4, 19 where t is not below the critical
// temperature or the densities are not on either side of the critical one, 12, 19 where the two states do not agree.
#[unsafe(no_mangle)]
pub extern "C" fn verriblom_accept(fluid: u32, t: f64, liquid: f64, vapour: f64) -> u32
    ensures { result ≡ answer_code_of (by_number Err fluid (λ F. judge_of F t liquid vapour)) }
{
    verriblom::verriblom_accept(fluid, t, liquid, vapour)
}
