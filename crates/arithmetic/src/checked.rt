// Values that are finite, and those that are not.
ghost use Rattle.std.specs.Prelude.{◌≡◌, ◌&&◌};
ghost use Rattle.std.specs.Float.Ieee.Scale as Scale;
ghost use Rattle.arithmetic.specs.Checked as Checked;
ghost use Rattle.arithmetic.specs.Answered.{answer_from};

use refusals::{Answer, Refusal};

// Whether x is neither infinite nor a NaN.
pub fn finite(x: f64) -> bool
    ensures { result ≡ Scale.finite x }
{
    x.is_finite()
}

// Whether neither a nor b is infinite or a NaN.
pub fn both_finite(a: f64, b: f64) -> bool
    ensures { result ≡ Scale.finite a && Scale.finite b }
{
    finite(a) && finite(b)
}

// Whether lo ≤ x ≤ hi; a NaN is between nothing. exp, ln and root test with it and are a NaN elsewhere: said once for the three, those lines
// would take the work as a closure and be no plainer.
pub fn between(lo: f64, x: f64, hi: f64) -> bool
    ensures { result ≡ Checked.between lo x hi }
{
    lo <= x && x <= hi
}

// x where it is finite, and one NaN elsewhere. A formula hands its NaN on to its end, where `answer_from` makes it 12, and the contracts of its
// steps take all that is not finite as this NaN, as the definitions do (`squash`): a Result would put a test behind every operation.
pub fn squash(x: f64) -> f64
    ensures { result ≡ Checked.squash x }
{
    if finite(x) { x } else { f64::NAN }
}

// a / b, and a NaN where b is infinite: the quotient would be 0, but a value in the formula is not finite.
pub fn over(a: f64, b: f64) -> f64
    ensures { result ≡ Checked.◌⊘◌ (Checked.squash a) (Checked.squash b) }
{
    if finite(b) { squash(a / b) } else { f64::NAN }
}

// What a call hands out of a worked value: the value, or 12. A function: f64 and Result are the library's, and no `From` can be written here.
pub fn answer_from(x: f64) -> Answer
    ensures { result ≡ answer_from x }
{
    if finite(x) {
        Ok(x)
    } else {
        Err(Refusal::WorkNotFinite)
    }
}
