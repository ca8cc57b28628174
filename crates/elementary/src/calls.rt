// The elementary functions as calls: a number, or a numbered refusal.
ghost use Rattle.std.specs.Prelude.{◌≡◌};
ghost use Rattle.elementary.specs.Calls.{called_of, exponential_of, logarithm_of, square_root_of};

use arithmetic::{answer_from, finite};
use exponentials::exp;
use logarithms::ln;
use refusals::{Answer, Refusal};
use roots::root;

// 2 where the argument x is not finite, and else what the worked value gives. The three calls are 01's by name and differ in the function worked
// alone: handed on, it would be a closure where its value is enough.
fn called(x: f64, worked: f64) -> Answer
    ensures { result ≡ called_of x worked }
{
    if finite(x) {
        answer_from(worked)
    } else {
        Err(Refusal::InputNotFinite)
    }
}

// exp x: 2 for a NaN or an infinity, 12 outside −700..700.
pub fn exponential(x: f64) -> Answer
    ensures { result ≡ exponential_of x }
{
    called(x, exp(x))
}

// ln x: 2 for a NaN or an infinity, 12 outside 2⁻⁶⁰..2⁶⁰.
pub fn logarithm(x: f64) -> Answer
    ensures { result ≡ logarithm_of x }
{
    called(x, ln(x))
}

// root x: 2 for a NaN or an infinity, 12 outside 1..10⁸.
pub fn square_root(x: f64) -> Answer
    ensures { result ≡ square_root_of x }
{
    called(x, root(x))
}
