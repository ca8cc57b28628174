// 01, "Ideal part", for formulas: I0, I1, I2, each one NaN where a value in it is not finite.
#![tactic(auto)]

ghost use Rattle.std.specs.Prelude.{◌≡◌, Float};
ghost use Rattle.arithmetic.specs.Checked.{squash as squash_of};
ghost use Rattle.fluids.specs.declared.Pair.{Pair};
ghost use Rattle.ideal.specs.Ideal.{part0 as part0_of, part1 as part1_of, part2 as part2_of, Gives, total_of, I0, I1, I2};

use arithmetic::{over, squash};
use exponentials::exp;
use fluids::{Constants, Fluid, Pair};
use logarithms::ln;

// v·ln(1 − exp(−b)).
fn part0(t: f64, pair: Pair) -> f64
    ensures { squash_of result ≡ part0_of t pair }
{
    let Pair { v, u } = pair;
    let b = u / t;
    let below = 1.0 - exp(-b);
    v * ln(below)
}

// v·b/(w−1).
fn part1(t: f64, pair: Pair) -> f64
    ensures { squash_of result ≡ part1_of t pair }
{
    let Pair { v, u } = pair;
    let b = u / t;
    let w = exp(b);
    over(v * b, w - 1.0)
}

// v·b·b·w/((w−1)·(w−1)).
fn part2(t: f64, pair: Pair) -> f64
    ensures { squash_of result ≡ part2_of t pair }
{
    let Pair { v, u } = pair;
    let b = u / t;
    let w = exp(b);
    over(v * b * b * w, (w - 1.0) * (w - 1.0))
}

// The sum over the pairs of what is added of each. They are read by index, as 01 names the form.
fn total<F: Fn(Pair) -> f64>(fluid: Fluid, part: F) -> f64
    requires { F.IsAlwaysCallable part }
    ensures { (added : Pair → Float) → Gives (F.post part) added → squash_of result ≡ total_of fluid added }
{
    let pairs = fluids::pairs(fluid);
    let mut s = 0.0;
    for i in 0..3 {
        s = s + part(pairs[i]);
    }
    s
}

// The three take numbers, not a struct of them: I1 reads three of the five and I2 two, and a caller would have to build it from its state.

// a1 + a2·τ + ln δ + (c0−1)·ln τ + Σ v·ln(1 − exp(−b)); y is ln τ.
pub fn i0(fluid: Fluid, t: f64, tau: f64, y: f64, delta: f64) -> f64
    ensures { result ≡ I0 fluid t tau y delta }
{
    let Constants { a1, a2, c0, .. } = fluids::single_numbers(fluid);
    squash(a1 + a2 * tau + ln(delta) + (c0 - 1.0) * y + total(fluid, |pair| part0(t, pair)))
}

// a2·τ + (c0−1) + Σ v·b/(w−1).
pub fn i1(fluid: Fluid, t: f64, tau: f64) -> f64
    ensures { result ≡ I1 fluid t tau }
{
    let Constants { a2, c0, .. } = fluids::single_numbers(fluid);
    squash(a2 * tau + (c0 - 1.0) + total(fluid, |pair| part1(t, pair)))
}

// (c0−1) + Σ v·b·b·w/((w−1)·(w−1)).
pub fn i2(fluid: Fluid, t: f64) -> f64
    ensures { result ≡ I2 fluid t }
{
    let c0 = fluids::single_numbers(fluid).c0;
    squash((c0 - 1.0) + total(fluid, |pair| part2(t, pair)))
}
