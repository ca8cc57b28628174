// 01, "exp x", of several numbers at once: each step is taken for all of them before the next, as a division keeps its own x waiting
// but no other.
ghost use Rattle.std.specs.Prelude.{◌≡◌, map, ◌++◌};
ghost use Rattle.arithmetic.specs.Checked.{squash, real};
ghost use Rattle.exponentials.specs.Exp.{scaled_of, exp_steps, squared, exp_of};
ghost use Rattle.arithmetic.specs.Lanes.{AtEach, lane};

use crate::parts::{finished, scaled, step};

fn all_scaled<const N: usize>(x: [f64; N]) -> [f64; N]
    ensures { AtEach N (λ i. squash (lane result i) ≡ scaled_of (lane x.entry i)) }
{
    let mut y = x;
    for v in y.iter_mut() {
        *v = scaled(*v);
    }
    y
}

// For n = 16 down to 1, H = 1 + (y·H)/n. By index: `zip` on `iter_mut` tells the proof nothing of the elements. Here and below a contract says what
// holds at each place (`AtEach`); each is its function's own.
fn all_steps<const N: usize>(y: [f64; N]) -> [f64; N]
    ensures { AtEach N (λ i. squash (lane result i) ≡ exp_steps (squash (lane y.entry i)) 16 (real 1)) }
{
    let mut h = [1.0; N];
    for n in (1..=16u32).rev() {
        let by = n as f64;
        for i in 0..N {
            h[i] = step(y[i], h[i], by);
        }
    }
    h
}

fn all_finished<const N: usize>(h: [f64; N]) -> [f64; N]
    ensures { AtEach N (λ i. lane result i ≡ squared 10 (squash (lane h.entry i))) }
{
    let mut values = h;
    for v in values.iter_mut() {
        *v = finished(*v);
    }
    values
}

// exp of each of N numbers.
fn together<const N: usize>(x: [f64; N]) -> [f64; N]
    ensures { result ≡ map exp_of x.entry }
{
    all_finished(all_steps(all_scaled(x)))
}

// exp of each of N numbers. Not inlined: beside code that waits for one of them, the compiler puts the steps of the others behind it.
#[inline(never)]
pub fn exps<const N: usize>(x: [f64; N]) -> [f64; N]
    ensures { result ≡ map exp_of x.entry }
{
    together(x)
}

// exp x for −700 ≤ x ≤ 700, and a NaN elsewhere: the case of one number, not by `exps`, whose call takes longer.
pub fn exp(x: f64) -> f64
    ensures { result ≡ exp_of x }
{
    let [y] = together([x]);
    y
}

// Two sevens as the halves of one table. Of any two sizes the whole's would be computed, which no const argument may be.
pub fn joined(first: [f64; 7], second: [f64; 7]) -> [f64; 14]
    ensures { result ≡ first ++ second }
{
    let mut whole = [0.0; 14];
    let (low, high) = whole.split_at_mut(7);
    low.copy_from_slice(&first);
    high.copy_from_slice(&second);
    whole
}
