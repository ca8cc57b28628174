// 01, "exp x": the parts of its work, each of one number.
ghost use Rattle.std.specs.Prelude.{◌≡◌};
ghost use Rattle.arithmetic.specs.Checked.{squash as squash_of, real, within, minus, ◌⊕◌, ◌⊗◌, ◌⊘◌};
ghost use Rattle.exponentials.specs.Exp.{scaled_of, squared};

use arithmetic::{between, squash};

// x where exp is worked, and a NaN elsewhere: tested first, so that the work has no branch around it.
fn in_range(x: f64) -> f64
    ensures { result ≡ within (minus (real 700)) (real 700) x x }
{
    if between(-700.0, x, 700.0) {
        x
    } else {
        f64::NAN
    }
}

// y = x·2⁻¹⁰, and a NaN out of range.
pub(crate) fn scaled(x: f64) -> f64
    ensures { squash_of result ≡ scaled_of x }
{
    in_range(x) * 0.0009765625
}

// 1 + (y·H)/n.
pub(crate) fn step(y: f64, h: f64, n: f64) -> f64
    ensures { squash_of result ≡ real 1 ⊕ (squash_of y ⊗ squash_of h) ⊘ n }
{
    1.0 + (y * h) / n
}

// H squared ten times.
fn squared_ten_times(h: f64) -> f64
    ensures { squash_of result ≡ squared 10 (squash_of h) }
{
    let mut squared = h;
    for _ in 0..10u32 {
        squared *= squared;
    }
    squared
}

// exp x from its H.
pub(crate) fn finished(h: f64) -> f64
    ensures { result ≡ squared 10 (squash_of h) }
{
    squash(squared_ten_times(h))
}
