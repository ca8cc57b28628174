// 01, "root x". For formulas: one NaN where 01 owes refusal 12.
#![tactic(auto)]

ghost use Rattle.std.specs.Prelude.{◌≡◌};
ghost use Rattle.arithmetic.specs.Checked.{squash as squash_of, real};
ghost use Rattle.roots.specs.Root.{root_steps, root_of};

use arithmetic::{between, squash};

// y = 256, sixteen times y = (y + x/y)/2.
fn steps(x: f64) -> f64
    ensures { squash_of result ≡ root_steps 16 (squash_of x) (real 256) }
{
    let mut y = 256.0;
    for _ in 0..16u32 {
        y = (y + x / y) / 2.0;
    }
    y
}

// root x for 1 ≤ x ≤ 10⁸, and a NaN elsewhere.
pub fn root(x: f64) -> f64
    ensures { result ≡ root_of x }
{
    if between(1.0, x, 100000000.0) {
        squash(steps(x))
    } else {
        f64::NAN
    }
}
