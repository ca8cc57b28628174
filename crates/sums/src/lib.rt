// 01, "A term is one of three kinds" and "Sums of one state, six reals kept together", at a density of a kept temperature. For formulas.
#![tactic(auto)]

mod factors;
mod rows;

ghost use Rattle.std.specs.Prelude.{◌≡◌};
ghost use Rattle.sums.specs.Sums.{add_row, sums_at};
ghost use Rattle.sums.specs.Squashed.{squash_row, squash_sums, all_finite};

use crate::factors::xs_at;
use crate::rows::{Factors, Row, row_of};
use arithmetic::{both_finite, squash};
use kept::Kept;

// The six sums of a state.
#[derive(Clone, Copy)]
pub struct Sums {
    pub s0: f64,
    pub s1: f64,
    pub s2: f64,
    pub t1: f64,
    pub t2: f64,
    pub st: f64,
}

fn added(s: Sums, w: Row) -> Sums
    ensures { squash_sums result ≡ add_row (squash_sums s) (squash_row w) }
{
    Sums {
        s0: s.s0 + w.a,
        s1: s.s1 + w.a * w.q,
        s2: s.s2 + w.a * w.f,
        t1: s.t1 + w.a * w.r,
        t2: s.t2 + w.a * w.g,
        st: s.st + w.a * w.q * w.r,
    }
}

// The sums over the terms, in table order, at a density. A row is read at one place of three tables; zipped, they would be pairs in pairs.
fn summed(kept: Kept, delta: f64) -> Sums
    ensures { squash_sums result ≡ sums_at kept delta }
{
    let Kept {
        fluid,
        tau,
        powers,
        bells,
        ..
    } = kept;
    let terms = fluids::terms(fluid);
    let xs = xs_at(fluid, delta, bells);
    let mut s = Sums {
        s0: 0.0,
        s1: 0.0,
        s2: 0.0,
        t1: 0.0,
        t2: 0.0,
        st: 0.0,
    };
    for i in 0..14 {
        let at = Factors {
            delta,
            tau,
            power: powers[i],
            x: xs[i],
        };
        s = added(s, row_of(terms[i], at));
    }
    s
}

// Whether all six are finite.
fn all_finite(s: Sums) -> bool
    ensures { result ≡ all_finite s }
{
    both_finite(s.s0, s.s1) && both_finite(s.s2, s.t1) && both_finite(s.t2, s.st)
}

// The same sums, each one NaN where it is not finite. Most are: then nothing waits for a selection. Field by field, here and above: the formulas
// read the six by 01's names, and as an array they would lose them.
fn settled(s: Sums) -> Sums
    ensures { result ≡ squash_sums s }
{
    if all_finite(s) {
        return s;
    }
    Sums {
        s0: squash(s.s0),
        s1: squash(s.s1),
        s2: squash(s.s2),
        t1: squash(s.t1),
        t2: squash(s.t2),
        st: squash(s.st),
    }
}

// The six sums at a density of the temperature that is kept, each one NaN where it is not finite.
pub fn sums_at(kept: Kept, delta: f64) -> Sums
    ensures { result ≡ sums_at kept delta }
{
    settled(summed(kept, delta))
}
