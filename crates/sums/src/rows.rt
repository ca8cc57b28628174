// 01, "A term is one of three kinds": A, q, r, f, g of a term.
ghost use Rattle.std.specs.Prelude.{◌≡◌};
ghost use Rattle.arithmetic.specs.Checked.{squash, minus, ◌⊖◌, ◌⊗◌};
ghost use Rattle.exponentials.specs.Exp.{exp_of};
ghost use Rattle.elementary.specs.Power.{◌↑◌};
ghost use Rattle.fluids.specs.declared.Term.TheVariants as Kind;
ghost use Rattle.sums.specs.Rows.{x_at};
ghost use Rattle.sums.specs.Squashed.{squash_row, row_from};
ghost use Rattle.sums.specs.Factors.{Dampings};

use exponentials::exp;
use fluids::Term;

// What a term gives at a state.
#[derive(Clone, Copy)]
pub struct Row {
    pub a: f64,
    pub q: f64,
    pub r: f64,
    pub f: f64,
    pub g: f64,
}

// δ, with exp(−δ) and exp(−δ²), which the damped terms share.
#[derive(Clone, Copy)]
pub(crate) struct Damping {
    pub delta: f64,
    pub first: f64,
    pub second: f64,
    ghost shared: { Dampings (squash delta) first second },
}

// What a row is worked from beside its term: δ, τ, the power τᵗ and X.
#[derive(Clone, Copy)]
pub(crate) struct Factors {
    pub delta: f64,
    pub tau: f64,
    pub power: f64,
    pub x: f64,
}

// δᵈ: a repeated product from 1.
fn whole_power(x: f64, n: u32) -> f64
    ensures { squash result ≡ squash x ↑ n }
{
    let mut p = 1.0;
    for _ in 0..n {
        p = p * x;
    }
    p
}

// −δˡ.
fn damped_exponent(l: u32, delta: f64) -> f64
    ensures { exp_of result ≡ exp_of (minus (squash delta ↑ l)) }
{
    -whole_power(delta, l)
}

// −η·(δ−ε)·(δ−ε) − b.
fn bell_exponent(eta: f64, epsilon: f64, delta: f64, part: f64) -> f64
    ensures { exp_of result ≡ exp_of (minus eta ⊗ (squash delta ⊖ epsilon) ⊗ (squash delta ⊖ epsilon) ⊖ squash part) }
{
    let u = delta - epsilon;
    -eta * u * u - part
}

// What X is the exponential of, with the bell's part that τ gives; 1 is that of 0.
pub(crate) fn x_exponent(term: Term, delta: f64, part: f64) -> f64
    ensures { exp_of result ≡ x_at (squash delta) (squash part) term }
{
    match term {
        Term::Plain { .. } => 0.0,
        Term::Damped { l, .. } => damped_exponent(l, delta),
        Term::Bell { eta, epsilon, .. } => bell_exponent(eta, epsilon, delta, part),
    }
}

// exp(−δˡ), from the two that are worked already where it is one of them.
fn damped_x(l: u32, damping: Damping) -> f64
    ensures { result ≡ exp_of (minus (squash damping.delta ↑ l)) }
{
    match l {
        1 => damping.first,
        2 => damping.second,
        _ => exp(damped_exponent(l, damping.delta)),
    }
}

// X of a term, with the damping that δ gives and the bell's part that τ gives. The cases are those of `x_exponent`, but not its exp: a plain term
// needs none, and a damped one's is mostly worked already.
pub(crate) fn x_of(term: Term, damping: Damping, part: f64) -> f64
    ensures { result ≡ x_at (squash damping.delta) (squash part) term }
{
    match term {
        Term::Plain { .. } => 1.0,
        Term::Damped { l, .. } => damped_x(l, damping),
        Term::Bell { eta, epsilon, .. } => exp(bell_exponent(eta, epsilon, damping.delta, part)),
    }
}

// ((N·δᵈ)·τᵗ)·X.
fn amount(n: f64, d: u32, at: Factors) -> f64
    ensures { squash result ≡ ((n ⊗ squash at.delta ↑ d) ⊗ squash at.power) ⊗ squash at.x }
{
    n * whole_power(at.delta, d) * at.power * at.x
}

// Each kind of term has formulas of its own for q, r, f and g; what the three share is `amount`. They take the fields that the match in `row_of`
// reads off the term.
fn plain(n: f64, t: f64, d: u32, at: Factors) -> Row
    ensures { squash_row result ≡ squash_row (row_from at.delta at.tau at.power at.x (Kind.Plain n t d)) }
{
    let q = d as f64;
    Row {
        a: amount(n, d, at),
        q,
        r: t,
        f: q * q - q,
        g: t * t - t,
    }
}

fn damped(n: f64, t: f64, d: u32, l: u32, at: Factors) -> Row
    ensures { squash_row result ≡ squash_row (row_from at.delta at.tau at.power at.x (Kind.Damped n t d l)) }
{
    let p = whole_power(at.delta, l);
    let k = l as f64;
    let whole = d as f64;
    let q = whole - k * p;
    Row {
        a: amount(n, d, at),
        q,
        r: t,
        f: (q * q - q) - (k * k) * p,
        g: t * t - t,
    }
}

fn bell(n: f64, t: f64, d: u32, eta: f64, beta: f64, gamma: f64, epsilon: f64, at: Factors) -> Row
    ensures { squash_row result ≡ squash_row (row_from at.delta at.tau at.power at.x (Kind.Bell n t d eta beta gamma epsilon)) }
{
    let Factors { delta, tau, .. } = at;
    let whole = d as f64;
    let q = whole - 2.0 * eta * delta * (delta - epsilon);
    let r = t - 2.0 * beta * tau * (tau - gamma);
    Row {
        a: amount(n, d, at),
        q,
        r,
        f: (q * q - whole) - 2.0 * eta * delta * delta,
        g: (r * r - t) - 2.0 * beta * tau * tau,
    }
}

// A, q, r, f, g of a term, from its power τᵗ and its X.
pub(crate) fn row_of(term: Term, at: Factors) -> Row
    ensures { squash_row result ≡ squash_row (row_from at.delta at.tau at.power at.x term) }
{
    match term {
        Term::Plain { n, t, d } => plain(n, t, d, at),
        Term::Damped { n, t, d, l } => damped(n, t, d, l, at),
        Term::Bell {
            n,
            t,
            d,
            eta,
            beta,
            gamma,
            epsilon,
        } => bell(n, t, d, eta, beta, gamma, epsilon, at),
    }
}
