// What the temperature alone decides of a fluid's terms: τ, ln τ, each row's power and each bell's part. For formulas.
#![tactic(auto)]

ghost use Rattle.std.specs.Prelude.{◌≡◌, map};
ghost use Rattle.arithmetic.specs.Checked.{squash as squash_of};
ghost use Rattle.exponentials.specs.Exp.{exp_of};
ghost use Rattle.fluids.specs.Entries.{entry_of};
ghost use Rattle.kept.specs.Kept.{exponent_of, power_at, bell_at, kept_of};

use arithmetic::squash;
use exponentials::exps;
use fluids::{Fluid, Term};
use logarithms::ln;

// The fluid, T, τ, ln τ, each row's power τᵗ, and each bell's β·(τ−γ)·(τ−γ). Powers and bells stand beside the fluid's terms, row by row, and not
// in them: the terms are the entry's constants, and these are a temperature's.
#[derive(Clone, Copy)]
pub struct Kept {
    pub fluid: Fluid,
    pub t: f64,
    pub tau: f64,
    pub ln_tau: f64,
    pub powers: [f64; 14],
    pub bells: [f64; 14],
}

// The exponent t.
fn exponent(term: Term) -> f64
    ensures { result ≡ exponent_of term }
{
    match term {
        Term::Plain { t, .. } | Term::Damped { t, .. } | Term::Bell { t, .. } => t,
    }
}

// β·(τ−γ)·(τ−γ) of a bell, and 0 of any other term.
fn bell_part(term: Term, tau: f64) -> f64
    ensures { squash_of result ≡ bell_at (squash_of tau) term }
{
    match term {
        Term::Plain { .. } | Term::Damped { .. } => 0.0,
        Term::Bell { beta, gamma, .. } => beta * (tau - gamma) * (tau - gamma),
    }
}

// t·ln τ of each row, with y = ln τ. Here and in `bells_at` the terms' `map` was tried, and the proof did not close: of the closure, which is called
// anew for each row, it must show that what was captured stays.
fn power_exponents(fluid: Fluid, y: f64) -> [f64; 14]
    ensures { map exp_of result ≡ map (power_at y) (entry_of fluid).rows }
{
    let terms = fluids::terms(fluid);
    let mut exponents = [0.0; 14];
    for i in 0..14 {
        exponents[i] = exponent(terms[i]) * y;
    }
    exponents
}

// τᵗ of each row, from y = ln τ.
fn powers_at(fluid: Fluid, y: f64) -> [f64; 14]
    ensures { result ≡ map (power_at y) (entry_of fluid).rows }
{
    exps(power_exponents(fluid, y))
}

// β·(τ−γ)·(τ−γ) of each bell, and 0 of every other row.
fn bells_at(fluid: Fluid, tau: f64) -> [f64; 14]
    ensures { result ≡ map (bell_at (squash_of tau)) (entry_of fluid).rows }
{
    let terms = fluids::terms(fluid);
    let mut bells = [0.0; 14];
    for i in 0..14 {
        bells[i] = squash(bell_part(terms[i], tau));
    }
    bells
}

// What the equation of a fluid needs of the temperature T, for any number of densities.
pub fn keep(fluid: Fluid, t: f64) -> Kept
    ensures { result ≡ kept_of fluid t }
{
    let tau = squash(fluids::single_numbers(fluid).critical_temperature / t);
    let ln_tau = ln(tau);
    Kept {
        fluid,
        t,
        tau,
        ln_tau,
        powers: powers_at(fluid, ln_tau),
        bells: bells_at(fluid, tau),
    }
}
