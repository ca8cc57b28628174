// The estimates of 01, term by term. ln θ is worked once.
ghost use Rattle.std.specs.Prelude.{◌≡◌, ◌≤◌, length, All};
ghost use Rattle.arithmetic.specs.Checked.{squash};
ghost use Rattle.logarithms.specs.Ln.{ln_of};
ghost use Rattle.elementary.specs.Power.{power_of};
ghost use Rattle.fluids.specs.Finite.{Finite, FiniteEstimate};
ghost use Rattle.saturation.specs.Estimates as Estimates;

use exponentials::exp;
use fluids::{Curve, Estimate, Fluid};
use logarithms::ln;

// θ with its logarithm.
#[derive(Clone, Copy)]
struct Theta {
    value: f64,
    ln: f64,
    ghost worked: { ln ≡ ln_of value },
}

impl Theta {
    // 1 − T/Tc.
    fn at(fluid: Fluid, t: f64) -> Theta
        requires { Finite t }
        ensures { squash result.value ≡ Estimates.theta_of fluid t }
    {
        let critical = fluids::single_numbers(fluid).critical_temperature;
        let theta = 1.0 - t / critical;
        Theta {
            value: theta,
            ln: ln(theta),
        }
    }

    // θ to the power t: exp(t·ln θ), and 0 for θ = 0. `elementary::power` would work ln θ anew for each term.
    fn raised(self, t: f64) -> f64
        ensures { result ≡ power_of (squash self.value) t }
    {
        if self.value == 0.0 {
            return 0.0;
        }
        exp(t * self.ln)
    }

    fn term_value(self, term: Estimate) -> f64
        requires { FiniteEstimate term }
        ensures { squash result ≡ Estimates.term_of (squash self.value) term }
    {
        match term {
            Estimate::Alone { n } => n * self.value,
            Estimate::Raised { n, t } => n * self.raised(t),
        }
    }

    // `first` and the terms, one after the other.
    fn sum_of(self, first: f64, terms: &[Estimate]) -> f64
        requires { All FiniteEstimate terms.now }
        ensures { squash result ≡ Estimates.plus_terms (squash self.value) terms.now (squash first) 0 (length terms.now) }
    {
        let mut sum = first;
        for term in terms {
            sum = sum + self.term_value(*term);
        }
        sum
    }

    // The first term, and those after it.
    fn from_first(self, terms: &[Estimate]) -> f64
        requires finite { All FiniteEstimate terms.now }
        requires some { 1 ≤ length terms.now }
        ensures { squash result ≡ Estimates.from_first (squash self.value) terms.now (length terms.now) }
    {
        let first = self.term_value(terms[0]);
        self.sum_of(first, &terms[1..])
    }

    // The sum of a curve's terms; the liquid's begins with 1. A closure for each curve would only repeat the calls of this match.
    fn series_of(self, fluid: Fluid, curve: Curve) -> f64
        ensures { squash result ≡ Estimates.series_of fluid (squash self.value) curve }
    {
        let terms = fluids::estimate_terms(fluid, curve);
        match curve {
            Curve::Liquid => self.sum_of(1.0, terms),
            Curve::Pressure | Curve::Vapour => self.from_first(terms),
        }
    }
}

// The estimate of a curve at T. Fluid and curve are the arguments of the public `answer_of` and `estimate_terms`, and no struct joins
// them; the match has 01's three formulas side by side, which closures would only move apart.
pub(crate) fn value_of(fluid: Fluid, curve: Curve, t: f64) -> f64
    requires { Finite t }
    ensures { squash result ≡ Estimates.estimate_of fluid t curve }
{
    let numbers = fluids::single_numbers(fluid);
    let critical = numbers.critical_temperature;
    let highest = numbers.critical_pressure;
    let density = numbers.critical_density;
    let series = Theta::at(fluid, t).series_of(fluid, curve);
    match curve {
        Curve::Pressure => highest * exp((critical / t) * series),
        Curve::Liquid => density * series,
        Curve::Vapour => density * exp(series),
    }
}
