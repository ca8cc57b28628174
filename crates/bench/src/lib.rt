// The functions that bench/ times and the tests call, behind C's calling convention. Those on a fluid take its number first; each has the name and
// the arguments that C calls it by, lists and counts side by side, and a NaN where C has no Result.
#![tactic(auto)]

ghost use Rattle.std.specs.Prelude.{◌≡◌, Err};
ghost use Rattle.exponentials.specs.Exp.{exp_of};
ghost use Rattle.logarithms.specs.Ln.{ln_of};
ghost use Rattle.roots.specs.Root.{root_of};
ghost use Rattle.refusals.specs.Code.{answer_code_of};
ghost use Rattle.inputs.specs.Numbered.{by_number};
ghost use Rattle.properties.specs.Calls.{pressure_of, entropy_of, isobaric_of, sound_speed_of};
ghost use Rattle.preparation.specs.Prepare.{prepare_by, greatest_by, least_by};
ghost use Rattle.outcomes.specs.Parts.{found_word_of};
ghost use Rattle.bench.specs.Doors.{number_of, found_density, side_of, plain_from, quick_from, total_of, isotherm_of};

use density::{plain, quick};
use equation::pressure_at;
use exponentials::exp;
use fluids::Fluid;
use kept::keep;
use logarithms::ln;
use outcomes::{found_answer, found_word};
use preparation::prepare;
use properties::{entropy, isobaric_heat_capacity, pressure, sound_speed};
use refusals::{Answer, Refusal, answer_code};
use roots::root;
use search::{Found, Side};

// ---- the elementary functions

pub fn bench_exp(x: f64) -> f64
    ensures { result ≡ exp_of x }
{
    exp(x)
}

pub fn bench_ln(x: f64) -> f64
    ensures { result ≡ ln_of x }
{
    ln(x)
}

pub fn bench_root(x: f64) -> f64
    ensures { result ≡ root_of x }
{
    root(x)
}

// ---- the equation

// The number of an answer, and a NaN where it is a refusal.
fn number_or_nan(answer: Answer) -> f64
    ensures { result ≡ number_of answer }
{
    answer.unwrap_or(f64::NAN)
}

pub fn bench_pressure(number: u32, t: f64, rho: f64) -> f64
    ensures { result ≡ number_of (by_number Err number (λ F. pressure_of F t rho)) }
{
    number_or_nan(pressure(number, t, rho))
}

pub fn bench_entropy(number: u32, t: f64, rho: f64) -> f64
    ensures { result ≡ number_of (by_number Err number (λ F. entropy_of F t rho)) }
{
    number_or_nan(entropy(number, t, rho))
}

pub fn bench_isobaric(number: u32, t: f64, rho: f64) -> f64
    ensures { result ≡ number_of (by_number Err number (λ F. isobaric_of F t rho)) }
{
    number_or_nan(isobaric_heat_capacity(number, t, rho))
}

pub fn bench_sound_speed(number: u32, t: f64, rho: f64) -> f64
    ensures { result ≡ number_of (by_number Err number (λ F. sound_speed_of F t rho)) }
{
    number_or_nan(sound_speed(number, t, rho))
}

// The sum of a fluid's pressures at T and each of the densities, with the temperature kept.
fn total_of(fluid: Fluid, t: f64, densities: &[f64]) -> f64
    ensures { result ≡ total_of fluid t densities.now }
{
    let kept = keep(fluid, t);
    let mut total = 0.0;
    for rho in densities {
        total += pressure_at(kept, *rho);
    }
    total
}

// That sum for the fluid of a number, and a NaN where no fluid has it.
pub fn bench_isotherm(number: u32, t: f64, densities: &[f64]) -> f64
    ensures { result ≡ isotherm_of number t densities.now }
{
    match Fluid::try_from(number) {
        Ok(fluid) => total_of(fluid, t, densities),
        Err(_) => f64::NAN,
    }
}

// ---- the searches

// The density that was found, and a NaN where it is a refusal.
fn found_density(found: Result<Found, Refusal>) -> f64
    ensures { result ≡ found_density found }
{
    number_or_nan(found_answer(found))
}

// C has no `Side`: 0 is from below, any other number from above.
fn side_of(n: u32) -> Side
    ensures { result ≡ side_of n }
{
    if n == 0 {
        Side::FromBelow
    } else {
        Side::FromAbove
    }
}

pub fn bench_plain(number: u32, t: f64, p: f64, c: usize, side: u32) -> f64
    ensures { result ≡ found_density (plain_from number t p c side) }
{
    found_density(plain(number, t, p, c, side_of(side)))
}

pub fn bench_plain_code(number: u32, t: f64, p: f64, c: usize, side: u32) -> u32
    ensures { result ≡ answer_code_of (plain_from number t p c side) }
{
    answer_code(plain(number, t, p, c, side_of(side)))
}

pub fn bench_plain_word(number: u32, t: f64, p: f64, c: usize, side: u32) -> u64
    ensures { result ≡ found_word_of (plain_from number t p c side) }
{
    found_word(plain(number, t, p, c, side_of(side)))
}

// 0 where the lists are ready, else the refusal's number.
pub fn bench_prepare(number: u32, t: f64, c: usize, greatest: &mut [f64], least: &mut [f64]) -> u32
    ensures { (result ≡ answer_code_of (prepare_by number t c greatest.old least.old))
        × (greatest.new ≡ greatest_by number t c greatest.old least.old)
        × (least.new ≡ least_by number t c greatest.old least.old) }
{
    answer_code(prepare(number, t, c, greatest, least))
}

pub fn bench_quick(
    number: u32,
    t: f64,
    p: f64,
    c: usize,
    side: u32,
    greatest: &[f64],
    least: &[f64],
) -> f64
    ensures { result ≡ found_density (quick_from number t p c side greatest.now least.now) }
{
    found_density(quick(number, t, p, c, side_of(side), greatest, least))
}

pub fn bench_quick_code(
    number: u32,
    t: f64,
    p: f64,
    c: usize,
    side: u32,
    greatest: &[f64],
    least: &[f64],
) -> u32
    ensures { result ≡ answer_code_of (quick_from number t p c side greatest.now least.now) }
{
    answer_code(quick(number, t, p, c, side_of(side), greatest, least))
}

pub fn bench_quick_word(
    number: u32,
    t: f64,
    p: f64,
    c: usize,
    side: u32,
    greatest: &[f64],
    least: &[f64],
) -> u64
    ensures { result ≡ found_word_of (quick_from number t p c side greatest.now least.now) }
{
    found_word(quick(number, t, p, c, side_of(side), greatest, least))
}
