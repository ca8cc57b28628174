// What bench/ times and tests call from C: each function hands on to the one of its name in the crate bench, under the same promise.
// Two functions for each name: theorems are about a library's functions, and an archive is not one. C has numbers for a fluid and a side, and each
// part of what a search found by a call of its own.
#![tactic(auto)]

ghost use Rattle.std.specs.Prelude.{◌≡◌, Err};
ghost use Rattle.exponentials.specs.Exp.{exp_of};
ghost use Rattle.logarithms.specs.Ln.{ln_of};
ghost use Rattle.roots.specs.Root.{root_of};
ghost use Rattle.refusals.specs.Code.{answer_code_of};
ghost use Rattle.inputs.specs.Numbered.{by_number};
ghost use Rattle.properties.specs.Calls.{pressure_of, entropy_of, isobaric_of, sound_speed_of};
ghost use Rattle.preparation.specs.Prepare.{prepare_by, greatest_by, least_by};
ghost use Rattle.outcomes.specs.Parts.{found_word_of};
ghost use Rattle.bench.specs.Doors.{number_of, found_density, side_of, plain_from, quick_from, total_of, isotherm_of};

#[unsafe(no_mangle)]
pub extern "C" fn bench_exp(x: f64) -> f64
    ensures { result ≡ exp_of x }
{
    bench::bench_exp(x)
}

#[unsafe(no_mangle)]
pub extern "C" fn bench_ln(x: f64) -> f64
    ensures { result ≡ ln_of x }
{
    bench::bench_ln(x)
}

#[unsafe(no_mangle)]
pub extern "C" fn bench_root(x: f64) -> f64
    ensures { result ≡ root_of x }
{
    bench::bench_root(x)
}

#[unsafe(no_mangle)]
pub extern "C" fn bench_pressure(number: u32, t: f64, rho: f64) -> f64
    ensures { result ≡ number_of (by_number Err number (λ F. pressure_of F t rho)) }
{
    bench::bench_pressure(number, t, rho)
}

#[unsafe(no_mangle)]
pub extern "C" fn bench_entropy(number: u32, t: f64, rho: f64) -> f64
    ensures { result ≡ number_of (by_number Err number (λ F. entropy_of F t rho)) }
{
    bench::bench_entropy(number, t, rho)
}

#[unsafe(no_mangle)]
pub extern "C" fn bench_isobaric(number: u32, t: f64, rho: f64) -> f64
    ensures { result ≡ number_of (by_number Err number (λ F. isobaric_of F t rho)) }
{
    bench::bench_isobaric(number, t, rho)
}

#[unsafe(no_mangle)]
pub extern "C" fn bench_sound_speed(number: u32, t: f64, rho: f64) -> f64
    ensures { result ≡ number_of (by_number Err number (λ F. sound_speed_of F t rho)) }
{
    bench::bench_sound_speed(number, t, rho)
}

// That sum for the fluid of a number, and a NaN where no fluid has it.
#[unsafe(no_mangle)]
pub extern "C" fn bench_isotherm(number: u32, t: f64, densities: &[f64]) -> f64
    ensures { result ≡ isotherm_of number t densities.now }
{
    bench::bench_isotherm(number, t, densities)
}

#[unsafe(no_mangle)]
pub extern "C" fn bench_plain(number: u32, t: f64, p: f64, c: usize, side: u32) -> f64
    ensures { result ≡ found_density (plain_from number t p c side) }
{
    bench::bench_plain(number, t, p, c, side)
}

#[unsafe(no_mangle)]
pub extern "C" fn bench_plain_code(number: u32, t: f64, p: f64, c: usize, side: u32) -> u32
    ensures { result ≡ answer_code_of (plain_from number t p c side) }
{
    bench::bench_plain_code(number, t, p, c, side)
}

#[unsafe(no_mangle)]
pub extern "C" fn bench_plain_word(number: u32, t: f64, p: f64, c: usize, side: u32) -> u64
    ensures { result ≡ found_word_of (plain_from number t p c side) }
{
    bench::bench_plain_word(number, t, p, c, side)
}

// 0 where the lists are ready, else the refusal's number.
#[unsafe(no_mangle)]
pub extern "C" fn bench_prepare(
    number: u32,
    t: f64,
    c: usize,
    greatest: &mut [f64],
    least: &mut [f64],
) -> u32
    ensures { (result ≡ answer_code_of (prepare_by number t c greatest.old least.old))
        × (greatest.new ≡ greatest_by number t c greatest.old least.old)
        × (least.new ≡ least_by number t c greatest.old least.old) }
{
    bench::bench_prepare(number, t, c, greatest, least)
}

#[unsafe(no_mangle)]
pub extern "C" fn bench_quick(
    number: u32,
    t: f64,
    p: f64,
    c: usize,
    side: u32,
    greatest: &[f64],
    least: &[f64],
) -> f64
    ensures { result ≡ found_density (quick_from number t p c side greatest.now least.now) }
{
    bench::bench_quick(number, t, p, c, side, greatest, least)
}

#[unsafe(no_mangle)]
pub extern "C" fn bench_quick_code(
    number: u32,
    t: f64,
    p: f64,
    c: usize,
    side: u32,
    greatest: &[f64],
    least: &[f64],
) -> u32
    ensures { result ≡ answer_code_of (quick_from number t p c side greatest.now least.now) }
{
    bench::bench_quick_code(number, t, p, c, side, greatest, least)
}

#[unsafe(no_mangle)]
pub extern "C" fn bench_quick_word(
    number: u32,
    t: f64,
    p: f64,
    c: usize,
    side: u32,
    greatest: &[f64],
    least: &[f64],
) -> u64
    ensures { result ≡ found_word_of (quick_from number t p c side greatest.now least.now) }
{
    bench::bench_quick_word(number, t, p, c, side, greatest, least)
}
