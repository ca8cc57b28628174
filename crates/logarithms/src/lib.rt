// 01, "ln x". For formulas: one NaN where 01 owes refusal 12.
#![tactic(auto)]

ghost use Rattle.std.specs.Prelude.{◌≡◌, not, T};
ghost use Rattle.std.specs.Float.Ieee.{is_nan, of_int, lt, le};
ghost use Rattle.std.specs.Float.{binary64};
ghost use Rattle.arithmetic.specs.Checked.{squash as squash_of, real, ◌e-◌, ◌⊘◌};
ghost use Rattle.logarithms.specs.Ln.{m_field, m_of, e_of, ln_steps, ln_work, ln_of};

use arithmetic::{between, squash};

// x = m·2ᵉ with 0.75 ≤ m < 1.5; e is a whole number.
#[derive(Clone, Copy)]
struct Parts {
    m: f64,
    e: f64,
    ghost inside: { T (le (75 e- 2) m) × T (lt m (15 e- 1)) },
}

// The exponent's field under which the 52 digits stand for m.
fn m_field(digits: u64) -> u64
    ensures { result ≡ m_field digits }
{
    if digits < 2251799813685248 {
        1023
    } else {
        1022
    }
}

// m and e, read off x's bit pattern.
fn split(x: f64) -> Parts
    requires { T (not (is_nan x)) }
    ensures { (result.m ≡ m_of x) × (result.e ≡ of_int binary64 (e_of x)) }
{
    let bits = x.to_bits();
    let digits = bits % 4503599627370496;
    let field = bits / 4503599627370496 % 2048;
    let under = m_field(digits);
    let pattern = under * 4503599627370496 + digits;
    let m = f64::from_bits(pattern);
    let above = field as i64;
    let below = under as i64;
    let exponent = above - below;
    let e = exponent as f64;
    Parts { m, e }
}

// 1/n for n = 1, 3, .. 21, in the sheet's order (docs/LOGARITHM.md): each with the 64 bits that the division gives.
const RECIPROCALS: [f64; 11] = [
    1.0, // 1/1 3ff0000000000000
    0.3333333333333333, // 1/3 3fd5555555555555
    0.2, // 1/5 3fc999999999999a
    0.14285714285714285, // 1/7 3fc2492492492492
    0.1111111111111111, // 1/9 3fbc71c71c71c71c
    0.09090909090909091, // 1/11 3fb745d1745d1746
    0.07692307692307693, // 1/13 3fb3b13b13b13b14
    0.06666666666666667, // 1/15 3fb1111111111111
    0.058823529411764705, // 1/17 3fae1e1e1e1e1e1e
    0.05263157894736842, // 1/19 3faaf286bca1af28
    0.047619047619047616, // 1/21 3fa8618618618618
];

// H = 1/21; for n = 19, 17, .. 1, H = 1/n + s·H. The sheet's place k has 1/n for n = 2·k + 1.
fn steps(s: f64) -> f64
    ensures { squash_of result ≡ ln_steps (squash_of s) 10 (real 1 ⊘ real 21) }
{
    let mut h = RECIPROCALS[10];
    for k in (0..10).rev() {
        h = RECIPROCALS[k] + s * h;
    }
    h
}

// (2·z)·H + e·0.6931471805599453, with z = (m−1)/(m+1) and H the steps at z·z.
fn work(parts: Parts) -> f64
    ensures { squash_of result ≡ ln_work parts.m parts.e }
{
    let Parts { m, e } = parts;
    let z = (m - 1.0) / (m + 1.0);
    let h = steps(z * z);
    (2.0 * z) * h + e * 0.6931471805599453
}

// ln x for 2⁻⁶⁰ ≤ x ≤ 2⁶⁰, and a NaN elsewhere.
pub fn ln(x: f64) -> f64
    ensures { result ≡ ln_of x }
{
    if between(8.673617379884035e-19, x, 1152921504606846976.0) {
        squash(work(split(x)))
    } else {
        f64::NAN
    }
}
