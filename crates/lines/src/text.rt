// The text of a line, put together in fixed memory: each function puts its bytes at the end. `write!` would hand back an error at each step, where a
// line always has room; and digit by digit is how the definitions say a number (`digits_of`, `decimal_of`).
ghost use Rattle.std.specs.Prelude.{◌≡◌, List, [], ◌∷◌, ◌++◌, ℕ, ◌+◌, ◌≤◌, ◌<◌, length, take};
ghost use Rattle.lines.specs.Text.{glyph_of, digits_of, width_of, decimal_of};

use std::marker::Model;

// At most 64 bytes.
#[derive(Drop)]
pub(crate) struct Line {
    bytes: [u8; 64],
    end: usize,
}

impl Model for Line {
    ghost Value = { List ℕ };

    ghost view = { λ l. take l.end l.bytes };

    ghost invariant = { λ l. l.end ≤ 64 };
}

impl Line {
    pub(crate) fn new() -> Line
        ensures { result ≡ [] }
    {
        Line {
            bytes: [0; 64],
            end: 0,
        }
    }

    pub(crate) fn text(&self) -> &[u8]
        ensures { result.now ≡ self.now }
    {
        &self.bytes[..self.end]
    }

    pub(crate) fn put(&mut self, text: &[u8])
        requires { length self.old + length text.now ≤ 64 }
        ensures { self.new ≡ self.old ++ text.now }
    {
        let at = self.end;
        self.end += text.len();
        self.bytes[at..self.end].copy_from_slice(text);
    }

    pub(crate) fn put_byte(&mut self, b: u8)
        requires { length self.old < 64 }
        ensures { self.new ≡ self.old ++ b ∷ [] }
    {
        self.bytes[self.end] = b;
        self.end += 1;
    }

    // The last k digits of n, the highest first. By recursion, as the definition `digits_of` goes: the digits above the last one are put before it.
    pub(crate) fn put_digits(&mut self, base: u64, k: usize, n: u64)
        requires { (0 < base) × (base ≤ 16) × (length self.old + k ≤ 64) }
        ensures { self.new ≡ self.old ++ digits_of base k n }
    {
        if k > 0 {
            self.put_digits(base, k - 1, n / base);
            self.put_byte(glyph(n % base));
        }
    }

    #[tactic(auto, using(crate::proofs::Digits::width_small), unfolding(crate::specs::Text::decimal_of))]
    pub(crate) fn put_decimal(&mut self, n: u64)
        requires { length self.old + 20 ≤ 64 }
        ensures { self.new ≡ self.old ++ decimal_of n }
    {
        self.put_digits(10, width(n), n);
    }
}

#[tactic(auto, unfolding(crate::specs::Text::glyph_of))]
fn glyph(d: u64) -> u8
    requires { d < 16 }
    ensures { result ≡ glyph_of d }
{
    let digit = d as u8;
    if d < 10 { 48 + digit } else { 87 + digit }
}

// How many decimal digits n has, counted as the definition `width_of` counts them; `checked_ilog10` has no answer for 0.
fn width(n: u64) -> usize
    ensures { result ≡ width_of 19 n }
{
    let mut rest = n;
    for w in 1..20 {
        if rest < 10 {
            return w;
        }
        rest /= 10;
    }
    20
}
