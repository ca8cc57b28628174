// The quick search over lists that are kept while the fluid and the bits of the temperature stay the same.
ghost use Rattle.std.specs.Prelude.{◌≡◌};
ghost use Rattle.std.specs.Float.{binary64};
ghost use Rattle.std.specs.Float.Ieee.{of_bits};
ghost use Rattle.fluids.specs.Entries.{fluid_numbered};
ghost use Rattle.probe_replies.specs.Question.{quick_answer};
ghost use Rattle.probe_replies.specs.Serving.{ServesAt};

use density::quick;
use outcomes::found_answer;
use preparation::prepare;
use probe_calls::own_top;
use refusals::Answer;
use search::Side;
use words::number;

// What lists are prepared for: the fluid of a number, at the temperature of the bits.
#[derive(Clone, Copy, PartialEq, Eq)]
struct Isotherm {
    fluid: u32,
    bits: u64,
}

// Two lists with room for the pressures at the ends of the most cells that a fluid has, and what they are prepared for, which they serve.
#[derive(Drop)]
pub(crate) struct Lists {
    kept: Isotherm,
    greatest: [f64; 2049],
    least: [f64; 2049],
    ghost serving: { ServesAt kept.fluid kept.bits greatest least },
}

impl Lists {
    // Any lists serve a number that no fluid has: a search is refused before it looks at them. So they always serve something, and no Option has to
    // say that they do not yet.
    pub(crate) fn new() -> Lists {
        let kept = Isotherm {
            fluid: u32::MAX,
            bits: 0,
        };
        Lists {
            kept,
            greatest: [0.0; 2049],
            least: [0.0; 2049],
        }
    }

    // Prepares them where they serve another fluid or temperature; they stay as they are where no fluid has the number.
    fn prepare_for(&mut self, asked: Isotherm)
        ensures { self.new.kept ≡ asked }
    {
        if asked == self.kept {
            return;
        }
        let t = number(asked.bits);
        let c = own_top(asked.fluid);
        let _ = prepare(asked.fluid, t, c, &mut self.greatest, &mut self.least);
        self.kept = asked;
    }

    // The density alone at the temperature of the bits, up to the fluid's own top; or 17 and as the quick search refuses. What it shares with the plain
    // search's answer and word is `own_top`.
    pub(crate) fn quick_answer(&mut self, fluid: u32, bits: u64, p: f64, side: Side) -> Answer
        ensures { result ≡ quick_answer (fluid_numbered fluid) side (of_bits binary64 bits) p }
    {
        self.prepare_for(Isotherm { fluid, bits });
        let t = number(bits);
        let c = own_top(fluid);
        found_answer(quick(fluid, t, p, c, side, &self.greatest, &self.least))
    }
}
