// Intervals with binary64 ends, and what they show of exp, ln, root and powers: theorems alone, over any formula, in proofs/.
#![tactic(auto)]
