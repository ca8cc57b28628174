// The ranges of a fluid's entry worked as intervals, and the computed tests that an entry passes: theorems alone, in proofs/.
#![tactic(auto)]
