// A promise allows one outcome for each input: theorems over the contracts of all public calls, in proofs/.
#![tactic(auto)]
