// When is there no answer? Theorems about the calls of the other crates, proofs/; nothing here runs and nothing depends on it.
#![tactic(auto)]
