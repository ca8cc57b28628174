// 01, "Checked values": the proved cases, specs/Table.antt; that they hold, proofs/Cases.antt.
#![tactic(auto)]
