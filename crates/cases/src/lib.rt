#![tactic(auto)]

// The bench cases, computed on the definitions: the table is specs/Table.antt, the theorem proofs/Agree.antt.
