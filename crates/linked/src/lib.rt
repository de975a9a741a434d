#![tactic(auto)]

// Demand 3, and what a card carries, about the calls of the C interface: stated in specs/, Linked.antt and Carrying.antt, from what each promises; the theorems are in the files of the same names in proofs/.
