#![tactic(auto)]

// Demand 3, and what a card carries, about the calls themselves: stated in specs/, Chain.antt and Carrying.antt, from what each call promises; the theorems are in the files of the same names in proofs/.
