#![tactic(auto)]

// What a card carries, beside demand 3: stated in specs/Carrying.antt, its theorem is in proofs/Carrying.antt.
