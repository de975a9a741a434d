#![tactic(auto)]

// The history rule: demand 3 is stated in specs/Claim.antt, its theorem is in proofs/Demand.antt. What a count answers is stated there too, its theorem is in proofs/Counting.antt; and proofs/Lasting.antt has what else holds after every list.
