// Demand 3: no unwritten or discarded memory ever becomes visible.
// There is no code here; specs/ has the memory, the claim and the theorems as statements, proofs/ why they hold.
#![tactic(auto)]
