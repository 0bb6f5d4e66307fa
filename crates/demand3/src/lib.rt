// Demand 3 over what decode, make_list and cost ensure: the theorems stand in proofs/. There is no code here.
#![tactic(auto)]
