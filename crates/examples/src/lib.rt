// P1 to P9 of the scope document: specs/ has the table, proofs/ that it holds.
#![tactic(auto)]
