// A text is read as a sheet exactly if it is the sheet of a sound table: the theorems stand in proofs/. There is no code here.
#![tactic(auto)]
