// Both round trips of the house sheet, over what write_sheet and read_sheet ensure: the theorems stand in proofs/. There is no code here.
#![tactic(auto)]
