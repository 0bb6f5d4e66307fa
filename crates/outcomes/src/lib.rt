// The inputs alone decide: of each public function of the libraries, two outcomes that its contract permits are equal. There is no code here.
#![tactic(auto)]
