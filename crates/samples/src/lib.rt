// The reading by samples of document 01, demand 3 and the tail. No code.
#![tactic(auto)]
