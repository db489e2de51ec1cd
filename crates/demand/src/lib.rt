// Demand 3 of document 01 with wires added and pulled among the calls (document 02, [8]). No code.
#![tactic(auto)]
