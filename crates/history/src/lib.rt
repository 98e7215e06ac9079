// Demand 3: definitions and theorems alone, no code.
#![tactic(auto)]
