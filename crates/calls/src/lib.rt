// What each call answers and leaves: definitions and laws alone, no code.
#![tactic(auto)]
