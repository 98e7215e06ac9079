// What tests of conditions show: laws of Bool alone, no code.
#![tactic(auto)]
