// Byte strings, and the laws on lists and tests that more than one crate needs. There is no code here.
#![tactic(auto)]
