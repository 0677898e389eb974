// The message that document 01 fixes for a list and a ceiling. There is no code here.
#![tactic(auto)]
