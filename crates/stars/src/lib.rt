// The cases that document 01 marks with a star and those that document 02 names, as one claim about the definitions. There is no code here.
#![tactic(auto)]
