// What the check promises; that any two outcomes that it allows are the same; demand 2. There is no code here.
#![tactic(auto)]
