// What a message carries: one collection for each transaction. There is no code here.
#![tactic(auto)]
