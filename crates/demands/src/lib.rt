// The customer's three demands, of what the operations answer and leave behind: claims (specs/Demands) and their proof (proofs/Hold). No code.
#![tactic(auto)]
