// What is promised of several entries together. There is no code here: specs/ says it and proofs/ shows it.
#![tactic(auto)]
