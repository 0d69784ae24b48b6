// Words and laws that are about no mesh. This room has no function: others cite its specs/ and proofs/.
#![tactic(auto)]
