// What an index means, and what follows from it: all of the work stands in specs/ and proofs/.
#![tactic(auto)]
