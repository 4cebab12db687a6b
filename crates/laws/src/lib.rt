// What holds of any list or number. The work stands in specs/ and proofs/; the crates above cite it.
#![tactic(auto)]
