// What appending a row to the table means for its index, and that the full check accepts the outcome. The work stands in specs/ and proofs/.
#![tactic(auto)]
