// An index as a space of items, nodes and single positions, for the best-first search. The work stands in specs/ and proofs/; the search cites it.
#![tactic(auto)]
