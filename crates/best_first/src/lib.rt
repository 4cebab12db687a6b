// Best-first search over any space of items. The work stands in specs/ and proofs/; the nearest search cites it.
#![tactic(auto)]
