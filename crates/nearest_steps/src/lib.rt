// A nearest search, step by step: what it is asked, what it knows between two steps, what a row that is measured and an item that is taken do to that, and
// how it begins and ends. The work stands in specs/ and proofs/; the search cites it.
#![tactic(auto)]
