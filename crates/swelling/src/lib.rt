// Several rows put into an index, one after the other, and all at once: definitions and laws alone.
#![tactic(auto)]
