// What a lent buffer is whose front is set to zero. Definitions and a law, and no code: `fill` of a slice does it.
#![tactic(auto)]
