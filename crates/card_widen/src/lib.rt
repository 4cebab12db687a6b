// An edition 1 card's index, widened into a lent room.
#![tactic(auto)]

pub mod widening;
