// An opened node: the rows of a leaf, the centres of an inner one. Nothing here knows in which order nodes are visited.
#![tactic(auto)]

pub mod centres;
pub mod leaf;
