// The index words by place, and a node written.
#![tactic(auto)]

pub mod places;
pub mod writing;
