// The shape test of an index on a card, in the image's bytes.
#![tactic(auto)]

pub mod shape;
