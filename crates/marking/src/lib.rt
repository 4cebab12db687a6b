// What a radius search leaves: how-bytes, and a list of the rows that are in.
#![tactic(auto)]

pub mod row;
