// The blocks of an image: a word and its four bytes, and the check word.
#![tactic(auto)]

pub mod check;
pub mod word;
