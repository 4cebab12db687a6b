// The workspace of a nearest search, n being the number of rows: what stands from n times each of these on. In front of all stands the frontier, a
// queue of at most n entries (a node or, from 2n on, a position, under its bound).
//
// The distance of each centre that is measured.
pub const DISTANCES: usize = 2;

// The answers, a queue of at most n entries.
pub const ANSWERS: usize = 3;

// The rows measured, in the order in which they were.
pub const MET: usize = 5;

// The workspace ends.
pub const END: usize = 6;
