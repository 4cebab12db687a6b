// What a text of rows says, and what is read of it byte by byte. No code: definitions and theorems.
#![tactic(auto)]

use line_reading::Line;

// Where the reading stands: how much of the mark EF BB BF has come (3 behind it), whether a carriage return is held back, the number of the line
// that is being read or has the fault, the first of the blank lines right above it (0 for none), the columns (0 before the first line), how many rows
// were put and how many numbers these are, the fault (0 for none) and its column, and what is known of the line.
#[derive(Clone, Copy)]
pub struct Reader {
    pub mark: u32,
    pub held: bool,
    pub line: u64,
    pub blank: u64,
    pub columns: usize,
    pub rows: usize,
    pub put: usize,
    pub fault: u32,
    pub column: usize,
    pub here: Line,
    pub label: usize,
}

pub const UNEVEN: u32 = 4;

pub const TOO_MANY_ROWS: u32 = 5;

pub const TABLE_SHORT: u32 = 6;

pub const NO_ROWS: u32 = 8;

pub const MOST_ROWS: usize = 1_048_576;
