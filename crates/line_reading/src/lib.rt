// What is read in one line of a text of rows: what is known of its fields so far, and where its reader stands. No code: definitions and theorems.
#![tactic(auto)]

// In a field in which nothing stands yet, in a number, in one that is too great, in a field that is no number, behind a field, or in one in which
// only quotes stand yet.
#[derive(Clone, Copy)]
pub enum Place {
    Open,
    Inside(u16),
    Great,
    Strange,
    Behind,
    Quoted,
}

// What is wrong (0: nothing), and in which column.
#[derive(Clone, Copy)]
pub struct Trouble {
    pub kind: u32,
    pub column: usize,
}

// The place, whether a field began with a digit, a sign or a point, how many fields have ended (17 for more than 16), their numbers, and the first
// thing that is wrong with them as numbers and as names. The label's column (from 1; 0: there is none) may hold anything but nothing.
#[derive(Clone, Copy)]
pub struct Line {
    pub place: Place,
    pub figure: bool,
    pub count: usize,
    pub row: [u16; 16],
    pub numbers: Trouble,
    pub names: Trouble,
    pub label: usize,
}

pub const NOT_A_NUMBER: u32 = 1;

pub const TOO_GREAT: u32 = 2;

pub const TOO_WIDE: u32 = 3;

pub const EMPTY: u32 = 7;

pub const WIDEST: usize = 16;
