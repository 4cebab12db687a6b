// What is to be done once the text is read and the question is understood.
use asking::Way;

// Where answers go and where all else; what is asked for and its number; how answers are shown; how long the text is, where the first row's line
// starts, and whether names stand before it; the column of labels (0: none); which places of the chosen columns are circles; the chosen columns, the
// rows, how many numbers of the table these are; how many queries there are, and how many numbers these are.
#[derive(Clone, Copy)]
pub struct Plan {
    pub out: i32,
    pub err: i32,
    pub way: Way,
    pub number: u32,
    pub by_distance: bool,
    pub count: bool,
    pub csv: bool,
    pub lines: bool,
    pub length: usize,
    pub from: usize,
    pub names: bool,
    pub label: usize,
    pub circles: u32,
    pub k: usize,
    pub n: usize,
    pub used: usize,
    pub queries: usize,
    pub asked: usize,
}

impl Plan {
    // Answers show something of the text: their lines, or their labels.
    pub(crate) fn shows_text(&self) -> bool {
        self.lines || self.label != 0
    }

    // What stands between two fields of an answer.
    pub(crate) fn parting(&self) -> u8 {
        if self.csv { b',' } else { b' ' }
    }
}
