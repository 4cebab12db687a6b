// Which texts the listing program reads, and as what. No code: definitions and theorems.
#![tactic(auto)]

// Where a reader of the text stands: where a number must start, behind a newline, inside a number, or behind a byte that makes the text unreadable.
#[derive(Clone, Copy)]
pub enum Place {
    Start,
    Line,
    Inside(u16),
    Lost,
}
