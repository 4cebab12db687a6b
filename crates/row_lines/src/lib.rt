// A line of a text of row numbers, one to a line: it is blank, or says a row.
#![tactic(auto)]

ghost use Rattle.std.specs.Prelude.{◌<◌, ◌≤◌, length, IfOk, MatchOption, ◌≡◌};
ghost use Rattle.row_lines.specs.Lines.{any_full, is_blank_lem, line_says, past_blanks_lem, place_of};
ghost use Rattle.row_lines.specs.Rows.{row_trouble_lem, trouble_of};

use asking::pieces::{end_from, part};
use asking::word_number::number;
use text_lines::{line_at, next_line};

// What is wrong with a line.
#[derive(Clone, Copy, PartialEq, Eq)]
pub enum LineFault {
    // It says no number.
    NotANumber,
    // Its number is that of no row.
    NoRow,
    // It is blank above one that is not.
    Blank,
}

// The first place from `at` on whose byte is no blank; the line's end where there is none.
fn past_blanks(line: &[u8], at: usize) -> usize
    requires { at ≤ length line.now }
    ensures { (result ≡ past_blanks_lem line.now at) × (result ≤ length line.now) }
{
    for i in at..line.len() {
        if line[i] != b' ' {
            return i;
        }
    }
    line.len()
}

// The line is blanks alone.
pub fn is_blank(line: &[u8]) -> bool
    ensures { result ≡ is_blank_lem line.now }
{
    past_blanks(line, 0) == line.len()
}

// The number that the line's only word says.
pub fn said_in(line: &[u8]) -> Option<u32>
    ensures { MatchOption result (10000000 ≡ line_says line.now) (λ v. (v ≡ line_says line.now) × (v < 10000000)) }
{
    let start = past_blanks(line, 0);
    let end = end_from(line, b' ', start);
    if past_blanks(line, end) < line.len() {
        return None;
    }
    number(part(line, start, end))
}

// The row, of n rows, that the line says.
pub fn row_in(line: &[u8], n: usize) -> Result<usize, LineFault>
    ensures trouble { trouble_of result ≡ row_trouble_lem n (line_says line.now) }
    ensures row { IfOk result (λ v. (v ≡ line_says line.now) × (v < n)) }
{
    let Some(said) = said_in(line) else {
        return Err(LineFault::NotANumber);
    };
    let row = said as usize;
    if row < n {
        Ok(row)
    } else {
        Err(LineFault::NoRow)
    }
}

// Line i, which starts at `from`, or one below it is not blank.
pub fn is_any_full(t: &[u8], from: usize, i: usize) -> bool
    requires { (from ≡ place_of t.now i) × (from ≤ length t.now) × (i ≤ from) }
    ensures { result ≡ any_full t.now i }
{
    let mut at = from;
    while at < t.len() {
        if !is_blank(line_at(t, at)) {
            return true;
        }
        at = next_line(t, at);
    }
    false
}
