// Rows that are withdrawn: a text of row numbers, one to a line, read into a set.
#![tactic(auto)]

ghost use Rattle.std.specs.Prelude.{take, ◌≡◌};
ghost use Rattle.withdrawing.specs.Told.{told};
ghost use Rattle.withdrawing.specs.Withdrawn.{Withdraws, set_words};

use orders::strike;
use row_lines::{LineFault, is_any_full, is_blank, row_in};
use set_refusals::{set_bad, words_for};
use text_lines::{line_at, next_line, text_start};

// What is wrong with the rows that are withdrawn.
#[derive(Clone, Copy, PartialEq, Eq)]
pub enum Fault {
    // The set is none of so many rows.
    NoSet,
    // This line, from 1 on.
    Line(usize, LineFault),
}

// Withdraws the rows that the lines of a text say, of n rows.
pub fn withdraw(t: &[u8], n: usize, set: &mut [u32]) -> Result<(), Fault>
    ensures { Withdraws t.now n set.old set.new (told result).0 (told result).1 }
{
    if set_bad(set, n) {
        return Err(Fault::NoSet);
    }
    let mut at = text_start(t);
    let mut i = 0;
    while at < t.len() {
        let line = line_at(t, at);
        if is_blank(line) {
            if is_any_full(t, at, i) {
                return Err(Fault::Line(i + 1, LineFault::Blank));
            }
            return Ok(());
        }
        match row_in(line, n) {
            // The set is right and the row is one of n, so that the order is not refused.
            Ok(row) => {
                let _ = strike(set, n, row);
            }
            Err(fault) => return Err(Fault::Line(i + 1, fault)),
        }
        at = next_line(t, at);
        i += 1;
    }
    Ok(())
}

// The same in a room whose first words are the set of n rows, as far as it has them.
pub fn withdraw_in(t: &[u8], n: usize, room: &mut [u32]) -> Result<(), Fault>
    ensures { Withdraws t.now n (take (set_words n room.old) room.old)
        (take (set_words n room.old) room.new) (told result).0 (told result).1 }
{
    let words = words_for(n).min(room.len());
    withdraw(t, n, &mut room[..words])
}
