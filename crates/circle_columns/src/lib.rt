// A column that shall be a circle: what is wrong with it, and its bit in the set.
#![tactic(auto)]

ghost use Rattle.std.specs.Prelude.{◌^◌, ◌<◌, ◌≤◌, cond, ◌≡◌};
ghost use Rattle.circle_columns.specs.Circles.{column_trouble_lem, counts};
ghost use Rattle.circle_columns.specs.Faults.{trouble_of};
ghost use Rattle.column_names.specs.Names.{told};
ghost use Rattle.std.specs.Int.Bits.{bit_or};

use column_names::{MOST_COLUMNS, NameFault};

// What is wrong with an item of a list of circles.
#[derive(Clone, Copy, PartialEq, Eq)]
pub enum CircleFault {
    // It says no column.
    Name(NameFault),
    // It is one more than can be named.
    TooMany,
    // Its column does not count.
    NotCounted,
}

// A column, from 1 on, is one of the k chosen.
fn is_chosen(chosen: [usize; MOST_COLUMNS], k: usize, column: usize) -> bool
    requires { (k ≤ 16) × (1 ≤ column) }
    ensures { result ≡ counts chosen k column }
{
    chosen[..k].contains(&(column - 1))
}

// What is wrong with a column, from 1 on, as a circle. One that a line can't have is none, or two.
#[tactic(auto, unfolding(crate::specs::Circles::column_trouble_lem))]
fn test_column(chosen: [usize; MOST_COLUMNS], k: usize, column: usize) -> Result<(), CircleFault>
    requires { k ≤ 16 }
    ensures { trouble_of result ≡ column_trouble_lem chosen k column }
{
    if column == 0 {
        return Err(CircleFault::Name(NameFault::NoColumn));
    }
    if MOST_COLUMNS < column {
        return Err(CircleFault::Name(NameFault::TwoColumns));
    }
    if is_chosen(chosen, k, column) {
        Ok(())
    } else {
        Err(CircleFault::NotCounted)
    }
}

// What is wrong, as a circle, with the column that a word said.
pub fn test_circle(
    chosen: [usize; MOST_COLUMNS],
    k: usize,
    said: Result<usize, NameFault>,
) -> Result<(), CircleFault>
    requires { k ≤ 16 }
    ensures { trouble_of result ≡ column_trouble_lem chosen k (told said) }
{
    match said {
        Ok(column) => test_column(chosen, k, column),
        Err(fault) => Err(CircleFault::Name(fault)),
    }
}

// The set with the bit of place j, if it is to be on.
pub fn with_bit(set: u32, on: bool, j: usize) -> u32
    requires { j < 16 }
    ensures { result ≡ cond on (bit_or set (2 ^ j)) set }
{
    if on { set | (1 << (j as u32)) } else { set }
}
