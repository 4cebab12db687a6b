// The columns that count: those that a question's list picks, each with its factor, or all.
#![tactic(auto)]

ghost use Rattle.std.specs.Prelude.{◌<◌, ◌≤◌, IfOk, IfSome};

use asking::pieces::{Piece, bytes_of, end_from, piece_at};
use asking::word_number::number;
use column_names::{MOST_COLUMNS, NameFault, column_said};

// A factor above this makes every number but 0 too great.
const MOST_FACTOR: u32 = 65_535;

// What is wrong with an item of the list.
#[derive(Clone, Copy, PartialEq, Eq)]
pub enum ItemFault {
    // It says no column.
    Name(NameFault),
    // Its factor is none.
    NoFactor,
    // Its column holds labels, and does not count.
    LabelCounts,
}

impl From<NameFault> for ItemFault {
    fn from(fault: NameFault) -> ItemFault {
        ItemFault::Name(fault)
    }
}

// Why no columns are chosen.
#[derive(Clone, Copy)]
pub enum ChoiceFault {
    // There are more than can be.
    TooMany,
    // An item of the list is wrong, which stands there.
    Item(ItemFault, Piece),
}

// How many columns are chosen, which (from 0), and their factors.
#[derive(Clone, Copy)]
pub struct Choice {
    pub k: usize,
    pub chosen: [usize; MOST_COLUMNS],
    pub factors: [u32; MOST_COLUMNS],
}

impl Choice {
    fn none() -> Choice
        ensures { result.k ≤ 16 }
    {
        Choice {
            k: 0,
            chosen: [0; MOST_COLUMNS],
            factors: [1; MOST_COLUMNS],
        }
    }

    // One column more, of 16 at most.
    fn put(&mut self, column: usize, factor: u32) -> Result<(), ChoiceFault>
        requires { self.old.k ≤ 16 }
        ensures { self.new.k ≤ 16 }
    {
        let k = self.k;
        if MOST_COLUMNS <= k {
            return Err(ChoiceFault::TooMany);
        }
        self.chosen[k] = column;
        self.factors[k] = factor;
        self.k = k + 1;
        Ok(())
    }
}

// The factor behind the star, 1 where there is no star.
fn factor_said(item: &[u8], star: usize) -> Option<u32>
    ensures { IfSome result (λ factor. factor < 10000000) }
{
    if star < item.len() {
        number(&item[star + 1..])
    } else {
        Some(1)
    }
}

// What an item says: a column, from 0 on, and its factor, behind a star if it has one.
fn item_said(names: &[u8], item: &[u8], c: usize, label: usize) -> Result<(usize, u32), ItemFault> {
    let star = end_from(item, b'*', 0);
    let column = column_said(names, &item[..star], c)?;
    if column == label {
        return Err(ItemFault::LabelCounts);
    }
    match factor_said(item, star) {
        Some(factor) if 1 <= factor && factor <= MOST_FACTOR => Ok((column - 1, factor)),
        _ => Err(ItemFault::NoFactor),
    }
}

// The columns of a list: names or numbers from 1, parted by commas, each with a factor behind a star if it has one. The column of labels (0: there is
// none) does not count.
pub fn choose_list(names: &[u8], list: &[u8], c: usize, label: usize) -> Result<Choice, ChoiceFault>
    ensures { IfOk result (λ choice. choice.k ≤ 16) }
{
    let mut choice = Choice::none();
    for i in 0..MOST_COLUMNS + 1 {
        if let Some(item) = piece_at(list, b',', i) {
            match item_said(names, bytes_of(list, item), c, label) {
                Ok((column, factor)) => choice.put(column, factor)?,
                Err(fault) => return Err(ChoiceFault::Item(fault, item)),
            }
        }
    }
    Ok(choice)
}

// All columns but the label's (from 1; 0: there is none).
pub fn choose_all(c: usize, label: usize) -> Result<Choice, ChoiceFault>
    ensures { IfOk result (λ choice. choice.k ≤ 16) }
{
    let mut choice = Choice::none();
    for i in 0..c {
        if i + 1 != label {
            choice.put(i, 1)?;
        }
    }
    Ok(choice)
}
