// The columns that are circles: those that a list names, as a set of the places among the chosen columns.
#![tactic(auto)]

ghost use Rattle.std.specs.Prelude.{◌≤◌, ◌≡◌};
ghost use Rattle.asking.specs.Pieces.{Stands};
ghost use Rattle.circle_columns.specs.Circles.{Bits, Circled, is_said_lem, item_trouble_lem, says};
ghost use Rattle.circle_columns.specs.Faults.{trouble_of};
ghost use Rattle.circling.specs.Wrong.{end_of, set_of_lem, start_of, wrong_of};

use asking::pieces::{Piece, bytes_of, piece_at};
use circle_columns::{CircleFault, test_circle, with_bit};
use column_names::{MOST_COLUMNS, NameFault, column_said};

// A list has at most this many items.
const MOST_ITEMS: usize = 16;

// What is wrong with an item, and where that stands in the list.
#[derive(Clone, Copy)]
pub struct WrongItem {
    pub fault: CircleFault,
    pub item: Piece,
}

// Item i says column j, from 0 on.
fn item_says(names: &[u8], c: usize, list: &[u8], j: usize, i: usize) -> bool
    ensures { result ≡ says names.now c list.now j i }
{
    let Some(item) = piece_at(list, b',', i) else {
        return false;
    };
    match column_said(names, bytes_of(list, item), c) {
        Ok(column) => column - 1 == j,
        Err(fault) => match fault {
            NameFault::NoColumn => false,
            // As in the definition, it says the column behind the last that there can be.
            NameFault::TwoColumns => j == MOST_COLUMNS,
        },
    }
}

// One of the items says column j, from 0 on.
fn is_said(names: &[u8], c: usize, list: &[u8], j: usize) -> bool
    ensures { result ≡ is_said_lem names.now c list.now j }
{
    let mut found = false;
    for i in 0..MOST_ITEMS {
        found |= item_says(names, c, list, j, i);
    }
    found
}

// Nothing is wrong with item i, which stands there, or what is.
fn test_item(
    names: &[u8],
    c: usize,
    list: &[u8],
    chosen: [usize; MOST_COLUMNS],
    k: usize,
    i: usize,
    item: Piece,
) -> Result<(), CircleFault>
    requires few { k ≤ 16 }
    requires there { Stands 44 list.now i item }
    ensures { trouble_of result ≡ item_trouble_lem names.now c list.now chosen k i }
{
    if MOST_ITEMS <= i {
        return Err(CircleFault::TooMany);
    }
    test_circle(chosen, k, column_said(names, bytes_of(list, item), c))
}

// The places whose columns an item says.
fn set_of(names: &[u8], c: usize, list: &[u8], chosen: [usize; MOST_COLUMNS], k: usize) -> u32
    requires { k ≤ 16 }
    ensures { Bits names.now c list.now chosen k result }
{
    let mut set = 0;
    for j in 0..k {
        set = with_bit(set, is_said(names, c, list, chosen[j]), j);
    }
    set
}

// The circles that a list names, by names or by numbers from 1 that commas part, among the k chosen columns of a text with c. Or the first item that is
// wrong.
pub fn circles_of(
    names: &[u8],
    c: usize,
    list: &[u8],
    chosen: [usize; MOST_COLUMNS],
    k: usize,
) -> Result<u32, WrongItem>
    requires { k ≤ 16 }
    ensures { Circled names.now c list.now chosen k (wrong_of result) (start_of result) (end_of result) (set_of_lem result) }
{
    for i in 0..MOST_ITEMS + 1 {
        if let Some(item) = piece_at(list, b',', i) {
            if let Err(fault) = test_item(names, c, list, chosen, k, i, item) {
                return Err(WrongItem { fault, item });
            }
        }
    }
    Ok(set_of(names, c, list, chosen, k))
}
