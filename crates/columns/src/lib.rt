// The columns of a table: those that a question is about, each with a factor. They become a table of their own, so that the library and its theorems
// know nothing of factors.
#![tactic(auto)]

ghost use Rattle.column_products.specs.Chosen.{Chooses};
ghost use Rattle.columns.specs.Unchosen.{outcome};

use crate::choice::{choose_rows, fits, test_products};

pub mod choice;

// Why no columns are chosen.
#[derive(Clone, Copy, PartialEq, Eq)]
pub enum Unchosen {
    // The choice is none: as many columns can be chosen as there are, and one at least.
    NoChoice,
    // A product is above 65,535, or above 3,599 in a circle: the first such row, and the place of its first such column among the chosen.
    TooGreat { row: usize, column: usize },
}

// In place, row after row: of each of the n rows the k chosen columns, in the order chosen, each times its factor. The set of circles
// is of places among the chosen. All products are tried before anything is written, so that a refusal changes nothing.
pub fn choose(
    table: &mut [u16],
    c: usize,
    n: usize,
    circles: u32,
    chosen: [usize; 16],
    factors: [u32; 16],
    k: usize,
) -> Result<(), Unchosen>
    ensures { Chooses table.old table.new c n circles chosen factors k (outcome result).0 (outcome result).1 (outcome result).2 }
{
    if !fits(table.len(), c, n, chosen, k) {
        return Err(Unchosen::NoChoice);
    }
    test_products(table, c, n, circles, chosen, factors, k)?;
    choose_rows(table, c, n, chosen, factors, k);
    Ok(())
}
