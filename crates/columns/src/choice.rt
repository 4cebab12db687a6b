// Which products are too great, and the table of the chosen columns.
ghost use Rattle.std.specs.Prelude.{ℕ, ◌*◌, ◌+◌, ◌<◌, ◌≤◌, drop, length, take, unwrap_or, EachIndex, slice_index, IfSome, IsTrue, MatchResult, ◌↔◌, ◌++◌, ◌≡◌};
ghost use Rattle.column_products.specs.Chosen.{Choice, Small, SmallRows, chosen_row_lem, chosen_table, fitting, over_in, over_row};
ghost use Rattle.columns.specs.Unchosen.{NamesProduct};

use crate::Unchosen;
use column_products::{most, product};
use limits::{Params, is_within};
use row_distances::row_of;

// Each of the chosen columns is one of c.
fn are_inside(chosen: &[usize], c: usize) -> bool
    ensures { IsTrue result ↔ EachIndex chosen.now (λ j. slice_index chosen.now j < c) }
{
    chosen.iter().all(|column| *column < c)
}

// The k chosen columns can be taken of n rows of c columns.
pub fn fits(length: usize, c: usize, n: usize, chosen: [usize; 16], k: usize) -> bool
    ensures { result ≡ fitting length c n chosen k }
{
    is_within(1, Params::MOST_COLUMNS, c)
        && is_within(1, c, k)
        && n <= length / c
        && are_inside(&chosen[..k], c)
}

// The place of the first chosen column whose product is too great.
pub fn first_over(
    row: &[u16],
    circles: u32,
    chosen: [usize; 16],
    factors: [u32; 16],
    k: usize,
) -> Option<usize>
    requires { Choice (length row.now) chosen k }
    ensures place { unwrap_or result k ≡ over_in row.now circles chosen factors k }
    ensures chosen_one { IfSome result (λ j. j < k) }
{
    for j in 0..k {
        if u64::from(most(circles, j)) < product(row[chosen[j]], factors[j]) {
            return Some(j);
        }
    }
    None
}

// No row has a product that is too great, or the first such product is named.
pub fn test_products(
    table: &[u16],
    c: usize,
    n: usize,
    circles: u32,
    chosen: [usize; 16],
    factors: [u32; 16],
    k: usize,
) -> Result<(), Unchosen>
    requires choice { Choice c chosen k }
    requires room { c * n ≤ length table.now }
    ensures { MatchResult result (λ _. n ≤ over_row table.now c circles chosen factors k n) (NamesProduct table.now c n circles chosen factors k) }
{
    for i in 0..n {
        if let Some(j) = first_over(row_of(table, c, i), circles, chosen, factors, k) {
            return Err(Unchosen::TooGreat { row: i, column: j });
        }
    }
    Ok(())
}

// The chosen columns of a row, times their factors.
fn chosen_row(row: &[u16], chosen: [usize; 16], factors: [u32; 16], k: usize) -> [u16; 16]
    requires choice { Choice (length row.now) chosen k }
    requires small { Small row.now chosen factors k }
    ensures { (length result ≡ 16) × (take k result ≡ chosen_row_lem row.now chosen factors k) }
{
    let mut out: [u16; 16] = [0; 16];
    for j in 0..k {
        out[j] = product(row[chosen[j]], factors[j]) as u16;
    }
    out
}

// The table of the chosen columns: what is written never reaches a row that is still to be read, since k is at most c.
pub fn choose_rows(
    table: &mut [u16],
    c: usize,
    n: usize,
    chosen: [usize; 16],
    factors: [u32; 16],
    k: usize,
)
    requires choice { Choice c chosen k }
    requires narrow { k ≤ c }
    requires room { c * n ≤ length table.old }
    requires small { SmallRows table.old c chosen factors k n }
    ensures { table.new ≡ chosen_table table.old c chosen factors k n ++ drop (k * n) table.old }
{
    let mut at = 0;
    for i in 0..n {
        let row = chosen_row(row_of(table, c, i), chosen, factors, k);
        table[at..at + k].copy_from_slice(&row[..k]);
        at += k;
    }
}
