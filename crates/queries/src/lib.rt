// What is asked about, as the numbers of one query or of several: rows, or the row that has a label.
#![tactic(auto)]

ghost use Rattle.std.specs.Prelude.{◌*◌, ◌<◌, ◌≤◌, length, IfOk, ◌≡◌};
ghost use Rattle.limits.specs.Limits.{max_columns};
ghost use Rattle.measure.specs.Table.{row as Table·row};
ghost use Rattle.std.proofs.Math.Seq.{paste};

use asking::pieces::piece_at;
use asking::word_number::number;
use row_distances::row_of;

// As many queries as a question may have, and the numbers that these are at most.
pub const MOST_QUERIES: usize = 64;

pub const QUERY_ROOM: usize = 1_024;

// What is wrong with the rows or the values.
#[derive(Clone, Copy)]
pub enum Fault {
    // The text has no such row.
    NoRow(usize),
    // Neither a row, values nor what one row has.
    NotARow,
    TooManyRows,
    // This value, from 1 on, is more than a table holds.
    NotAValue(usize),
    // So many values are there, or from this one on there are more than columns.
    TooFewValues(usize),
    // So many rows have the label, and one is needed.
    NotOne(usize),
    NoLabel,
    // This value, from 1 on, is more than a circle has.
    OffCircle(usize),
}

// Puts the numbers of a row of c columns at query i.
fn put_row(table: &[u16], c: usize, n: usize, row: usize, queries: &mut [u16], i: usize)
    requires { (row < n) × (c * n ≤ length table.now) × (c ≤ max_columns) × (i ≤ 63) × (length queries.old ≡ 1024) }
    ensures { queries.new ≡ paste queries.old (c * i) (Table·row table.now c row) c }
{
    let from = row_of(table, c, row);
    let at = c * i;
    queries[at..at + c].copy_from_slice(from);
}

// Puts the row that a word says at query i.
fn put_said(
    table: &[u16],
    c: usize,
    n: usize,
    word: &[u8],
    queries: &mut [u16],
    i: usize,
) -> Result<(), Fault>
    requires { (c * n ≤ length table.now) × (c ≤ max_columns) × (length queries.old ≡ 1024) × (i ≤ 63) }
{
    let row = number(word).ok_or(Fault::NotARow)? as usize;
    if n <= row {
        return Err(Fault::NoRow(row));
    }
    put_row(table, c, n, row, queries, i);
    Ok(())
}

// Puts the rows of a list, parted by commas. Gives how many.
pub fn put_rows(
    table: &[u16],
    c: usize,
    n: usize,
    list: &[u8],
    queries: &mut [u16],
) -> Result<usize, Fault>
    requires { (c * n ≤ length table.now) × (c ≤ max_columns) × (length queries.old ≡ 1024) }
    ensures { IfOk result (λ count. count ≤ 64) }
{
    for i in 0..MOST_QUERIES {
        let Some(item) = piece_at(list, b',', i) else {
            return Ok(i);
        };
        put_said(table, c, n, &list[item.start..item.end], queries, i)?;
    }
    match piece_at(list, b',', MOST_QUERIES) {
        Some(_) => Err(Fault::TooManyRows),
        None => Ok(MOST_QUERIES),
    }
}

// Puts the row that was found, if it is the only one. Gives how many are put.
pub fn put_only(
    table: &[u16],
    c: usize,
    n: usize,
    hits: usize,
    row: usize,
    queries: &mut [u16],
) -> Result<usize, Fault>
    requires { (c * n ≤ length table.now) × (c ≤ max_columns) × (length queries.old ≡ 1024) }
    ensures { IfOk result (λ count. count ≤ 64) }
{
    if hits != 1 {
        return Err(Fault::NotOne(hits));
    }
    if n <= row {
        return Err(Fault::NoRow(row));
    }
    put_row(table, c, n, row, queries, 0);
    Ok(1)
}

// The numbers from `start` up to `end`, as far as they are there.
pub fn numbers_part(t: &[u16], start: usize, end: usize) -> &[u16] {
    let to = end.min(t.len());
    let from = start.min(to);
    &t[from..to]
}

// How many numbers n rows of k columns are.
pub fn product(k: usize, n: usize) -> usize
    requires { (k ≤ 16) × (n ≤ 1048576) }
    ensures { (result ≡ k * n) × (result ≤ 16777216) }
{
    k * n
}
