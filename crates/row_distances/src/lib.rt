// A row of the lent table, and the distance of two rows measured where they stand.
#![tactic(auto)]

ghost use Rattle.std.specs.Prelude.{◌*◌, ◌+◌, ◌<◌, ◌≤◌, length, ◌≡◌};
ghost use Rattle.limits.specs.Limits.{max_columns, max_distance};
ghost use Rattle.measure.specs.Distance.{l1};
ghost use Rattle.measure.specs.Table.{between, from, row};
ghost use Rattle.measure.specs.Turns.{turn_of};

use numbers::{differ, shorter};

// Row i of a table of c columns: the part of the caller's table that it is.
pub fn row_of(table: &[u16], c: usize, i: usize) -> &[u16]
    requires { c * i + c ≤ length table.now }
    ensures { (result.now ≡ row table.now c i) × (length result.now ≡ c) }
{
    let start = c * i;
    &table[start..start + c]
}

// ---- two rows

// How many go round in column j. A column that is no circle has so wide a turn that the way round is never the shorter: one sum serves both kinds of
// column, without a branch.
fn turn(circles: u32, j: usize) -> u32
    requires { j < max_columns }
    ensures { result ≡ turn_of circles j }
{
    131_070 - 127_470 * ((circles >> j) % 2)
}

// The distance of two rows over their first c columns, from that over the first `from`, where none is a circle.
pub fn columns(a: &[u16], b: &[u16], before: u32, from: usize, c: usize) -> u32
    requires c_in_bounds { (c ≤ length a.now) × (c ≤ length b.now) × (c ≤ max_columns) }
    requires from_le_c { (from ≤ c) × (before ≤ 65535 * from) × (before ≡ l1 from 0 a.now b.now) }
    ensures { (result ≡ l1 c 0 a.now b.now) × (result ≤ 65535 * c) }
{
    let mut sum = before;
    for i in from..c {
        sum += differ(a[i], b[i]);
    }
    sum
}

// The same by the set of the columns that are circles.
pub fn round_columns(a: &[u16], b: &[u16], circles: u32, before: u32, from: usize, c: usize) -> u32
    requires c_in_bounds { (c ≤ length a.now) × (c ≤ length b.now) × (c ≤ max_columns) }
    requires from_le_c { (from ≤ c) × (before ≤ 65535 * from) × (before ≡ l1 from circles a.now b.now) }
    ensures { (result ≡ l1 c circles a.now b.now) × (result ≤ 65535 * c) }
{
    let mut sum = before;
    for i in from..c {
        sum += shorter(turn(circles, i), a[i], b[i]);
    }
    sum
}

// The distance of two rows that have no circle. Four to six columns, which questions about a minute have, come first: a loop to a constant is
// compiled without a loop. Each takes the sum of the one before, so that all of it is small enough to stand where it is called.
pub fn plain(a: &[u16], b: &[u16]) -> u32
    requires { (length a.now ≡ length b.now) × (length a.now ≤ max_columns) }
    ensures { (result ≡ l1 (length a.now) 0 a.now b.now) × (result ≤ max_distance) }
{
    let c = a.len();
    if 4 <= c && c <= 6 {
        let four = columns(a, b, 0, 0, 4);
        if c == 4 {
            return four;
        }
        let five = columns(a, b, four, 4, 5);
        if c == 5 {
            return five;
        }
        return columns(a, b, five, 5, 6);
    }
    columns(a, b, 0, 0, c)
}

// The same for more than six columns. Sixteen, the most there can be, are compiled without a loop too. That is too large to stand where
// it is called, and so it is not in the way of the few columns' code.
pub fn many(a: &[u16], b: &[u16]) -> u32
    requires { (length a.now ≡ length b.now) × (length a.now ≤ max_columns) }
    ensures { (result ≡ l1 (length a.now) 0 a.now b.now) × (result ≤ max_distance) }
{
    let c = a.len();
    if c == 16 {
        return columns(a, b, 0, 0, 16);
    }
    columns(a, b, 0, 0, c)
}

// The distance of two rows by the set of their circles. Six columns, the analyst's own, are compiled without a loop.
pub fn rounded(a: &[u16], b: &[u16], circles: u32) -> u32
    requires { (length a.now ≡ length b.now) × (length a.now ≤ max_columns) }
    ensures { (result ≡ l1 (length a.now) circles a.now b.now) × (result ≤ max_distance) }
{
    let c = a.len();
    if c == 6 {
        return round_columns(a, b, circles, 0, 0, 6);
    }
    round_columns(a, b, circles, 0, 0, c)
}

// The distance of two rows that have circles, or more than six columns: so that one call stands for both where rows are measured.
fn rounded_or_many(a: &[u16], b: &[u16], circles: u32) -> u32
    requires { (length a.now ≡ length b.now) × (length a.now ≤ max_columns) }
    ensures { (result ≡ l1 (length a.now) circles a.now b.now) × (result ≤ max_distance) }
{
    if circles != 0 {
        return rounded(a, b, circles);
    }
    many(a, b)
}

// The distance of two rows. Those that have no circle take the plain sums, behind one test a row.
pub fn distance(a: &[u16], b: &[u16], circles: u32) -> u32
    requires { (length a.now ≡ length b.now) × (length a.now ≤ max_columns) }
    ensures { (result ≡ l1 (length a.now) circles a.now b.now) × (result ≤ max_distance) }
{
    if (circles == 0) & (a.len() <= 6) {
        return plain(a, b);
    }
    rounded_or_many(a, b, circles)
}

// ---- rows of a table

// The distance of rows i and j.
pub fn row_distance(table: &[u16], c: usize, circles: u32, i: usize, j: usize) -> u32
    requires { (c ≤ max_columns) × (c * i + c ≤ length table.now) × (c * j + c ≤ length table.now) }
    ensures { (result ≡ between table.now c circles i j) × (result ≤ max_distance) }
{
    let a = row_of(table, c, i);
    let b = row_of(table, c, j);
    if (circles == 0) & (c <= 6) {
        return plain(a, b);
    }
    rounded_or_many(a, b, circles)
}

// The distance of a query from row i.
pub fn query_distance(table: &[u16], c: usize, circles: u32, query: &[u16], i: usize) -> u32
    requires { (c ≤ max_columns) × (c * i + c ≤ length table.now) × (length query.now ≡ c) }
    ensures { (result ≡ from table.now c circles query.now i) × (result ≤ max_distance) }
{
    let b = row_of(table, c, i);
    if (circles == 0) & (c <= 6) {
        return plain(query, b);
    }
    rounded_or_many(query, b, circles)
}
