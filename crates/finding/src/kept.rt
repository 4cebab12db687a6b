// The rows that are marked, kept with their distances in row order.
ghost use Rattle.std.specs.Prelude.{◌≤◌, length};

use row_distances::distance;

// No distance is as great.
const FAR: u32 = u32::MAX;

// The library's limit.
const MOST_ROWS: usize = 1_048_576;

// The distance of two rows of the same columns.
fn apart(a: &[u16], b: &[u16], circles: u32) -> u32 {
    if a.len() != b.len() || 16 < a.len() {
        return FAR;
    }
    distance(a, b, circles)
}

// Where the row of c columns behind place `at` ends; the end where there is none. The rows are walked by this, and not by `chunks`, which asks for a
// column at least: no contract here promises one.
fn row_end(length: usize, at: usize, c: usize) -> usize
    requires { at ≤ length }
    ensures { (at ≤ result) × (result ≤ length) }
{
    if length - at < c {
        return length;
    }
    at + c
}

// The least distance of a row from the queries, one of c numbers after the other.
fn least_distance(row: &[u16], c: usize, circles: u32, queries: &[u16], count: usize) -> u32 {
    let mut least = FAR;
    let mut at = 0;
    for _ in 0..count {
        let end = row_end(queries.len(), at, c);
        least = least.min(apart(row, &queries[at..end], circles));
        at = end;
    }
    least
}

// Keeps a row with its distance behind those that are kept, if it is marked and there is room. Gives how many are kept then.
fn keep_row(
    row: usize,
    mark: u8,
    distance: u32,
    rows: &mut [u32],
    distances: &mut [u32],
    kept: usize,
) -> usize
    requires { (kept ≤ length rows.old) × (kept ≤ length distances.old) × (row ≤ 1048576) }
    ensures { (result ≤ length rows.old) × (result ≤ length distances.old) }
{
    if mark != 1 || rows.len() <= kept || distances.len() <= kept {
        return kept;
    }
    rows[kept] = row as u32;
    distances[kept] = distance;
    kept + 1
}

// The distance of a row that is marked; another is not measured.
fn marked_distance(
    mark: u8,
    row: &[u16],
    c: usize,
    circles: u32,
    queries: &[u16],
    count: usize,
) -> u32 {
    if mark != 1 {
        return FAR;
    }
    least_distance(row, c, circles, queries, count)
}

// Keeps the rows of c columns, of which some are circles, that are marked, with their distances, in row order. Gives how many.
pub(crate) fn keep_marked(
    table: &[u16],
    c: usize,
    circles: u32,
    queries: &[u16],
    count: usize,
    marks: &[u8],
    rows: &mut [u32],
    distances: &mut [u32],
) -> usize
    ensures { (result ≤ length rows.old) × (result ≤ length distances.old) }
{
    let mut kept = 0;
    let mut at = 0;
    for i in 0..marks.len().min(MOST_ROWS) {
        let end = row_end(table.len(), at, c);
        let row = &table[at..end];
        let away = marked_distance(marks[i], row, c, circles, queries, count);
        kept = keep_row(i, marks[i], away, rows, distances, kept);
        at = end;
    }
    kept
}
