// The radius call, run. A line for each case: its number in two digits, how many rows are in, how many were measured, and eight how-bytes,
// which are 9 before.
#![tactic(auto)]

ghost use Rattle.std.specs.Prelude.{length, ◌≡◌};

use limits::Refusal;
use radius::Found;
use samples::{FIVE_ROWS, digit, five_index, many, pairs_index, put};

// The index of the rows 4 2 2 6 7.
fn odd_index() -> [u32; 43]
    ensures { 43 ≡ length result }
{
    let mut index = [0; 43];
    put(&[2, 5, 1, 2, 2, 5, 1, 0], &mut index, 0);
    put(&[0, 5, 1, 3, 2], &mut index, 8);
    put(&[0, 3, 3, 2, 2], &mut index, 13);
    put(&[3, 2, 0, 1, 1], &mut index, 18);
    put(&[0, 1, 0, 0, 0], &mut index, 23);
    put(&[1, 2, 0, 0, 0], &mut index, 28);
    put(&[0, 0, 1, 0, 2, 0, 4, 0, 3, 1], &mut index, 33);
    index
}

fn line(found: Result<Found, Refusal>, how: &[u8; 8]) {
    let (number, inside, measured) = match found {
        Ok(found) => (0, found.inside, found.measured),
        Err(refusal) => (refusal.number() as usize, 0, 0),
    };
    let counts = [
        digit(number / 10),
        digit(number % 10),
        b' ',
        digit(inside),
        b' ',
        digit(measured),
        b' ',
    ];
    io::write_all(1, &counts);
    for h in how {
        io::write_all(1, &[digit(usize::from(*h))]);
    }
    io::write_all(1, b"\n");
}

fn show(table: &[u16], c: usize, index: &[u32], query: &[u16], r: u32, withdrawn: &[u32]) {
    let mut how = [9u8; 8];
    let found = radius::radius(table, c, index, query, r, withdrawn, &mut how);
    line(found, &how);
}

// A search of the five rows with this word as the set of those withdrawn.
fn five_but(query: u16, r: u32, withdrawn: u32) {
    let index = five_index();
    let table = FIVE_ROWS;
    show(&table, 1, &index, &[query], r, &[withdrawn]);
}

fn five(query: u16, r: u32) {
    five_but(query, r, 0);
}

// The three cases of 01 that are proved; a lesser r that measures more; a row at exactly r, and one just beyond; a far query; r as large
// as it can be.
fn five_rows() {
    five(9, 1);
    five(0, 20);
    five(0, 19);
    five(10, 5);
    five(9, 2);
    five(30, 10);
    five(30, 9);
    five(65535, 0);
    five(9, 4294967295);
}

// Row 2 is withdrawn: it would be in measured, in swept, and out. So is row 0, the root's first, which stays a centre; so are all rows, for a
// search that measures them and for one that sweeps them.
fn withdrawn_rows() {
    five_but(9, 1, 4);
    five_but(0, 20, 4);
    five_but(30, 9, 4);
    five_but(0, 20, 1);
    five_but(10, 5, 31);
    five_but(0, 20, 31);
}

// 20: no word, a word too many, the bit of row 5, and the highest bit of the word.
fn wrong_set() {
    let index = five_index();
    let table = FIVE_ROWS;
    show(&table, 1, &index, &[9], 1, &[]);
    show(&table, 1, &index, &[9], 1, &[0, 0]);
    five_but(9, 1, 32);
    five_but(9, 1, 2147483648);
}

// The index of two headings, 359.5 and 0.5 degrees, on a circle.
fn round_index() -> [u32; 17]
    ensures { 17 ≡ length result }
{
    let mut index = [0; 17];
    put(&[2, 2, 1, 2, 2, 1, 1, 1], &mut index, 0);
    put(&[0, 2, 0, 10, 10], &mut index, 8);
    put(&[0, 0, 1, 10], &mut index, 13);
    index
}

// Only the shorter way round they are near to each other, and to a query between them.
fn headings() {
    let index = round_index();
    show(&[3595, 5], 1, &index, &[3599], 4, &[0]);
    show(&[3595, 5], 1, &index, &[1], 6, &[0]);
}

// 19: a query that is no heading, a row that is none, and a set of no word.
fn no_heading() {
    let index = round_index();
    show(&[3595, 5], 1, &index, &[3600], 4, &[]);
    show(&[3595, 3600], 1, &index, &[1], 6, &[]);
}

// Rows on which (x - y)/2 rounded down would open one more leaf.
fn odd_rows() {
    let index = odd_index();
    show(&[4, 2, 2, 6, 7], 1, &index, &[6], 0, &[0]);
}

fn two_columns() {
    let index = pairs_index();
    show(&[1, 2, 3, 4, 10, 10], 2, &index, &[3, 3], 2, &[0]);
}

fn no_row() {
    show(&[], 1, &[2, 0, 1, 2, 2, 0, 1, 0], &[3], 7, &[]);
}

// 20: of no row there is no word.
fn no_row_struck() {
    show(&[], 1, &[2, 0, 1, 2, 2, 0, 1, 0], &[3], 7, &[0]);
}

// 1: no column, and too many. 3: the length is odd. Each with later ones wrong too, the set among them, which has no word.
fn wrong_columns(c: usize) {
    let table = FIVE_ROWS;
    show(&table, c, &[], &[9], 1, &[]);
}

// 6: a query of two columns, and no index.
fn wrong_query() {
    let table = FIVE_ROWS;
    show(&table, 1, &[], &[9, 9], 1, &[]);
}

// 5: four how-bytes for five rows, and a query of two columns.
fn short_room() {
    let index = five_index();
    let table = FIVE_ROWS;
    let mut how = [9u8; 8];
    let found = radius::radius(&table, 1, &index, &[9, 9], 1, &[], &mut how[..4]);
    line(found, &how);
}

// 8: another n, and another c.
fn other_table() {
    let index = five_index();
    show(&[0, 1, 10, 11], 1, &index, &[9], 1, &[0]);
    show(
        &[0, 1, 10, 11, 20, 21, 22, 23, 24, 25],
        2,
        &index,
        &[9, 9],
        1,
        &[0],
    );
}

// 8: a word missing at the end, and no word at all; the set has none either.
fn missing_words() {
    let index = five_index();
    let table = FIVE_ROWS;
    show(&table, 1, &index[0..42], &[9], 1, &[]);
    show(&table, 1, &[], &[9], 1, &[]);
}

// The five-row table with one word of its index changed, and a set of no word.
fn changed(at: usize, word: u32) {
    let mut index = five_index();
    let table = FIVE_ROWS;
    if at < 43 {
        index[at] = word;
        show(&table, 1, &index, &[9], 1, &[]);
    }
}

// 8: the edition, and a circle that is no column. 9: the root's start, its radius, and a row number.
fn wrong_index() {
    changed(0, 1);
    changed(7, 2);
    changed(8, 1);
    changed(11, 1048561);
    changed(33, 5);
}

// 4: a row too many.
fn too_many() {
    let table = many();
    show(&table, 1, &[], &[], 0, &[]);
}

fn main() {
    five_rows();
    withdrawn_rows();
    headings();
    odd_rows();
    two_columns();
    no_row();
    no_row_struck();
    wrong_columns(0);
    wrong_columns(17);
    wrong_columns(2);
    too_many();
    short_room();
    wrong_query();
    other_table();
    missing_words();
    wrong_index();
    no_heading();
    wrong_set();
}
