// The nearest call, run. A line for each case: its number in two digits, how many answers there are, how many rows were measured; six row numbers,
// which are 9 before; six distances, which are 99 before; eight how-bytes, which are 9 before; and words 0, 29 and 30 of the workspace, which are 9 before.
#![tactic(auto)]

ghost use Rattle.std.specs.Prelude.{◌≤◌, length, ◌≡◌};

use limits::Refusal;
use nearest::Given;
use samples::{FIVE_ROWS, digit, five_index, many, pairs_index, put};

// The index of the rows 6 9 5 3 0.
fn odd_index() -> [u32; 53]
    ensures { 53 ≡ length result }
{
    let mut index = [0; 53];
    put(&[2, 5, 1, 2, 2, 7, 1, 0], &mut index, 0);
    put(&[0, 5, 1, 6, 1], &mut index, 8);
    put(&[0, 4, 3, 3, 1], &mut index, 13);
    put(&[4, 1, 0, 0, 0], &mut index, 18);
    put(&[0, 3, 5, 3, 1], &mut index, 23);
    put(&[3, 1, 0, 0, 0], &mut index, 28);
    put(&[0, 2, 0, 1, 1], &mut index, 33);
    put(&[2, 1, 0, 0, 0], &mut index, 38);
    put(&[0, 0, 2, 1, 3, 0, 1, 0, 4, 0], &mut index, 43);
    index
}

// The index of the rows 7 7 7 7.
fn sevens_index() -> [u32; 41]
    ensures { 41 ≡ length result }
{
    let mut index = [0; 41];
    put(&[2, 4, 1, 2, 2, 5, 1, 0], &mut index, 0);
    put(&[0, 4, 1, 0, 0], &mut index, 8);
    put(&[0, 3, 3, 0, 0], &mut index, 13);
    put(&[3, 1, 0, 0, 0], &mut index, 18);
    put(&[0, 2, 0, 0, 0], &mut index, 23);
    put(&[2, 1, 0, 0, 0], &mut index, 28);
    put(&[0, 0, 3, 0, 2, 0, 1, 0], &mut index, 33);
    index
}

// One digit.
fn one(x: usize) {
    io::write_all(1, &[digit(x)]);
}

// A word as one digit.
fn one_word(x: u32) {
    one(x as usize);
}

// Two digits.
fn two(x: usize) {
    io::write_all(1, &[digit(x / 10), digit(x % 10)]);
}

fn space() {
    io::write_all(1, b" ");
}

// What a call says: its number, how many answers there are, and how many rows were measured.
fn said(found: Result<Given, Refusal>) -> (usize, usize, usize) {
    match found {
        Ok(found) => (0, found.given, found.measured),
        Err(refusal) => (refusal.number() as usize, 0, 0),
    }
}

fn line(
    found: Result<Given, Refusal>,
    rows: &[u32; 6],
    distances: &[u32; 6],
    how: &[u8; 8],
    work: &[u32; 32],
) {
    let (number, given, measured) = said(found);
    two(number);
    space();
    one(given);
    space();
    one(measured);
    space();
    for row in rows {
        one_word(*row);
    }
    space();
    for d in distances {
        two(*d as usize);
        space();
    }
    for h in how {
        one(usize::from(*h));
    }
    space();
    one_word(work[0]);
    one_word(work[29]);
    one_word(work[30]);
    io::write_all(1, b"\n");
}

// A call that is lent so many places for rows, so many how-bytes and so many words.
fn show_in(
    table: &[u16],
    c: usize,
    index: &[u32],
    query: &[u16],
    wanted: usize,
    withdrawn: &[u32],
    places: usize,
    bytes: usize,
    words: usize,
)
    requires { (places ≤ 6) × (bytes ≤ 8) × (words ≤ 32) }
{
    let mut rows = [9u32; 6];
    let mut distances = [99u32; 6];
    let mut how = [9u8; 8];
    let mut work = [9u32; 32];
    let found = nearest::nearest(
        table,
        c,
        index,
        query,
        wanted,
        withdrawn,
        &mut rows[..places],
        &mut distances,
        &mut how[..bytes],
        &mut work[..words],
    );
    line(found, &rows, &distances, &how, &work);
}

fn show(table: &[u16], c: usize, index: &[u32], query: &[u16], wanted: usize, withdrawn: &[u32]) {
    show_in(table, c, index, query, wanted, withdrawn, 6, 8, 32);
}

fn five(query: u16, wanted: usize, withdrawn: &[u32]) {
    let index = five_index();
    let table = FIVE_ROWS;
    show(&table, 1, &index, &[query], wanted, withdrawn);
}

// The four cases of 01 that are proved; a home bound equal to D; a tie; all rows; a far query.
fn five_rows() {
    five(9, 1, &[0]);
    five(9, 2, &[0]);
    five(5, 2, &[0]);
    five(9, 9, &[0]);
    five(6, 2, &[0]);
    five(0, 5, &[0]);
    five(30, 3, &[0]);
}

// Row 2 is withdrawn, row 0, and all of them: the next best are given, and all rows are measured where fewer remain than are wanted.
fn withdrawn_rows() {
    five(9, 1, &[4]);
    five(9, 9, &[4]);
    five(5, 2, &[1]);
    five(9, 1, &[31]);
}

// 20: no word, two words, and the bit of row 5.
fn wrong_sets() {
    five(9, 1, &[]);
    five(9, 1, &[0, 0]);
    five(9, 1, &[32]);
}

// Rows on which a search that rounds (x - y)/2 down would measure one more.
fn odd_rows() {
    let index = odd_index();
    show(&[6, 9, 5, 3, 0], 1, &index, &[10], 1, &[0]);
}

// Equal rows: ties go to the lower row.
fn equal_rows(wanted: usize) {
    let index = sevens_index();
    show(&[7, 7, 7, 7], 1, &index, &[9], wanted, &[0]);
}

fn two_columns() {
    let index = pairs_index();
    show(&[1, 2, 3, 4, 10, 10], 2, &index, &[3, 3], 1, &[0]);
}

// The rows 3595, 5 and 1800 of one column that is a circle, all in one leaf. 19: a query of 3600, and no set.
fn round_rows() {
    let index = [
        2, 3, 1, 2, 4, 1, 1, 1, 0, 3, 0, 1795, 10, 0, 0, 1, 10, 2, 1795,
    ];
    let table = [3595, 5, 1800];
    show(&table, 1, &index, &[3590], 2, &[0]);
    show(&table, 1, &index, &[3600], 2, &[]);
}

fn no_row() {
    show(&[], 1, &[2, 0, 1, 2, 2, 0, 1, 0], &[3], 7, &[]);
}

// 1: no column, and too many. 3: the length is odd. Each with later ones wrong too.
fn wrong_columns(c: usize) {
    let table = FIVE_ROWS;
    show(&table, c, &[], &[9], 0, &[]);
}

// 4: a row too many. The call stands here itself: of a table that `show_in` is lent the compiler would clear 2 MiB of stack.
fn too_many() {
    let table = many();
    let mut rows = [9u32; 6];
    let mut distances = [99u32; 6];
    let mut how = [9u8; 8];
    let mut work = [9u32; 32];
    let found = nearest::nearest(
        &table,
        1,
        &[],
        &[],
        0,
        &[],
        &mut rows,
        &mut distances,
        &mut how,
        &mut work,
    );
    line(found, &rows, &distances, &how, &work);
}

// 5: room for one answer of two, and a query of two columns.
fn short_answers() {
    let index = five_index();
    let table = FIVE_ROWS;
    show_in(&table, 1, &index, &[9, 9], 2, &[], 1, 8, 32);
}

// 5: four how-bytes for five rows, and a query of two columns.
fn short_bytes() {
    let index = five_index();
    let table = FIVE_ROWS;
    show_in(&table, 1, &index, &[9, 9], 2, &[], 6, 4, 32);
}

// 5: a word of workspace too few.
fn short_work() {
    let index = five_index();
    let table = FIVE_ROWS;
    show_in(&table, 1, &index, &[9], 2, &[], 6, 8, 29);
}

// 6: a query of two columns, and none wanted. 7: none wanted, and no index. 8: no index.
fn wrong_call() {
    let table = FIVE_ROWS;
    show(&table, 1, &[], &[9, 9], 0, &[]);
    show(&table, 1, &[], &[9], 0, &[]);
    show(&table, 1, &[], &[9], 1, &[]);
}

// 8: another n.
fn other_table() {
    let index = five_index();
    show(&[0, 1, 10, 11], 1, &index, &[9], 1, &[]);
}

// The five-row table with one word of its index changed.
fn changed(at: usize, word: u32) {
    let mut index = five_index();
    let table = FIVE_ROWS;
    if at < 43 {
        index[at] = word;
        show(&table, 1, &index, &[9], 2, &[]);
    }
}

// 8: the edition. 9: the root's start, its radius, and a row number.
fn wrong_index() {
    changed(0, 1);
    changed(8, 1);
    changed(11, 1048561);
    changed(33, 5);
}

// 0: row 1 stands twice and row 4 not at all, which no table fits. Shown is what is settled even so: the number, how many are given, what lies
// beyond, and the zero workspace. With row 1 withdrawn there are three positions whose rows remain, though four rows do.
fn row_twice(wanted: usize, withdrawn: u32) {
    let mut index = five_index();
    let table = FIVE_ROWS;
    index[39] = 1;
    let mut rows = [9u32; 6];
    let mut distances = [99u32; 6];
    let mut how = [9u8; 8];
    let mut work = [9u32; 32];
    let found = nearest::nearest(
        &table,
        1,
        &index,
        &[9],
        wanted,
        &[withdrawn],
        &mut rows,
        &mut distances,
        &mut how,
        &mut work,
    );
    let (number, given, _) = said(found);
    two(number);
    space();
    one(given);
    space();
    one_word(rows[5]);
    one(usize::from(how[5]));
    space();
    one_word(work[0]);
    one_word(work[29]);
    one_word(work[30]);
    io::write_all(1, b"\n");
}

fn main() {
    five_rows();
    withdrawn_rows();
    odd_rows();
    equal_rows(1);
    equal_rows(3);
    two_columns();
    round_rows();
    no_row();
    wrong_columns(0);
    wrong_columns(17);
    wrong_columns(2);
    too_many();
    short_answers();
    short_bytes();
    short_work();
    wrong_call();
    other_table();
    wrong_index();
    wrong_sets();
    row_twice(2, 0);
    row_twice(9, 2);
}
