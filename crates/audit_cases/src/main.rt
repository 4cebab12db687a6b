// The full check on the five-row index, on spoilt copies and on a few more, a line each: the number, its two places, and what the
// workspace's words sum to after the call. Each word was 7; for the five rows one more is lent than is asked for, so that 7 is left.
#![tactic(auto)]

ghost use Rattle.std.specs.Prelude.{◌≡◌, length};

use samples::{FIVE_ROWS as ROWS, five_index, put};

fn number(x: u64) {
    io::print_decimal(1, x);
    io::write_all(1, b" ");
}

// The words' sum.
fn sum(work: &[u32]) -> u64 {
    work.iter()
        .fold(0u64, |all, word| all.wrapping_add(u64::from(*word)))
}

fn show(table: &[u16], c: usize, index: &[u32], work: &mut [u32]) {
    let (k, place, second) = match audit::check(table, c, index, work) {
        Ok(()) => (0, 0, 0),
        Err(refusal) => (refusal.number(), refusal.place(), refusal.second()),
    };
    number(u64::from(k));
    number(place as u64);
    number(second as u64);
    io::print_decimal(1, sum(work));
    io::write_all(1, b"\n");
}

// An index over the five rows.
fn five(index: [u32; 43]) {
    let mut work = [7u32; 31];
    show(&ROWS, 1, &index, &mut work);
}

// The five-row index with one word changed.
fn spoilt(at: usize, word: u32) {
    let mut index = five_index();
    if at < 43 {
        index[at] = word;
    }
    five(index);
}

// The five-row index as edition 1 has it, without inner reaches: it is not taken.
fn old_edition() {
    let mut index = [0; 38];
    put(&[1, 5, 1, 2, 2, 5, 1, 0], &mut index, 0);
    put(&[0, 5, 1, 20], &mut index, 8);
    put(&[0, 3, 3, 10], &mut index, 12);
    put(&[3, 2, 0, 9], &mut index, 16);
    put(&[0, 2, 0, 1], &mut index, 20);
    put(&[2, 1, 0, 0], &mut index, 24);
    put(&[0, 0, 1, 1, 2, 0, 4, 0, 3, 9], &mut index, 28);
    let mut work = [7u32; 31];
    show(&ROWS, 1, &index, &mut work);
}

// Each number from 8 on.
fn one_fault() {
    // edition
    spoilt(0, 3);
    old_edition();
    // n
    spoilt(1, 4);
    // the root's start, a leaf's count, a row number that is none
    spoilt(8, 1);
    spoilt(24, 1);
    spoilt(33, 5);
    // row 0 at position 1 again
    spoilt(35, 0);
    // row 0 at position 4 again, two leaves on
    spoilt(41, 0);
    // the distance of position 1, the root's radius, and its inner reach
    spoilt(36, 2);
    spoilt(11, 19);
    spoilt(12, 2);
    // row 3, at 11, stands with the centre 0 and is closer to 20
    let mut stray = five_index();
    stray[16] = 11;
    stray[21] = 10;
    stray[22] = 10;
    stray[37] = 3;
    stray[41] = 2;
    stray[42] = 10;
    five(stray);
}

// Of several the lowest number is named, then the lowest place.
fn more_faults() {
    // positions 1 and 4; position 4's leaf has the lower number
    let mut index = five_index();
    index[36] = 2;
    index[42] = 8;
    five(index);
    // nodes 0 and 1
    index = five_index();
    index[11] = 19;
    index[16] = 11;
    five(index);
    // a row again at position 4, and the distance of position 1
    index = five_index();
    index[36] = 2;
    index[41] = 0;
    five(index);
    // a stray, and a radius
    index = five_index();
    index[16] = 11;
    index[21] = 10;
    index[22] = 10;
    index[26] = 2;
    index[37] = 3;
    index[41] = 2;
    index[42] = 10;
    five(index);
}

// 1: no column, and too many. 3: the length is odd.
fn wrong_columns() {
    let index = five_index();
    let mut work = [7u32; 31];
    show(&ROWS, 0, &index, &mut work);
    show(&ROWS, 17, &index, &mut work);
    show(&ROWS, 2, &index, &mut work);
}

// 5: one workspace word short, for a good index and for a spoilt one.
fn short_work() {
    let index = five_index();
    let mut work = [7u32; 29];
    show(&ROWS, 1, &index, &mut work);
    show(&ROWS, 1, &index[0..8], &mut work);
}

// 8: a row more.
fn other_table() {
    let index = five_index();
    let mut work = [7u32; 36];
    show(&[0, 1, 10, 11, 20, 30], 1, &index, &mut work);
}

// 8: a word missing.
fn missing_word() {
    let index = five_index();
    let mut work = [7u32; 31];
    show(&ROWS, 1, &index[0..42], &mut work);
}

// The index of the rows 0 10 5, with the last at its later centre.
fn later_index() -> [u32; 29]
    ensures { 29 ≡ length result }
{
    let mut index = [0; 29];
    put(&[2, 3, 1, 2, 2, 3, 1, 0], &mut index, 0);
    put(&[0, 3, 1, 10, 5], &mut index, 8);
    put(&[0, 1, 0, 0, 0], &mut index, 13);
    put(&[1, 2, 0, 5, 5], &mut index, 18);
    put(&[0, 0, 1, 0, 2, 5], &mut index, 23);
    index
}

// A row as far from two centres may stand with either; and there may be no row.
fn free() {
    let rows: [u16; 3] = [0, 10, 5];
    let later = later_index();
    let mut work = [7u32; 19];
    show(&rows, 1, &later, &mut work);
    let none: [u32; 8] = [2, 0, 1, 2, 2, 0, 1, 0];
    let mut kept = [7u32; 2];
    show(&rows[..0], 1, &none, &mut kept);
}

// The rows 3595 5 3590 in one leaf; `circles` has the bits of the columns that are circles.
fn seam_index(circles: u32) -> [u32; 19]
    ensures { 19 ≡ length result }
{
    let mut index = [0; 19];
    put(&[2, 3, 1, 2, 4, 1, 1, circles], &mut index, 0);
    put(&[0, 3, 0, 10, 5], &mut index, 8);
    put(&[0, 0, 1, 10, 2, 5], &mut index, 13);
    index
}

// A table of three rows and an index.
fn seam(rows: &[u16], index: [u32; 19]) {
    let mut work = [7u32; 19];
    show(rows, 1, &index, &mut work);
}

// On the circle the distances are right, as plain numbers they are not, and a bit for a second column is impossible. A row that is not on the circle
// gives 19, which comes before a row again and leaves the workspace.
fn circular() {
    let on: [u16; 3] = [3595, 5, 3590];
    let off: [u16; 3] = [3595, 5, 3600];
    seam(&on, seam_index(1));
    seam(&on, seam_index(0));
    seam(&on, seam_index(3));
    seam(&off, seam_index(1));
    let mut again = seam_index(1);
    again[17] = 0;
    seam(&on, again);
    seam(&off, again);
}

fn main() {
    five(five_index());
    one_fault();
    more_faults();
    wrong_columns();
    short_work();
    other_table();
    missing_word();
    free();
    circular();
}
