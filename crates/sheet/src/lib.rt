// The reader of a text of rows: fed piece by piece, it puts each whole row behind the last into a lent table, and names the first line and column
// with a fault.
#![tactic(auto)]

ghost use Rattle.std.specs.Prelude.{◌+◌, ◌≤◌, length, ◌≡◌};
ghost use Rattle.sheet_reading.specs.Closing.{closed, counted, end_trouble, failed, first_blank_lem, judged, onward, or_wide, titles, weighed};
ghost use Rattle.sheet_reading.specs.Reading.{begun, finished, inside, mark_byte_lem, marking, next, read, released, run, unmarking};
ghost use Rattle.sheet_reading.specs.Says.{or_row};
ghost use Rattle.std.proofs.Math.Seq.{paste};

use line_reading::{Line, Trouble};
use row_faults::row_trouble;
use sheet_fields::Kind;
use sheet_reading::{NO_ROWS, Reader};

const MOST_LINES: u64 = 18_446_744_073_709_551_615;

// The mark is over, or was none.
const PAST: u32 = 3;

// Before the first byte of a text. The column `label` (from 1) holds a label, which may be anything but empty and is read as 0; 0: there is none.
#[tactic(auto, unfolding(sheet_reading::specs::Reading::begun))]
pub fn start(label: usize) -> Reader
    ensures { result ≡ begun label }
{
    Reader {
        mark: 0,
        held: false,
        line: 1,
        blank: 0,
        columns: 0,
        rows: 0,
        put: 0,
        fault: 0,
        column: 0,
        here: sheet_line::fresh(label),
        label,
    }
}

// What is wrong in a field comes before what is wrong with the row.
#[tactic(auto, unfolding(sheet_reading::specs::Says::or_row))]
fn field_or_row(
    t: Trouble,
    columns: usize,
    rows: usize,
    put: usize,
    count: usize,
    room: usize,
) -> Trouble
    ensures { result ≡ or_row t columns rows put count room }
{
    if t.kind != 0 {
        return t;
    }
    row_trouble(columns, rows, put, count, room)
}

// What is wrong with names.
#[tactic(auto, unfolding(sheet_reading::specs::Closing::or_wide))]
fn name_or_wide(t: Trouble, count: usize) -> Trouble
    ensures { result ≡ or_wide t count }
{
    if t.kind != 0 {
        return t;
    }
    if line_reading::WIDEST < count {
        return Trouble {
            kind: line_reading::TOO_WIDE,
            column: line_reading::WIDEST + 1,
        };
    }
    row_numbers::no_trouble()
}

// The line is the first, and names.
#[tactic(auto, unfolding(sheet_reading::specs::Closing::titles))]
fn has_titles(r: Reader, ended: Line) -> bool
    ensures { result ≡ titles r ended }
{
    r.line == 1 && !ended.figure
}

// Why the line can't be taken.
#[tactic(auto, unfolding(sheet_reading::specs::Closing::end_trouble))]
fn line_trouble(r: Reader, ended: Line, room: usize) -> Trouble
    ensures { result ≡ end_trouble r ended room }
{
    if has_titles(r, ended) {
        let names = ended.names;
        return name_or_wide(names, ended.count);
    }
    let numbers = ended.numbers;
    field_or_row(numbers, r.columns, r.rows, r.put, ended.count, room)
}

// Puts the first n numbers of a row into the table.
fn put_row(row: [u16; 16], n: usize, table: &mut [u16], at: usize)
    requires { (n ≤ 16) × (at + n ≤ length table.old) }
    ensures { table.new ≡ paste table.old at row n }
{
    table[at..at + n].copy_from_slice(&row[..n]);
}

// The next line's number.
#[tactic(auto, unfolding(sheet_reading::specs::Closing::counted))]
fn count_line(line: u64) -> u64
    ensures { result ≡ counted line }
{
    if line < MOST_LINES {
        return line + 1;
    }
    line
}

// The first of blank lines.
#[tactic(auto, unfolding(sheet_reading::specs::Closing::first_blank_lem))]
fn first_blank(blank: u64, line: u64) -> u64
    ensures { result ≡ first_blank_lem blank line }
{
    if blank == 0 {
        return line;
    }
    blank
}

// Behind a line, with so many columns, rows and numbers.
#[tactic(auto, unfolding(sheet_reading::specs::Closing::onward))]
fn go_onward(r: Reader, blank: u64, columns: usize, rows: usize, put: usize) -> Reader
    ensures { result ≡ onward r blank columns rows put }
{
    Reader {
        mark: r.mark,
        held: false,
        line: count_line(r.line),
        blank,
        columns,
        rows,
        put,
        fault: r.fault,
        column: r.column,
        here: sheet_line::fresh(r.label),
        label: r.label,
    }
}

// Behind a row of n numbers.
fn take_row(r: Reader, n: usize, room: usize) -> Reader
    requires { (r.rows + 1 ≤ 1048576) × (r.put + n ≤ room) }
    ensures { result ≡ onward r 0 n (r.rows + 1) (r.put + n) }
{
    go_onward(r, 0, n, r.rows + 1, r.put + n)
}

// At a line that can't be taken.
#[tactic(auto, unfolding(sheet_reading::specs::Closing::failed))]
fn fail(r: Reader, ended: Line, line: u64, trouble: Trouble) -> Reader
    ensures { result ≡ failed r ended line trouble }
{
    Reader {
        mark: r.mark,
        held: false,
        line,
        blank: r.blank,
        columns: r.columns,
        rows: r.rows,
        put: r.put,
        fault: trouble.kind,
        column: trouble.column,
        here: ended,
        label: r.label,
    }
}

// A line that has ended is names, or a row that is put behind the others, or can't be taken.
#[tactic(auto, unfolding(sheet_reading::specs::Closing::weighed, sheet_reading::specs::Closing::decided, sheet_reading::specs::Closing::accepted))]
fn decide(r: Reader, ended: Line, table: &mut [u16]) -> Reader
    ensures { (result ≡ (weighed r ended table.old).0) × (table.new ≡ (weighed r ended table.old).1) }
{
    let room = table.len();
    let trouble = line_trouble(r, ended, room);
    if trouble.kind != 0 {
        return fail(r, ended, r.line, trouble);
    }
    let n = ended.count;
    if has_titles(r, ended) {
        return go_onward(r, 0, n, 0, 0);
    }
    let at = r.put;
    let row = ended.row;
    put_row(row, n, table, at);
    take_row(r, n, room)
}

// A line that is not blank: it may not stand below a blank one.
#[tactic(auto, unfolding(sheet_reading::specs::Closing::judged))]
fn judge(r: Reader, ended: Line, table: &mut [u16]) -> Reader
    ensures { (result ≡ (judged r ended table.old).0) × (table.new ≡ (judged r ended table.old).1) }
{
    if r.blank != 0 {
        return fail(
            r,
            ended,
            r.blank,
            Trouble {
                kind: line_reading::EMPTY,
                column: 1,
            },
        );
    }
    decide(r, ended, table)
}

// At a newline.
#[tactic(auto, unfolding(sheet_reading::specs::Closing::closed))]
fn close(r: Reader, table: &mut [u16]) -> Reader
    ensures { (result ≡ (closed r table.old).0) × (table.new ≡ (closed r table.old).1) }
{
    if sheet_line::is_bare(r.here) {
        return go_onward(r, first_blank(r.blank, r.line), r.columns, r.rows, r.put);
    }
    judge(r, sheet_line::settle(r.here), table)
}

// Inside a line.
#[tactic(auto, unfolding(sheet_reading::specs::Reading::inside))]
fn stay(r: Reader, mark: u32, held: bool, here: Line) -> Reader
    ensures { result ≡ inside r mark held here }
{
    Reader {
        mark,
        held,
        line: r.line,
        blank: r.blank,
        columns: r.columns,
        rows: r.rows,
        put: r.put,
        fault: r.fault,
        column: r.column,
        here,
        label: r.label,
    }
}

// A carriage return that was held back is a byte as any other, since no newline follows it.
#[tactic(auto, unfolding(sheet_reading::specs::Reading::released))]
fn release(r: Reader) -> Line
    ensures { result ≡ released r }
{
    if r.held {
        return sheet_line::along(r.here, Kind::Other);
    }
    r.here
}

// One byte more of a text whose start was looked at.
#[tactic(auto, unfolding(sheet_reading::specs::Reading::read))]
fn read_byte(r: Reader, b: u8, table: &mut [u16]) -> Reader
    ensures { (result ≡ (read (r, table.old) b).0) × (table.new ≡ (read (r, table.old) b).1) }
{
    if b == sheet_fields::NEWLINE {
        return close(r, table);
    }
    let here = release(r);
    if b == sheet_fields::RETURN {
        return stay(r, r.mark, true, here);
    }
    stay(
        r,
        r.mark,
        false,
        sheet_line::along(here, sheet_fields::kind_of(b)),
    )
}

// The bytes of the mark.
#[tactic(auto, unfolding(sheet_reading::specs::Reading::mark_byte_lem))]
fn mark_byte(k: u32) -> u8
    ensures { result ≡ mark_byte_lem k }
{
    if k == 0 {
        return 0xef;
    }
    if k == 1 {
        return 0xbb;
    }
    0xbf
}

// The start was not the mark: what came of it is bytes as any other.
#[tactic(auto, unfolding(sheet_reading::specs::Reading::unmarking))]
fn unmark(r: Reader) -> Reader
    ensures { result ≡ unmarking r }
{
    if r.mark == 0 {
        return stay(r, PAST, r.held, r.here);
    }
    stay(r, PAST, r.held, sheet_line::along(r.here, Kind::Other))
}

// One byte more of the text's start.
#[tactic(auto, unfolding(sheet_reading::specs::Reading::marking))]
fn begin(r: Reader, b: u8, table: &mut [u16]) -> Reader
    requires { r.mark + 1 ≤ 3 }
    ensures { (result ≡ (marking (r, table.old) b).0) × (table.new ≡ (marking (r, table.old) b).1) }
{
    if b == mark_byte(r.mark) {
        return stay(r, r.mark + 1, r.held, r.here);
    }
    read_byte(unmark(r), b, table)
}

// One byte more. Behind a fault nothing changes.
#[tactic(auto, unfolding(sheet_reading::specs::Reading::next))]
fn step(r: Reader, b: u8, table: &mut [u16]) -> Reader
    ensures { (result ≡ (next (r, table.old) b).0) × (table.new ≡ (next (r, table.old) b).1) }
{
    if r.fault != 0 {
        return r;
    }
    if PAST <= r.mark {
        return read_byte(r, b, table);
    }
    begin(r, b, table)
}

// Reads one piece more of the text.
pub fn feed(reader: Reader, text: &[u8], table: &mut [u16]) -> Reader
    ensures { (result ≡ (run (reader, table.old) text.now).0)
        × (table.new ≡ (run (reader, table.old) text.now).1) }
{
    let mut r = reader;
    for b in text {
        r = step(r, *b, table);
    }
    r
}

// The end of the text: it may lack its last newline. A text without rows is a fault, in the line where the first row should stand.
pub fn finish(reader: Reader, table: &mut [u16]) -> Reader
    ensures { (result ≡ (finished (reader, table.old)).0) × (table.new ≡ (finished (reader, table.old)).1) }
{
    let r = step(reader, sheet_fields::NEWLINE, table);
    if r.fault != 0 {
        return r;
    }
    if r.rows != 0 {
        return r;
    }
    fail(
        r,
        r.here,
        first_blank(r.blank, r.line),
        Trouble {
            kind: NO_ROWS,
            column: 1,
        },
    )
}
