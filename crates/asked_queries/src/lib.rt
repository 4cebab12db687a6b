// What a question is about: rows, values, or the row that has a label, put as queries.
#![tactic(auto)]

ghost use Rattle.std.specs.Prelude.{◌*◌, ◌≤◌, length, IfOk, IfSome, ◌≡◌};
ghost use Rattle.limits.specs.Limits.{max_columns};

use asked_table::reading::{Sheet, names_of};
use asking::Way;
use asking::pieces::{end_from, part};
use column_choice::Choice;
use column_names::{MOST_COLUMNS, NameFault, column_said};
use queries::{Fault, put_only, put_rows};
use telling::say_named_wrong;

// The bytes behind the one at `at`.
fn behind(t: &[u8], at: usize) -> &[u8] {
    if at < t.len() {
        &t[at + 1..]
    } else {
        part(t, 0, 0)
    }
}

// Puts the row that has a label just once. The places of the rows' lines are kept in `starts`.
fn put_labelled(
    text: &[u8],
    sheet: Sheet,
    what: &[u8],
    table: &[u16],
    k: usize,
    starts: &mut [u32],
    queries: &mut [u16],
) -> Result<usize, Fault>
    requires { (k * sheet.reader.rows ≤ length table.now) × (k ≤ max_columns) × (length queries.old ≡ 1024) }
    ensures { IfOk result (λ count. count ≤ 64) }
{
    let n = sheet.reader.rows;
    let sign = end_from(what, b'=', 0);
    let c = sheet.reader.columns;
    let column = match column_said(names_of(text, sheet.names), part(what, 0, sign), c) {
        Ok(column) => column,
        Err(NameFault::NoColumn) => return Err(Fault::NoLabel),
        // No line has so many columns: what stands there is empty.
        Err(NameFault::TwoColumns) => MOST_COLUMNS + 1,
    };
    if !text_lines::keep_lines(text, sheet.from, starts, n) {
        return Err(Fault::NoLabel);
    }
    let hits = labels::find_label(text, starts, n, column, behind(what, sign));
    put_only(table, k, n, hits.count, hits.row, queries)
}

// Puts what is asked about: values behind a sign, a label with a sign in it, or rows.
fn put_named(
    text: &[u8],
    sheet: Sheet,
    what: &[u8],
    circles: u32,
    choice: Choice,
    table: &[u16],
    starts: &mut [u32],
    queries: &mut [u16],
) -> Result<usize, Fault>
    requires { (choice.k * sheet.reader.rows ≤ length table.now) × (choice.k ≤ max_columns) × (length queries.old ≡ 1024) }
    ensures { IfOk result (λ count. count ≤ 64) }
{
    let sign = end_from(what, b'=', 0);
    let k = choice.k;
    if sign == what.len() {
        put_rows(table, k, sheet.reader.rows, what, queries)
    } else if sign == 0 {
        query_values::put_values(behind(what, 0), circles, choice.factors, k, queries)
    } else {
        put_labelled(text, sheet, what, table, k, starts, queries)
    }
}

// Puts what is asked about: one query at least, and one alone where the nearest are asked for.
fn put_counted(
    way: Way,
    text: &[u8],
    sheet: Sheet,
    what: &[u8],
    circles: u32,
    choice: Choice,
    table: &[u16],
    starts: &mut [u32],
    queries: &mut [u16],
) -> Result<usize, Fault>
    requires { (choice.k * sheet.reader.rows ≤ length table.now) × (choice.k ≤ max_columns) × (length queries.old ≡ 1024) }
    ensures { IfOk result (λ count. count ≤ 64) }
{
    let count = put_named(text, sheet, what, circles, choice, table, starts, queries)?;
    match (way, count) {
        (_, 0) => Err(Fault::NotARow),
        (Way::Like, _) | (Way::Nearest, 1) => Ok(count),
        (Way::Nearest, _) => Err(Fault::TooManyRows),
    }
}

// Puts the queries that the question is about. Gives how many; what is wrong with them is said.
pub fn put_queries(
    err: i32,
    way: Way,
    what: &[u8],
    sheet: Sheet,
    circles: u32,
    choice: Choice,
    text: &[u8],
    table: &[u16],
    starts: &mut [u32],
    queries: &mut [u16],
) -> Option<usize>
    requires { (choice.k * sheet.reader.rows ≤ length table.now) × (choice.k ≤ max_columns) × (length queries.old ≡ 1024) }
    ensures { IfSome result (λ count. count ≤ 64) }
{
    match put_counted(
        way, text, sheet, what, circles, choice, table, starts, queries,
    ) {
        Ok(count) => Some(count),
        Err(fault) => {
            say_named_wrong(err, fault, what, sheet.reader.rows, choice.k);
            None
        }
    }
}
