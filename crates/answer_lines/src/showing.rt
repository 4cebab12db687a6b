// The answers, written a line each.
ghost use Rattle.std.specs.Prelude.{◌≤◌, length};

use crate::plan::Plan;
use labels::label_in;
use lines::{make_room, put_bytes, put_number};
use saying::say;
use text_lines::line_from;

// How many bytes a line's two numbers take at most.
const NUMBERS: usize = 42;

// Puts one answer: a row and its distance, and what is to be shown with it. Gives where that ends.
fn put_answer(
    plan: Plan,
    text: &[u8],
    start: u32,
    row: u32,
    distance: u32,
    out: &mut [u8],
    at: usize,
) -> usize
    requires { (at ≤ length out.old) × (42 ≤ length out.old) }
    ensures { result ≤ length out.old }
{
    let from = make_room(plan.out, out, at, NUMBERS);
    let middle = put_number(out, from, u64::from(row), plan.parting());
    if !plan.shows_text() {
        return put_number(out, middle, u64::from(distance), b'\n');
    }
    let end = put_number(out, middle, u64::from(distance), plan.parting());
    put_text(plan, line_from(text, start), out, end)
}

// What stands behind a label: the line, or the end.
fn behind_label(plan: Plan) -> u8 {
    if plan.lines { plan.parting() } else { b'\n' }
}

// Puts the label of a line, if answers show it. Gives where that ends.
fn put_label(plan: Plan, line: &[u8], out: &mut [u8], at: usize) -> usize
    requires { (at ≤ length out.old) × (42 ≤ length out.old) }
    ensures { result ≤ length out.old }
{
    if plan.label == 0 {
        return at;
    }
    put_bytes(
        plan.out,
        out,
        at,
        label_in(line, plan.label),
        behind_label(plan),
    )
}

// Puts what is shown of a line: its label, and the line itself. Gives where that ends.
fn put_text(plan: Plan, line: &[u8], out: &mut [u8], at: usize) -> usize
    requires { (at ≤ length out.old) × (42 ≤ length out.old) }
    ensures { result ≤ length out.old }
{
    let end = put_label(plan, line, out, at);
    if !plan.lines {
        return end;
    }
    put_bytes(plan.out, out, end, line, b'\n')
}

// The name of the labels, behind a comma, if answers show them.
fn say_label_name(plan: Plan, names: &[u8]) {
    if plan.label == 0 {
        return;
    }
    say(plan.out, b",");
    if names.is_empty() {
        say(plan.out, b"label");
    }
    say(plan.out, label_in(names, plan.label));
}

// Where the line of a row starts, if it was kept; else 0.
fn start_of(starts: &[u32], row: u32) -> u32 {
    starts.get(row as usize).copied().unwrap_or(0)
}

// The first line of an answer that commas part: what each field is.
pub(crate) fn say_head(plan: Plan, names: &[u8]) {
    if !plan.csv {
        return;
    }
    say(plan.out, b"row,distance");
    say_label_name(plan, names);
    if plan.lines {
        say(plan.out, b",");
        say(plan.out, names);
    }
    say(plan.out, b"\n");
}

// Writes the answers that are given, in their order.
pub(crate) fn say_answers(
    plan: Plan,
    text: &[u8],
    starts: &[u32],
    rows: &[u32],
    distances: &[u32],
    given: usize,
)
    requires { (given ≤ length rows.now) × (given ≤ length distances.now) }
{
    let mut out = io::buffer();
    let mut at = 0;
    for (row, distance) in rows[..given].iter().zip(&distances[..given]) {
        let start = start_of(starts, *row);
        at = put_answer(plan, text, start, *row, *distance, &mut out, at);
    }
    io::write_all(plan.out, &out[..at]);
}
