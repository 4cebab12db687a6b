// The analyst's program: a text of rows is read into a table, the columns that count are chosen, an index is built over it, and one question is
// answered. Answers go to one file, all else to another; what is given back is how the program ends.
#![tactic(auto)]

ghost use Rattle.statuses.specs.Statuses.{Known, number_of};
ghost use Rattle.std.specs.Prelude.{◌≤◌, length, IfSome, ◌≡◌};

use answer_lines::plan::Plan;
use answer_lines::write_given;
use asked_texts::none_struck;
use asking::pieces::part;
use finding::find_rows;
use limits::Refusal;
use lines::put_bytes;
use nearest::Given;
use planning::plan_question;
use queries::QUERY_ROOM;
use saying::{STDERR_FILENO, say};
use statuses::Status;
use std::env::FillError;
use std::io::Input;
use std::rt::{Env, Files};
use telling::refuse;

// The descriptor at which the launcher listens for the status, since a program of the kit has no exit status; where nobody does, nothing is written.
pub const STATUS_FILE: i32 = 3;

// Where answers go, and where all else.
#[derive(Clone, Copy)]
pub struct Ends {
    pub out: i32,
    pub err: i32,
}

// A room of so many equal numbers, with its length alone, which lending it as a slice needs.
pub fn filled<T: Copy, const N: usize>(number: T) -> [T; N]
    ensures { N ≡ length result }
{
    [number; N]
}

// Writes what was found, or that the library refused. Gives the status.
fn write_found(
    plan: Plan,
    found: Result<Given, Refusal>,
    text: &[u8],
    starts: &mut [u32],
    rows: &[u32],
    distances: &[u32],
) -> Status {
    match found {
        Ok(found) => write_given(
            plan,
            part(text, 0, plan.length),
            starts,
            rows,
            distances,
            found.given.min(rows.len()).min(distances.len()),
            found.measured,
        ),
        Err(refusal) => refuse(plan.err, refusal.number()),
    }
}

// The whole program: the words of its arguments, each ended by a zero byte; the rooms that it works in; and where answers and all else go.
// Gives the status.
pub fn run<R: Files + Input>(
    rt: &R,
    words: &[u8],
    ends: Ends,
    text: &mut [u8],
    table: &mut [u16],
    room: &mut [u32],
    work: &mut [u32],
    how: &mut [u8],
    marks: &mut [u8],
    rows: &mut [u32],
    distances: &mut [u32],
) -> Status {
    let mut queries: [u16; QUERY_ROOM] = filled(0);
    let mut struck = none_struck();
    let plan = match plan_question(
        rt,
        words,
        ends.out,
        ends.err,
        text,
        table,
        room,
        &mut queries,
        &mut struck,
    ) {
        Ok(plan) => plan,
        Err(status) => return status,
    };
    let found = find_rows(
        plan, table, &queries, &struck, room, work, how, marks, rows, distances,
    );
    write_found(plan, found, text, room, rows, distances)
}

// Puts the arguments behind the program's name into a room, each ended by a zero byte. Gives how many bytes they are, if all of them fit.
pub fn arguments<R: Env>(rt: &R, room: &mut [u8]) -> Option<usize>
    ensures { IfSome result (λ count. count ≤ length room.new) }
{
    let mut length = 0;
    for i in 1..usize::MAX {
        let mut word = io::buffer();
        let k = match rt.arg(i, &mut word) {
            Ok(k) => k,
            Err(FillError::NotPresent) => break,
            Err(FillError::TooLong) => return None,
        };
        if room.len() - length <= k {
            return None;
        }
        length = put_bytes(STDERR_FILENO, room, length, &word[..k], 0);
    }
    Some(length)
}

// Tells the launcher the number of the status that the program ends with, which it knows.
fn tell_launcher(status: Status, number: u32)
    requires { (number ≡ number_of status) × Known number }
{
    io::print_decimal(STATUS_FILE, u64::from(number));
}

// The program ends so: the launcher is told the number.
pub fn end_with(status: Status) {
    tell_launcher(status, status.number());
}

// The arguments are longer than their room.
pub fn refuse_words(err: i32) -> Status {
    say(err, b"the arguments are too long\n");
    Status::AskedWrongly
}
