// The answers that were found, written, with the closing line.
#![tactic(auto)]

pub mod plan;
mod showing;

ghost use Rattle.std.specs.Prelude.{◌≤◌, length};

use asked_table::reading::names_of;
use plan::Plan;
use saying::{say, say_found, say_number};
use showing::{say_answers, say_head};
use statuses::Status;

// Keeps where the rows' lines start, if these are to be shown.
fn keep_starts(plan: Plan, text: &[u8], starts: &mut [u32]) {
    if plan.shows_text() {
        text_lines::keep_lines(text, plan.from, starts, plan.n);
    }
}

// Writes the answers that were given, or their count.
fn write_rows(
    plan: Plan,
    text: &[u8],
    starts: &mut [u32],
    rows: &[u32],
    distances: &[u32],
    given: usize,
)
    requires { (given ≤ length rows.now) × (given ≤ length distances.now) }
{
    if plan.count {
        say_number(plan.out, given);
        say(plan.out, b"\n");
        return;
    }
    keep_starts(plan, text, starts);
    say_head(plan, names_of(text, plan.names));
    say_answers(plan, text, starts, rows, distances, given);
}

// Writes the answers that were given, or their count, and the closing line. Gives the status.
pub fn write_given(
    plan: Plan,
    text: &[u8],
    starts: &mut [u32],
    rows: &[u32],
    distances: &[u32],
    given: usize,
    measured: usize,
) -> Status
    requires { (given ≤ length rows.now) × (given ≤ length distances.now) }
{
    write_rows(plan, text, starts, rows, distances, given);
    say_found(plan.err, given, measured, plan.n);
    if given == 0 {
        Status::NothingFound
    } else {
        Status::Answered
    }
}
