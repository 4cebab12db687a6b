// The rows that answer a question: found by the library, and put in the order that is asked for.
#![tactic(auto)]

mod kept;

use answer_lines::plan::Plan;
use answer_order::put_in_order;
use asking::Way;
use asking::pieces::part;
use finder::{find_nearest, mark_near};
use kept::keep_marked;
use limits::Refusal;
use nearest::Given;
use queries::numbers_part;

// As many words as the set of the most rows has.
const SET_WORDS: usize = 32_768;

// The words of the set of n rows, as far as they are there.
fn set_of(struck: &[u32], n: usize) -> &[u32] {
    let words = n.div_ceil(32).min(SET_WORDS);
    &struck[..words.min(struck.len())]
}

// Every row within a distance of one of the queries, in the order that is asked for.
fn find_like(
    plan: Plan,
    table: &[u16],
    queries: &[u16],
    struck: &[u32],
    room: &mut [u32],
    work: &mut [u32],
    how: &mut [u8],
    marks: &mut [u8],
    rows: &mut [u32],
    distances: &mut [u32],
) -> Result<Given, Refusal> {
    let found = mark_near(
        table,
        plan.k,
        plan.circles,
        queries,
        plan.number,
        struck,
        room,
        work,
        how,
        marks,
    )?;
    let given = keep_marked(
        table,
        plan.k,
        plan.circles,
        queries,
        plan.queries,
        part(marks, 0, plan.n),
        rows,
        distances,
    );
    if plan.by_distance {
        put_in_order(rows, distances, given, work);
    }
    Ok(Given {
        given,
        measured: found.measured,
    })
}

// Finds the rows by the plan, over the table of the chosen columns.
pub fn find_rows(
    plan: Plan,
    table: &[u16],
    queries: &[u16],
    struck: &[u32],
    room: &mut [u32],
    work: &mut [u32],
    how: &mut [u8],
    marks: &mut [u8],
    rows: &mut [u32],
    distances: &mut [u32],
) -> Result<Given, Refusal> {
    if rows.len().min(distances.len()) < plan.n {
        return Err(Refusal::Room);
    }
    let table = numbers_part(table, 0, plan.used);
    let queries = numbers_part(queries, 0, plan.asked);
    let struck = set_of(struck, plan.n);
    match plan.way {
        Way::Like => find_like(
            plan, table, queries, struck, room, work, how, marks, rows, distances,
        ),
        Way::Nearest => find_nearest(
            table,
            plan.k,
            plan.circles,
            queries,
            plan.number as usize,
            struck,
            room,
            work,
            how,
            rows,
            distances,
        ),
    }
}
