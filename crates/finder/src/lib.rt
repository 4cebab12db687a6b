// Questions about a table, answered exactly: which rows are near, and which are the nearest. The index is built over the table, and searched.
// A question is a query's numbers, not a row's number: so a row, a label's row and values typed in are one call.
#![tactic(auto)]

ghost use Rattle.build.specs.Calls.{Builds, nodes_of, words_of};
ghost use Rattle.finder.specs.Calls.{Finds, Near, centres, leaf_rows};
ghost use Rattle.limits.specs.Refusal.{outcome};
ghost use Rattle.nearest.specs.Given.{given_of, measured_of as measured_given};
ghost use Rattle.radius.specs.Calls.{inside_of, measured_of as measured_found};

use build::Built;
use circular_columns::off_circle;
use limits::{Params, Refusal};
use nearest::Given;
use query_refusals::test_queries;
use radius::Found;
use set_refusals::set_bad;
use several_queries::mark_each;

// Centres of an inner node, and rows of a leaf: what measures best for one build and one search (docs/FIGURES.md, m and l). For many searches
// bourascul.h advises others; the answers are the same.
const CENTRES: usize = 2;

const LEAF: usize = 1024;

// The index of the table, built into the room.
fn index_over(
    table: &[u16],
    c: usize,
    circles: u32,
    room: &mut [u32],
    work: &mut [u32],
) -> Result<Built, Refusal>
    ensures { Builds table.now c circles 2 centres leaf_rows room.old work.old
        room.new work.new (outcome result).0 (words_of result) (nodes_of result) }
{
    build::build(
        table,
        c,
        CENTRES,
        LEAF,
        circles,
        Params::LAST_EDITION,
        room,
        work,
    )
}

// Marks every row that is not withdrawn and is within r of one query at least. The queries stand one after the other, as the table's rows do.
pub fn mark_near(
    table: &[u16],
    c: usize,
    circles: u32,
    queries: &[u16],
    r: u32,
    withdrawn: &[u32],
    room: &mut [u32],
    work: &mut [u32],
    how: &mut [u8],
    marks: &mut [u8],
) -> Result<Found, Refusal>
    ensures { Near table.now c circles queries.now r withdrawn.now room.old room.new
        work.old work.new how.old how.new marks.old marks.new
        (outcome result).0 (inside_of result) (measured_found result) }
{
    let built = index_over(table, c, circles, room, work)?;
    let n = table.len() / c;
    let off = off_circle(queries, c, circles);
    let bad = set_bad(withdrawn, n);
    test_queries(n, c, queries.len(), how.len(), marks.len(), off, bad)?;
    let words = built.words;
    marks[..n].fill(0);
    Ok(mark_each(table, c, &room[..words], queries, r, withdrawn, how, marks))
}

// Puts the w nearest to the query of those that are not withdrawn, nearest first.
pub fn find_nearest(
    table: &[u16],
    c: usize,
    circles: u32,
    query: &[u16],
    w: usize,
    withdrawn: &[u32],
    room: &mut [u32],
    work: &mut [u32],
    how: &mut [u8],
    rows: &mut [u32],
    distances: &mut [u32],
) -> Result<Given, Refusal>
    ensures { Finds table.now c circles query.now w withdrawn.now room.old room.new
        work.old work.new how.old how.new rows.old rows.new distances.old
        distances.new (outcome result).0 (given_of result) (measured_given result) }
{
    let built = index_over(table, c, circles, room, work)?;
    let words = built.words;
    nearest::nearest(
        table,
        c,
        &room[..words],
        query,
        w,
        withdrawn,
        rows,
        distances,
        how,
        work,
    )
}
