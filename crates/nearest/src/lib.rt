// The nearest call: refused, or the search.
#![tactic(auto)]

ghost use Rattle.std.specs.Prelude.{min, length};
ghost use Rattle.limits.specs.Refusal.{outcome};
ghost use Rattle.nearest_steps.specs.Asked.{asks, lends};
ghost use Rattle.nearest.specs.Calls.{Answered};
ghost use Rattle.nearest.specs.Given.{given_of, measured_of};

use limits::Refusal;
use nearest_refusals::test_nearest;
use nearest_search::find;

// What a call gives: how many answers, and how many rows were measured.
#[derive(Clone, Copy, PartialEq, Eq)]
pub struct Given {
    pub given: usize,
    pub measured: usize,
}

// The rows nearest to the query, so many as are wanted or remain, by the index: each a row number and its distance, ordered by distance, then row
// number. Rows that are in the set of bits are withdrawn: they are no answers. Of the first n how-bytes each says whether its row was measured (1,
// 3), and whether it is an answer (3).
pub fn nearest(
    table: &[u16],
    c: usize,
    index: &[u32],
    query: &[u16],
    wanted: usize,
    withdrawn: &[u32],
    rows: &mut [u32],
    distances: &mut [u32],
    how: &mut [u8],
    work: &mut [u32],
) -> Result<Given, Refusal>
    ensures { Answered (asks table.now c index.now query.now wanted withdrawn.now)
        (min (length rows.old) (length distances.old))
        (lends rows.old distances.old how.old work.old)
        (lends rows.new distances.new how.new work.new)
        (outcome result).0 (given_of result) (measured_of result) }
{
    let own = rows.len();
    within(
        table, c, index, query, wanted, withdrawn, own, rows, distances, how, work,
    )
}

// The same for a caller who has room of his own for so many answers, which counts as lent: records, that he makes of rows and distances.
pub fn within(
    table: &[u16],
    c: usize,
    index: &[u32],
    query: &[u16],
    wanted: usize,
    withdrawn: &[u32],
    own: usize,
    rows: &mut [u32],
    distances: &mut [u32],
    how: &mut [u8],
    work: &mut [u32],
) -> Result<Given, Refusal>
    ensures { Answered (asks table.now c index.now query.now wanted withdrawn.now)
        (min own (min (length rows.old) (length distances.old)))
        (lends rows.old distances.old how.old work.old)
        (lends rows.new distances.new how.new work.new)
        (outcome result).0 (given_of result) (measured_of result) }
{
    let room = own.min(rows.len()).min(distances.len());
    test_nearest(
        table,
        c,
        index,
        query,
        wanted,
        withdrawn,
        room,
        how.len(),
        work.len(),
    )?;
    let n = words::places::rows(index);
    let found = find(
        table,
        c,
        index,
        query,
        wanted.min(n),
        withdrawn,
        rows,
        distances,
        how,
        work,
    );
    Ok(Given {
        given: found.given,
        measured: found.measured,
    })
}
