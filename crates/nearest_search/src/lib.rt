// The nearest search itself: the rounds, over the nodes of an index and the single rows of its opened leaves, and the answers handed out.
#![tactic(auto)]

ghost use Rattle.nearest_search.specs.Found.{FoundListed, FoundNearest, Searchable};
ghost use Rattle.nearest_steps.specs.Asked.{asks, lends};
ghost use Rattle.rows_listed.specs.Listed.{Blank};
ghost use Rattle.words.specs.Words.{n#};

use answers_held::give;
use frontier::workspace::{ANSWERS, END, MET};
use nearest_rounds::search;

// How many answers there are, and how many rows were measured.
#[derive(Clone, Copy)]
pub struct Counts {
    pub given: usize,
    pub measured: usize,
}

// The search on an index that is known to be in shape, with what is lent known to fit it and no row marked: so that many searches take one test and
// one clearing. The rows of the set are withdrawn; it may have any length, and a row beyond it is not. The workspace may hold anything, and is left
// as the search used it: the rows measured are listed there, by which `unmark` unmarks them.
pub fn find_blank(
    table: &[u16],
    c: usize,
    index: &[u32],
    query: &[u16],
    wanted: usize,
    withdrawn: &[u32],
    rows: &mut [u32],
    distances: &mut [u32],
    how: &mut [u8],
    work: &mut [u32],
) -> Counts
    requires searchable { Searchable (asks table.now c index.now query.now wanted withdrawn.now)
        (lends rows.old distances.old how.old work.old) }
    requires blank { Blank (n# index.now) how.old }
    ensures { FoundListed (asks table.now c index.now query.now wanted withdrawn.now)
        (lends rows.old distances.old how.old work.old)
        (lends rows.new distances.new how.new work.new) result.given result.measured }
{
    let n = words::places::rows(index);
    if n == 0 {
        return Counts {
            given: 0,
            measured: 0,
        };
    }
    let seen = search(table, c, query, index, wanted, withdrawn, how, work);
    give(rows, distances, how, work, ANSWERS * n, seen.held);
    Counts {
        given: seen.held,
        measured: seen.next - MET * n,
    }
}

// The same for how-bytes that may hold anything; the workspace is cleared.
pub fn find(
    table: &[u16],
    c: usize,
    index: &[u32],
    query: &[u16],
    wanted: usize,
    withdrawn: &[u32],
    rows: &mut [u32],
    distances: &mut [u32],
    how: &mut [u8],
    work: &mut [u32],
) -> Counts
    requires { Searchable (asks table.now c index.now query.now wanted withdrawn.now)
        (lends rows.old distances.old how.old work.old) }
    ensures { FoundNearest (asks table.now c index.now query.now wanted withdrawn.now)
        (lends rows.old distances.old how.old work.old)
        (lends rows.new distances.new how.new work.new) result.given result.measured }
{
    let n = words::places::rows(index);
    how[..n].fill(0);
    let counts = find_blank(
        table, c, index, query, wanted, withdrawn, rows, distances, how, work,
    );
    work[..END * n].fill(0);
    counts
}
