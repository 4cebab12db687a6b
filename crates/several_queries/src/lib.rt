// One search after the other over one index, and what they found put together.
#![tactic(auto)]

ghost use Rattle.std.specs.Prelude.{◌≤◌, length, take, ◌≡◌};
ghost use Rattle.buffers.specs.Wiped.{wiped};
ghost use Rattle.marking.specs.Lent.{Lent};
ghost use Rattle.marking.specs.Written.{write};
ghost use Rattle.measure.specs.Table.{from, rows_of};
ghost use Rattle.rowset.specs.Sets.{is_in_lem};
ghost use Rattle.several_queries.specs.Searched.{Asked, Fit};
ghost use Rattle.tree.specs.Grove.{tree_of};
ghost use Rattle.tree.specs.Nearest.{measured};
ghost use Rattle.tree.specs.Radius.{marks, veiled};
ghost use Rattle.words.specs.Words.{circles#, n#};

use descent::search;
use joined_marks::join;
use radius::Found;
use row_distances::row_of;
use tallies::tally;
use words::places::rows;

// How many rows a search measured.
fn measured_rows(how: &[u8], n: usize) -> usize
    requires { n ≤ length how.now }
    ensures { (result ≡ measured (take n how.now)) × (result ≤ n) }
{
    tally(how, n).measured
}

// The how-bytes of one search, over what stood there.
fn mark_one(
    table: &[u16],
    c: usize,
    index: &[u32],
    query: &[u16],
    r: u32,
    withdrawn: &[u32],
    how: &mut [u8],
)
    requires lent { Lent index.now table.now c query.now how.old }
    requires index_in_bounds { n# index.now ≤ length how.old }
    ensures { how.new ≡ write (veiled (is_in_lem withdrawn.now)
        (marks (from table.now c (circles# index.now) query.now) r (tree_of index.now)))
        (wiped (n# index.now) how.old) }
{
    let n = rows(index);
    how[..n].fill(0);
    let mut unlisted = [0; 1];
    search(
        table,
        c,
        index,
        query,
        r,
        withdrawn,
        how,
        &mut unlisted[..0],
    );
}

// Searches an index that was just built for each of the queries, over marks that are zero.
pub fn mark_each(
    table: &[u16],
    c: usize,
    index: &[u32],
    queries: &[u16],
    r: u32,
    withdrawn: &[u32],
    how: &mut [u8],
    marks: &mut [u8],
) -> Found
    requires { Fit index.now table.now c queries.now how.old marks.old }
    ensures { Asked table.now c index.now queries.now r withdrawn.now
        (rows_of queries.now c) how.old how.new marks.old marks.new result.inside result.measured }
{
    let n = rows(index);
    let asked = queries.len() / c;
    let mut inside = 0;
    let mut measured = 0;
    for k in 0..asked {
        mark_one(table, c, index, row_of(queries, c, k), r, withdrawn, how);
        measured += measured_rows(how, n);
        inside += join(how, marks, n);
    }
    Found { inside, measured }
}
