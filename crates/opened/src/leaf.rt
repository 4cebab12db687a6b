// An opened leaf: each of its rows but the first.
ghost use Rattle.std.specs.Prelude.{◌+◌, ◌<◌, ◌≤◌};
ghost use Rattle.leaf_decision.specs.Decision.{leaf_at};
ghost use Rattle.limits.specs.Limits.{max_distance};
ghost use Rattle.marking.specs.Lent.{Lent};
ghost use Rattle.marking.specs.Listed.{Leaves, span};
ghost use Rattle.measure.specs.Table.{from};
ghost use Rattle.rowset.specs.Sets.{is_in_lem};
ghost use Rattle.words.specs.Words.{nodes#, circles#, count#, start#};

use bare_leaf::{is_bare, open_bare};
use leaf_rows::leaf_row;
use words::places::{circles, node_count, node_start, pair_at};

// An opened leaf, node k, whose first is at x: each row but its first.
pub fn open_leaf(
    table: &[u16],
    c: usize,
    index: &[u32],
    query: &[u16],
    k: usize,
    x: u32,
    r: u32,
    withdrawn: &[u32],
    how: &mut [u8],
    list: &mut [u32],
)
    requires lent { Lent index.now table.now c query.now how.old }
    requires k_bound { (k < nodes# index.now) × (x ≤ max_distance) }
    ensures { Leaves (is_in_lem withdrawn.now) (from table.now c (circles# index.now) query.now)
        (span (leaf_at (from table.now c (circles# index.now) query.now) r index.now x)
        (start# index.now k + 1) (start# index.now k + count# index.now k))
        how.old how.new list.old list.new }
{
    let start = node_start(index, k);
    let end = start + node_count(index, k);
    let base = pair_at(index, 0);
    let round = circles(index);
    if is_bare(how.len(), withdrawn.len(), list.len()) {
        open_bare(
            table,
            c,
            round,
            index,
            query,
            base,
            start + 1,
            end,
            x,
            r,
            how,
        );
        return;
    }
    for p in start + 1..end {
        leaf_row(
            table, c, round, index, query, base, p, x, r, withdrawn, how, list,
        );
    }
}
