// The radius search on words that are known to be right: the root, and the descent below it, over the index and the lent table.
#![tactic(auto)]

ghost use Rattle.marking.specs.Lent.{Lent};
ghost use Rattle.marking.specs.Listed.{Leaves};
ghost use Rattle.measure.specs.Table.{from};
ghost use Rattle.rowset.specs.Sets.{is_in_lem};
ghost use Rattle.tree.specs.Grove.{tree_of};
ghost use Rattle.tree.specs.Radius.{marks};
ghost use Rattle.words.specs.Words.{circles#};
ghost use Rattle.std.specs.Prelude.{◌≡◌};

use descending::descend;
use fates::{Fate, fate_of};
use limits::Params;
use marking::row::mark_measured;
use row_distances::query_distance;
use sweeping::sweep;
use words::places::{circles, node_first, node_radius, nodes};

// The search, with what is lent known to fit the index: so that many searches take one test. A withdrawn row is measured as any other, and
// never in; the set may have any length, and a row beyond its words is not withdrawn. Of the how-bytes and the list each may be empty, and
// is then left out: the bytes that are out unmeasured stay as they were, and the list goes on behind what it holds.
pub fn search(
    table: &[u16],
    c: usize,
    index: &[u32],
    query: &[u16],
    r: u32,
    withdrawn: &[u32],
    how: &mut [u8],
    list: &mut [u32],
)
    requires { Lent index.now table.now c query.now how.old }
    ensures { Leaves (is_in_lem withdrawn.now) (from table.now c (circles# index.now) query.now)
        (marks (from table.now c (circles# index.now) query.now) r (tree_of index.now))
        how.old how.new list.old list.new }
{
    if nodes(index) == 0 {
        return;
    }
    // the root is measured and settled here, and not by the functions that its descendants go through: each of these is then called from one place,
    // and is compiled there
    let first = node_first(index, 0);
    let x = query_distance(table, c, circles(index), query, first);
    mark_measured(x, first, r, withdrawn, how, list);
    let fate = fate_of(x, node_radius(index, 0), 0, r);
    if let Fate::Swept = fate {
        sweep(index, 0, withdrawn, how, list);
        return;
    }
    descend(
        table,
        c,
        index,
        query,
        0,
        x,
        0,
        r,
        Params::MOST_DEPTH,
        withdrawn,
        how,
        list,
    );
}
