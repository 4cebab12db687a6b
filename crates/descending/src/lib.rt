// The descent: an opened node's rows, and then its children, each of which is swept, closed or opened.
#![tactic(auto)]

ghost use Rattle.std.specs.Prelude.{◌<◌, ◌≤◌, ◌≡◌};
ghost use Rattle.descending.specs.Descent.{node_marks};
ghost use Rattle.fates.specs.Settling.{fate_of_lem};
ghost use Rattle.fates.specs.declared.Fate.TheVariants.{Opened};
ghost use Rattle.limits.specs.Limits.{max_distance};
ghost use Rattle.marking.specs.Lent.{Lent};
ghost use Rattle.marking.specs.Listed.{Leaves};
ghost use Rattle.marking.specs.Marks.{first_at};
ghost use Rattle.measure.specs.Table.{from};
ghost use Rattle.rowset.specs.Sets.{is_in_lem};
ghost use Rattle.words.specs.InShape.{Left};
ghost use Rattle.words.specs.Words.{nodes#, circles#, radius#};

use bounds::kid_bound;
use fates::{Fate, settle};
use opened::centres::{least_of, open_inner};
use opened::leaf::open_leaf;
use words::places::{centres, node_child};

// The descent at node k, which is to be opened: its first is at x, it has this bound, and `levels` are left below it to depth 24. A
// child is swept or closed without a call of its own.
pub fn descend(
    table: &[u16],
    c: usize,
    index: &[u32],
    query: &[u16],
    k: usize,
    x: u32,
    bound: u32,
    r: u32,
    levels: usize,
    withdrawn: &[u32],
    how: &mut [u8],
    list: &mut [u32],
)
    requires lent { Lent index.now table.now c query.now how.old }
    requires left { Left index.now levels k × (k < nodes# index.now) × (x ≤ max_distance)
        × (x ≡ first_at (from table.now c (circles# index.now) query.now) index.now k)
        × (Opened ≡ fate_of_lem x (radius# index.now k) bound r) }
    ensures { Leaves (is_in_lem withdrawn.now) (from table.now c (circles# index.now) query.now)
        (node_marks (from table.now c (circles# index.now) query.now) r index.now levels k bound)
        how.old how.new list.old list.new }
{
    let ch = node_child(index, k);
    if ch == 0 {
        open_leaf(table, c, index, query, k, x, r, withdrawn, how, list);
        return;
    }
    let m = centres(index);
    let ds = open_inner(table, c, index, query, ch, x, r, withdrawn, how, list);
    let y = least_of(ds, m);
    for j in 0..m {
        let d = ds[j];
        let kid = ch + j;
        let b = kid_bound(index, kid, bound, y, d);
        let fate = settle(index, kid, d, b, r, withdrawn, how, list);
        if let Fate::Opened = fate {
            descend(
                table,
                c,
                index,
                query,
                kid,
                d,
                b,
                r,
                levels - 1,
                withdrawn,
                how,
                list,
            );
        }
    }
}
