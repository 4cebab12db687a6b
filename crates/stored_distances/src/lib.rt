// The full check's pass over stored distances. Leaves come in the order of nodes, which is not that of their positions, so that the least of all is
// taken.
#![tactic(auto)]

ghost use Rattle.std.specs.Prelude.{◌<◌, IfSome, unwrap_or};
ghost use Rattle.stored_distances.specs.Leaves.{leaf_wrong_lem};
ghost use Rattle.laws.specs.First.{First};
ghost use Rattle.measure.specs.Table.{between};
ghost use Rattle.tree.specs.Check.{wrong_dist};
ghost use Rattle.tree.specs.Tested.{Tested};
ghost use Rattle.words.specs.Words.{nodes#, circles#, n#};

use reach::{apart, node_end};
use words::places::{node_child, node_first, node_start, nodes, rows, stored_at};

// The lowest position where leaf k stores a wrong distance, or n: no `Option`, since the least of all leaves is taken.
fn leaf_wrong(table: &[u16], c: usize, index: &[u32], k: usize) -> usize
    requires tested { Tested index.now table.now c }
    requires k_bound { k < nodes# index.now }
    ensures { First (leaf_wrong_lem (between table.now c (circles# index.now)) index.now k) 0
        (n# index.now) result }
{
    let n = rows(index);
    if node_child(index, k) != 0 {
        return n;
    }
    let f = node_first(index, k);
    let end = node_end(index, k);
    let circles = words::places::circles(index);
    for p in node_start(index, k)..end {
        if stored_at(index, p) != apart(table, c, circles, index, f, p) {
            return p;
        }
    }
    n
}

// The lowest position with a wrong stored distance.
pub fn first_wrong_distance(table: &[u16], c: usize, index: &[u32]) -> Option<usize>
    requires { Tested index.now table.now c }
    ensures first { First (wrong_dist (between table.now c (circles# index.now)) index.now) 0
        (n# index.now) (unwrap_or result (n# index.now)) }
    ensures inside { IfSome result (λ p. p < n# index.now) }
{
    let n = rows(index);
    let mut low = n;
    for k in 0..nodes(index) {
        low = low.min(leaf_wrong(table, c, index, k));
    }
    if low < n { Some(low) } else { None }
}
