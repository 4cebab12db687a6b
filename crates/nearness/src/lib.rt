// The full check's pass over centres: a member is closer to the centre of another child of its node.
#![tactic(auto)]

ghost use Rattle.std.specs.Prelude.{◌+◌, ◌<◌, ◌≤◌, true, ◌≡◌};
ghost use Rattle.child_strays.specs.Strays.{FirstIn, Firsts, kid_strays};
ghost use Rattle.limits.specs.Said.{said};
ghost use Rattle.measure.specs.Space.{Space};
ghost use Rattle.measure.specs.Table.{between};
ghost use Rattle.nearness.specs.Strays.{all_strays, told};
ghost use Rattle.tree.specs.Check.{strays};
ghost use Rattle.tree.specs.Tested.{Tested};
ghost use Rattle.words.specs.InShape.{InShape};
ghost use Rattle.words.specs.Shape.{inner};
ghost use Rattle.words.specs.Words.{nodes#, child#, circles#, m#};

use child_strays::child_stray;
use limits::Params;
use reach::node_end;
use words::places::{centres, node_child, node_first, nodes};

// The lowest node that has a member closer to another centre, and the lowest such position there.
#[derive(Clone, Copy)]
pub struct Stray {
    pub node: usize,
    pub position: usize,
}

// The firsts of the m nodes from number `child` on.
fn firsts(index: &[u32], child: usize) -> [usize; Params::MOST_CENTRES]
    requires in_shape { InShape index.now }
    requires index_bound { child + m# index.now ≤ nodes# index.now }
    ensures { Firsts index.now child result }
{
    let mut fs = [0usize; Params::MOST_CENTRES];
    for i in 0..centres(index) {
        fs[i] = node_first(index, child + i);
    }
    fs
}

// The same, by the loop for few columns where there are no more and no circle.
fn child_first(
    table: &[u16],
    c: usize,
    index: &[u32],
    fs: &[usize; Params::MOST_CENTRES],
    k: usize,
    a: usize,
) -> usize
    requires tested { Tested index.now table.now c × Space (between table.now c (circles# index.now)) }
    requires k_bound { (k < nodes# index.now) × (inner index.now k ≡ true) × (a < m# index.now) × Firsts index.now (child# index.now k) fs.now }
    ensures { FirstIn index.now k (kid_strays (between table.now c (circles# index.now)) index.now k
        (child# index.now k + a)) result }
{
    if words::places::circles(index) == 0 && c <= 6 {
        few_columns::child_stray(table, c, index, fs, k, a)
    } else {
        child_stray(table, c, index, fs, k, a)
    }
}

// In node k: the lowest position whose row is closer to another child's centre, or the end of its run, so that the least of all children is one `min`.
fn first_stray(table: &[u16], c: usize, index: &[u32], k: usize) -> usize
    requires tested { Tested index.now table.now c × Space (between table.now c (circles# index.now)) }
    requires k_bound { k < nodes# index.now }
    ensures { FirstIn index.now k
        (strays (between table.now c (circles# index.now)) index.now k) result }
{
    let mut low = node_end(index, k);
    let child = node_child(index, k);
    if child == 0 {
        return low;
    }
    let fs = firsts(index, child);
    for a in 0..centres(index) {
        low = low.min(child_first(table, c, index, &fs, k, a));
    }
    low
}

// The first member that is closer to another centre: by node, then by position.
pub fn closeness(table: &[u16], c: usize, index: &[u32]) -> Option<Stray>
    requires { Tested index.now table.now c × Space (between table.now c (circles# index.now)) }
    ensures { told result ≡ said (all_strays (between table.now c (circles# index.now)) index.now) }
{
    for node in 0..nodes(index) {
        let position = first_stray(table, c, index, node);
        if position < node_end(index, node) {
            return Some(Stray { node, position });
        }
    }
    None
}
