// From the root down to the leaf that a new row joins.
#![tactic(auto)]

ghost use Rattle.std.specs.Prelude.{◌<◌, ◌≤◌, true, ◌≡◌};
ghost use Rattle.leafward.specs.Way.{LeafFound, NewRow, closest_kid};
ghost use Rattle.measure.specs.Table.{between};
ghost use Rattle.words.specs.Shape.{inner};
ghost use Rattle.words.specs.Words.{nodes#, circles#, m#};

use limits::Params;
use row_distances::row_distance;
use words::places::{centres, circles, node_child, node_first};

// A leaf: its node's number, and how many levels can be below it.
#[derive(Clone, Copy)]
pub struct Leaf {
    pub node: usize,
    pub left: usize,
}

// Which child of the inner node k has the centre closest to row z, ties to the earliest.
pub fn closest_child(table: &[u16], c: usize, index: &[u32], k: usize, z: usize) -> usize
    requires new_row { NewRow table.now c index.now z }
    requires k_bound { (k < nodes# index.now) × (inner index.now k ≡ true) }
    ensures { (result ≡ closest_kid (between table.now c (circles# index.now)) index.now z k)
        × (result < m# index.now) }
{
    let child = node_child(index, k);
    let m = centres(index);
    let set = circles(index);
    let mut at = 0;
    let mut least = row_distance(table, c, set, node_first(index, child), z);
    for j in 1..m {
        let d = row_distance(table, c, set, node_first(index, child + j), z);
        if d < least {
            at = j;
            least = d;
        }
    }
    at
}

// The leaf that row z joins.
pub fn leaf_for(table: &[u16], c: usize, index: &[u32], z: usize) -> Leaf
    requires new_row { NewRow table.now c index.now z }
    requires bound { 1 ≤ nodes# index.now }
    ensures { LeafFound (between table.now c (circles# index.now)) index.now z result.node result.left }
{
    let mut node = 0;
    let mut left = Params::MOST_DEPTH;
    let mut child = node_child(index, 0);
    while child != 0 {
        node = child + closest_child(table, c, index, node, z);
        left -= 1;
        child = node_child(index, node);
    }
    Leaf { node, left }
}
