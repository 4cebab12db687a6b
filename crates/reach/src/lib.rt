// How far a node's members are from its first: the farthest of them, and the nearest other than the first.
#![tactic(auto)]

ghost use Rattle.std.specs.Prelude.{◌+◌, ◌<◌, ◌≡◌};
ghost use Rattle.measure.specs.Table.{between};
ghost use Rattle.reach.specs.Runs.{Reaches};
ghost use Rattle.tree.specs.Tested.{Tested};
ghost use Rattle.words.specs.InShape.{Whole};
ghost use Rattle.words.specs.Words.{nodes#, circles#, count#, n#, row#, start#};

use row_distances::row_distance;
use words::places::{node_count, node_first, node_start, row_at};

pub mod radii;

// The greatest distance of a member from a node's first, and the least of one other than the first, 0 where there is none.
#[derive(Clone, Copy)]
pub struct Reached {
    pub far: u32,
    pub near: u32,
}

// The position after the last of node k's run.
pub fn node_end(index: &[u32], k: usize) -> usize
    requires whole { Whole index.now }
    requires k_bound { k < nodes# index.now }
    ensures { result ≡ start# index.now k + count# index.now k }
{
    node_start(index, k) + node_count(index, k)
}

// The distance of row f from the row at position p. The index's circles are handed in, so that a loop over positions reads them once.
pub fn apart(table: &[u16], c: usize, circles: u32, index: &[u32], f: usize, p: usize) -> u32
    requires tested { Tested index.now table.now c }
    requires f_bound { (f < n# index.now) × (p < n# index.now) × (circles ≡ circles# index.now) }
    ensures { result ≡ between table.now c (circles# index.now) f (row# index.now p) }
{
    row_distance(table, c, circles, f, row_at(index, p))
}

// How far node k's members are from its first. Each member but the first, which is at 0, is measured once.
pub fn reaches(table: &[u16], c: usize, index: &[u32], k: usize) -> Reached
    requires tested { Tested index.now table.now c }
    requires k_bound { k < nodes# index.now }
    ensures { Reaches (between table.now c (circles# index.now)) index.now k result.far result.near }
{
    let f = node_first(index, k);
    let end = node_end(index, k);
    let second = node_start(index, k) + 1;
    if end <= second {
        return Reached { far: 0, near: 0 };
    }
    let circles = words::places::circles(index);
    let mut far = apart(table, c, circles, index, f, second);
    let mut near = far;
    for p in second + 1..end {
        let x = apart(table, c, circles, index, f, p);
        far = far.max(x);
        near = near.min(x);
    }
    Reached { far, near }
}
