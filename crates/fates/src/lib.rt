// What becomes of a node. The rule stands here once: the root and every child go through it.
#![tactic(auto)]

ghost use Rattle.std.specs.Prelude.{◌<◌, ◌≤◌, ◌≡◌};
ghost use Rattle.fates.specs.Settling.{Settled, fate_of_lem};
ghost use Rattle.limits.specs.Limits.{max_distance};
ghost use Rattle.marking.specs.Lent.{Bytes};
ghost use Rattle.rowset.specs.Sets.{is_in_lem};
ghost use Rattle.words.specs.InShape.{InShape};
ghost use Rattle.words.specs.Words.{nodes#, radius#};

use sweeping::sweep;
use words::places::node_radius;

// A node is swept, closed or opened.
#[derive(Clone, Copy)]
pub enum Fate {
    Swept,
    Closed,
    Opened,
}

// Which of them, in this order: x is the distance of the node's first.
#[tactic(auto, unfolding(crate::specs::Settling::fate_of_lem))]
pub fn fate_of(x: u32, radius: u32, bound: u32, r: u32) -> Fate
    requires { (x ≤ max_distance) × (radius ≤ max_distance) }
    ensures { result ≡ fate_of_lem x radius bound r }
{
    if x + radius <= r {
        Fate::Swept
    } else if r < bound {
        Fate::Closed
    } else {
        Fate::Opened
    }
}

// Node k, whose first is at x and which has this bound: its fate, and where that is to be swept, it is swept at once.
pub fn settle(
    index: &[u32],
    k: usize,
    x: u32,
    bound: u32,
    r: u32,
    withdrawn: &[u32],
    how: &mut [u8],
    list: &mut [u32],
) -> Fate
    requires in_shape { InShape index.now }
    requires k_bound { (k < nodes# index.now) × Bytes index.now how.old × (x ≤ max_distance) }
    ensures fate { result ≡ fate_of_lem x (radius# index.now k) bound r }
    ensures marks { Settled (is_in_lem withdrawn.now) index.now k result how.old how.new list.old
        list.new }
{
    let fate = fate_of(x, node_radius(index, k), bound, r);
    if let Fate::Swept = fate {
        sweep(index, k, withdrawn, how, list);
    }
    fate
}
