// The run of an old node when rows have come to the end of another node's run: whether it holds that run, where it starts, how many rows it has; and
// the old node's first child.
#![tactic(auto)]

ghost use Rattle.std.specs.Prelude.{◌+◌, ◌<◌, ◌≤◌, ◌≡◌};
ghost use Rattle.moved_runs.specs.Runs.{holds, new_child, new_count, new_start};
ghost use Rattle.words.specs.InShape.{InShape};
ghost use Rattle.words.specs.Words.{nodes#, n#};

use reach::node_end;
use words::places::{node_child, node_count, node_start};

// Node k's run holds node v's.
pub fn holds_run(index: &[u32], v: usize, k: usize) -> bool
    requires in_shape { InShape index.now }
    requires v_bound { (v < nodes# index.now) × (k < nodes# index.now) }
    ensures { result ≡ holds index.now v k }
{
    node_start(index, k) <= node_start(index, v) && node_end(index, v) <= node_end(index, k)
}

// Node k's start when `added` rows have come to the end of node v's run.
pub fn start_of(index: &[u32], v: usize, added: usize, k: usize) -> usize
    requires in_shape { InShape index.now }
    requires v_bound { (v < nodes# index.now) × (k < nodes# index.now) × (added ≤ 1048576) }
    ensures { (result ≡ new_start index.now v added k) × (result ≤ n# index.now + added) }
{
    let s = node_start(index, k);
    if node_end(index, v) <= s {
        s + added
    } else {
        s
    }
}

// Node k's count then.
pub fn count_of(index: &[u32], v: usize, added: usize, k: usize) -> usize
    requires in_shape { InShape index.now }
    requires v_bound { (v < nodes# index.now) × (k < nodes# index.now) × (added ≤ 1048576) }
    ensures { (result ≡ new_count index.now v added k) × (result ≤ n# index.now + added) }
{
    let count = node_count(index, k);
    if holds_run(index, v, k) {
        count + added
    } else {
        count
    }
}

// Node k's first child in the old index; node v has none yet.
pub fn child_of(index: &[u32], v: usize, k: usize) -> usize
    requires in_shape { InShape index.now }
    requires k_bound { k < nodes# index.now }
    ensures { (result ≡ new_child index.now v k) × (result < 4294967296) }
{
    if k == v { 0 } else { node_child(index, k) }
}
