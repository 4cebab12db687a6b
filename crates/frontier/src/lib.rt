// The frontier of a nearest search: what waits, under its bounds.
#![tactic(auto)]

ghost use Rattle.std.specs.Prelude.{◌+◌, ◌-◌, ◌*◌, ◌<◌, ◌≤◌, suc, ℕ, length, ◌≡◌};
ghost use Rattle.frontier.specs.Waiting.{FrontierRoom, More, least_kept, noded, placed};
ghost use Rattle.frontier.specs.Workspace.{kept};
ghost use Rattle.queue.specs.Entry.{packed};
ghost use Rattle.queue.specs.Queue.{Queue};
ghost use Rattle.words.specs.InShape.{InShape};
ghost use Rattle.words.specs.Words.{nodes#, count#, first#, n#, start#};

use crate::workspace::DISTANCES;
use bounds::{kid_bound, place_bound};
use queue::pack;
use queue_push::push;
use words::places::{node_count, node_first, node_start, pair_at};

pub mod workspace;

// Queues an entry, unless its key is above the last distance: how many wait then.
fn push_due(work: &mut [u32], len: usize, last: u32, key: u32, id: u32) -> usize
    requires queue { Queue work.old 0 len }
    requires len_in_bounds { len + len + 1 < length work.old }
    ensures { More work.old work.new len 1 (λ (i : ℕ). packed key id) last result }
{
    if last < key {
        return len;
    }
    push(work, 0, len, pack(key, id));
    len + 1
}

// Queues the positions from s + 1 up to e of a leaf with the bound b whose first is at x, but for those above the last distance.
fn queue_rows(
    index: &[u32],
    work: &mut [u32],
    n: usize,
    len: usize,
    s: usize,
    e: usize,
    b: u32,
    x: u32,
    last: u32,
) -> usize
    requires frontier_room { FrontierRoom index.now work.old n len (e - (s + 1)) }
    requires s_lt_e { (s < e) × (e ≤ n) }
    ensures { More work.old work.new len (e - (s + 1)) (λ (i : ℕ). placed index.now b x (s + suc i))
        last result }
{
    // The positions' words do not move as entries are queued, which the compiler cannot tell.
    let base = pair_at(index, 0);
    let mut size = len;
    for p in s + 1..e {
        let stored = index[base + 2 * p + 1];
        let key = place_bound(b, x, stored);
        size = push_due(work, size, last, key, (2 * n + p) as u32);
    }
    size
}

// Opens leaf k, which has the bound b: its rows but the first wait, each under its own bound, but for those above the last distance.
pub fn open_leaf(
    index: &[u32],
    work: &mut [u32],
    n: usize,
    len: usize,
    k: usize,
    b: u32,
    last: u32,
) -> usize
    requires frontier_room { FrontierRoom index.now work.old n len (count# index.now k) }
    requires k_bound { k < nodes# index.now }
    ensures { More work.old work.new len (count# index.now k - 1)
        (λ (i : ℕ). placed index.now b (kept work.old n (first# index.now k))
        (start# index.now k + suc i)) last result }
{
    let f = node_first(index, k);
    let x = work[DISTANCES * n + f];
    let s = node_start(index, k);
    queue_rows(index, work, n, len, s, s + node_count(index, k), b, x, last)
}

// The least of the distances kept for the firsts of the nodes from a up to e.
pub fn nearest_centre(index: &[u32], work: &[u32], n: usize, a: usize, e: usize) -> u32
    requires { (InShape index.now) × (n ≡ n# index.now) × (a < e) × (e ≤ nodes# index.now) × (6 * n ≤ length work.now) }
    ensures { result ≡ least_kept index.now work.now a (e - (a + 1)) }
{
    let f = node_first(index, a);
    let mut y = work[DISTANCES * n + f];
    for j in a + 1..e {
        let r = node_first(index, j);
        y = y.min(work[DISTANCES * n + r]);
    }
    y
}

// Queues the nodes from a up to e, whose parent has the bound b and whose centres are at y at least, but for those above the last distance.
pub fn queue_children(
    index: &[u32],
    work: &mut [u32],
    n: usize,
    len: usize,
    a: usize,
    e: usize,
    b: u32,
    y: u32,
    last: u32,
) -> usize
    requires frontier_room { FrontierRoom index.now work.old n len (e - a) }
    requires a_le_e { (a ≤ e) × (e ≤ nodes# index.now) }
    ensures { More work.old work.new len (e - a) (λ (i : ℕ). noded index.now work.old b y (a + i))
        last result }
{
    let mut size = len;
    for j in a..e {
        let r = node_first(index, j);
        let x = work[DISTANCES * n + r];
        let key = kid_bound(index, j, b, y, x);
        size = push_due(work, size, last, key, j as u32);
    }
    size
}
