// The split of one run: its centres are chosen, and its entries go to the second half of the workspace, group by group, and back.
#![tactic(auto)]

ghost use Rattle.std.specs.Prelude.{◌+◌, ◌≤◌, drop, length, take, ◌++◌, ◌≡◌};
ghost use Rattle.rounds.specs.Stretch.{stretch};
ghost use Rattle.split.specs.Runs.{SplitAmong, Splittable};
ghost use Rattle.split.specs.Shares.{Sharable, Shared};

use groups::gather;
use rounds::choose;
use words::places::HEADER;
use words::writing::put_node;

// How many words a node has while the tree grows: those of edition 2.
pub const WIDTH: usize = 5;

// Copies the words from `lo + over` on back to lo, as far as hi.
pub fn copy_back(work: &mut [u32], lo: usize, hi: usize, over: usize)
    requires { (lo ≤ hi) × (hi + over ≤ length work.old) }
    ensures { work.new ≡ take lo work.old
        ++ (stretch work.old (lo + over) (hi + over) ++ drop hi work.old) }
{
    work.copy_within(lo + over..hi + over, lo);
}

// Shares out the run of `count` positions from s on, whose m centres are at its front: its children are the nodes from `made` on.
fn share(
    room: &mut [u32],
    work: &mut [u32],
    n: usize,
    m: usize,
    s: usize,
    count: usize,
    made: usize,
)
    requires { Sharable room.old work.old n m s count made }
    ensures { Shared room.old work.old n m s count made room.new work.new }
{
    let mut at = s;
    for t in 0..m {
        let first = work[3 * (s + t)];
        let g = gather(work, 3 * (s + m), 3 * (s + count), first, 3 * (n + at));
        let node = HEADER + WIDTH * (made + t);
        put_node(
            &mut room[node..],
            at as u32,
            g.count as u32,
            0,
            g.radius,
            g.inner,
        );
        at += g.count;
    }
}

// Splits the run of `count` positions from s on into m, with its centres among the first `early` rows: its children are the nodes from `made` on.
pub fn split_run(
    table: &[u16],
    c: usize,
    circles: u32,
    m: usize,
    early: usize,
    n: usize,
    room: &mut [u32],
    work: &mut [u32],
    s: usize,
    count: usize,
    made: usize,
)
    requires splittable { Splittable table.now c circles m n room.old work.old s count made }
    requires m_le_early { (m ≤ early) × (early ≤ count) }
    ensures { SplitAmong table.now c circles m early n room.old work.old s count made
        room.new work.new }
{
    let lo = 3 * s;
    let hi = lo + 3 * count;
    choose(table, c, circles, m, early, &mut work[lo..hi]);
    share(room, work, n, m, s, count, made);
    copy_back(work, lo, hi, 3 * n);
}
