// The index over a table's rows, filled into a room: its tree grown, and its words.
#![tactic(auto)]

ghost use Rattle.std.specs.Prelude.{◌*◌, ◌≤◌, drop, length, ◌++◌, ◌≡◌};
ghost use Rattle.filling.specs.Filled.{Filled, Grown};
ghost use Rattle.growing.specs.Rooted.{Room};
ghost use Rattle.rounds.specs.Entries.{pairs_in};
ghost use Rattle.rounds.specs.Stretch.{stretch};

use growing::{levels, root};
use header_words::put_header;
use limits::Params;
use split::WIDTH;
use words::places::HEADER;

// All nodes. Gives how many.
fn grow(
    table: &[u16],
    c: usize,
    circles: u32,
    m: usize,
    l: usize,
    n: usize,
    room: &mut [u32],
    work: &mut [u32],
) -> usize
    requires { Room table.now c m l n room.old work.old }
    ensures { Grown table.now c circles m l n room.old room.new work.new result }
{
    if n == 0 {
        return 0;
    }
    root(table, c, circles, m, l, n, room, work);
    levels(table, c, circles, m, l, n, room, work)
}

// Each position's row and its distance from its leaf's first.
pub fn put_positions(part: &mut [u32], n: usize, work: &[u32])
    requires { (2 * n ≤ length part.old) × (3 * n ≤ length work.now) }
    ensures { part.new ≡ pairs_in (stretch work.now 0 (3 * n)) ++ drop (2 * n) part.old }
{
    for p in 0..n {
        let at = 2 * p;
        part[at] = work[3 * p];
        part[at + 1] = work[3 * p + 1];
    }
}

// The index over n rows, in a room that is long enough and with a workspace of 6n words. Gives the number of nodes.
pub fn fill(
    table: &[u16],
    c: usize,
    p: Params,
    n: usize,
    room: &mut [u32],
    work: &mut [u32],
) -> usize
    requires { Room table.now c p.centres p.leaf n room.old work.old }
    ensures { Filled table.now c p.circles p.centres p.leaf n
        room.old room.new work.new result }
{
    let nodes = grow(table, c, p.circles, p.centres, p.leaf, n, room, work);
    put_header(room, n, c, p, nodes);
    let at = HEADER + WIDTH * nodes;
    put_positions(&mut room[at..], n, work);
    work.fill(0);
    nodes
}
