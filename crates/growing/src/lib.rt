// The tree of a table, grown level by level into a lent room. While it grows, the first half of the workspace holds an entry of three words for
// each position: the row, its distance from the first of its run, and that first. The second half takes a run's entries as they are shared out.
#![tactic(auto)]

ghost use Rattle.std.specs.Prelude.{◌*◌, ◌≤◌, length};
ghost use Rattle.growing.specs.Rooted.{Leveled, Planted, Room, RootLaid, Rooted};
ghost use Rattle.growing.specs.Stages.{Fit, Level, Openable, Opened, Staged};
ghost use Rattle.limits.specs.Limits.{max_columns, max_rows};
ghost use Rattle.measure.specs.Table.{between};

use groups::least_of;
use limits::Params;
use rounds::put_entry;
use row_distances::row_distance;
use split::{WIDTH, split_run};
use words::places::{HEADER, word};
use words::writing::put_node;

// How far a run reaches: the greatest distance from its first, and the least of a member other than the first, 0 where there is none, which is what
// the node's word says then.
#[derive(Clone, Copy)]
pub struct Reach {
    pub radius: u32,
    pub inner: u32,
}

// The root's entries: each row with its distance from row 0. Gives how far they reach: row i is the i-th but the first, which is at 0.
fn lay(table: &[u16], c: usize, circles: u32, n: usize, work: &mut [u32]) -> Reach
    requires { (c ≤ max_columns) × (n ≤ max_rows) × (c * n ≤ length table.now) × (3 * n ≤ length work.old) }
    ensures { RootLaid (between table.now c circles) n work.old work.new result.radius result.inner }
{
    let mut radius: u32 = 0;
    let mut inner: u32 = 0;
    for i in 0..n {
        let d = row_distance(table, c, circles, 0, i);
        radius = radius.max(d);
        inner = least_of(i, inner, d);
        let at = 3 * i;
        put_entry(&mut work[at..], i as u32, d, 0);
    }
    Reach { radius, inner }
}

// The root's entries and its node.
pub fn root(
    table: &[u16],
    c: usize,
    circles: u32,
    m: usize,
    l: usize,
    n: usize,
    room: &mut [u32],
    work: &mut [u32],
)
    requires room { Room table.now c m l n room.old work.old }
    requires le_n { 1 ≤ n }
    ensures { Rooted (between table.now c circles) m l n room.old room.new work.new }
{
    let reach = lay(table, c, circles, n, work);
    put_node(
        &mut room[HEADER..],
        0,
        n as u32,
        0,
        reach.radius,
        reach.inner,
    );
}

// Opens node k, where it has more than l rows. Gives the number of nodes there are then.
pub fn open_node(
    table: &[u16],
    c: usize,
    circles: u32,
    m: usize,
    l: usize,
    n: usize,
    room: &mut [u32],
    work: &mut [u32],
    k: usize,
    made: usize,
) -> usize
    requires { Openable table.now c circles m l n room.old work.old k made }
    ensures { Opened table.now c circles m l n room.old work.old k made
        room.new work.new result }
{
    let s = word(room, HEADER + WIDTH * k);
    let count = word(room, HEADER + WIDTH * k + 1);
    if count <= l {
        return made;
    }
    room[HEADER + WIDTH * k + 2] = made as u32;
    split_run(table, c, circles, m, count, n, room, work, s, count, made);
    made + m
}

// Opens the nodes of one level, from lo to hi. Gives the number of nodes there are then.
fn level(
    table: &[u16],
    c: usize,
    circles: u32,
    m: usize,
    l: usize,
    n: usize,
    room: &mut [u32],
    work: &mut [u32],
    lo: usize,
    hi: usize,
) -> usize
    requires { Level table.now c circles m l n room.old work.old lo hi }
    ensures { Staged table.now c circles m l n room.old work.old lo hi
        room.new work.new result }
{
    let mut made = hi;
    for k in lo..hi {
        made = open_node(table, c, circles, m, l, n, room, work, k, made);
    }
    made
}

// Opens the nodes of all levels below the root. Gives the number of nodes.
pub fn levels(
    table: &[u16],
    c: usize,
    circles: u32,
    m: usize,
    l: usize,
    n: usize,
    room: &mut [u32],
    work: &mut [u32],
) -> usize
    requires fit { Fit table.now c m l n }
    requires planted { Planted (between table.now c circles) m l n room.old work.old }
    ensures { Leveled (between table.now c circles) m l n room.old work.old
        room.new work.new result }
{
    let mut lo: usize = 0;
    let mut hi: usize = 1;
    for _depth in 0..Params::MOST_DEPTH {
        let made = level(table, c, circles, m, l, n, room, work, lo, hi);
        lo = hi;
        hi = made;
    }
    hi
}
