// The new rows of an old inner node, dealt out to its children: each goes to the closest, and every child is laid in the second half of the
// workspace, its new rows behind room for its own; a leaf is laid whole.
#![tactic(auto)]

ghost use Rattle.std.specs.Prelude.{◌*◌, ◌+◌, ◌<◌, ◌≤◌, ◌≡◌};
ghost use Rattle.dealing.specs.Dealt.{ChildAsk, ChildDeals, KidsAsk, KidsDeal};
ghost use Rattle.dealing.specs.Marked.{Marks, Reaching, marked};
ghost use Rattle.dealing.specs.Pending.{Settles};
ghost use Rattle.lodging.specs.Marks.{word_of};
ghost use Rattle.lodging.specs.Standing.{Takes};
ghost use Rattle.measure.specs.Table.{between};
ghost use Rattle.split.specs.Runs.{rows};
ghost use Rattle.words.specs.InShape.{InShape};
ghost use Rattle.words.specs.Words.{nodes#, c#, circles#, edition#};

use groups::{Group, least_of, pick};
use growing::Reach;
use leafward::closest_child;
use lodging::{Mark, lodge};
use rounds::put_entry;
use row_distances::row_distance;
use split::WIDTH;
use words::places::{
    HEADER, centres, circles, columns, node_child, node_count, node_first, node_inner, node_radius,
    word,
};
use words::writing::put_node;

// What is dealt out: the old node, how many rows the table has, the words of the first half between which the node's new rows stand, and whether
// there is no level below its children.
#[derive(Clone, Copy)]
pub struct Deal {
    pub node: usize,
    pub rows: usize,
    pub lo: usize,
    pub hi: usize,
    pub last: bool,
}

// Marks each new row of the inner node o with the child that takes it, and with how far it is from that child's first.
pub fn mark_rows(table: &[u16], c: usize, index: &[u32], o: usize, part: &mut [u32])
    requires { Marks table.now c index.now o part.old }
    ensures { part.new ≡ marked (between table.now c (circles# index.now)) index.now o
        (rows part.old) }
{
    let child = node_child(index, o);
    let set = circles(index);
    let mut p = 0;
    while p < part.len() {
        let z = word(part, p);
        let k = closest_child(table, c, index, o, z);
        let d = row_distance(table, c, set, node_first(index, child + k), z);
        put_entry(&mut part[p..], z as u32, d, k as u32);
        p += 3;
    }
}

// How far node q reaches with a group of new rows.
fn reach_with(index: &[u32], q: usize, g: Group) -> Reach
    requires in_shape { InShape index.now }
    requires q_bound { (q < nodes# index.now) × (edition# index.now ≡ 2) }
    ensures { Reaching index.now q g.count g.radius g.inner result.radius result.inner }
{
    let radius = node_radius(index, q);
    let inner = node_inner(index, q);
    if g.count == 0 {
        return Reach { radius, inner };
    }
    Reach {
        radius: radius.max(g.radius),
        inner: least_of(node_count(index, q), inner, g.inner),
    }
}

// Lays node q, behind whose own entries its new rows stand: a leaf whole, and of an inner node nothing. Gives its mark while it waits.
pub fn settle(table: &[u16], index: &[u32], q: usize, last: bool, part: &mut [u32]) -> Mark
    requires { Takes table.now (c# index.now) index.now q part.old }
    ensures settles { Settles table.now index.now q last part.old part.new (word_of result) }
    ensures fits { word_of result < 4294967296 }
{
    if node_child(index, q) != 0 {
        return Mark::Old(q);
    }
    lodge(table, columns(index), index, q, last, part)
}

// Deals out its rows to the child at place k, from position `at` on in the second half; its node is the k-th from `made` on. Gives how many rows
// it has then.
fn deal_child(
    table: &[u16],
    index: &[u32],
    p: Deal,
    room: &mut [u32],
    work: &mut [u32],
    k: usize,
    at: usize,
    made: usize,
) -> usize
    requires { ChildAsk table.now index.now p.node p.rows p.lo p.hi room.old work.old k at made }
    ensures { ChildDeals table.now index.now p.node p.rows p.lo p.hi p.last room.old
        work.old k at made room.new work.new result }
{
    let q = node_child(index, p.node) + k;
    let own = node_count(index, q);
    let to = 3 * (p.rows + at);
    let g = pick(work, p.lo, p.hi, k as u32, to + 3 * own);
    let count = own + g.count;
    let end = to + 3 * count;
    let mark = settle(table, index, q, p.last, &mut work[to..end]);
    let reach = reach_with(index, q, g);
    let node = HEADER + WIDTH * (made + k);
    put_node(
        &mut room[node..],
        at as u32,
        count as u32,
        mark.word(),
        reach.radius,
        reach.inner,
    );
    count
}

// Deals out a node's new rows to all its children, from position s on in the second half; their nodes are those from `made` on.
pub fn deal_out(
    table: &[u16],
    index: &[u32],
    p: Deal,
    room: &mut [u32],
    work: &mut [u32],
    s: usize,
    made: usize,
)
    requires { KidsAsk table.now index.now p.node p.rows p.lo p.hi room.old work.old s made }
    ensures { KidsDeal table.now index.now p.node p.rows p.lo p.hi p.last room.old
        work.old s made room.new work.new }
{
    let m = centres(index);
    let mut at = s;
    for k in 0..m {
        at += deal_child(table, index, p, room, work, k, at, made);
    }
}
