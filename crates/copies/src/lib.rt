// The nodes of an old index copied into the room where it is grown anew: their runs moved, counted and reaching as the rows that have come make them.
#![tactic(auto)]

ghost use Rattle.std.specs.Prelude.{◌+◌, ◌<◌, ◌≤◌, length, ◌≡◌};
ghost use Rattle.copies.specs.Copies.{Change, Numbers, copied, new_reach, with_copies};
ghost use Rattle.measure.specs.Table.{between};
ghost use Rattle.split.specs.Places.{node_at_lem};
ghost use Rattle.words.specs.Words.{nodes#, c#, circles#, m#};

use groups::least_of;
use growing::Reach;
use moved_runs::{child_of, count_of, holds_run, start_of};
use row_distances::row_distance;
use split::WIDTH;
use words::places::{
    HEADER, centres, circles, columns, node_count, node_first, node_inner, node_radius, rows,
};
use words::writing::put_node;

// What is grown anew: a node, how many rows come to the end of its run, and how many rows a run may have that is not split.
#[derive(Clone, Copy)]
pub struct Growth {
    pub node: usize,
    pub added: usize,
    pub limit: usize,
}

// How far node k reaches then: where its run holds node v's, to the first row that has come too.
fn reach_of(table: &[u16], index: &[u32], p: Growth, k: usize) -> Reach
    requires change { Change table.now index.now p.node p.added p.limit }
    requires k_bound { k < nodes# index.now }
    ensures { Numbers
        (new_reach (between table.now (c# index.now) (circles# index.now))
        index.now p.node p.added k) result.radius result.inner }
{
    let radius = node_radius(index, k);
    let inner = node_inner(index, k);
    if !holds_run(index, p.node, k) || p.added == 0 {
        return Reach { radius, inner };
    }
    let d = row_distance(
        table,
        columns(index),
        circles(index),
        node_first(index, k),
        rows(index),
    );
    Reach {
        radius: radius.max(d),
        inner: least_of(node_count(index, k), inner, d),
    }
}

// Copies old node o behind the first `made` nodes.
pub fn copied_node(table: &[u16], index: &[u32], p: Growth, room: &mut [u32], o: usize, made: usize)
    requires change { Change table.now index.now p.node p.added p.limit }
    requires o_bound { (o < nodes# index.now) × (made ≤ 2097152) × (node_at_lem (made + 1) ≤ length room.old) }
    ensures { room.new ≡ with_copies
        (copied (between table.now (c# index.now) (circles# index.now)) index.now p.node p.added)
        o 1 room.old made }
{
    let start = start_of(index, p.node, p.added, o);
    let count = count_of(index, p.node, p.added, o);
    let child = child_of(index, p.node, o);
    let reach = reach_of(table, index, p, o);
    let at = HEADER + WIDTH * made;
    put_node(
        &mut room[at..],
        start as u32,
        count as u32,
        child as u32,
        reach.radius,
        reach.inner,
    );
}

// Copies the m old nodes from `child` on behind the first `made` nodes.
pub fn copy_children(
    table: &[u16],
    index: &[u32],
    p: Growth,
    room: &mut [u32],
    child: usize,
    made: usize,
)
    requires change { Change table.now index.now p.node p.added p.limit }
    requires index_bound { (child + m# index.now ≤ nodes# index.now) × (made + m# index.now ≤ 2097152) ×
        (node_at_lem (made + m# index.now) ≤ length room.old) }
    ensures { room.new ≡ with_copies
        (copied (between table.now (c# index.now) (circles# index.now)) index.now p.node p.added)
        child (m# index.now) room.old made }
{
    let m = centres(index);
    for i in 0..m {
        copied_node(table, index, p, room, child + i, made + i);
    }
}
