// A tree grown anew below one node of an index: the build's own level loop, whose nodes come from the old index where they stay. A node
// that waits to be opened has the number of its first child in the old index, or 0: then it is a leaf, or a run of the workspace.
#![tactic(auto)]

ghost use Rattle.std.specs.Prelude.{◌*◌, ◌+◌, ◌<◌};
ghost use Rattle.copies.specs.Copies.{copied};
ghost use Rattle.regrow.specs.Calls.{Regrowable, Regrows};
ghost use Rattle.regrow.specs.Stages.{Level, Leveled, Openable', Opened', Planted, Staged};

use copies::{Growth, copied_node, copy_children};
use growing::Reach;
use limits::Params;
use split::WIDTH;
use words::places::{HEADER, centres, circles, columns, rows, word};

// Opens node k: its old children are copied, or its run is split where it has more than the limit. Gives the number of nodes there are then.
fn open_piece(
    table: &[u16],
    index: &[u32],
    p: Growth,
    room: &mut [u32],
    work: &mut [u32],
    k: usize,
    made: usize,
) -> usize
    requires { Openable' table.now index.now p.node p.added p.limit room.old work.old k made }
    ensures { Opened' table.now index.now p.node p.added p.limit room.old work.old
        k made room.new work.new result }
{
    let child = word(room, HEADER + WIDTH * k + 2);
    let m = centres(index);
    if child == 0 {
        return growing::open_node(
            table,
            columns(index),
            circles(index),
            m,
            p.limit,
            rows(index) + p.added,
            room,
            work,
            k,
            made,
        );
    }
    room[HEADER + WIDTH * k + 2] = made as u32;
    copy_children(table, index, p, room, child, made);
    made + m
}

// Opens the nodes of one level, from lo to hi. Gives the number of nodes there are then.
fn level(
    table: &[u16],
    index: &[u32],
    p: Growth,
    room: &mut [u32],
    work: &mut [u32],
    lo: usize,
    hi: usize,
) -> usize
    requires { Level table.now index.now p.node p.added p.limit room.old work.old lo hi }
    ensures { Staged table.now index.now p.node p.added p.limit room.old work.old
        lo hi room.new work.new result }
{
    let mut made = hi;
    for k in lo..hi {
        made = open_piece(table, index, p, room, work, k, made);
    }
    made
}

// Opens the nodes of all levels below the root. Gives the number of nodes.
fn levels(table: &[u16], index: &[u32], p: Growth, room: &mut [u32], work: &mut [u32]) -> usize
    requires { Planted table.now index.now p.node p.added p.limit room.old work.old }
    ensures { Leveled table.now index.now p.node p.added p.limit room.old work.old
        room.new work.new result }
{
    let mut lo = 0;
    let mut hi = 1;
    for _ in 0..Params::MOST_DEPTH {
        let made = level(table, index, p, room, work, lo, hi);
        lo = hi;
        hi = made;
    }
    hi
}

// Grows the tree of an index anew below a node, whose run stands in the workspace with the rows that have come. Gives the number of nodes.
pub fn regrow(table: &[u16], index: &[u32], p: Growth, room: &mut [u32], work: &mut [u32]) -> usize
    requires { Regrowable table.now index.now p.node p.added p.limit room.old work.old }
    ensures { Regrows table.now index.now p.node p.added p.limit room.old work.old
        room.new work.new result }
{
    copied_node(table, index, p, room, 0, 0);
    levels(table, index, p, room, work)
}
