// The words of an index whose tree is grown anew below one node: header, nodes, positions.
#![tactic(auto)]

ghost use Rattle.std.specs.Prelude.{◌*◌, ◌+◌, ◌≤◌, drop, length, take, ◌++◌, ◌≡◌};
ghost use Rattle.refill.specs.Calls.{Pairing, Refills, pairs_then};
ghost use Rattle.regrow.specs.Calls.{Regrowable};
ghost use Rattle.words.specs.InShape.{InShape};
ghost use Rattle.words.specs.Words.{n#};

use copies::Growth;
use limits::Params;
use reach::node_end;
use split::WIDTH;
use words::places::{
    HEADER, centres, circles, columns, leaf_size, node_count, node_start, pair_at, rows,
};

// Copies the first k words.
fn copy_words(part: &mut [u32], from: &[u32], k: usize)
    requires { (k ≤ length part.old) × (k ≤ length from.now) }
    ensures { part.new ≡ take k from.now ++ drop k part.old }
{
    part[..k].copy_from_slice(&from[..k]);
}

// The positions: the old ones before node v's run, those of the workspace where it stands, and the old ones behind it.
fn put_pairs(index: &[u32], v: usize, added: usize, part: &mut [u32], work: &[u32])
    requires in_shape { InShape index.now }
    requires pairing { Pairing index.now v added part.old work.now }
    ensures { part.new ≡ pairs_then index.now v added work.now
        ++ drop (2 * (n# index.now + added)) part.old }
{
    let s = node_start(index, v);
    let count = node_count(index, v) + added;
    let base = pair_at(index, 0);
    copy_words(part, &index[base..], 2 * s);
    let at = 2 * s;
    let from = 3 * s;
    filling::put_positions(&mut part[at..], count, &work[from..]);
    let end = node_end(index, v);
    let tail = 2 * (s + count);
    let behind = base + 2 * end;
    copy_words(&mut part[tail..], &index[behind..], 2 * (rows(index) - end));
}

// Writes the index whose tree is grown anew below a node, whose run stands in the workspace with the rows that have come. Gives the number of nodes.
pub fn refill(table: &[u16], index: &[u32], p: Growth, room: &mut [u32], work: &mut [u32]) -> usize
    requires { Regrowable table.now index.now p.node p.added p.limit room.old work.old }
    ensures { Refills table.now index.now p.node p.added p.limit room.old work.old
        room.new work.new result }
{
    let made = regrow::regrow(table, index, p, room, work);
    let n = rows(index) + p.added;
    let params = Params {
        centres: centres(index),
        leaf: leaf_size(index),
        circles: circles(index),
    };
    header_words::put_header(room, n, columns(index), params, made);
    let at = HEADER + WIDTH * made;
    put_pairs(index, p.node, p.added, &mut room[at..], work);
    made
}
