// All of a table's rows that an index has not, put into it in one pass: the root takes them, every level below is opened, and header and positions
// are written.
#![tactic(auto)]

ghost use Rattle.std.specs.Prelude.{◌*◌, ◌≤◌, length};
ghost use Rattle.opening.specs.Sound.{Task};
ghost use Rattle.refilling.specs.Joining.{RowsJoin, RowsJoinable};
ghost use Rattle.refilling.specs.Rooted.{RootAsk, Rooted, TakenIn};
ghost use Rattle.words.specs.Words.{n#};

use dealing::settle;
use deepening::deepen;
use filling::put_positions;
use groups::least_of;
use growing::Reach;
use header_words::put_header;
use limits::{Params, rows_in};
use rounds::put_entry;
use row_distances::row_distance;
use split::WIDTH;
use words::places::{
    HEADER, centres, circles, columns, leaf_size, node_first, node_inner, node_radius, rows,
};
use words::writing::put_node;

// Lays the new rows behind the root's own entries: a row's position is its number. Gives how far the root reaches with them.
fn take_in(table: &[u16], index: &[u32], n: usize, work: &mut [u32]) -> Reach
    requires task { Task table.now index.now n }
    requires bound { (1 ≤ n# index.now) × (3 * n ≤ length work.old) }
    ensures { TakenIn table.now index.now n work.old work.new result.radius result.inner }
{
    let c = columns(index);
    let set = circles(index);
    let first = node_first(index, 0);
    let mut radius = node_radius(index, 0);
    let mut inner = node_inner(index, 0);
    for z in rows(index)..n {
        let d = row_distance(table, c, set, first, z);
        radius = radius.max(d);
        inner = least_of(z, inner, d);
        let at = 3 * z;
        put_entry(&mut work[at..], z as u32, d, 0);
    }
    Reach { radius, inner }
}

// The root with all new rows: its entries and its node.
fn root(table: &[u16], index: &[u32], n: usize, room: &mut [u32], work: &mut [u32])
    requires { RootAsk table.now index.now n room.old work.old }
    ensures { Rooted table.now index.now n room.old room.new work.new }
{
    let reach = take_in(table, index, n, work);
    let half = 3 * n;
    let mark = settle(table, index, 0, false, &mut work[..half]);
    put_node(
        &mut room[HEADER..],
        0,
        n as u32,
        mark.word(),
        reach.radius,
        reach.inner,
    );
}

// Writes the index with all of the table's rows in it into the room. Gives the number of nodes.
pub fn fill_rows(
    table: &[u16],
    c: usize,
    index: &[u32],
    room: &mut [u32],
    work: &mut [u32],
) -> usize
    requires { RowsJoinable table.now c index.now room.old work.old }
    ensures { RowsJoin table.now c index.now room.old work.old
        room.new work.new result }
{
    let n = rows_in(table.len(), c);
    root(table, index, n, room, work);
    let nodes = deepen(table, index, n, room, work);
    let params = Params {
        centres: centres(index),
        leaf: leaf_size(index),
        circles: circles(index),
    };
    put_header(room, n, c, params, nodes);
    let at = HEADER + WIDTH * nodes;
    put_positions(&mut room[at..], n, work);
    work.fill(0);
    nodes
}
