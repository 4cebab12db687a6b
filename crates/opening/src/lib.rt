// One piece of an index that takes rows, opened where it stands: an old inner node's children with its new rows dealt out to them; the children of a
// run that has grown beyond the leaf size; or nothing, where it is a leaf.
#![tactic(auto)]

ghost use Rattle.opening.specs.Opened.{OldAsk, OldOpens, PieceAsk, PieceOpens};

use dealing::{Deal, deal_out, mark_rows};
use lodging::Mark;
use split::{WIDTH, copy_back, split_run};
use words::places::{HEADER, centres, circles, columns, leaf_size, node_count, word};

// Opens the old inner node o, which starts at s and has `count` rows with its new ones: its children are the nodes from `made` on. `n` is how many
// rows the table has, and `last` says that there is no level below the children.
fn open_old(
    table: &[u16],
    index: &[u32],
    n: usize,
    last: bool,
    room: &mut [u32],
    work: &mut [u32],
    o: usize,
    s: usize,
    count: usize,
    made: usize,
)
    requires { OldAsk table.now index.now n room.old work.old o s count made }
    ensures { OldOpens table.now index.now n last room.old work.old o s count made
        room.new work.new }
{
    let own = node_count(index, o);
    let lo = 3 * (s + own);
    let hi = 3 * (s + count);
    mark_rows(table, columns(index), index, o, &mut work[lo..hi]);
    let p = Deal {
        node: o,
        rows: n,
        lo,
        hi,
        last,
    };
    deal_out(table, index, p, room, work, s, made);
    copy_back(work, 3 * s, hi, 3 * n);
}

// Opens node k. Gives the number of nodes there are then.
pub fn open_piece(
    table: &[u16],
    index: &[u32],
    n: usize,
    last: bool,
    room: &mut [u32],
    work: &mut [u32],
    k: usize,
    made: usize,
) -> usize
    requires { PieceAsk table.now index.now n room.old work.old k made }
    ensures { PieceOpens table.now index.now n last room.old work.old k made
        room.new work.new result }
{
    let s = word(room, HEADER + WIDTH * k);
    let count = word(room, HEADER + WIDTH * k + 1);
    let mark = word(room, HEADER + WIDTH * k + 2);
    let m = centres(index);
    let l = leaf_size(index);
    match Mark::of(mark) {
        Mark::Stays => {
            room[HEADER + WIDTH * k + 2] = 0;
            made
        }
        Mark::Old(o) => {
            room[HEADER + WIDTH * k + 2] = made as u32;
            open_old(table, index, n, last, room, work, o, s, count, made);
            made + m
        }
        Mark::Run if count <= l => made,
        Mark::Run => {
            room[HEADER + WIDTH * k + 2] = made as u32;
            split_run(
                table,
                columns(index),
                circles(index),
                m,
                l + 1,
                n,
                room,
                work,
                s,
                count,
                made,
            );
            made + m
        }
    }
}
