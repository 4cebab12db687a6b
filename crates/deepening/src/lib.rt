// The levels of an index that takes rows, one below the other: each piece of a level is opened, from the root down to depth 24.
#![tactic(auto)]

ghost use Rattle.deepening.specs.Stages.{Level, Leveled, Planted, Staged};

use limits::Params;
use opening::open_piece;

// Opens the nodes of one level, from lo to hi. Gives the number of nodes there are then. `n` is how many rows the table has, and `last` says that
// there is no level below the next.
fn level(
    table: &[u16],
    index: &[u32],
    n: usize,
    last: bool,
    room: &mut [u32],
    work: &mut [u32],
    lo: usize,
    hi: usize,
) -> usize
    requires { Level table.now index.now n last room.old work.old lo hi }
    ensures { Staged table.now index.now n last room.old work.old lo hi
        room.new work.new result }
{
    let mut made = hi;
    for k in lo..hi {
        made = open_piece(table, index, n, last, room, work, k, made);
    }
    made
}

// Opens the nodes of all levels below the root. Gives the number of nodes.
pub fn deepen(table: &[u16], index: &[u32], n: usize, room: &mut [u32], work: &mut [u32]) -> usize
    requires { Planted table.now index.now n room.old work.old }
    ensures { Leveled table.now index.now n room.old work.old
        room.new work.new result }
{
    let mut lo = 0;
    let mut hi = 1;
    for depth in 0..Params::MOST_DEPTH {
        let made = level(
            table,
            index,
            n,
            depth + 1 == Params::MOST_DEPTH,
            room,
            work,
            lo,
            hi,
        );
        lo = hi;
        hi = made;
    }
    hi
}
