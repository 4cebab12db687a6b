// Appending several rows: the index of a table that has more rows, in one pass.
#![tactic(auto)]

ghost use Rattle.append_rows.specs.Calls.{AppendsRows};
ghost use Rattle.append_rows.specs.Putting.{Puttable};
ghost use Rattle.build.specs.Calls.{nodes_of, words_of};
ghost use Rattle.limits.specs.Refusal.{outcome};
ghost use Rattle.refilling.specs.Joining.{RowsJoin};

use append_rows_refusals::test_append_rows;
use build::{Built, written};
use limits::{Refusal, rows_in};
use rebuild::rebuild;
use refilling::fill_rows;
use words::places::rows;

// Writes the index with all of the table's rows in it. Gives the number of nodes. Where the index has no row, that of the first row alone is built
// here, and takes the others, so that the pass over old nodes always has a root.
fn put_rows(table: &[u16], c: usize, index: &[u32], room: &mut [u32], work: &mut [u32]) -> usize
    requires { Puttable table.now c index.now room.old work.old }
    ensures { RowsJoin table.now c index.now room.old work.old room.new work.new result }
{
    if rows(index) != 0 {
        return fill_rows(table, c, index, room, work);
    }
    let mut first = [0u32; 20];
    let mut spare = [0u32; 6];
    let Ok(built) = rebuild(&table[..c], c, index, &mut first, &mut spare) else {
        unreachable!()
    };
    fill_rows(table, c, &first[..built.words], room, work)
}

// Writes the index with all of the table's rows in it that it has not into the room.
pub fn append_rows(
    table: &[u16],
    c: usize,
    index: &[u32],
    room: &mut [u32],
    work: &mut [u32],
) -> Result<Built, Refusal>
    ensures { AppendsRows table.now c index.now room.old work.old room.new work.new
        (outcome result).0 (words_of result) (nodes_of result) }
{
    test_append_rows(table, c, index, room.len(), work.len())?;
    let n = rows_in(table.len(), c);
    if n == 1 {
        return rebuild(table, c, index, room, work);
    }
    let used = 6 * n;
    let nodes = put_rows(table, c, index, room, &mut work[..used]);
    Ok(written(n, nodes))
}
