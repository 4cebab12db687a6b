// Appending a row: the index of a table that has one row more.
#![tactic(auto)]

ghost use Rattle.append.specs.Calls.{Appends};
ghost use Rattle.build.specs.Calls.{nodes_of, words_of};
ghost use Rattle.limits.specs.Refusal.{outcome};

use append_refusals::test_append;
use build::{Built, written};
use limits::Refusal;
use rebuild::rebuild;
use row_joined::join_row;
use words::places::rows;

// Writes the index with the table's last row in it into the room.
pub fn append(
    table: &[u16],
    c: usize,
    index: &[u32],
    room: &mut [u32],
    work: &mut [u32],
) -> Result<Built, Refusal>
    ensures { Appends table.now c index.now room.old work.old room.new work.new
        (outcome result).0 (words_of result) (nodes_of result) }
{
    test_append(table, c, index, room.len(), work.len())?;
    let n = rows(index) + 1;
    if n == 1 {
        return rebuild(table, c, index, room, work);
    }
    let used = 6 * n;
    let nodes = join_row(table, c, index, room, &mut work[..used]);
    Ok(written(n, nodes))
}
