// Why a call is refused that appends several rows.
#![tactic(auto)]

ghost use Rattle.append_rows_refusals.specs.Numbers.{said_append_rows};
ghost use Rattle.std.specs.Prelude.{◌≡◌};
ghost use Rattle.limits.specs.Refusal.{outcome};

use build_refusals::test_writer;
use index_test::test_index;
use limits::{Refusal, rows_in};
use refusals::test_circles;
use words::places::{HEADER, circles, rows};

// Why the call that appends several rows is refused, if it is. `room` and `work` are the lengths of what is lent. There is no query: an empty part stands
// for it.
pub fn test_append_rows(
    table: &[u16],
    c: usize,
    index: &[u32],
    room: usize,
    work: usize,
) -> Result<(), Refusal>
    ensures { outcome result ≡ said_append_rows table.now c index.now room work }
{
    test_writer(table.len(), c, false, room, work)?;
    if index.len() < HEADER {
        return Err(Refusal::OtherTable);
    }
    let had = rows(index);
    let n = rows_in(table.len(), c);
    if n <= had {
        return Err(Refusal::OtherTable);
    }
    test_index(index, had, c)?;
    test_circles(table, c, circles(index), &table[..0])
}
