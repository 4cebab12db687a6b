// Why an append is refused, and what refuses every call that puts rows into an index.
#![tactic(auto)]

ghost use Rattle.append_refusals.specs.Numbers.{said_append};
ghost use Rattle.std.specs.Prelude.{◌≡◌};
ghost use Rattle.limits.specs.Refusal.{outcome};

use build_refusals::test_writer;
use index_test::test_index;
use limits::{Refusal, rows_in};
use refusals::test_circles;
use words::places::circles;

// Why an append is refused, if it is. `room` and `work` are the lengths of what is lent. It has no query: an empty part stands for it.
pub fn test_append(
    table: &[u16],
    c: usize,
    index: &[u32],
    room: usize,
    work: usize,
) -> Result<(), Refusal>
    ensures { outcome result ≡ said_append table.now c index.now room work }
{
    test_writer(table.len(), c, false, room, work)?;
    let n = rows_in(table.len(), c);
    if n == 0 {
        return Err(Refusal::OtherTable);
    }
    test_index(index, n - 1, c)?;
    test_circles(table, c, circles(index), &table[..0])
}
