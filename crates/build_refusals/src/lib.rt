// Why a build is refused, and what numbers refuse of every call that writes an index.
#![tactic(auto)]

ghost use Rattle.build_refusals.specs.Numbers.{build_faults, short_of, writer_asks};
ghost use Rattle.limits.specs.Said.{number_faults, said};
ghost use Rattle.std.specs.Prelude.{length, ◌≡◌};
ghost use Rattle.limits.specs.Refusal.{outcome};

use limits::{Asked, Refusal, is_short, rows_in, test_numbers};
use refusals::test_circles;
use words::places::HEADER;

// The room or the workspace is too short for n rows.
fn too_short(n: usize, room: usize, work: usize) -> bool
    ensures { result ≡ short_of n room work }
{
    if room < HEADER {
        return true;
    }
    is_short(room - HEADER, 12, n) | is_short(work, 6, n)
}

// What numbers refuse of a call that writes an index over a table of this length and c columns. `room` and `work` are the lengths of what is lent.
pub fn test_writer(
    length: usize,
    c: usize,
    unfit: bool,
    room: usize,
    work: usize,
) -> Result<(), Refusal>
    ensures { outcome result ≡ said (number_faults (writer_asks length c unfit room work)) }
{
    let n = rows_in(length, c);
    test_numbers(Asked {
        length,
        columns: c,
        unfit,
        short: too_short(n, room, work),
        unlike: false,
        none: false,
    })
}

// Why a build is refused, if it is: what numbers refuse, and then the circles. `unfit` is whether the parameters were refused.
pub fn test_build(
    table: &[u16],
    c: usize,
    circles: u32,
    unfit: bool,
    room: usize,
    work: usize,
) -> Result<(), Refusal>
    ensures { outcome result ≡ said (build_faults table.now c circles unfit room work) }
{
    test_writer(table.len(), c, unfit, room, work)?;
    test_circles(table, c, circles, &table[..0])
}
