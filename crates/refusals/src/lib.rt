// Why a call on a table and an index is refused: what numbers decide, then what the index decides, then what the circles decide.
#![tactic(auto)]

ghost use Rattle.std.specs.Prelude.{◌≤◌, ◌≡◌};
ghost use Rattle.limits.specs.Limits.{max_columns};
ghost use Rattle.limits.specs.Refusal.{outcome};
ghost use Rattle.limits.specs.Said.{said};
ghost use Rattle.refusals.specs.Refused.{call_faults, circle_faults};

use circular_columns::off_circle;
use index_test::test_index;
use limits::{Asked, Refusal, rows_in, test_numbers};
use words::places::circles;

// Whether a column that is a circle holds 3,600 or more, in the table or in the query.
pub fn test_circles(table: &[u16], c: usize, circles: u32, query: &[u16]) -> Result<(), Refusal>
    requires { c ≤ max_columns }
    ensures { outcome result ≡ said (circle_faults c circles table.now query.now) }
{
    if off_circle(table, c, circles) | off_circle(query, c, circles) {
        return Err(Refusal::OffCircle);
    }
    Ok(())
}

// Why a call is refused, if it is: the first that applies. A call that has no query lends an empty one.
pub fn test_call(asked: Asked, table: &[u16], index: &[u32], query: &[u16]) -> Result<(), Refusal>
    ensures { outcome result ≡ said (call_faults asked table.now index.now query.now) }
{
    let n = rows_in(asked.length, asked.columns);
    let c = asked.columns;
    test_numbers(asked)?;
    test_index(index, n, c)?;
    test_circles(table, c, circles(index), query)
}
