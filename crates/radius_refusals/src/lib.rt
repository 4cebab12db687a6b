// Why a radius call is refused.
#![tactic(auto)]

ghost use Rattle.radius_refusals.specs.Numbers.{said_radius};
ghost use Rattle.std.specs.Prelude.{◌≡◌};
ghost use Rattle.limits.specs.Refusal.{outcome};

use limits::{Asked, Refusal, rows_in};
use refusals::test_call;
use set_refusals::set_bad;

// Why a call is refused, if it is: of several refusals, that of the lowest number. `room` is how many how-bytes are lent.
pub fn test_radius(
    table: &[u16],
    c: usize,
    index: &[u32],
    query: &[u16],
    withdrawn: &[u32],
    room: usize,
) -> Result<(), Refusal>
    ensures { outcome result ≡ said_radius table.now c index.now query.now withdrawn.now room }
{
    let n = rows_in(table.len(), c);
    let asked = Asked {
        length: table.len(),
        columns: c,
        unfit: false,
        short: room < n,
        unlike: query.len() != c,
        none: false,
    };
    test_call(asked, table, index, query)?;
    if set_bad(withdrawn, n) {
        return Err(Refusal::Set);
    }
    Ok(())
}
