// Why a nearest call is refused.
#![tactic(auto)]

ghost use Rattle.std.specs.Prelude.{min, ◌≡◌};
ghost use Rattle.nearest_refusals.specs.Numbers.{said_nearest};
ghost use Rattle.limits.specs.Refusal.{outcome};

use limits::{Asked, Refusal, is_short, rows_in};
use refusals::test_call;
use set_refusals::set_bad;

// Why a call is refused, if it is: of several refusals, that of the lowest number. Lent are room for so many answers, how-bytes and words.
pub fn test_nearest(
    table: &[u16],
    c: usize,
    index: &[u32],
    query: &[u16],
    wanted: usize,
    withdrawn: &[u32],
    room: usize,
    how: usize,
    work: usize,
) -> Result<(), Refusal>
    ensures { outcome result ≡ said_nearest table.now c index.now query.now wanted
        withdrawn.now room how work }
{
    let n = rows_in(table.len(), c);
    let asked = Asked {
        length: table.len(),
        columns: c,
        unfit: false,
        short: (room < wanted.min(n)) | (how < n) | is_short(work, 6, n),
        unlike: query.len() != c,
        none: wanted == 0,
    };
    test_call(asked, table, index, query)?;
    if set_bad(withdrawn, n) {
        return Err(Refusal::Set);
    }
    Ok(())
}
