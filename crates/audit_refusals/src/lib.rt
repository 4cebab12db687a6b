// Why a full check is refused.
#![tactic(auto)]

ghost use Rattle.audit_refusals.specs.Numbers.{refusals};
ghost use Rattle.limits.specs.Said.{said};
ghost use Rattle.std.specs.Prelude.{◌≡◌};
ghost use Rattle.limits.specs.Refusal.{outcome};

use limits::{Asked, Refusal, is_short, rows_in};
use refusals::test_call;

// What refuses the call before the passes, if anything does. `room` is the workspace's length. A check has no query: an empty part stands for it.
pub fn test_audit(table: &[u16], c: usize, index: &[u32], room: usize) -> Result<(), Refusal>
    ensures { outcome result ≡ said (refusals table.now c index.now room) }
{
    let n = rows_in(table.len(), c);
    let asked = Asked {
        length: table.len(),
        columns: c,
        unfit: false,
        short: is_short(room, 6, n),
        unlike: false,
        none: false,
    };
    test_call(asked, table, index, &table[..0])
}
