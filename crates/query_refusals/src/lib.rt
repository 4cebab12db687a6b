// Why queries can't be searched for.
#![tactic(auto)]

ghost use Rattle.std.specs.Prelude.{◌≤◌, ◌≡◌};
ghost use Rattle.query_refusals.specs.Numbers.{said_near};
ghost use Rattle.limits.specs.Refusal.{outcome};

use limits::{Params, Refusal};

// Why the queries can't be searched for: rooms too short for n rows; none, a part of one, or more than an index has rows; numbers off their
// circles, or a set of rows withdrawn that is none of n rows.
#[tactic(auto, unfolding(crate::specs::Numbers::said_near, crate::specs::Numbers::asks))]
pub fn test_queries(
    n: usize,
    c: usize,
    asked: usize,
    how: usize,
    marks: usize,
    off: bool,
    bad: bool,
) -> Result<(), Refusal>
    requires { 1 ≤ c }
    ensures { (outcome result).0 ≡ said_near n c asked how marks off bad }
{
    if how < n {
        return Err(Refusal::Room);
    }
    if marks < n {
        return Err(Refusal::Room);
    }
    if asked % c != 0 {
        return Err(Refusal::Query);
    }
    if asked / c == 0 {
        return Err(Refusal::Query);
    }
    if Params::MOST_ROWS < asked / c {
        return Err(Refusal::Query);
    }
    if off {
        return Err(Refusal::OffCircle);
    }
    if bad {
        return Err(Refusal::Set);
    }
    Ok(())
}
