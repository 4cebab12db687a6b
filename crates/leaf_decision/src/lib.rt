// The leaf decision: what the stored distance of a row in an opened leaf says of it.
#![tactic(auto)]

ghost use Rattle.std.specs.Prelude.{◌≤◌, ◌≡◌};
ghost use Rattle.leaf_decision.specs.Decision.{decision};
ghost use Rattle.limits.specs.Limits.{max_distance};

// What the stored distance says of a row.
#[derive(Clone, Copy, PartialEq, Eq)]
pub enum Verdict {
    In,
    Out,
    Measure,
}

// Which of them: x is the distance of the leaf's first, s the row's stored distance.
pub fn decide(x: u32, s: u32, r: u32) -> Verdict
    requires { (x ≤ max_distance) × (s ≤ max_distance) }
    ensures { result ≡ decision x s r }
{
    if r < x.abs_diff(s) {
        Verdict::Out
    } else if x + s <= r {
        Verdict::In
    } else {
        Verdict::Measure
    }
}
