// How far two numbers of a column are apart, and the shorter way round.
#![tactic(auto)]

ghost use Rattle.std.specs.Prelude.{◌-◌, ◌≤◌, min, ◌≡◌};
ghost use Rattle.laws.specs.Lists.{gap};

// How much two numbers differ.
pub fn differ(x: u16, y: u16) -> u32
    ensures { (result ≡ gap x y) × (result ≤ 65535) }
{
    x.abs_diff(y) as u32
}

// How far two numbers are apart, the shorter way round, where so many go round.
pub fn shorter(turn: u32, x: u16, y: u16) -> u32
    ensures { (result ≡ min (gap x y) (turn - gap x y)) × (result ≤ 65535) }
{
    let d = differ(x, y);
    d.min(turn.saturating_sub(d))
}
