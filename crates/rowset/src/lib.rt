// A set of rows as bits, 32 rows to a word: a row's bit put on and off. What is asked of a set, which sets are refused and the foremen's orders are crates of
// their own.
#![tactic(auto)]

ghost use Rattle.std.specs.Prelude.{◌/◌, ◌<◌, length, ◌≡◌};
ghost use Rattle.rowset.specs.Sets.{mask, restored, struck};

// A word in which row r's bit alone is on: one mask to put a bit on and off, to ask for it, and for the refusal of a set.
pub fn mask_of(r: usize) -> u32
    ensures { result ≡ mask r }
{
    let place = (r % 32) as u32;
    1 << place
}

// Row r comes into the set.
#[tactic(auto, unfolding(crate::specs::Sets::struck))]
pub fn strike_row(set: &mut [u32], r: usize)
    requires { r / 32 < length set.old }
    ensures { set.new ≡ struck set.old r }
{
    let at = r / 32;
    let bit = mask_of(r);
    set[at] |= bit;
}

// Row r leaves the set.
#[tactic(auto, unfolding(crate::specs::Sets::restored))]
pub fn restore_row(set: &mut [u32], r: usize)
    requires { r / 32 < length set.old }
    ensures { set.new ≡ restored set.old r }
{
    let at = r / 32;
    let bit = mask_of(r);
    set[at] &= !bit;
}
