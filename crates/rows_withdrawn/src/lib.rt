// Which rows are in a set, asked row by row, and of the whole set.
#![tactic(auto)]

ghost use Rattle.std.specs.Prelude.{◌≤◌, length, take, ◌≡◌};
ghost use Rattle.rowset.specs.Sets.{AllOff, SameRows, is_in_lem};

use rowset::mask_of;

// Whether row r is in the set. A row beyond its words is not, so that a set of any length may be asked.
pub fn is_in(set: &[u32], r: usize) -> bool
    ensures { result ≡ is_in_lem set.now r }
{
    let at = r / 32;
    at < set.len() && set[at] & mask_of(r) != 0
}

// Whether a word of the set has a bit on. It looks at every word, without a branch.
fn some_on(set: &[u32]) -> bool
    ensures { AllOff result set.now }
{
    let mut on = false;
    for word in set {
        on |= *word != 0;
    }
    on
}

// How many words of the set a search need be lent: none where no row is in it, so that no row is asked for.
pub fn words_asked(set: &[u32]) -> usize
    ensures { (result ≤ length set.now) × SameRows (take result set.now) set.now }
{
    if some_on(set) { set.len() } else { 0 }
}
