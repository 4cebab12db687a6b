// Which sets are refused as sets of n rows: 20.
#![tactic(auto)]

ghost use Rattle.rowset.specs.Sets.{set_bad_lem, words_for_lem};
ghost use Rattle.std.specs.Prelude.{◌≡◌};

use rowset::mask_of;

// How many words n rows take. It does not go by n + 31, which may be more than a usize holds.
pub fn words_for(n: usize) -> usize
    ensures { result ≡ words_for_lem n }
{
    n / 32 + (n % 32 + 31) / 32
}

// Whether the set is refused as one of n rows. A bit n or above can stand in the last word alone, and does where this is not below the mask of row n.
pub fn set_bad(set: &[u32], n: usize) -> bool
    ensures { result ≡ set_bad_lem set.now n }
{
    if set.len() != words_for(n) {
        return true;
    }
    let at = n / 32;
    if set.len() == at {
        return false;
    }
    let bit = mask_of(n);
    bit <= set[at]
}
