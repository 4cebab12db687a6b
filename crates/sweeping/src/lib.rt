// A swept run.
#![tactic(auto)]

ghost use Rattle.std.specs.Prelude.{◌+◌, ◌<◌, ◌≤◌, ℕ, length, false, ◌≡◌};
ghost use Rattle.marking.specs.Lent.{Bytes};
ghost use Rattle.marking.specs.Listed.{Leaves, span, told};
ghost use Rattle.marking.specs.Marks.{swept_at};
ghost use Rattle.marking.specs.Written.{marked};
ghost use Rattle.rowset.specs.Sets.{is_in_lem};
ghost use Rattle.tree.specs.Radius.{veiled};
ghost use Rattle.words.specs.InShape.{InShape};
ghost use Rattle.words.specs.Words.{nodes#, count#, n#, pair_at, start#};

use marking::row::{UNMEASURED, enter};
use rows_withdrawn::is_in;
use words::places::{node_count, node_start, pair_at, word};

// The rows of the positions from lo up to hi, of which none is withdrawn. The positions' words stand from `base` on.
fn sweep_all(index: &[u32], base: usize, lo: usize, hi: usize, how: &mut [u8])
    requires in_shape { InShape index.now × (base ≡ pair_at index.now 0) }
    requires lo_le_hi { (lo ≤ hi) × (hi ≤ n# index.now) × (n# index.now ≤ length how.old) }
    ensures { how.new ≡ marked (λ (i : ℕ). false) (swept_at index.now) lo hi how.old }
{
    for p in lo..hi {
        let row = word(index, base + 2 * p);
        how[row] = 2;
    }
}

// The same, of which some may be withdrawn.
fn sweep_shown(index: &[u32], base: usize, lo: usize, hi: usize, withdrawn: &[u32], how: &mut [u8])
    requires in_shape { InShape index.now × (base ≡ pair_at index.now 0) }
    requires lo_le_hi { (lo ≤ hi) × (hi ≤ n# index.now) × (n# index.now ≤ length how.old) }
    ensures { how.new ≡ marked (is_in_lem withdrawn.now) (swept_at index.now) lo hi how.old }
{
    for p in lo..hi {
        let row = word(index, base + 2 * p);
        if !is_in(withdrawn, row) {
            how[row] = 2;
        }
    }
}

// The how-bytes of these rows, where how-bytes are lent.
fn sweep_bytes(index: &[u32], base: usize, lo: usize, hi: usize, withdrawn: &[u32], how: &mut [u8])
    requires in_shape { InShape index.now × (base ≡ pair_at index.now 0) }
    requires lo_le_hi { (lo ≤ hi) × (hi ≤ n# index.now) × Bytes index.now how.old }
    ensures { how.new ≡ marked (is_in_lem withdrawn.now) (swept_at index.now) lo hi how.old }
{
    if how.is_empty() {
        return;
    }
    if withdrawn.is_empty() {
        sweep_all(index, base, lo, hi, how);
    } else {
        sweep_shown(index, base, lo, hi, withdrawn, how);
    }
}

// These rows in the list, where one is lent: as rows that were not measured.
fn sweep_list(index: &[u32], base: usize, lo: usize, hi: usize, withdrawn: &[u32], list: &mut [u32])
    requires in_shape { InShape index.now × (base ≡ pair_at index.now 0) }
    requires lo_le_hi { (lo ≤ hi) × (hi ≤ n# index.now) }
    ensures { list.new ≡ told (λ (i : ℕ). 0) (veiled (is_in_lem withdrawn.now) (span (swept_at index.now) lo hi))
        list.old }
{
    for p in lo..hi {
        let row = word(index, base + 2 * p);
        if !is_in(withdrawn, row) {
            enter(list, UNMEASURED, row);
        }
    }
}

// A swept node: all its rows but the first are in, unmeasured, save those that are withdrawn. Without a set no row is asked for, and without a
// list none is read again.
pub fn sweep(index: &[u32], k: usize, withdrawn: &[u32], how: &mut [u8], list: &mut [u32])
    requires in_shape { InShape index.now }
    requires k_bound { (k < nodes# index.now) × Bytes index.now how.old }
    ensures { Leaves (is_in_lem withdrawn.now) (λ (i : ℕ). 0) (span (swept_at index.now) (start# index.now k + 1)
        (start# index.now k + count# index.now k)) how.old how.new list.old list.new }
{
    let start = node_start(index, k);
    let end = start + node_count(index, k);
    let base = pair_at(index, 0);
    sweep_bytes(index, base, start + 1, end, withdrawn, how);
    if !list.is_empty() {
        sweep_list(index, base, start + 1, end, withdrawn, list);
    }
}
