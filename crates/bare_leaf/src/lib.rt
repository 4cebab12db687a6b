// An opened leaf where no row is withdrawn and no list is lent: how-bytes alone are stored, and no row is asked of a set or a list.
#![tactic(auto)]

ghost use Rattle.std.specs.Prelude.{◌*◌, ◌+◌, ◌<◌, ◌≤◌, ℕ, length, false, ◌≡◌};
ghost use Rattle.bare_leaf.specs.Bare.{Bare};
ghost use Rattle.leaf_decision.specs.Decision.{leaf_at, leaf_mark};
ghost use Rattle.limits.specs.Limits.{max_columns, max_distance};
ghost use Rattle.marking.specs.Lent.{Lent};
ghost use Rattle.marking.specs.Written.{byte, marked};
ghost use Rattle.measure.specs.Table.{from};
ghost use Rattle.tree.specs.Radius.{by_distance};
ghost use Rattle.words.specs.Words.{n#, pair_at, row#};

use ceilings::query_distance_to;
use leaf_decision::{Verdict, decide};
use limits::Params;
use words::places::word;

// How-bytes are lent, and neither a set nor a list; of each its length is given.
pub fn is_bare(how: usize, withdrawn: usize, list: usize) -> bool
    ensures { Bare result how withdrawn list }
{
    how != 0 && withdrawn == 0 && list == 0
}

// The how-byte of a row that is measured, as far as r. It is told by one more than the ceiling, with which measuring compares as well: so the compiler
// makes one test of the two.
fn measured_byte(table: &[u16], c: usize, circles: u32, query: &[u16], row: usize, r: u32) -> u8
    requires { (c ≤ max_columns) × (c * row + c ≤ length table.now) × (length query.now ≡ c) }
    ensures { result ≡ by_distance (from table.now c circles query.now) r row }
{
    let over = r.min(Params::MOST_DISTANCE) + 1;
    let d = query_distance_to(table, c, circles, query, row, r);
    if d < over { 3 } else { 1 }
}

// The row at position p of an opened leaf whose first is at x. The positions' words stand from `base` on.
fn bare_row(
    table: &[u16],
    c: usize,
    circles: u32,
    index: &[u32],
    query: &[u16],
    base: usize,
    p: usize,
    x: u32,
    r: u32,
    how: &mut [u8],
)
    requires lent { Lent index.now table.now c query.now how.old × (0 < length how.old) }
    requires p_bound { (p < n# index.now) × (x ≤ max_distance) × (base ≡ pair_at index.now 0) }
    ensures { how.new ≡ byte (row# index.now p)
        (leaf_mark (from table.now c circles query.now) r index.now x p) how.old }
{
    let row = word(index, base + 2 * p);
    match decide(x, index[base + 2 * p + 1], r) {
        Verdict::Out => {}
        Verdict::In => how[row] = 2,
        Verdict::Measure => how[row] = measured_byte(table, c, circles, query, row, r),
    }
}

// The rows at the positions from lo up to hi of an opened leaf whose first is at x.
pub fn open_bare(
    table: &[u16],
    c: usize,
    circles: u32,
    index: &[u32],
    query: &[u16],
    base: usize,
    lo: usize,
    hi: usize,
    x: u32,
    r: u32,
    how: &mut [u8],
)
    requires lent { Lent index.now table.now c query.now how.old × (0 < length how.old) }
    requires lo_le_hi { (lo ≤ hi) × (hi ≤ n# index.now) × (x ≤ max_distance) × (base ≡ pair_at index.now 0) }
    ensures { how.new ≡ marked (λ (i : ℕ). false)
        (leaf_at (from table.now c circles query.now) r index.now x) lo hi how.old }
{
    for p in lo..hi {
        bare_row(table, c, circles, index, query, base, p, x, r, how);
    }
}
