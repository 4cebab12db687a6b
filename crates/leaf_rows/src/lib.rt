// A row of an opened leaf: it is decided by its stored distance, or measured.
#![tactic(auto)]

ghost use Rattle.std.specs.Prelude.{◌*◌, ◌+◌, ◌<◌, ◌≤◌, length, [], ◌∷◌, ◌≡◌};
ghost use Rattle.leaf_decision.specs.Decision.{leaf_at};
ghost use Rattle.limits.specs.Limits.{max_columns, max_distance, max_rows};
ghost use Rattle.marking.specs.Lent.{Lent};
ghost use Rattle.marking.specs.Listed.{Leaves};
ghost use Rattle.measure.specs.Table.{from};
ghost use Rattle.rowset.specs.Sets.{is_in_lem};
ghost use Rattle.tree.specs.Radius.{by_distance};
ghost use Rattle.words.specs.Words.{n#, pair_at};

use leaf_decision::{Verdict, decide};
use marking::row::{UNMEASURED, enter, mark_measured, put};
use rows_withdrawn::is_in;
use words::places::word;

// A row of a leaf is measured as far as r, beyond which it is out however far it is, and marked.
fn measure_to(
    table: &[u16],
    c: usize,
    circles: u32,
    query: &[u16],
    row: usize,
    r: u32,
    withdrawn: &[u32],
    how: &mut [u8],
    list: &mut [u32],
)
    requires { (c ≤ max_columns) × (c * row + c ≤ length table.now) × (length query.now ≡ c) × (row < max_rows) }
    ensures { Leaves (is_in_lem withdrawn.now) (from table.now c circles query.now)
        ((row, by_distance (from table.now c circles query.now) r row) ∷ []) how.old how.new
        list.old list.new }
{
    let x = ceilings::query_distance_to(table, c, circles, query, row, r);
    mark_measured(x, row, r, withdrawn, how, list);
}

// The row at position p of an opened leaf whose first is at x. The positions' words stand from `base` on.
pub fn leaf_row(
    table: &[u16],
    c: usize,
    circles: u32,
    index: &[u32],
    query: &[u16],
    base: usize,
    p: usize,
    x: u32,
    r: u32,
    withdrawn: &[u32],
    how: &mut [u8],
    list: &mut [u32],
)
    requires lent { Lent index.now table.now c query.now how.old }
    requires p_bound { (p < n# index.now) × (x ≤ max_distance) × (base ≡ pair_at index.now 0) }
    ensures { Leaves (is_in_lem withdrawn.now) (from table.now c circles query.now)
        (leaf_at (from table.now c circles query.now) r index.now x p) how.old how.new
        list.old list.new }
{
    let row = word(index, base + 2 * p);
    match decide(x, index[base + 2 * p + 1], r) {
        Verdict::Out => {}
        Verdict::In => {
            if !is_in(withdrawn, row) {
                put(how, row, 2);
                enter(list, UNMEASURED, row);
            }
        }
        Verdict::Measure => measure_to(table, c, circles, query, row, r, withdrawn, how, list),
    }
}
