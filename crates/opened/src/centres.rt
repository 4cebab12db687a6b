// An opened inner node: its centres are measured.
ghost use Rattle.std.specs.Prelude.{◌*◌, ◌+◌, ◌<◌, ◌≤◌, ℕ, get_or, length, take, [], ◌∷◌, ◌≡◌};
ghost use Rattle.laws.specs.Lists.{least};
ghost use Rattle.limits.specs.Limits.{max_centres, max_columns, max_distance, max_rows};
ghost use Rattle.marking.specs.Lent.{Lent};
ghost use Rattle.marking.specs.Listed.{Leaves, span};
ghost use Rattle.marking.specs.Marks.{Distances, centre_at, first_at};
ghost use Rattle.measure.specs.Table.{from};
ghost use Rattle.rowset.specs.Sets.{is_in_lem};
ghost use Rattle.tree.specs.Radius.{by_distance};
ghost use Rattle.words.specs.Words.{nodes#, circles#, m#};

use limits::Params;
use marking::row::mark_measured;
use words::places::{centres, circles, node_start, pair_at, word};

// A row is measured in full, where it stands in the table, and marked: a centre, of which bounds need the distance.
fn measure_row(
    table: &[u16],
    c: usize,
    circles: u32,
    query: &[u16],
    row: usize,
    r: u32,
    withdrawn: &[u32],
    how: &mut [u8],
    list: &mut [u32],
) -> u32
    requires { (c ≤ max_columns) × (c * row + c ≤ length table.now) × (length query.now ≡ c) × (row < max_rows) }
    ensures distance { (result ≡ from table.now c circles query.now row) × (result ≤ max_distance) }
    ensures marks { Leaves (is_in_lem withdrawn.now) (from table.now c circles query.now)
        ((row, by_distance (from table.now c circles query.now) r row) ∷ []) how.old how.new
        list.old list.new }
{
    let x = row_distances::query_distance(table, c, circles, query, row);
    mark_measured(x, row, r, withdrawn, how, list);
    x
}

// The distances of the m centres of an opened inner node, whose first child is node ch. The first centre is its own first, which is
// at x and has been marked; each other is measured here.
pub fn open_inner(
    table: &[u16],
    c: usize,
    index: &[u32],
    query: &[u16],
    ch: usize,
    x: u32,
    r: u32,
    withdrawn: &[u32],
    how: &mut [u8],
    list: &mut [u32],
) -> [u32; Params::MOST_CENTRES]
    requires lent { Lent index.now table.now c query.now how.old }
    requires index_bound { (ch + m# index.now ≤ nodes# index.now) × (x ≤ max_distance)
        × (x ≡ first_at (from table.now c (circles# index.now) query.now) index.now ch) }
    ensures marks { Leaves (is_in_lem withdrawn.now) (from table.now c (circles# index.now) query.now)
        (span (λ (j : ℕ). centre_at (from table.now c (circles# index.now) query.now) r index.now (ch + j))
        1 (m# index.now)) how.old how.new list.old list.new }
    ensures distances { Distances (from table.now c (circles# index.now) query.now) index.now ch result }
{
    let m = centres(index);
    let base = pair_at(index, 0);
    let round = circles(index);
    let mut ds = [x; Params::MOST_CENTRES];
    for j in 1..m {
        let row = word(index, base + 2 * node_start(index, ch + j));
        ds[j] = measure_row(table, c, round, query, row, r, withdrawn, how, list);
    }
    ds
}

// The least of the first m distances.
pub fn least_of(distances: [u32; Params::MOST_CENTRES], m: usize) -> u32
    requires { m ≤ max_centres }
    ensures { result ≡ least (get_or distances 0 0) (take m distances) }
{
    let mut y = distances[0];
    for d in &distances[..m] {
        y = y.min(*d);
    }
    y
}
