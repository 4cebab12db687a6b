// How far from its own centre a row may be and need not be measured from the others, in a table with no circle.
#![tactic(auto)]

ghost use Rattle.std.specs.Prelude.{◌<◌, ℕ, get_or, ◌≡◌};
ghost use Rattle.measure.specs.Space.{Space};
ghost use Rattle.measure.specs.Table.{between};
ghost use Rattle.spared_rows.specs.Safe.{Safe, SafeTo};
ghost use Rattle.tree.specs.Tested.{Tested};
ghost use Rattle.words.specs.Words.{circles#, m#, n#};

use limits::Params;
use row_distances::row_distance;
use words::places::centres;

// How far a row can be from row g and is still no closer to row f: half the way between the two, and any distance where they are one.
fn halfway(table: &[u16], c: usize, index: &[u32], g: usize, f: usize) -> u32
    requires tested { Tested index.now table.now c × Space (between table.now c (circles# index.now)) × (circles# index.now ≡ 0) }
    requires g_bound { (g < n# index.now) × (f < n# index.now) }
    ensures { Safe (between table.now c (circles# index.now)) g f result }
{
    if f == g {
        Params::MOST_DISTANCE
    } else {
        row_distance(table, c, 0, g, f) / 2
    }
}

// How far a row can be from the first of child a, whose run has `count` positions, and is still closer to none of fs, so that it need not be measured
// from them: the least half of the ways to these. In a short run the rows are sooner measured than the ways, and then it is 0:
// the fewer columns, the longer it must be.
pub fn safe_within(
    table: &[u16],
    c: usize,
    index: &[u32],
    fs: &[usize; Params::MOST_CENTRES],
    a: usize,
    count: usize,
) -> u32
    requires tested { Tested index.now table.now c × Space (between table.now c (circles# index.now)) × (circles# index.now ≡ 0) }
    requires a_bound { (a < m# index.now) × ((i : ℕ) → i < m# index.now → get_or fs.now i 0 < n# index.now) }
    ensures { SafeTo (between table.now c (circles# index.now)) fs.now (get_or fs.now a 0)
        (m# index.now) result }
{
    if (count < 32) | (c <= 4) & (count < 128) {
        return 0;
    }
    let g = fs[a];
    let mut least = Params::MOST_DISTANCE;
    for f in &fs[..centres(index)] {
        least = least.min(halfway(table, c, index, g, *f));
    }
    least
}
