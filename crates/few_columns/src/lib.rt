// The full check in one child of a node, for rows of at most six columns with no circle, which questions about a minute have: the loop over a child's
// positions then knows which way of measuring it is, and a row that is no farther from its own centre than half the way to the nearest other is not
// measured from the others. (With more columns or with circles that was found to cost more than it saved.) The machine's code for the two loops is
// what this crate is for, so that what `child_strays` has stands here once more.
#![tactic(auto)]

ghost use Rattle.std.specs.Prelude.{◌+◌, ◌<◌, ltb, true, ◌≡◌};
ghost use Rattle.child_strays.specs.Strays.{FirstIn, Firsts, closer_than, kid_strays};
ghost use Rattle.laws.specs.Lists.{any, range};
ghost use Rattle.measure.specs.Space.{Space};
ghost use Rattle.measure.specs.Table.{between};
ghost use Rattle.spared_rows.specs.Safe.{SafeTo};
ghost use Rattle.tree.specs.Tested.{Tested};
ghost use Rattle.words.specs.Shape.{inner};
ghost use Rattle.words.specs.Words.{nodes#, child#, circles#, m#, n#, row#};

use limits::Params;
use reach::{apart, node_end};
use spared_rows::safe_within;
use words::places::{centres, node_child, node_first, node_start};

// The row at p is less than x away from row f. A row's own centre is measured once more: to leave it out, a test for every centre, takes longer.
fn is_closer(table: &[u16], c: usize, index: &[u32], f: usize, x: u32, p: usize) -> bool
    requires tested { Tested index.now table.now c × (circles# index.now ≡ 0) }
    requires f_bound { (f < n# index.now) × (p < n# index.now) }
    ensures { result ≡ ltb (between table.now c (circles# index.now) f (row# index.now p)) x }
{
    apart(table, c, 0, index, f, p) < x
}

// The row at p, which is x away from row g, is closer to the first of one of the m nodes from number `child` on: fs are these, and up to `safe` from
// row g no row is.
fn closer_to_other(
    table: &[u16],
    c: usize,
    index: &[u32],
    child: usize,
    fs: &[usize; Params::MOST_CENTRES],
    g: usize,
    safe: u32,
    x: u32,
    p: usize,
) -> bool
    requires tested { Tested index.now table.now c × (circles# index.now ≡ 0) }
    requires firsts { Firsts index.now child fs.now × (p < n# index.now)
        × (x ≡ between table.now c (circles# index.now) g (row# index.now p))
        × SafeTo (between table.now c (circles# index.now)) fs.now g (m# index.now) safe }
    ensures { result ≡ any (closer_than (between table.now c (circles# index.now)) index.now p x)
        (range child (m# index.now)) }
{
    if x <= safe {
        return false;
    }
    for f in &fs[..centres(index)] {
        if is_closer(table, c, index, *f, x, p) {
            return true;
        }
    }
    false
}

// In child a of inner node k, whose children's firsts are fs: the lowest position whose row is closer to another child's centre, or the end of k's
// run, since the caller takes the least of all children.
pub fn child_stray(
    table: &[u16],
    c: usize,
    index: &[u32],
    fs: &[usize; Params::MOST_CENTRES],
    k: usize,
    a: usize,
) -> usize
    requires tested { Tested index.now table.now c × Space (between table.now c (circles# index.now)) × (circles# index.now ≡ 0) }
    requires k_bound { (k < nodes# index.now) × (inner index.now k ≡ true) × (a < m# index.now) × Firsts index.now (child# index.now k) fs.now }
    ensures { FirstIn index.now k (kid_strays (between table.now c (circles# index.now)) index.now k
        (child# index.now k + a)) result }
{
    let child = node_child(index, k);
    let j = child + a;
    let f = node_first(index, j);
    let end = node_end(index, j);
    let start = node_start(index, j);
    let safe = safe_within(table, c, index, fs, a, end - start);
    for p in start..end {
        let x = apart(table, c, 0, index, f, p);
        if closer_to_other(table, c, index, child, fs, f, safe, x, p) {
            return p;
        }
    }
    node_end(index, k)
}
