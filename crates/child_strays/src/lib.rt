// The full check, in one child of a node: the members that are closer to the centre of another child.
#![tactic(auto)]

ghost use Rattle.std.specs.Prelude.{◌+◌, ◌<◌, ltb, true, ◌≡◌};
ghost use Rattle.child_strays.specs.Strays.{FirstIn, Firsts, closer_than, kid_strays};
ghost use Rattle.laws.specs.Lists.{any, range};
ghost use Rattle.measure.specs.Table.{between};
ghost use Rattle.tree.specs.Tested.{Tested};
ghost use Rattle.words.specs.Shape.{inner};
ghost use Rattle.words.specs.Words.{nodes#, child#, circles#, m#, n#, row#};

use limits::Params;
use reach::{apart, node_end};
use words::places::{centres, node_child, node_first, node_start};

// The row at p is closer to row f than to row g, from which it is x away. Row g is not measured again.
fn is_closer(
    table: &[u16],
    c: usize,
    circles: u32,
    index: &[u32],
    f: usize,
    g: usize,
    x: u32,
    p: usize,
) -> bool
    requires tested { Tested index.now table.now c }
    requires f_bound { (f < n# index.now) × (p < n# index.now) × (x ≡ between table.now c (circles# index.now) g (row# index.now p))
        × (circles ≡ circles# index.now) }
    ensures { result ≡ ltb (between table.now c (circles# index.now) f (row# index.now p)) x }
{
    f != g && apart(table, c, circles, index, f, p) < x
}

// The row at p, which is x away from row g, is closer to the first of one of the m nodes from number `child` on: fs are these.
fn closer_to_other(
    table: &[u16],
    c: usize,
    circles: u32,
    index: &[u32],
    child: usize,
    fs: &[usize; Params::MOST_CENTRES],
    g: usize,
    x: u32,
    p: usize,
) -> bool
    requires tested { Tested index.now table.now c }
    requires firsts { Firsts index.now child fs.now × (p < n# index.now)
        × (x ≡ between table.now c (circles# index.now) g (row# index.now p)) × (circles ≡ circles# index.now) }
    ensures { result ≡ any (closer_than (between table.now c (circles# index.now)) index.now p x)
        (range child (m# index.now)) }
{
    for f in &fs[..centres(index)] {
        if is_closer(table, c, circles, index, *f, g, x, p) {
            return true;
        }
    }
    false
}

// In child a of inner node k, whose children's firsts are fs: the lowest position whose row is closer to another child's centre, or the end of k's
// run, which no position of it reaches: no `Option`, since the least of all children is taken.
pub fn child_stray(
    table: &[u16],
    c: usize,
    index: &[u32],
    fs: &[usize; Params::MOST_CENTRES],
    k: usize,
    a: usize,
) -> usize
    requires tested { Tested index.now table.now c }
    requires k_bound { (k < nodes# index.now) × (inner index.now k ≡ true) × (a < m# index.now) × Firsts index.now (child# index.now k) fs.now }
    ensures { FirstIn index.now k (kid_strays (between table.now c (circles# index.now)) index.now k
        (child# index.now k + a)) result }
{
    let child = node_child(index, k);
    let j = child + a;
    let f = node_first(index, j);
    let end = node_end(index, j);
    let circles = words::places::circles(index);
    for p in node_start(index, j)..end {
        let x = apart(table, c, circles, index, f, p);
        if closer_to_other(table, c, circles, index, child, fs, f, x, p) {
            return p;
        }
    }
    node_end(index, k)
}
