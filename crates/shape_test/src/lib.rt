// The shape test: one pass over the nodes, one over the positions, with no workspace.
#![tactic(auto)]

ghost use Rattle.std.specs.Prelude.{◌*◌, ◌+◌, ◌<◌, ◌≤◌, ◌||◌, leb, length, true, ◌≡◌};
ghost use Rattle.laws.specs.Lists.{all, range};
ghost use Rattle.limits.specs.Limits.{max_centres, max_depth};
ghost use Rattle.words.specs.InShape.{Whole};
ghost use Rattle.shape_test.specs.Pass.{fits, ranged, roomy};
ghost use Rattle.words.specs.Shape.{brood, position_ok, root_fits_lem, shape_ok_lem, tile, tree_fits_lem};
ghost use Rattle.words.specs.Words.{nodes#, edition#, header_words, l#, n#, node_at_lem, words_ok_lem};

use limits::Params;
use words::places::{
    HEADER, centres, leaf_size, node_child, node_count, node_inner, node_start, nodes, pair_at,
    rows, width, word,
};

// The runs of m nodes from number j on tile the positions s up to e, in order.
fn tiles(index: &[u32], j: usize, m: usize, s: usize, e: usize) -> bool
    requires whole { Whole index.now }
    requires m_le_max_centres { (m ≤ max_centres) × (s < 4294967296) × (j + m ≤ nodes# index.now) }
    ensures { result ≡ tile index.now j m s e }
{
    let mut at = s;
    for i in 0..m {
        if node_start(index, j + i) != at {
            return false;
        }
        at += node_count(index, j + i);
    }
    at == e
}

// The children of node k, if it has any, have numbers below the node count.
fn has_room(index: &[u32], k: usize, next: usize) -> bool
    requires whole { Whole index.now }
    requires k_bound { (k < nodes# index.now) × (next ≤ max_centres * k + 1) }
    ensures { result ≡ roomy index.now k next }
{
    node_child(index, k) == 0 || next + centres(index) <= nodes(index)
}

// Node k, whose words stand from `here` on, has a row, and its radius and its inner reach are in range.
fn in_range(index: &[u32], k: usize, here: usize) -> bool
    requires whole { Whole index.now }
    requires k_bound { (k < nodes# index.now) × (here ≡ node_at_lem index.now k) × (edition# index.now ≡ 2) }
    ensures { result ≡ ranged index.now k }
{
    1 <= word(index, here + 1)
        && index[here + 3] <= Params::MOST_DISTANCE
        && node_inner(index, k) <= Params::MOST_DISTANCE
}

// A node of so many rows must be a leaf: it has no more than a leaf may have, or no level is left below it.
fn must_be_leaf(index: &[u32], count: usize, depth: usize) -> bool
    requires { header_words ≤ length index.now }
    ensures { result ≡ (leb count (l# index.now) || leb max_depth depth) }
{
    count <= leaf_size(index) || Params::MOST_DEPTH <= depth
}

// Node k, whose words stand from `here` on, fits, at the given depth, if `next` is the number that its first child must have.
fn node_fits(index: &[u32], k: usize, here: usize, next: usize, depth: usize) -> bool
    requires whole { Whole index.now }
    requires k_bound { (k < nodes# index.now) × (here ≡ node_at_lem index.now k) × (k < next) × (next ≤ max_centres * k + 1)
        × (edition# index.now ≡ 2) }
    ensures { result ≡ fits index.now k next depth }
{
    if !in_range(index, k, here) {
        return false;
    }
    let count = word(index, here + 1);
    let child = word(index, here + 2);
    if must_be_leaf(index, count, depth) {
        return child == 0;
    }
    if child != next || !has_room(index, k, next) {
        return false;
    }
    let start = word(index, here);
    tiles(index, child, centres(index), start, start + count)
}

// How many children node k has, whose words stand from `here` on.
fn brood_of(index: &[u32], k: usize, here: usize) -> usize
    requires whole { Whole index.now }
    requires k_bound { (k < nodes# index.now) × (here ≡ node_at_lem index.now k) }
    ensures { result ≡ brood index.now k }
{
    if word(index, here + 2) == 0 {
        0
    } else {
        centres(index)
    }
}

// The root's run is everything.
fn root_fits(index: &[u32]) -> bool
    requires whole { Whole index.now }
    requires bound { 1 ≤ nodes# index.now }
    ensures { result ≡ root_fits_lem index.now }
{
    node_start(index, 0) == 0 && node_count(index, 0) == rows(index)
}

// The nodes in number order: `next` is the number that the next first child must have, `edge` where the next level starts, `here` where the node's
// words stand.
fn tree_fits(index: &[u32]) -> bool
    requires whole { Whole index.now }
    requires index_value { edition# index.now ≡ 2 }
    ensures { result ≡ tree_fits_lem index.now }
{
    let total = nodes(index);
    if total == 0 {
        return true;
    }
    if !root_fits(index) {
        return false;
    }
    let mut next: usize = 1;
    let mut edge: usize = 1;
    let mut depth: usize = 0;
    let step = width(index);
    let mut here: usize = HEADER;
    for k in 0..total {
        if next <= k {
            return false;
        }
        if !node_fits(index, k, here, next, depth) {
            return false;
        }
        next += brood_of(index, k, here);
        here += step;
        if k + 1 == edge {
            edge = next;
            depth += 1;
        }
    }
    next == total
}

// The positions. Every one is looked at, and what is wrong is gathered without a branch, so that several are tested at a time.
fn positions_fit(index: &[u32]) -> bool
    requires { Whole index.now }
    ensures { result ≡ all (position_ok index.now) (range 0 (n# index.now)) }
{
    let n = rows(index);
    let over = n as u32;
    let base = pair_at(index, 0);
    let mut wrong = false;
    for p in 0..n {
        wrong = wrong
            | (over <= index[base + 2 * p])
            | (Params::MOST_DISTANCE < index[base + 2 * p + 1]);
    }
    !wrong
}

// The shape is right.
pub fn shape_ok(index: &[u32]) -> bool
    requires { words_ok_lem index.now ≡ true }
    ensures { result ≡ shape_ok_lem index.now }
{
    tree_fits(index) && positions_fit(index)
}
