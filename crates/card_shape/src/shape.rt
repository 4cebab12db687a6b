// The shape test of an index on a card: one pass over the nodes, one over the positions, in the image's bytes and with no workspace.
// In the bytes, since reading is lent no workspace and a refusal changes no lent memory. A function of the kit can't take words from two kinds of
// slices, so that the functions of shape_test stand here once more; both cite the same laws, which are over a list of words.
ghost use Rattle.std.specs.Prelude.{◌*◌, ◌+◌, ◌<◌, ◌≤◌, ◌≡◌, max};
ghost use Rattle.card_shape.specs.Sweep.{GreatestTo, InBlock};
ghost use Rattle.card_words.specs.Cards.{Carded, Held, card_words_lem};
ghost use Rattle.laws.specs.Lists.{all, range};
ghost use Rattle.limits.specs.Limits.{max_centres};
ghost use Rattle.shape_test.specs.Pass.{fits, roomy};
ghost use Rattle.words.specs.Shape.{brood, position_ok, root_fits_lem, shape_ok_lem, tile, tree_fits_lem};
ghost use Rattle.words.specs.Words.{nodes#, n#};

use blocks::word::{HELD, get_word};
use card_words::places::{
    card_centres, card_child, card_count, card_inner, card_leaf_size, card_nodes, card_pair_at,
    card_radius, card_rows, card_start, held_word,
};
use limits::Params;

// The runs of m nodes from number j on tile the positions s up to e, in order.
fn tiles(image: &[u8], j: usize, m: usize, s: usize, e: usize) -> bool
    requires held { Held image.now }
    requires m_le_max_centres { (m ≤ max_centres) × (s < 4294967296) × (j + m ≤ nodes# (card_words_lem image.now)) }
    ensures { result ≡ tile (card_words_lem image.now) j m s e }
{
    let mut at = s;
    for i in 0..m {
        if card_start(image, j + i) != at {
            return false;
        }
        at += card_count(image, j + i);
    }
    at == e
}

// The children of node k, if it has any, have numbers below the node count.
fn has_room(image: &[u8], k: usize, next: usize) -> bool
    requires held { Held image.now }
    requires k_bound { (k < nodes# (card_words_lem image.now)) × (next ≤ max_centres * k + 1) }
    ensures { result ≡ roomy (card_words_lem image.now) k next }
{
    card_child(image, k) == 0 || next + card_centres(image) <= card_nodes(image)
}

// Node k fits, at the given depth, if `next` is the number that its first child must have.
fn node_fits(image: &[u8], k: usize, next: usize, depth: usize) -> bool
    requires held { Held image.now }
    requires k_bound { (k < nodes# (card_words_lem image.now)) × (k < next) × (next ≤ max_centres * k + 1) }
    ensures { result ≡ fits (card_words_lem image.now) k next depth }
{
    if !has_room(image, k, next) {
        return false;
    }
    let start = card_start(image, k);
    let count = card_count(image, k);
    let child = card_child(image, k);
    if count < 1
        || Params::MOST_DISTANCE < card_radius(image, k)
        || Params::MOST_DISTANCE < card_inner(image, k)
    {
        return false;
    }
    if count <= card_leaf_size(image) || Params::MOST_DEPTH <= depth {
        return child == 0;
    }
    child == next && tiles(image, child, card_centres(image), start, start + count)
}

// How many children node k has.
fn brood_of(image: &[u8], k: usize) -> usize
    requires held { Held image.now }
    requires k_bound { k < nodes# (card_words_lem image.now) }
    ensures { result ≡ brood (card_words_lem image.now) k }
{
    if card_child(image, k) == 0 {
        0
    } else {
        card_centres(image)
    }
}

// The root's run is everything.
fn root_fits(image: &[u8]) -> bool
    requires held { Held image.now }
    requires bound { 1 ≤ nodes# (card_words_lem image.now) }
    ensures { result ≡ root_fits_lem (card_words_lem image.now) }
{
    card_start(image, 0) == 0 && card_count(image, 0) == card_rows(image)
}

// The nodes in number order: `next` is the number that the next first child must have, `edge` where the next level starts.
fn tree_fits(image: &[u8]) -> bool
    requires { Held image.now }
    ensures { result ≡ tree_fits_lem (card_words_lem image.now) }
{
    let total = card_nodes(image);
    if total == 0 {
        return true;
    }
    if !root_fits(image) {
        return false;
    }
    let mut next: usize = 1;
    let mut edge: usize = 1;
    let mut depth: usize = 0;
    for k in 0..total {
        if next <= k || !node_fits(image, k, next, depth) {
            return false;
        }
        next += brood_of(image, k);
        if k + 1 == edge {
            edge = next;
            depth += 1;
        }
    }
    next == total
}

// The greatest row number and the greatest distance of some positions.
#[derive(Clone, Copy)]
struct Greatest {
    row: u32,
    far: u32,
}

impl Greatest {
    // With one position more, of this row number and distance.
    fn with(self, row: u32, far: u32) -> Greatest
        ensures { (result.row ≡ max self.row row) × (result.far ≡ max self.far far) }
    {
        Greatest {
            row: self.row.max(row),
            far: self.far.max(far),
        }
    }
}

// The position after those from p on, of n, whose words stand in block b, where position p's first does.
fn block_stop(base: usize, b: usize, p: usize, n: usize) -> usize
    requires { (127 * b ≤ base + 2 * p) × (base + 2 * p < 127 * b + 127) × (p ≤ n) × (base + 2 * n < 4294967296) }
    ensures { (p ≤ result) × (result ≤ n) × (base + 2 * result ≤ 127 * b + 127) }
{
    let stop = p + (HELD * b + HELD - base - 2 * p) / 2;
    stop.min(n)
}

// The greatest of the positions before `end`, given those of the positions before p: from p on they stand in block b, so that a word's place
// takes no division.
fn block_greatest(
    image: &[u8],
    b: usize,
    base: usize,
    p: usize,
    end: usize,
    found: Greatest,
) -> Greatest
    requires held { Held image.now }
    requires in_block { InBlock (card_words_lem image.now) b base p end }
    requires greatest_to { GreatestTo (card_words_lem image.now) p found.row found.far }
    ensures { GreatestTo (card_words_lem image.now) end result.row result.far }
{
    let from = 4 * base + 4 * b;
    let mut found = found;
    for q in p..end {
        let row = get_word(image, from + 8 * q);
        let far = get_word(image, from + 8 * q + 4);
        found = found.with(row, far);
    }
    found
}

// The positions, block by block: the first by itself, since its two words may stand in two blocks, and then those that stand in one.
// The greatest row number and the greatest distance are looked at once, at the end.
fn positions_fit(image: &[u8]) -> bool
    requires { Held image.now }
    ensures { result ≡ all (position_ok (card_words_lem image.now)) (range 0 (n# (card_words_lem image.now))) }
{
    let n = card_rows(image);
    if n == 0 {
        return true;
    }
    let base = card_pair_at(image, 0);
    let mut found = Greatest { row: 0, far: 0 };
    let mut p = 0;
    while p < n {
        let row = held_word(image, base + 2 * p);
        let far = held_word(image, base + 2 * p + 1);
        found = found.with(row, far);
        p += 1;
        let b = (base + 2 * p) / HELD;
        let stop = block_stop(base, b, p, n);
        found = block_greatest(image, b, base, p, stop, found);
        p = stop;
    }
    found.row < n as u32 && found.far <= Params::MOST_DISTANCE
}

// The shape of the index on a card is right.
pub fn card_shape_ok(image: &[u8]) -> bool
    requires { Carded image.now }
    ensures { result ≡ shape_ok_lem (card_words_lem image.now) }
{
    tree_fits(image) && positions_fit(image)
}
