// The index words by place.
ghost use Rattle.std.specs.Prelude.{◌*◌, ◌+◌, ◌<◌, ◌≤◌, length, ◌≡◌};
ghost use Rattle.words.specs.InShape.{InShape, Whole};
ghost use Rattle.words.specs.Words.{nodes#, at, c#, child#, circles#, count#, dist#, edition#, first#, header_words, inner#, l#, m#, n#};
ghost use Rattle.words.specs.Words.{node_at_lem, pair_at, radius#, row#, start#, width};

// How many words a header has.
pub const HEADER: usize = 8;

// How many words each node has: 4 in edition 1, 5 in edition 2.
pub fn width(index: &[u32]) -> usize
    requires { header_words ≤ length index.now }
    ensures { (result ≡ width (edition# index.now)) × (result < 4294967300) }
{
    3 + word(index, 0)
}

// Word i, as a place or a count.
pub fn word(index: &[u32], i: usize) -> usize
    requires { i < length index.now }
    ensures { (result ≡ at index.now i) × (result < 4294967296) }
{
    index[i] as usize
}

// How many rows the index is over.
pub fn rows(index: &[u32]) -> usize
    requires { header_words ≤ length index.now }
    ensures { (result ≡ n# index.now) × (result < 4294967296) }
{
    word(index, 1)
}

// How many columns its rows have.
pub fn columns(index: &[u32]) -> usize
    requires { header_words ≤ length index.now }
    ensures { (result ≡ c# index.now) × (result < 4294967296) }
{
    word(index, 2)
}

// The columns that are circles, a bit for each.
pub fn circles(index: &[u32]) -> u32
    requires { header_words ≤ length index.now }
    ensures { result ≡ circles# index.now }
{
    index[7]
}

// How many centres an inner node has.
pub fn centres(index: &[u32]) -> usize
    requires { header_words ≤ length index.now }
    ensures { (result ≡ m# index.now) × (result < 4294967296) }
{
    word(index, 3)
}

// How many rows a leaf above depth 24 may have.
pub fn leaf_size(index: &[u32]) -> usize
    requires { header_words ≤ length index.now }
    ensures { (result ≡ l# index.now) × (result < 4294967296) }
{
    word(index, 4)
}

// How many nodes there are.
pub fn nodes(index: &[u32]) -> usize
    requires { header_words ≤ length index.now }
    ensures { (result ≡ nodes# index.now) × (result < 4294967296) }
{
    word(index, 5)
}

// Where node k's words stand.
pub fn node_at(index: &[u32], k: usize) -> usize
    requires { node_at_lem index.now k ≤ length index.now }
    ensures { result ≡ node_at_lem index.now k }
{
    HEADER + width(index) * k
}

// Node k's run starts here.
pub fn node_start(index: &[u32], k: usize) -> usize
    requires whole { Whole index.now }
    requires k_bound { k < nodes# index.now }
    ensures { (result ≡ start# index.now k) × (result < 4294967296) }
{
    word(index, node_at(index, k))
}

// How many rows node k has.
pub fn node_count(index: &[u32], k: usize) -> usize
    requires whole { Whole index.now }
    requires k_bound { k < nodes# index.now }
    ensures { (result ≡ count# index.now k) × (result < 4294967296) }
{
    word(index, node_at(index, k) + 1)
}

// The number of node k's first child, 0 for a leaf.
pub fn node_child(index: &[u32], k: usize) -> usize
    requires whole { Whole index.now }
    requires k_bound { k < nodes# index.now }
    ensures { (result ≡ child# index.now k) × (result < 4294967296) }
{
    word(index, node_at(index, k) + 2)
}

// Node k's radius.
pub fn node_radius(index: &[u32], k: usize) -> u32
    requires whole { Whole index.now }
    requires k_bound { k < nodes# index.now }
    ensures { result ≡ radius# index.now k }
{
    index[node_at(index, k) + 3]
}

// Node k's inner reach, in edition 2.
pub fn node_inner(index: &[u32], k: usize) -> u32
    requires whole { Whole index.now }
    requires k_bound { k < nodes# index.now }
    requires index_value { edition# index.now ≡ 2 }
    ensures { result ≡ inner# index.now k }
{
    index[node_at(index, k) + 4]
}

// Where position p's words stand.
pub fn pair_at(index: &[u32], p: usize) -> usize
    requires { pair_at index.now p ≤ length index.now }
    ensures { result ≡ pair_at index.now p }
{
    node_at(index, nodes(index)) + 2 * p
}

// The row number at position p.
pub fn row_at(index: &[u32], p: usize) -> usize
    requires { pair_at index.now p + 1 < length index.now }
    ensures { (result ≡ row# index.now p) × (result < 4294967296) }
{
    word(index, pair_at(index, p))
}

// The stored distance at position p.
pub fn stored_at(index: &[u32], p: usize) -> u32
    requires { pair_at index.now p + 1 < length index.now }
    ensures { result ≡ dist# index.now p }
{
    index[pair_at(index, p) + 1]
}

// The row at the start of node k's run.
pub fn node_first(index: &[u32], k: usize) -> usize
    requires in_shape { InShape index.now }
    requires k_bound { k < nodes# index.now }
    ensures { (result ≡ first# index.now k) × (result < n# index.now) }
{
    row_at(index, node_start(index, k))
}
