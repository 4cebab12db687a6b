// The words of an index on a card, by place.
ghost use Rattle.std.specs.Prelude.{◌+◌, ◌<◌, ◌≤◌, length, ◌≡◌};
ghost use Rattle.card_words.specs.Cards.{Held, card_words_lem};
ghost use Rattle.words.specs.Words.{nodes#, at, c#, child#, circles#, count#, dist#, edition#, inner#, l#, m#, n#, node_at_lem, pair_at};
ghost use Rattle.words.specs.Words.{radius#, row#, start#, width};

use blocks::word::image_word;
use words::places::HEADER;

// Index word j.
pub fn held_word(image: &[u8], j: usize) -> u32
    requires held { Held image.now }
    requires j_in_bounds { j < length (card_words_lem image.now) }
    ensures { result ≡ at (card_words_lem image.now) j }
{
    image_word(image, j)
}

// Index word j, as a place or a count.
pub fn card_word(image: &[u8], j: usize) -> usize
    requires held { Held image.now }
    requires j_in_bounds { j < length (card_words_lem image.now) }
    ensures { (result ≡ at (card_words_lem image.now) j) × (result < 4294967296) }
{
    held_word(image, j) as usize
}

// How many words each node has: 4 in edition 1, 5 in edition 2.
fn card_width(image: &[u8]) -> usize
    requires { Held image.now }
    ensures { result ≡ width (edition# (card_words_lem image.now)) }
{
    3 + card_word(image, 0)
}

// How many rows the index is over.
pub fn card_rows(image: &[u8]) -> usize
    requires { Held image.now }
    ensures { (result ≡ n# (card_words_lem image.now)) × (result < 4294967296) }
{
    card_word(image, 1)
}

// How many columns its rows have.
pub fn card_columns(image: &[u8]) -> usize
    requires { Held image.now }
    ensures { (result ≡ c# (card_words_lem image.now)) × (result < 4294967296) }
{
    card_word(image, 2)
}

// How many centres an inner node has.
pub fn card_centres(image: &[u8]) -> usize
    requires { Held image.now }
    ensures { (result ≡ m# (card_words_lem image.now)) × (result < 4294967296) }
{
    card_word(image, 3)
}

// How many rows a leaf above depth 24 may have.
pub fn card_leaf_size(image: &[u8]) -> usize
    requires { Held image.now }
    ensures { (result ≡ l# (card_words_lem image.now)) × (result < 4294967296) }
{
    card_word(image, 4)
}

// How many nodes there are.
pub fn card_nodes(image: &[u8]) -> usize
    requires { Held image.now }
    ensures { (result ≡ nodes# (card_words_lem image.now)) × (result < 4294967296) }
{
    card_word(image, 5)
}

// The columns that are circles, a bit for each.
pub fn card_circles(image: &[u8]) -> u32
    requires { Held image.now }
    ensures { result ≡ circles# (card_words_lem image.now) }
{
    held_word(image, 7)
}

// Which index word node k's first is.
fn card_node_at(image: &[u8], k: usize) -> usize
    requires held { Held image.now }
    requires k_in_bounds { node_at_lem (card_words_lem image.now) k ≤ length (card_words_lem image.now) }
    ensures { result ≡ node_at_lem (card_words_lem image.now) k }
{
    HEADER + card_width(image) * k
}

// Node k's run starts here.
pub fn card_start(image: &[u8], k: usize) -> usize
    requires held { Held image.now }
    requires k_bound { k < nodes# (card_words_lem image.now) }
    ensures { (result ≡ start# (card_words_lem image.now) k) × (result < 4294967296) }
{
    card_word(image, card_node_at(image, k))
}

// How many rows node k has.
pub fn card_count(image: &[u8], k: usize) -> usize
    requires held { Held image.now }
    requires k_bound { k < nodes# (card_words_lem image.now) }
    ensures { (result ≡ count# (card_words_lem image.now) k) × (result < 4294967296) }
{
    card_word(image, card_node_at(image, k) + 1)
}

// The number of node k's first child, 0 for a leaf.
pub fn card_child(image: &[u8], k: usize) -> usize
    requires held { Held image.now }
    requires k_bound { k < nodes# (card_words_lem image.now) }
    ensures { (result ≡ child# (card_words_lem image.now) k) × (result < 4294967296) }
{
    card_word(image, card_node_at(image, k) + 2)
}

// Node k's radius.
pub fn card_radius(image: &[u8], k: usize) -> u32
    requires held { Held image.now }
    requires k_bound { k < nodes# (card_words_lem image.now) }
    ensures { result ≡ radius# (card_words_lem image.now) k }
{
    held_word(image, card_node_at(image, k) + 3)
}

// Node k's inner reach: 0 in edition 1, which has none.
pub fn card_inner(image: &[u8], k: usize) -> u32
    requires held { Held image.now }
    requires k_bound { k < nodes# (card_words_lem image.now) }
    ensures { result ≡ inner# (card_words_lem image.now) k }
{
    if card_word(image, 0) == 2 {
        held_word(image, card_node_at(image, k) + 4)
    } else {
        0
    }
}

// Which index word position p's first is.
pub fn card_pair_at(image: &[u8], p: usize) -> usize
    requires held { Held image.now }
    requires p_in_bounds { pair_at (card_words_lem image.now) p ≤ length (card_words_lem image.now) }
    ensures { result ≡ pair_at (card_words_lem image.now) p }
{
    card_node_at(image, card_nodes(image)) + 2 * p
}

// The row number at position p.
pub fn card_row(image: &[u8], p: usize) -> usize
    requires held { Held image.now }
    requires p_bound { p < n# (card_words_lem image.now) }
    ensures { (result ≡ row# (card_words_lem image.now) p) × (result < 4294967296) }
{
    card_word(image, card_pair_at(image, p))
}

// The stored distance at position p.
pub fn card_stored(image: &[u8], p: usize) -> u32
    requires held { Held image.now }
    requires p_bound { p < n# (card_words_lem image.now) }
    ensures { result ≡ dist# (card_words_lem image.now) p }
{
    held_word(image, card_pair_at(image, p) + 1)
}
