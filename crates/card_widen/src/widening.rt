// An edition 1 card's index in edition 2's words, written to a room: the header, the nodes with their inner reach, the positions.
ghost use Rattle.std.specs.Prelude.{◌*◌, ◌≤◌, length, ◌≡◌};
ghost use Rattle.card_members.specs.Tabled.{Tabled};
ghost use Rattle.card_widen.specs.Parts.{wide_long, with_nodes, with_pairs, with_wide};
ghost use Rattle.card_words.specs.Cards.{Held, card_words_lem};
ghost use Rattle.measure.specs.Table.{between};
ghost use Rattle.words.specs.Words.{nodes#, circles#, n#};

use card_members::card_nearest;
use card_top::put_top;
use card_words::places::{
    card_child, card_count, card_nodes, card_pair_at, card_radius, card_rows, card_start, held_word,
};
use words::places::HEADER;
use words::writing::put_node;

// How many words a node of edition 2 has.
pub const WIDE: usize = 5;

// The nodes' words. Each member is measured once for each node that it is in.
fn put_nodes(table: &[u16], c: usize, image: &[u8], part: &mut [u32])
    requires tabled { Tabled table.now c image.now }
    requires image_in_bounds { 5 * nodes# (card_words_lem image.now) ≤ length part.old }
    ensures { part.new ≡ with_nodes (between table.now c (circles# (card_words_lem image.now)))
        (card_words_lem image.now) part.old }
{
    for k in 0..card_nodes(image) {
        let start = card_start(image, k) as u32;
        let count = card_count(image, k) as u32;
        let child = card_child(image, k) as u32;
        let radius = card_radius(image, k);
        let near = card_nearest(table, c, image, k);
        put_node(&mut part[WIDE * k..], start, count, child, radius, near);
    }
}

// The positions' words.
fn put_pairs(image: &[u8], part: &mut [u32])
    requires held { Held image.now }
    requires image_in_bounds { 2 * n# (card_words_lem image.now) ≤ length part.old }
    ensures { part.new ≡ with_pairs (card_words_lem image.now) part.old }
{
    let base = card_pair_at(image, 0);
    for p in 0..card_rows(image) {
        let at = 2 * p;
        part[at] = held_word(image, base + at);
        part[at + 1] = held_word(image, base + at + 1);
    }
}

// The widened index to the front of a room that is long enough.
pub fn widen_card(table: &[u16], c: usize, image: &[u8], room: &mut [u32])
    requires tabled { Tabled table.now c image.now }
    requires image_in_bounds { wide_long (card_words_lem image.now) ≤ length room.old }
    ensures { room.new ≡ with_wide (between table.now c (circles# (card_words_lem image.now)))
        (card_words_lem image.now) room.old }
{
    put_top(image, room);
    put_nodes(table, c, image, &mut room[HEADER..]);
    let at = HEADER + WIDE * card_nodes(image);
    put_pairs(image, &mut room[at..]);
}
