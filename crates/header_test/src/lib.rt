// The header's test, and that no word is missing.
#![tactic(auto)]

ghost use Rattle.std.specs.Prelude.{◌≤◌, length, ◌≡◌};
ghost use Rattle.limits.specs.Limits.{max_rows};
ghost use Rattle.words.specs.Words.{card_ok_lem, header_ok_lem, header_words, nodes_ok_lem, words_ok_lem};

use limits::{Params, circles_ok, columns_ok, edition_ok, is_within, share_ok};
use words::places::{HEADER, centres, circles, columns, leaf_size, nodes, rows, width, word};

// n rows can have this many nodes.
fn nodes_ok(n: usize, nodes: usize) -> bool
    requires { n ≤ max_rows }
    ensures { result ≡ nodes_ok_lem n nodes }
{
    if n == 0 {
        nodes == 0
    } else {
        is_within(1, 2 * n - 1, nodes)
    }
}

// The eight header words are possible on a card, which may be of either edition.
#[tactic(auto, unfolding(words::specs::Words::card_ok_lem))]
pub fn card_ok(header: &[u32]) -> bool
    requires { header_words ≤ length header.now }
    ensures { result ≡ card_ok_lem header.now }
{
    let n = rows(header);
    edition_ok(word(header, 0))
        && n <= Params::MOST_ROWS
        && columns_ok(columns(header))
        && share_ok(centres(header), leaf_size(header))
        && nodes_ok(n, nodes(header))
        && word(header, 6) == 1
        && circles_ok(columns(header), circles(header))
}

// The eight header words are possible.
#[tactic(auto, unfolding(words::specs::Words::header_ok_lem))]
pub fn header_ok(index: &[u32]) -> bool
    requires { header_words ≤ length index.now }
    ensures { result ≡ header_ok_lem index.now }
{
    word(index, 0) == Params::LAST_EDITION && card_ok(index)
}

// The header words are there and possible, and no word is missing.
pub fn words_ok(index: &[u32]) -> bool
    ensures { result ≡ words_ok_lem index.now }
{
    HEADER <= index.len()
        && header_ok(index)
        && HEADER + width(index) * nodes(index) + 2 * rows(index) <= index.len()
}
