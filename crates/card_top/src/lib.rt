// The header of an edition 1 card's index in edition 2's words.
#![tactic(auto)]

ghost use Rattle.std.specs.Prelude.{◌≤◌, drop, length, ◌++◌, ◌≡◌};
ghost use Rattle.card_top.specs.Header.{top_of};
ghost use Rattle.card_words.specs.Cards.{Held, card_words_lem};
ghost use Rattle.words.specs.Words.{header_words};

use image::reading::get_words;
use words::places::HEADER;

// The header: edition 2, and all else as it was.
pub fn put_top(image: &[u8], room: &mut [u32])
    requires held { Held image.now }
    requires header_words_in_bounds { header_words ≤ length room.old }
    ensures { room.new ≡ top_of (card_words_lem image.now) ++ drop header_words room.old }
{
    get_words(image, HEADER, room);
    room[0] = 2;
}
