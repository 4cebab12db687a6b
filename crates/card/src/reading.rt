// A card read over its table: an edition 2 index, whatever the card's edition.
ghost use Rattle.std.specs.Prelude.{◌≤◌, drop, length, ◌++◌, ◌≡◌};
ghost use Rattle.card_members.specs.Tabled.{Tabled};
ghost use Rattle.card_refusals.specs.Tests.{read_total};
ghost use Rattle.card.specs.Calls.{read_words};

use card_widen::widening::widen_card;
use card_words::places::card_word;
use image::reading::get_words;

// The index to the front of a room that is long enough: `words` is how many words it has.
pub fn put_index(table: &[u16], c: usize, image: &[u8], words: usize, room: &mut [u32])
    requires tabled { Tabled table.now c image.now }
    requires words_value { (words ≡ read_total image.now) × (words ≤ length room.old) }
    ensures { room.new ≡ read_words table.now c image.now
        ++ drop (read_total image.now) room.old }
{
    if card_word(image, 0) == 1 {
        widen_card(table, c, image, room);
    } else {
        get_words(image, words, room);
    }
}
