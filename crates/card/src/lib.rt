// Reading a card over its table, as a call: the tests, and the index in the room.
#![tactic(auto)]

ghost use Rattle.card.specs.Calls.{Reads};
ghost use Rattle.limits.specs.Refusal.{count_of, outcome};

use crate::reading::put_index;
use card_refusals::test_card;
use limits::Refusal;

mod reading;

// Reads a card over its table, of c columns, to the front of the room, and says how many words it read. The index need not be accepted: one in
// shape is enough.
pub fn read_image(image: &[u8], table: &[u16], c: usize, room: &mut [u32]) -> Result<usize, Refusal>
    ensures { Reads table.now c image.now room.old room.new (outcome result).0 (outcome result).1 (count_of result) }
{
    let words = test_card(image, table, c, room.len())?;
    put_index(table, c, image, words, room);
    Ok(words)
}
