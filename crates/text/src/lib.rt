// The listing program's text, read as numbers: counted first, so that a text that can't be read changes nothing.
#![tactic(auto)]

ghost use Rattle.std.specs.Prelude.{◌≤◌, drop, length, ◌++◌, ◌≡◌};
ghost use Rattle.limits.specs.Refusal.{count_of, outcome};
ghost use Rattle.text_reading.specs.Calls.{Reads};
ghost use Rattle.text_reading.specs.Reading.{how_many, numbers};

use limits::{Refusal, is_within};
use text_bytes::{NEWLINE, ended, may_end, put_ended, step};
use text_reading::Place;

const LEAST_NUMBERS: usize = 3;

const MOST_NUMBERS: usize = 1_027;

// How many numbers a readable text has; 0 where it is not readable.
fn count(text: &[u8]) -> usize
    ensures { result ≡ how_many text.now }
{
    let mut place = Place::Start;
    let mut count = 0;
    for b in text {
        count += ended(place, *b);
        place = step(place, *b);
    }
    count += ended(place, NEWLINE);
    if may_end(place) && is_within(LEAST_NUMBERS, MOST_NUMBERS, count) {
        count
    } else {
        0
    }
}

// Puts the numbers of a text at the front of the room.
fn fill(text: &[u8], room: &mut [u16])
    requires { length (numbers text.now) ≤ length room.old }
    ensures { room.new ≡ numbers text.now ++ drop (length (numbers text.now)) room.old }
{
    let mut place = Place::Start;
    let mut at = 0;
    for b in text {
        at = put_ended(place, *b, room, at);
        place = step(place, *b);
    }
    put_ended(place, NEWLINE, room, at);
}

// Reads a whole text as numbers into a lent room, and gives how many there are. A room of 1,027 is enough for any text.
pub fn read_numbers(text: &[u8], room: &mut [u16]) -> Result<usize, Refusal>
    ensures { Reads text.now room.old room.new (outcome result).0 (count_of result) }
{
    let count = count(text);
    if count == 0 {
        return Err(Refusal::Text);
    }
    if room.len() < count {
        return Err(Refusal::Room);
    }
    fill(text, room);
    Ok(count)
}
