// What refuses the reading of a card over its table. Nothing of the room is touched before every test has passed.
#![tactic(auto)]

ghost use Rattle.std.specs.Prelude.{◌≤◌, ◌≡◌};
ghost use Rattle.card_refusals.specs.Tests.{CardTested, card_faults, read_total};
ghost use Rattle.card_words.specs.Cards.{Carded, Held};
ghost use Rattle.limits.specs.Refusal.{count_of, outcome};
ghost use Rattle.limits.specs.Said.{number_faults, said, tabled};

use card_shape::shape::card_shape_ok;
use card_widen::widening::WIDE;
use card_words::places::{card_circles, card_columns, card_nodes, card_rows};
use image::reading::check_image;
use limits::{Asked, Refusal, test_numbers};
use refusals::test_circles;
use words::places::HEADER;

// What is wrong with a card for a table of c columns. A reading has no query: an empty part stands for it.
fn test_fit(image: &[u8], table: &[u16], c: usize) -> Result<(), Refusal>
    requires carded { Carded image.now }
    requires le_c { 1 ≤ c }
    ensures { outcome result ≡ said (card_faults table.now c image.now) }
{
    if card_rows(image) != table.len() / c || card_columns(image) != c {
        return Err(Refusal::OtherTable);
    }
    if !card_shape_ok(image) {
        return Err(Refusal::Shape);
    }
    test_circles(table, c, card_circles(image), &table[..0])
}

// How many words a card's index has in edition 2.
fn card_total(image: &[u8]) -> usize
    requires { Held image.now }
    ensures { result ≡ read_total image.now }
{
    HEADER + WIDE * card_nodes(image) + 2 * card_rows(image)
}

// What is wrong with a table of this length and c columns.
fn test_table(length: usize, c: usize) -> Result<(), Refusal>
    ensures { outcome result ≡ said (number_faults (tabled length c)) }
{
    test_numbers(Asked {
        length,
        columns: c,
        unfit: false,
        short: false,
        unlike: false,
        none: false,
    })
}

// What refuses the call, or how many words are read. `room` is the number of words lent.
pub fn test_card(image: &[u8], table: &[u16], c: usize, room: usize) -> Result<usize, Refusal>
    ensures { CardTested table.now c image.now room (outcome result).0 (outcome result).1 (count_of result) }
{
    test_table(table.len(), c)?;
    check_image(image)?;
    test_fit(image, table, c)?;
    let words = card_total(image);
    if room < words {
        return Err(Refusal::Room);
    }
    Ok(words)
}
