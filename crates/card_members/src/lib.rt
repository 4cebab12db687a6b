// How near a node's members are to its first: a card gives the row numbers, the table the distances.
#![tactic(auto)]

ghost use Rattle.std.specs.Prelude.{◌<◌, ◌≡◌};
ghost use Rattle.card_members.specs.Tabled.{Tabled};
ghost use Rattle.card_words.specs.Cards.{card_words_lem};
ghost use Rattle.measure.specs.Table.{between};
ghost use Rattle.tree.specs.Check.{nearest#};
ghost use Rattle.words.specs.Words.{nodes#, circles#, n#, row#};

use card_words::places::{card_circles, card_count, card_row, card_start};
use row_distances::row_distance;

// The distance of row f from the row at position p. The card's circles are handed in, so that a loop over positions reads them once.
fn card_apart(table: &[u16], c: usize, circles: u32, image: &[u8], f: usize, p: usize) -> u32
    requires tabled { Tabled table.now c image.now }
    requires f_bound { (f < n# (card_words_lem image.now)) × (p < n# (card_words_lem image.now)) × (circles ≡ circles# (card_words_lem image.now)) }
    ensures { result ≡ between table.now c (circles# (card_words_lem image.now)) f (row# (card_words_lem image.now) p) }
{
    row_distance(table, c, circles, f, card_row(image, p))
}

// The least distance of a member of node k other than its first from it, 0 where there is none.
pub fn card_nearest(table: &[u16], c: usize, image: &[u8], k: usize) -> u32
    requires tabled { Tabled table.now c image.now }
    requires k_bound { k < nodes# (card_words_lem image.now) }
    ensures { result ≡ nearest# (between table.now c (circles# (card_words_lem image.now))) (card_words_lem image.now) k }
{
    let start = card_start(image, k);
    let end = start + card_count(image, k);
    let second = start + 1;
    if end <= second {
        return 0;
    }
    let f = card_row(image, start);
    let circles = card_circles(image);
    let mut near = card_apart(table, c, circles, image, f, second);
    for p in second + 1..end {
        near = near.min(card_apart(table, c, circles, image, f, p));
    }
    near
}
