// A table is built with the centres, the leaf size and the circles of an index that there is: one row alone, for both appends.
#![tactic(auto)]

ghost use Rattle.std.specs.Prelude.{◌≤◌, length};
ghost use Rattle.build.specs.Calls.{Builds, nodes_of, words_of};
ghost use Rattle.limits.specs.Refusal.{outcome};
ghost use Rattle.words.specs.Words.{circles#, header_words, l#, m#};

use build::{Built, build};
use limits::{Params, Refusal};
use words::places::{centres, circles, leaf_size};

// Builds the table's index into the room, in edition 2, with what the other index's header says.
pub fn rebuild(
    table: &[u16],
    c: usize,
    index: &[u32],
    room: &mut [u32],
    work: &mut [u32],
) -> Result<Built, Refusal>
    requires { header_words ≤ length index.now }
    ensures { Builds table.now c (circles# index.now) 2 (m# index.now) (l# index.now)
        room.old work.old room.new work.new (outcome result).0 (words_of result) (nodes_of result) }
{
    build(
        table,
        c,
        centres(index),
        leaf_size(index),
        circles(index),
        Params::LAST_EDITION,
        room,
        work,
    )
}
