// A row joins an index: its leaf is found and laid with it, and the index is written anew.
#![tactic(auto)]

ghost use Rattle.row_joined.specs.Joining.{Joinable, Joins};
ghost use Rattle.std.specs.Prelude.{◌≤◌, length, cond, ◌≡◌};
ghost use Rattle.limits.specs.Limits.{max_rows};
ghost use Rattle.words.specs.Words.{l#};

use copies::Growth;
use laying::lay_leaf;
use leafward::leaf_for;
use limits::Params;
use refill::refill;
use words::places::{leaf_size, rows};

// How many rows the leaf may have: it stays however many it has, or it is split by the index's own leaf size.
fn limit_for(index: &[u32], stays: bool) -> usize
    requires { 8 ≤ length index.now }
    ensures { result ≡ cond stays max_rows (l# index.now) }
{
    if stays {
        Params::MOST_ROWS
    } else {
        leaf_size(index)
    }
}

// Writes the index with the table's last row in it, where the index has a row. Gives the number of nodes.
pub fn join_row(table: &[u16], c: usize, index: &[u32], room: &mut [u32], work: &mut [u32]) -> usize
    requires { Joinable table.now c index.now room.old work.old }
    ensures { Joins table.now c index.now room.old work.old room.new work.new result }
{
    let z = rows(index);
    let leaf = leaf_for(table, c, index, z);
    let stays = lay_leaf(table, c, index, leaf, z, work);
    let limit = limit_for(index, stays);
    let node = leaf.node;
    let growth = Growth {
        node,
        added: 1,
        limit,
    };
    let nodes = refill(table, index, growth, room, work);
    work.fill(0);
    nodes
}
