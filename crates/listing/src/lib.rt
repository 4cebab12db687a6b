// The listing of a node.
#![tactic(auto)]

ghost use Rattle.listing.specs.Calls.{Lists, listed, lists, long_of, start_of};
ghost use Rattle.std.specs.Prelude.{is_some, ◌≡◌};

use header_test::words_ok;
use shape_test::shape_ok;
use words::places::{node_count, node_start, nodes, pair_at};

// Where among the index words a node's pairs stand: the first word's place, and how many words.
#[derive(Clone, Copy)]
pub struct Part {
    pub start: usize,
    pub length: usize,
}

// The words and the shape are right, and k is a node's number.
#[tactic(auto, unfolding(crate::specs::Calls::lists))]
fn is_listed(index: &[u32], k: usize) -> bool
    ensures { result ≡ lists index.now k }
{
    words_ok(index) && shape_ok(index) && k < nodes(index)
}

// Node k's pairs as a part; `None` where words are missing, the header is impossible, the shape is wrong, or k is no node's number.
pub fn part_of(index: &[u32], k: usize) -> Option<Part>
    ensures part { Lists index.now k (start_of result) (long_of result) }
    ensures there { is_some result ≡ lists index.now k }
{
    if !is_listed(index, k) {
        return None;
    }
    Some(Part {
        start: pair_at(index, node_start(index, k)),
        length: 2 * node_count(index, k),
    })
}

// Node k's pairs; none where `part_of` has none.
pub fn list_node(index: &[u32], k: usize) -> &[u32]
    ensures { result.now ≡ listed index.now k }
{
    match part_of(index, k) {
        Some(part) => {
            let end = part.start + part.length;
            &index[part.start..end]
        }
        None => &[],
    }
}
