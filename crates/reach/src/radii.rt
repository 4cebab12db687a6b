// The full check's pass over reaches: a radius or an inner reach is wrong.
ghost use Rattle.std.specs.Prelude.{◌<◌, ◌≡◌, IfSome, unwrap_or};
ghost use Rattle.laws.specs.First.{First};
ghost use Rattle.measure.specs.Table.{between};
ghost use Rattle.tree.specs.Check.{wrong_reach_lem};
ghost use Rattle.tree.specs.Tested.{Tested};
ghost use Rattle.words.specs.Words.{nodes#, circles#};

use crate::reaches;
use words::places::{node_inner, node_radius, nodes};

// Node k's radius is wrong, or its inner reach.
fn wrong_reach(table: &[u16], c: usize, index: &[u32], k: usize) -> bool
    requires tested { Tested index.now table.now c }
    requires k_bound { k < nodes# index.now }
    ensures { result ≡ wrong_reach_lem (between table.now c (circles# index.now)) index.now k }
{
    let found = reaches(table, c, index, k);
    node_radius(index, k) != found.far || node_inner(index, k) != found.near
}

// The lowest node with a wrong radius or a wrong inner reach.
pub fn first_wrong_reach(table: &[u16], c: usize, index: &[u32]) -> Option<usize>
    requires { Tested index.now table.now c }
    ensures first { First (wrong_reach_lem (between table.now c (circles# index.now)) index.now) 0
        (nodes# index.now) (unwrap_or result (nodes# index.now)) }
    ensures inside { IfSome result (λ k. k < nodes# index.now) }
{
    for k in 0..nodes(index) {
        if wrong_reach(table, c, index, k) {
            return Some(k);
        }
    }
    None
}
