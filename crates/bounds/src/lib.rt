// Bounds, from distances and radii. Nothing here knows of a search.
#![tactic(auto)]

ghost use Rattle.std.specs.Prelude.{◌+◌, ◌-◌, ◌/◌, ◌<◌, max, ◌≡◌};
ghost use Rattle.laws.specs.Lists.{gap};
ghost use Rattle.tree.specs.Grove.{reach#, reaching};
ghost use Rattle.tree.specs.Homes.{child_bound_lem};
ghost use Rattle.words.specs.InShape.{Whole};
ghost use Rattle.words.specs.Words.{nodes#, edition#};

use words::places::{node_inner, node_radius};

// The bound of a child whose centre is at x and has this radius and inner reach: b is its parent's, y the least distance over the centres.
pub fn child_bound(b: u32, y: u32, x: u32, radius: u32, inner: u32) -> u32
    ensures { result ≡ child_bound_lem b y x (reaching radius inner) }
{
    b.max(x.saturating_sub(radius))
        .max(inner.saturating_sub(x))
        .max(x.saturating_sub(y).div_ceil(2))
}

// The same of node j, by its words.
pub fn kid_bound(index: &[u32], j: usize, b: u32, y: u32, x: u32) -> u32
    requires whole { Whole index.now }
    requires j_bound { (j < nodes# index.now) × (edition# index.now ≡ 2) }
    ensures { result ≡ child_bound_lem b y x (reach# index.now j) }
{
    child_bound(b, y, x, node_radius(index, j), node_inner(index, j))
}

// The bound of a row of a leaf that has the bound b and its first at x: s is the row's stored distance.
pub fn place_bound(b: u32, x: u32, s: u32) -> u32
    ensures { result ≡ max b (gap x s) }
{
    b.max(x.abs_diff(s))
}
