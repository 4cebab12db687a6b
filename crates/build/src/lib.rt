// The build of an index over a lent table: the call.
#![tactic(auto)]

ghost use Rattle.std.specs.Prelude.{◌*◌, ◌+◌, ◌≤◌, ◌≡◌};
ghost use Rattle.build.specs.Calls.{Builds, nodes_of, words_of};
ghost use Rattle.limits.specs.Limits.{max_rows};
ghost use Rattle.limits.specs.Refusal.{outcome};

use build_refusals::test_build;
use filling::fill;
use limits::{Params, Refusal};
use split::WIDTH;
use words::places::HEADER;

// What was built: how many words were written, and how many nodes they hold.
#[derive(Clone, Copy)]
pub struct Built {
    pub words: usize,
    pub nodes: usize,
}

// An index of n rows that was written, by its counts.
pub fn written(n: usize, nodes: usize) -> Built
    requires { (n ≤ max_rows) × (nodes ≤ 2 * n) }
    ensures { (result.words ≡ 8 + 5 * nodes + 2 * n) × (result.nodes ≡ nodes) }
{
    Built {
        words: HEADER + WIDTH * nodes + 2 * n,
        nodes,
    }
}

// Builds the index into the room, where the edition that is asked for is 2. Of the set `circles`, bit j on means that column j is a circle.
pub fn build(
    table: &[u16],
    c: usize,
    m: usize,
    l: usize,
    circles: u32,
    edition: usize,
    room: &mut [u32],
    work: &mut [u32],
) -> Result<Built, Refusal>
    ensures { Builds table.now c circles edition m l room.old work.old
        room.new work.new (outcome result).0 (words_of result) (nodes_of result) }
{
    let chosen = Params::new(c, m, l, circles, edition);
    test_build(table, c, circles, chosen.is_none(), room.len(), work.len())?;
    // `test_build` has refused what is unfit, so that this is never said here
    let Some(p) = chosen else {
        return Err(Refusal::Parameters);
    };
    let n = table.len() / c;
    let used = 6 * n;
    let nodes = fill(table, c, p, n, room, &mut work[..used]);
    Ok(written(n, nodes))
}
