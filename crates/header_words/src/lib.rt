// The header of an index, written.
#![tactic(auto)]

ghost use Rattle.std.specs.Prelude.{◌≤◌, drop, length, ◌++◌, ◌≡◌};
ghost use Rattle.header_words.specs.Header.{header_of};
ghost use Rattle.limits.specs.Limits.{max_columns, max_rows};

use limits::Params;

// The header's eight words.
pub fn put_header(room: &mut [u32], n: usize, c: usize, p: Params, nodes: usize)
    requires { (8 ≤ length room.old) × (n ≤ max_rows) × (c ≤ max_columns) × (p.centres ≤ 64) × (p.leaf ≤ 1024) × (nodes ≤ 2097152) }
    ensures { room.new ≡ header_of n c p.circles p.centres p.leaf nodes ++ drop 8 room.old }
{
    room[..8].copy_from_slice(&[
        Params::LAST_EDITION as u32,
        n as u32,
        c as u32,
        p.centres as u32,
        p.leaf as u32,
        nodes as u32,
        1,
        p.circles,
    ]);
}
