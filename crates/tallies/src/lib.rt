// The how-bytes, counted.
#![tactic(auto)]

ghost use Rattle.std.specs.Prelude.{◌+◌, ◌<◌, ◌≤◌, leb, length, take, cond, ◌≡◌};
ghost use Rattle.tree.specs.Nearest.{is_measured, measured};
ghost use Rattle.tree.specs.Radius.{inside};

// How many rows are in, and how many were measured.
#[derive(Clone, Copy)]
pub struct Counts {
    pub inside: usize,
    pub measured: usize,
}

// 1 for a how-byte that says in, else 0.
fn one_in(h: u8) -> u8
    ensures { result ≡ cond (leb 2 h) 1 0 }
{
    u8::from(h >= 2)
}

// 1 for a how-byte that says measured, else 0.
fn one_measured(h: u8) -> u8
    ensures { result ≡ cond (is_measured h) 1 0 }
{
    u8::from(h == 1 || h == 3)
}

// The counts over a block of how-bytes: in bytes, so that as many are counted at once as a register holds.
fn count_block(block: &[u8]) -> Counts
    requires { length block.now ≤ 240 }
    ensures { (result.inside ≡ inside block.now) × (result.measured ≡ measured block.now) }
{
    let mut inside: u8 = 0;
    let mut measured: u8 = 0;
    for how in block {
        inside += one_in(*how);
        measured += one_measured(*how);
    }
    Counts {
        inside: usize::from(inside),
        measured: usize::from(measured),
    }
}

// Where the block that begins at byte i of n ends.
fn block_end(i: usize, n: usize) -> usize
    requires { i < n }
    ensures { (i < result) × (result ≤ n) × (result ≤ i + 240) }
{
    i + (n - i).min(240)
}

// The counts over the first n how-bytes.
pub fn tally(how: &[u8], n: usize) -> Counts
    requires { n ≤ length how.now }
    ensures { (result.inside ≡ inside (take n how.now)) × (result.measured ≡ measured (take n how.now)) }
{
    let mut inside = 0;
    let mut measured = 0;
    let mut i = 0;
    while i < n {
        let end = block_end(i, n);
        let block = count_block(&how[i..end]);
        inside += block.inside;
        measured += block.measured;
        i = end;
    }
    Counts { inside, measured }
}
