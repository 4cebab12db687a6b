// Tables and indexes that more than one program runs on, and a digit to print.
#![tactic(auto)]

ghost use Rattle.std.specs.Prelude.{◌+◌, ◌≤◌, length, ◌≡◌};
ghost use Rattle.samples.specs.Digit.{digit_of};
ghost use Rattle.std.proofs.Math.Seq.{paste};

// The five-row table; its index has m = 2 and l = 2.
pub const FIVE_ROWS: [u16; 5] = [0, 1, 10, 11, 20];

// Puts a line of words into an index that is being laid out.
pub fn put(line: &[u32], index: &mut [u32], at: usize)
    requires { at + length line.now ≤ length index.old }
    ensures { index.new ≡ paste index.old at line.now (length line.now) }
{
    index[at..at + line.len()].copy_from_slice(line);
}

// The five-row table's index: behind the header a line a node, each with its inner reach last, then the positions.
pub fn five_index() -> [u32; 43]
    ensures { 43 ≡ length result }
{
    let mut index = [0; 43];
    put(&[2, 5, 1, 2, 2, 5, 1, 0], &mut index, 0);
    put(&[0, 5, 1, 20, 1], &mut index, 8);
    put(&[0, 3, 3, 10, 1], &mut index, 13);
    put(&[3, 2, 0, 9, 9], &mut index, 18);
    put(&[0, 2, 0, 1, 1], &mut index, 23);
    put(&[2, 1, 0, 0, 0], &mut index, 28);
    put(&[0, 0, 1, 1, 2, 0, 4, 0, 3, 9], &mut index, 33);
    index
}

// The rows (1, 2), (3, 4), (10, 10), all in one leaf.
pub fn pairs_index() -> [u32; 19]
    ensures { 19 ≡ length result }
{
    let mut index = [0; 19];
    put(&[2, 3, 2, 2, 4, 1, 1, 0], &mut index, 0);
    put(&[0, 3, 0, 17, 4], &mut index, 8);
    put(&[0, 0, 1, 4, 2, 17], &mut index, 13);
    index
}

// A table with a row too many: of it only the length is known, which is what lending it as a slice needs.
pub fn many() -> [u16; 1048577]
    ensures { 1048577 ≡ length result }
{
    [0; 1048577]
}

// One decimal digit; a question mark for anything greater.
pub fn digit(x: usize) -> u8
    ensures { result ≡ digit_of x }
{
    if x < 10 { b'0' + x as u8 } else { b'?' }
}
