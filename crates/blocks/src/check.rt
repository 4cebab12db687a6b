// The check word of a block, and the lowest block whose check word is wrong.
ghost use Rattle.std.specs.Prelude.{◌≡◌, ◌+◌, ◌*◌, ◌%◌, ◌^◌, ◌≤◌, length};
ghost use Rattle.blocks.specs.Blocks.{block_good_lem, check_word, step, words_at};
ghost use Rattle.blocks.specs.Lowest.{lowest, wrong_blocks};

use crate::word::{BLOCK, HELD, get_word};

// The check s, one word further: rotated left by one bit, and the word added.
pub fn stepped(s: u32, x: u32) -> u32
    ensures { result ≡ step s x }
{
    s.rotate_left(1).wrapping_add(x)
}

// What the check of block b starts at: its number plus 1, modulo 2^32.
pub fn check_start(b: usize) -> u32
    ensures { result ≡ (b + 1) % 2 ^ 32 }
{
    (b.wrapping_add(1) % 0x1_0000_0000) as u32
}

// What the check word of the image's block b should be, from the bytes as they stand.
fn block_check(image: &[u8], b: usize) -> u32
    requires { 512 * b + 512 ≤ length image.now }
    ensures { result ≡ check_word b (words_at image.now (512 * b) 127) }
{
    let from = BLOCK * b;
    let mut check = check_start(b);
    for i in 0..HELD {
        check = stepped(check, get_word(image, from + 4 * i));
    }
    check
}

// Block b's check word is right.
fn block_good(image: &[u8], b: usize) -> bool
    requires { 512 * b + 512 ≤ length image.now }
    ensures { result ≡ block_good_lem image.now b }
{
    block_check(image, b) == get_word(image, BLOCK * b + 4 * HELD)
}

// The lowest block whose check word is wrong.
pub fn first_wrong(image: &[u8], blocks: usize) -> Option<usize>
    requires { 512 * blocks ≤ length image.now }
    ensures { result ≡ lowest (wrong_blocks image.now 0 blocks) }
{
    for b in 0..blocks {
        if !block_good(image, b) {
            return Some(b);
        }
    }
    None
}
