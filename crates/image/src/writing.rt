// Writing the blocks.
ghost use Rattle.std.specs.Prelude.{◌*◌, ◌+◌, ◌<◌, ◌≤◌, drop, length, ◌++◌, ◌≡◌};
ghost use Rattle.blocks.specs.Blocks.{block, blocks};

use blocks::check::{check_start, stepped};
use blocks::word::{BLOCK, HELD, put_word};

// Block b of the index, zero after the last word, its check reckoned as the words are written.
fn put_block(index: &[u32], b: usize, part: &mut [u8])
    requires { (b < 4294967296) × (127 * b ≤ length index.now) × (length part.old ≡ 512) }
    ensures { part.new ≡ block index.now b }
{
    let first = HELD * b;
    let last = index.len().min(first + HELD);
    let words = &index[first..last];
    let mut check = check_start(b);
    for (i, &x) in words.iter().enumerate() {
        check = stepped(check, x);
        put_word(&mut part[4 * i..], x);
    }
    for i in words.len()..HELD {
        check = stepped(check, 0);
        put_word(&mut part[4 * i..], 0);
    }
    put_word(&mut part[508..], check);
}

// The first blocks of the index, each with a word at least, to the front of the image.
pub fn put_blocks(index: &[u32], count: usize, image: &mut [u8])
    requires { (count < 4294967296) × (127 * count < length index.now + 127) × (512 * count ≤ length image.old) }
    ensures { image.new ≡ blocks index.now count ++ drop (512 * count) image.old }
{
    for b in 0..count {
        let from = BLOCK * b;
        put_block(index, b, &mut image[from..from + BLOCK]);
    }
}
