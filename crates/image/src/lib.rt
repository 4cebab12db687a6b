// The image of an index: writing one, and what reading one takes.
#![tactic(auto)]

ghost use Rattle.image.specs.Calls.{Writes};
ghost use Rattle.limits.specs.Refusal.{count_of, outcome};

use crate::writing::put_blocks;
use blocks::word::{BLOCK, blocks_for, words_of};
use header_test::words_ok;
use limits::Refusal;

pub mod reading;
mod writing;

// Writes the index at the front of the words to the front of the image, and says how many blocks it wrote.
pub fn write_image(index: &[u32], image: &mut [u8]) -> Result<usize, Refusal>
    ensures { Writes index.now image.old image.new (outcome result).0 (count_of result) }
{
    if !words_ok(index) {
        return Err(Refusal::Header);
    }
    let words = words_of(index);
    let blocks = blocks_for(words);
    if image.len() < BLOCK * blocks {
        return Err(Refusal::Room);
    }
    put_blocks(&index[..words], blocks, image);
    Ok(blocks)
}
