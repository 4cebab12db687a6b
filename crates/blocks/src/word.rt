// A word and its four bytes, the lowest first, and where the index words stand in the blocks.
ghost use Rattle.std.specs.Prelude.{◌≡◌, ◌+◌, ◌*◌, ◌/◌, ◌<◌, ◌≤◌, true, ◌++◌, length, drop};
ghost use Rattle.blocks.specs.Blocks.{blocks_for_lem, bytes, image_word_lem, word_at};
ghost use Rattle.words.specs.Words.{at, card_ok_lem, header_words, words_of_lem};

use words::places::{HEADER, nodes, rows, width};

// The bytes of a block.
pub const BLOCK: usize = 512;

// How many index words a block holds.
pub const HELD: usize = 127;

// How many words the header at the front of these asks for: below 2^35.
pub fn words_of(header: &[u32]) -> usize
    requires { (header_words ≤ length header.now) × (card_ok_lem header.now ≡ true) }
    ensures { (result ≡ words_of_lem header.now) × (result < 34359738368) }
{
    HEADER + width(header) * nodes(header) + 2 * rows(header)
}

// How many blocks hold t words: below 2^32.
pub fn blocks_for(t: usize) -> usize
    requires { t < 34359738368 }
    ensures { (result ≡ blocks_for_lem t) × (result < 4294967296) }
{
    t.div_ceil(HELD)
}

// The word's four bytes to the front of the part.
pub fn put_word(part: &mut [u8], x: u32)
    requires { 4 ≤ length part.old }
    ensures { part.new ≡ bytes x ++ drop 4 part.old }
{
    part[..4].copy_from_slice(&x.to_le_bytes());
}

// The word that the four bytes from place p on are.
pub fn get_word(image: &[u8], p: usize) -> u32
    requires { p + 4 ≤ length image.now }
    ensures { result ≡ word_at image.now p }
{
    u32::from_le_bytes([image[p], image[p + 1], image[p + 2], image[p + 3]])
}

// Word j of these, zero after the last.
pub fn word_or_zero(index: &[u32], j: usize) -> u32
    ensures { result ≡ at index.now j }
{
    index.get(j).copied().unwrap_or(0)
}

// Index word j of the image.
pub fn image_word(image: &[u8], j: usize) -> u32
    requires { 4 * j + 4 * (j / 127) + 4 ≤ length image.now }
    ensures { result ≡ image_word_lem image.now j }
{
    get_word(image, 4 * j + 4 * (j / HELD))
}
