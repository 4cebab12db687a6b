// Reading the index words, and what is wrong with an image.
ghost use Rattle.std.specs.Prelude.{◌*◌, ◌+◌, ◌/◌, ◌≤◌, drop, length, ◌++◌, ◌≡◌};
ghost use Rattle.blocks.specs.Blocks.{image_words, words_at};
ghost use Rattle.image.specs.Image.{image_faults};
ghost use Rattle.image.specs.Sound.{Sound, held_faults, rest_zero_lem};
ghost use Rattle.limits.specs.Refusal.{count_of, outcome};
ghost use Rattle.words.specs.Words.{header_words};

use blocks::check::first_wrong;
use blocks::word::{BLOCK, HELD, blocks_for, get_word, image_word, words_of};
use header_test::card_ok;
use limits::Refusal;
use words::places::HEADER;

// The first index words of block b, as many as the part has.
fn get_block(image: &[u8], b: usize, part: &mut [u32])
    requires { (512 * b + 512 ≤ length image.now) × (length part.old ≤ 127) }
    ensures { part.new ≡ words_at image.now (512 * b) (length part.old) }
{
    let from = BLOCK * b;
    for (i, x) in part.iter_mut().enumerate() {
        *x = get_word(image, from + 4 * i);
    }
}

// The first t index words to the front of the room, block by block: a word's place then takes no division.
pub fn get_words(image: &[u8], t: usize, room: &mut [u32])
    requires { (t ≤ 127 * (length image.now / 512)) × (t ≤ length room.old) }
    ensures { room.new ≡ image_words image.now t ++ drop t room.old }
{
    for b in 0..t.div_ceil(HELD) {
        let from = HELD * b;
        let to = t.min(from + HELD);
        get_block(image, b, &mut room[from..to]);
    }
}

// The eight header words, copied: the tests of a header take words.
fn header_of(image: &[u8]) -> [u32; HEADER]
    requires { 512 ≤ length image.now }
    ensures { result ≡ image_words image.now header_words }
{
    let mut header = [0u32; HEADER];
    get_words(image, HEADER, &mut header);
    header
}

// The index words from t on, up to the end of the blocks, are zero.
fn rest_zero(image: &[u8], t: usize) -> bool
    ensures { result ≡ rest_zero_lem image.now t }
{
    let end = HELD * (image.len() / BLOCK);
    for j in t..end {
        if image_word(image, j) != 0 {
            return false;
        }
    }
    true
}

// What is wrong with the words that the blocks hold, or how many the index has.
fn check_held(image: &[u8]) -> Result<usize, Refusal>
    requires { 512 ≤ length image.now }
    ensures { Sound image.now (held_faults image.now) (outcome result).0 (outcome result).1 (count_of result) }
{
    let header = header_of(image);
    if !card_ok(&header) {
        return Err(Refusal::Header);
    }
    let words = words_of(&header);
    if blocks_for(words) != image.len() / BLOCK {
        return Err(Refusal::Header);
    }
    if !rest_zero(image, words) {
        return Err(Refusal::Rest);
    }
    Ok(words)
}

// What is wrong with the image, or how many words its index has.
pub fn check_image(image: &[u8]) -> Result<usize, Refusal>
    ensures { Sound image.now (image_faults image.now) (outcome result).0 (outcome result).1 (count_of result) }
{
    if image.is_empty() || image.len() % BLOCK != 0 {
        return Err(Refusal::Blocks);
    }
    match first_wrong(image, image.len() / BLOCK) {
        Some(b) => Err(Refusal::CheckWord(b)),
        None => check_held(image),
    }
}
