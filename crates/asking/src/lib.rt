// The question that the words of the arguments ask. Each word is ended by a zero byte.
#![tactic(auto)]

pub mod pieces;
mod reading;
pub mod word_number;

ghost use Rattle.std.specs.Prelude.{IfOk, MatchOption, false, true, ◌≡◌};
ghost use Rattle.asking.specs.Pieces.{Stands};
ghost use Rattle.asking.specs.Words.{Answerable, asked, code, ended, has_word_lem, way_of, word_is};

use pieces::{Piece, bytes_of, piece_at};
use reading::Reading;

// More words than this are too many.
const MOST_WORDS: usize = 32;

// What is asked for: every row within a distance, or so many nearest.
#[derive(Clone, Copy, PartialEq, Eq)]
pub enum Way {
    Like,
    Nearest,
}

impl Way {
    // What the second word asks for, if it is one of the two. (A `match` on the bytes would leave a goal for each byte.)
    fn said_by(word: &[u8]) -> Option<Way>
        ensures { asked result ≡ way_of word.now }
    {
        if word == b"like".as_slice() {
            Some(Way::Like)
        } else if word == b"nearest".as_slice() {
            Some(Way::Nearest)
        } else {
            None
        }
    }

    // The least number that can be asked for: a distance may be 0.
    fn least_number(self) -> u32
        ensures { code self ≡ 2 → result ≡ 1 }
    {
        match self {
            Way::Like => 0,
            Way::Nearest => 1,
        }
    }
}

// What is wrong with the words as a question, and the word at which it is.
#[derive(Clone, Copy)]
pub enum Wrong {
    // There is no word.
    NoWords,
    // There are fewer than four plain words.
    TooFew,
    // One more than can be.
    OneMore(Piece),
    // Begins as an option, and is none.
    NoOption(Piece),
    // An option that no value follows.
    NoValue(Piece),
    // An option that was given before.
    Twice(Piece),
    // No order of answers.
    NoOrder(Piece),
    // Neither like nor nearest.
    NoWay(Piece),
    // No number that can be asked for.
    NoAmount(Piece),
}

// A question: its file, what is asked for, what is asked about, and the distance or how many; the words that say the second and the fourth; the values
// of the options, and which were given.
#[derive(Clone, Copy)]
pub struct Question {
    pub file: Piece,
    pub way: Way,
    pub way_said: Piece,
    pub what: Piece,
    pub number: u32,
    pub number_said: Piece,
    pub columns: Option<Piece>,
    pub label: Option<Piece>,
    pub circle: Option<Piece>,
    pub without: Option<Piece>,
    pub by_distance: bool,
    pub count: bool,
    pub csv: bool,
    pub lines: bool,
}

// Word i, if there is one; one that is not ended by a zero byte is none.
fn ended_word(words: &[u8], i: usize) -> Option<Piece>
    ensures { MatchOption result (ended words.now i ≡ false) (λ p. (ended words.now i ≡ true) × Stands 0 words.now i p) }
{
    match piece_at(words, 0, i) {
        Some(w) if w.end < words.len() => Some(w),
        _ => None,
    }
}

// The question that the words ask, or what is wrong with the first of them that is wrong.
pub fn ask(words: &[u8]) -> Result<Question, Wrong>
    ensures { IfOk result (Answerable words.now) }
{
    let mut reading = Reading::start();
    for i in 0..MOST_WORDS {
        if let Some(w) = ended_word(words, i) {
            reading.put_word(words, w)?;
        }
    }
    if let Some(w) = ended_word(words, MOST_WORDS) {
        return Err(Wrong::OneMore(w));
    }
    reading.question(words)
}

// Whether word i is this one.
fn is_word(words: &[u8], word: &[u8], i: usize) -> bool
    ensures { result ≡ word_is words.now word.now i }
{
    match piece_at(words, 0, i) {
        Some(w) => bytes_of(words, w) == word,
        None => false,
    }
}

// Whether one of the words is this one.
pub fn has_word(words: &[u8], word: &[u8]) -> bool
    ensures { result ≡ has_word_lem words.now word.now 32 }
{
    for i in 0..MOST_WORDS {
        if is_word(words, word, i) {
            return true;
        }
    }
    false
}
