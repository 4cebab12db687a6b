// The words of a question, read one after the other.
ghost use Rattle.std.specs.Prelude.{IfOk, cond, false, is_some, ◌≡◌};
ghost use Rattle.asking.specs.Words.{Answerable, said, takes, valued, waits};

use super::pieces::{Piece, bytes_of};
use super::word_number::number;
use super::{Question, Way, Wrong};

// An option whose value is the next word.
#[derive(Clone, Copy)]
enum Valued {
    Columns,
    By,
    Label,
    Circle,
    Without,
}

// What an option's word says: some stand for themselves.
#[derive(Clone, Copy)]
enum Setting {
    Valued(Valued),
    Count,
    Csv,
    Lines,
}

impl Setting {
    // The option that the word is, if it is one. (A `match` on the bytes would tell a proof their number alone.)
    fn said_by(word: &[u8]) -> Option<Setting>
        ensures { takes result ≡ valued word.now }
    {
        if word == b"--columns".as_slice() {
            Some(Setting::Valued(Valued::Columns))
        } else if word == b"--by".as_slice() {
            Some(Setting::Valued(Valued::By))
        } else if word == b"--label".as_slice() {
            Some(Setting::Valued(Valued::Label))
        } else if word == b"--circle".as_slice() {
            Some(Setting::Valued(Valued::Circle))
        } else if word == b"--without".as_slice() {
            Some(Setting::Valued(Valued::Without))
        } else if word == b"--count".as_slice() {
            Some(Setting::Count)
        } else if word == b"--csv".as_slice() {
            Some(Setting::Csv)
        } else if word == b"--lines".as_slice() {
            Some(Setting::Lines)
        } else {
            None
        }
    }
}

// What the words so far say: the plain ones (the file, like or nearest, what is asked about, the distance or how many), the values of the options, which
// were given, and the option that waits for its value, with its place.
#[derive(Clone, Copy)]
pub(crate) struct Reading {
    plain: [Option<Piece>; 4],
    columns: Option<Piece>,
    label: Option<Piece>,
    circle: Option<Piece>,
    without: Option<Piece>,
    by_distance: bool,
    count: bool,
    csv: bool,
    lines: bool,
    waiting: Option<(Valued, Piece)>,
}

impl Reading {
    // No words are read.
    pub(crate) fn start() -> Reading
        ensures { is_some result.waiting ≡ false }
    {
        Reading {
            plain: [None; 4],
            columns: None,
            label: None,
            circle: None,
            without: None,
            by_distance: false,
            count: false,
            csv: false,
            lines: false,
            waiting: None,
        }
    }

    // One word more.
    pub(crate) fn put_word(&mut self, words: &[u8], w: Piece) -> Result<(), Wrong>
        ensures { IfOk result (λ _. is_some self.new.waiting ≡ cond (is_some self.old.waiting) false (valued (said words.now w))) }
    {
        let word = bytes_of(words, w);
        let is_option = word.starts_with(b"--");
        match self.waiting {
            Some((_, option)) if is_option => Err(Wrong::NoValue(option)),
            Some((option, _)) => self.put_value(option, word, w),
            None if is_option => self.put_option(word, w),
            None => self.put_plain(w),
        }
    }

    // A word that is neither an option nor its value.
    fn put_plain(&mut self, w: Piece) -> Result<(), Wrong>
        ensures { self.new.waiting ≡ self.old.waiting }
    {
        for place in self.plain.iter_mut() {
            if place.is_none() {
                *place = Some(w);
                return Ok(());
            }
        }
        Err(Wrong::OneMore(w))
    }

    fn put_option(&mut self, word: &[u8], w: Piece) -> Result<(), Wrong>
        requires { is_some self.old.waiting ≡ false }
        ensures { IfOk result (λ _. is_some self.new.waiting ≡ valued word.now) }
    {
        match Setting::said_by(word).ok_or(Wrong::NoOption(w))? {
            Setting::Valued(option) if self.has_value(option) => return Err(Wrong::Twice(w)),
            Setting::Valued(option) => self.waiting = Some((option, w)),
            Setting::Count => self.count = true,
            Setting::Csv => self.csv = true,
            Setting::Lines => self.lines = true,
        }
        Ok(())
    }

    // The option was given before, and has a value already.
    fn has_value(&self, option: Valued) -> bool {
        match option {
            Valued::Columns => self.columns.is_some(),
            Valued::By => self.by_distance,
            Valued::Label => self.label.is_some(),
            Valued::Circle => self.circle.is_some(),
            Valued::Without => self.without.is_some(),
        }
    }

    // The value of the option before it.
    fn put_value(&mut self, option: Valued, word: &[u8], w: Piece) -> Result<(), Wrong>
        ensures { is_some self.new.waiting ≡ false }
    {
        self.waiting = None;
        match option {
            Valued::Columns => self.columns = Some(w),
            Valued::By if matches!(word, b"distance") => self.by_distance = true,
            Valued::By => return Err(Wrong::NoOrder(w)),
            Valued::Label => self.label = Some(w),
            Valued::Circle => self.circle = Some(w),
            Valued::Without => self.without = Some(w),
        }
        Ok(())
    }

    // The question that all words ask.
    pub(crate) fn question(self, words: &[u8]) -> Result<Question, Wrong>
        requires { is_some self.waiting ≡ waits words.now 32 }
        ensures { IfOk result (Answerable words.now) }
    {
        if let Some((_, option)) = self.waiting {
            return Err(Wrong::NoValue(option));
        }
        let (file, way_said, what, number_said) = match self.plain {
            [Some(file), Some(way), Some(what), Some(number)] => (file, way, what, number),
            [None, ..] => return Err(Wrong::NoWords),
            _ => return Err(Wrong::TooFew),
        };
        let way = Way::said_by(bytes_of(words, way_said)).ok_or(Wrong::NoWay(way_said))?;
        let number = number(bytes_of(words, number_said)).ok_or(Wrong::NoAmount(number_said))?;
        if number < way.least_number() {
            return Err(Wrong::NoAmount(number_said));
        }
        Ok(Question {
            file,
            way,
            way_said,
            what,
            number,
            number_said,
            columns: self.columns,
            label: self.label,
            circle: self.circle,
            without: self.without,
            by_distance: self.by_distance,
            count: self.count,
            csv: self.csv,
            lines: self.lines,
        })
    }
}
