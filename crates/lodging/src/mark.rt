// What stands in the place of a node's first child until the node is opened.
ghost use Rattle.std.specs.Prelude.{◌<◌, ◌≡◌};
ghost use Rattle.lodging.specs.Marks.{Apart, word_of};

#[derive(Clone, Copy, PartialEq, Eq)]
pub enum Mark {
    // rows that the node has, which it keeps where they are few enough for a leaf
    Run,
    // a leaf's rows, which it keeps however many they are
    Stays,
    // an inner node of the old index
    Old(usize),
}

impl Mark {
    // The word of a leaf that stays one: no node has that number.
    const STAYS: usize = 4294967295;

    // Its word, as it is stored in a node: a room is lent as words, and a mark takes the place of one.
    pub fn word(self) -> u32
        requires { word_of self < 4294967296 }
        ensures { result ≡ word_of self }
    {
        match self {
            Mark::Run => 0,
            Mark::Stays => Mark::STAYS as u32,
            Mark::Old(o) => (o + 1) as u32,
        }
    }

    // The mark that has this word.
    pub fn of(word: usize) -> Mark
        ensures word { word_of result ≡ word }
        ensures apart { Apart result }
    {
        match word {
            0 => Mark::Run,
            Mark::STAYS => Mark::Stays,
            _ => Mark::Old(word - 1),
        }
    }
}
