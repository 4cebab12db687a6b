// The statuses that the analyst's program ends with: a crate of their own, so that an edit of one rechecks these few lines and not the program.
#![tactic(auto)]

ghost use Rattle.statuses.specs.Statuses.{Known, number_of};
ghost use Rattle.std.specs.Prelude.{◌≡◌};

// How the analyst's program ends.
#[derive(Clone, Copy, PartialEq, Eq)]
pub enum Status {
    // There is an answer; also that nothing stands in the way of one.
    Answered,
    // No row is an answer.
    NothingFound,
    // The question is wrong, or a file that it names can't be read.
    AskedWrongly,
    // A text has a fault.
    TextFaulty,
    // There is no room.
    NoRoom,
}

impl Status {
    // The number that the launcher is told.
    pub fn number(self) -> u32
        ensures { (result ≡ number_of self) × Known result }
    {
        match self {
            Status::Answered => 0,
            Status::NothingFound => 1,
            Status::AskedWrongly => 2,
            Status::TextFaulty => 3,
            Status::NoRoom => 4,
        }
    }
}
