// Answers as records: a row number and its distance side by side, where the searches hand out two slices of numbers.
#![tactic(auto)]

ghost use Rattle.std.specs.Prelude.{◌≤◌, drop, length, ◌++◌, ◌≡◌};
ghost use Rattle.answers.specs.Records.{records};

// An answer of a search: a row number, and how far that row is from the query.
#[repr(C)]
#[derive(Clone, Copy)]
pub struct Answer {
    pub row: u32,
    pub distance: u32,
}

// The first `count` records are made of the row numbers and distances at the same places. The records beyond stay.
pub fn fill_answers(answers: &mut [Answer], rows: &[u32], distances: &[u32], count: usize)
    requires { (count ≤ length answers.old) × (count ≤ length rows.now) × (count ≤ length distances.now) }
    ensures { answers.new ≡ records rows.now distances.now count ++ drop count answers.old }
{
    for i in 0..count {
        answers[i] = Answer {
            row: rows[i],
            distance: distances[i],
        };
    }
}
