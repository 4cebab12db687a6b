// The label that a line has in a column, and the rows that have one.
#![tactic(auto)]

ghost use Rattle.std.specs.Prelude.{min, length, ◌≡◌};
ghost use Rattle.labels.specs.Labels.{hits_to, labelled, last_to};
ghost use Rattle.line_fields.specs.Fields.{field_in};

use asking::pieces::{bytes_of, part};
use line_fields::field_of;
use text_lines::line_from;

// The label in a line.
pub fn label_in(line: &[u8], column: usize) -> &[u8]
    ensures { result.now ≡ field_in line.now column }
{
    match field_of(line, column) {
        Some(spot) => bytes_of(line, spot),
        None => part(line, 0, 0),
    }
}

// How many rows have a label, and the last of them. Both are told where a question names a label that several rows have, so that this is no Result.
#[derive(Clone, Copy)]
pub struct Hits {
    pub count: usize,
    pub row: usize,
}

// Looks in the lines that start at these places for a label in a column.
pub fn find_label(t: &[u8], starts: &[u32], n: usize, column: usize, label: &[u8]) -> Hits
    ensures { (result.count ≡ hits_to (labelled t.now starts.now column label.now) (min n (length starts.now)))
        × (result.row ≡ last_to (labelled t.now starts.now column label.now) (min n (length starts.now))) }
{
    let mut hits = Hits { count: 0, row: 0 };
    for i in 0..n.min(starts.len()) {
        if label_in(line_from(t, starts[i]), column) == label {
            hits = Hits {
                count: hits.count + 1,
                row: i,
            };
        }
    }
    hits
}
