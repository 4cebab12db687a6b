// The fields of a line: what stands between commas, semicolons, tabs and blanks. In a line that was read, no field is empty.
#![tactic(auto)]

ghost use Rattle.std.specs.Prelude.{◌-◌, ◌≤◌, length, MatchOption, ◌≡◌};
ghost use Rattle.asking.specs.Pieces.{place_from};
ghost use Rattle.line_fields.specs.Fields.{IsField, between, span_of, stopping};

use asking::pieces::Piece;

// A byte between two fields.
#[tactic(auto, unfolding(crate::specs::Fields::between))]
fn parts(b: u8) -> bool
    ensures { result ≡ between b }
{
    matches!(b, b',' | b';' | b'\t' | b' ')
}

// The byte is between two fields, or is not, as `parting` says.
fn stops(b: u8, parting: bool) -> bool
    ensures { result ≡ stopping parting b }
{
    parts(b) == parting
}

// The first place from `at` on whose byte parts fields, or does not, as `parting` says; the line's end where there is none.
fn pass(line: &[u8], at: usize, parting: bool) -> usize
    requires { at ≤ length line.now }
    ensures { (result ≡ place_from (stopping parting) line.now at) × (at ≤ result) × (result ≤ length line.now) }
{
    for i in at..line.len() {
        if stops(line[i], parting) {
            return i;
        }
    }
    line.len()
}

// Where field `column` stands in the line, from 1 on.
pub fn field_of(line: &[u8], column: usize) -> Option<Piece>
    ensures { MatchOption result ((span_of line.now (column - 1)).1 ≤ (span_of line.now (column - 1)).0) (IsField line.now column) }
{
    let mut start = pass(line, 0, false);
    let mut end = pass(line, start, true);
    for _ in 1..column {
        start = pass(line, end, false);
        end = pass(line, start, true);
    }
    if start < end {
        Some(Piece { start, end })
    } else {
        None
    }
}
