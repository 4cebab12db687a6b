// The numbers of a row while its line is read: one grows by a digit, and a field that ends is judged and its number kept behind the others.
#![tactic(auto)]

ghost use Rattle.line_reading.specs.InLine.{added, added_as, grown, marked, only_empty};
ghost use Rattle.line_reading.specs.Troubles.{none};
ghost use Rattle.std.specs.Prelude.{◌+◌, eqb, ◌≡◌};

use line_reading::{EMPTY, Line, Place, TOO_WIDE, Trouble, WIDEST};

// Nothing is wrong.
pub fn no_trouble() -> Trouble
    ensures { result ≡ none }
{
    Trouble { kind: 0, column: 0 }
}

// The first thing that is wrong is kept.
#[tactic(auto, unfolding(line_reading::specs::InLine::marked))]
fn mark(t: Trouble, kind: u32, column: usize) -> Trouble
    ensures { result ≡ marked t kind column }
{
    if t.kind != 0 {
        return t;
    }
    if kind == 0 {
        return t;
    }
    Trouble { kind, column }
}

// A name may be anything but empty.
#[tactic(auto, unfolding(line_reading::specs::InLine::only_empty))]
fn name_trouble(kind: u32) -> u32
    ensures { result ≡ only_empty kind }
{
    if kind == EMPTY {
        return EMPTY;
    }
    0
}

// The field that ends stands in the label's column.
fn is_label(label: usize, count: usize) -> bool
    ensures { result ≡ eqb label (count + 1) }
{
    if label == 0 {
        return false;
    }
    label - 1 == count
}

// A field has ended, with what is wrong with it in a row and in names: its number is kept behind the others, at most 16 in a line.
#[tactic(auto, unfolding(line_reading::specs::InLine::added_as))]
fn add_field(line: Line, kind: u32, named: u32, v: u16) -> Line
    ensures { result ≡ added_as line kind named v }
{
    let count = line.count;
    let mut row = line.row;
    if WIDEST <= count {
        return Line {
            place: Place::Behind,
            figure: line.figure,
            count: WIDEST + 1,
            row,
            numbers: mark(line.numbers, TOO_WIDE, WIDEST + 1),
            names: mark(line.names, TOO_WIDE, WIDEST + 1),
            label: line.label,
        };
    }
    row[count] = v;
    Line {
        place: Place::Behind,
        figure: line.figure,
        count: count + 1,
        row,
        numbers: mark(line.numbers, kind, count + 1),
        names: mark(line.names, named, count + 1),
        label: line.label,
    }
}

// A field has ended: a label may be anything but empty, and counts as 0.
#[tactic(auto, unfolding(line_reading::specs::InLine::added))]
pub fn add(line: Line, kind: u32, v: u16) -> Line
    ensures { result ≡ added line kind v }
{
    let named = name_trouble(kind);
    if is_label(line.label, line.count) {
        return add_field(line, named, named, 0);
    }
    add_field(line, kind, named, v)
}

// The digit d goes behind the number v, which may then be too great.
#[tactic(auto, unfolding(line_reading::specs::InLine::grown))]
pub fn grow(v: u16, d: u8) -> Place
    ensures { result ≡ grown v d }
{
    let grown = 10 * v as u32 + d as u32;
    if grown <= 65_535 {
        return Place::Inside(grown as u16);
    }
    Place::Great
}
