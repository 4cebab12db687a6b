// One line of a text of rows, byte by byte: what is known of its fields so far, and where its reader stands.
#![tactic(auto)]

ghost use Rattle.line_reading.specs.InLine.{along as along·, bare, begins, blank_at, digit_at, emptied};
ghost use Rattle.line_reading.specs.InLine.{moved, opened, opens, quote_at, settled};
ghost use Rattle.std.specs.Prelude.{◌&&◌, ◌||◌, ◌≡◌};

use line_reading::{EMPTY, Line, NOT_A_NUMBER, Place, TOO_GREAT};
use row_numbers::{add, grow, no_trouble};
use sheet_fields::Kind;

// Before the first byte of a line.
#[tactic(auto, unfolding(line_reading::specs::InLine::emptied))]
pub fn fresh(label: usize) -> Line
    ensures { result ≡ emptied label }
{
    Line {
        place: Place::Open,
        figure: false,
        count: 0,
        row: [0; 16],
        numbers: no_trouble(),
        names: no_trouble(),
        label,
    }
}

// The field ends in which the reader stands.
pub fn settle(line: Line) -> Line
    ensures { result ≡ settled line }
{
    let place = line.place;
    match place {
        Place::Open => add(line, EMPTY, 0),
        Place::Inside(v) => add(line, 0, v),
        Place::Great => add(line, TOO_GREAT, 0),
        Place::Strange => add(line, NOT_A_NUMBER, 0),
        Place::Behind => line,
        Place::Quoted => add(line, NOT_A_NUMBER, 0),
    }
}

// A field may begin here.
pub fn may_begin(place: Place) -> bool
    ensures { result ≡ opens place }
{
    match place {
        Place::Open => true,
        Place::Inside(_) => false,
        Place::Great => false,
        Place::Strange => false,
        Place::Behind => true,
        Place::Quoted => false,
    }
}

// A field that begins here, or behind the quotes here, may be a figure.
fn may_lead(place: Place) -> bool
    ensures { result ≡ begins place }
{
    match place {
        Place::Open => true,
        Place::Inside(_) => false,
        Place::Great => false,
        Place::Strange => false,
        Place::Behind => true,
        Place::Quoted => true,
    }
}

// A digit begins a number, or goes behind one.
fn at_digit(place: Place, d: u8) -> Place
    ensures { result ≡ digit_at place d }
{
    match place {
        Place::Open => grow(0, d),
        Place::Inside(v) => grow(v, d),
        Place::Great => Place::Great,
        Place::Strange => Place::Strange,
        Place::Behind => grow(0, d),
        Place::Quoted => Place::Strange,
    }
}

// A quote begins a field, or goes behind quotes; in any other field it makes it no number.
fn at_quote(place: Place) -> Place
    ensures { result ≡ quote_at place }
{
    match place {
        Place::Open => Place::Quoted,
        Place::Inside(_) => Place::Strange,
        Place::Great => Place::Strange,
        Place::Strange => Place::Strange,
        Place::Behind => Place::Quoted,
        Place::Quoted => Place::Quoted,
    }
}

// A figure came before, or one begins here.
fn has_figure(before: bool, figure: bool, leads: bool) -> bool
    ensures { result ≡ (before || (figure && leads)) }
{
    if before {
        return true;
    }
    if figure {
        return leads;
    }
    false
}

// A byte of a field leads to a place; the first one of a field may make a figure of it.
#[tactic(auto, unfolding(line_reading::specs::InLine::moved))]
fn go_on(line: Line, place: Place, figure: bool) -> Line
    ensures { result ≡ moved line place figure }
{
    let stood = line.place;
    let row = line.row;
    let numbers = line.numbers;
    let names = line.names;
    Line {
        place,
        figure: has_figure(line.figure, figure, may_lead(stood)),
        count: line.count,
        row,
        numbers,
        names,
        label: line.label,
    }
}

// A blank ends a field, but not an open one.
fn at_blank(line: Line) -> Line
    ensures { result ≡ blank_at line.place line }
{
    let place = line.place;
    match place {
        Place::Open => line,
        Place::Inside(v) => add(line, 0, v),
        Place::Great => add(line, TOO_GREAT, 0),
        Place::Strange => add(line, NOT_A_NUMBER, 0),
        Place::Behind => line,
        Place::Quoted => add(line, NOT_A_NUMBER, 0),
    }
}

// Behind a byte that parts a field is open.
#[tactic(auto, unfolding(line_reading::specs::InLine::opened))]
fn open(line: Line) -> Line
    ensures { result ≡ opened line }
{
    let row = line.row;
    let numbers = line.numbers;
    let names = line.names;
    Line {
        place: Place::Open,
        figure: line.figure,
        count: line.count,
        row,
        numbers,
        names,
        label: line.label,
    }
}

// The line after one more byte.
pub fn along(line: Line, kind: Kind) -> Line
    ensures { result ≡ along· line kind }
{
    let place = line.place;
    match kind {
        Kind::Digit(d) => go_on(line, at_digit(place, d), true),
        Kind::Blank => at_blank(line),
        Kind::Parting => open(settle(line)),
        Kind::Sign => go_on(line, Place::Strange, true),
        Kind::Other => go_on(line, Place::Strange, false),
        Kind::Quote => go_on(line, at_quote(place), false),
    }
}

// No field of the line has begun.
#[tactic(auto, unfolding(line_reading::specs::InLine::bare))]
pub fn is_bare(here: Line) -> bool
    ensures { result ≡ bare here }
{
    if here.count != 0 {
        return false;
    }
    let place = here.place;
    may_begin(place)
}
