// The index kind: its fixed limits, and the refusals that numbers alone decide.
#![tactic(auto)]

ghost use Rattle.std.specs.Prelude.{◌*◌, ◌/◌, ◌≤◌, ltb, ◌≡◌};
ghost use Rattle.limits.specs.Chosen.{chosen, told};
ghost use Rattle.limits.specs.Limits.{circles_ok_lem, columns_ok_lem, edition_ok_lem, share_ok_lem, within};
ghost use Rattle.limits.specs.Refusal.{outcome};
ghost use Rattle.limits.specs.Said.{number_faults, said};

mod refusal;

pub use refusal::Refusal;

// What an index is built with: the centres of an inner node, the rows that a leaf may have, and the columns that are circles, a bit for each.
#[derive(Clone, Copy)]
pub struct Params {
    pub centres: usize,
    pub leaf: usize,
    pub circles: u32,
}

impl Params {
    pub const MOST_COLUMNS: usize = 16;

    pub const MOST_ROWS: usize = 1_048_576;

    pub const MOST_DEPTH: usize = 24;

    pub const LEAST_CENTRES: usize = 2;

    pub const MOST_CENTRES: usize = 64;

    pub const MOST_LEAF: usize = 1_024;

    pub const MOST_DISTANCE: u32 = 1_048_560;

    pub const FIRST_EDITION: usize = 1;

    pub const LAST_EDITION: usize = 2;

    // Centres, leaf size and circles, where they are in range and the edition is the one that is built.
    pub fn new(
        columns: usize,
        centres: usize,
        leaf: usize,
        circles: u32,
        edition: usize,
    ) -> Option<Params>
        ensures { told result ≡ chosen columns centres leaf circles edition }
    {
        if !share_ok(centres, leaf) {
            return None;
        }
        if !circles_ok(columns, circles) {
            return None;
        }
        if edition == Params::LAST_EDITION {
            return Some(Params {
                centres,
                leaf,
                circles,
            });
        }
        None
    }
}

// x is one of low .. high.
pub fn is_within(low: usize, high: usize, x: usize) -> bool
    ensures { result ≡ within low high x }
{
    low <= x && x <= high
}

// A table may have c columns.
pub fn columns_ok(c: usize) -> bool
    ensures { result ≡ columns_ok_lem c }
{
    is_within(1, Params::MOST_COLUMNS, c)
}

// An inner node may have this many centres, and a leaf this many rows.
pub fn share_ok(centres: usize, leaf: usize) -> bool
    ensures { result ≡ share_ok_lem centres leaf }
{
    is_within(Params::LEAST_CENTRES, Params::MOST_CENTRES, centres)
        && is_within(centres, Params::MOST_LEAF, leaf)
}

// A table of c columns may have these circles: no bit at or above c is on. (A set has 32 bits.)
pub fn circles_ok(c: usize, circles: u32) -> bool
    ensures { result ≡ circles_ok_lem c circles }
{
    if 32 <= c {
        return true;
    }
    circles >> c == 0
}

// An index on a card may be of this edition.
pub fn edition_ok(edition: usize) -> bool
    ensures { result ≡ edition_ok_lem edition }
{
    is_within(Params::FIRST_EDITION, Params::LAST_EDITION, edition)
}

// ---- the refusals that numbers decide

// What numbers decide of a call: its table's length and columns, and for each other part whether it is met. A part that a call has not is never met.
#[derive(Clone, Copy)]
pub struct Asked {
    pub length: usize,
    pub columns: usize,
    // 2: m, l, the circles or the edition is out of range, which the constructor of the parameters decides; it is told here, so that 1 comes first
    pub unfit: bool,
    // 5: a lent room is too short
    pub short: bool,
    // 6: the query's length is not a row's
    pub unlike: bool,
    // 7: none are wanted
    pub none: bool,
}

// How many rows a table of this length and c columns has; none where it has no column.
pub fn rows_in(length: usize, c: usize) -> usize
    ensures { result ≡ length / c }
{
    if c == 0 {
        return 0;
    }
    length / c
}

// A room of so many is too short for n rows, of which each takes so many. (The product may be more than a number holds.)
pub fn is_short(room: usize, each: usize, n: usize) -> bool
    requires { 1 ≤ each }
    ensures { result ≡ ltb room (each * n) }
{
    room / each < n
}

// The first refusal that applies of those that numbers decide.
#[tactic(auto, unfolding(crate::specs::Said::number_faults))]
pub fn test_numbers(asked: Asked) -> Result<(), Refusal>
    ensures { outcome result ≡ said (number_faults asked) }
{
    if !columns_ok(asked.columns) {
        return Err(Refusal::Columns);
    }
    if asked.unfit {
        return Err(Refusal::Parameters);
    }
    if asked.length % asked.columns != 0 {
        return Err(Refusal::Ragged);
    }
    if Params::MOST_ROWS < asked.length / asked.columns {
        return Err(Refusal::Rows);
    }
    if asked.short {
        return Err(Refusal::Room);
    }
    if asked.unlike {
        return Err(Refusal::Query);
    }
    if asked.none {
        return Err(Refusal::NoneWanted);
    }
    Ok(())
}
