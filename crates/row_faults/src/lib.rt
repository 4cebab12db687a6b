// Why a row can't be put behind the rows that were.
#![tactic(auto)]

ghost use Rattle.std.specs.Prelude.{◌+◌, ◌≤◌, min, ltb, ◌≡◌};
ghost use Rattle.sheet_reading.specs.Says.{differs, row_trouble_lem};

use line_reading::{TOO_WIDE, Trouble, WIDEST};
use row_numbers::no_trouble;
use sheet_reading::{MOST_ROWS, TABLE_SHORT, TOO_MANY_ROWS, UNEVEN};

// The row has another count than there are columns, if that is known.
#[tactic(auto, unfolding(sheet_reading::specs::Says::differs))]
fn uneven(columns: usize, count: usize) -> bool
    ensures { result ≡ differs columns count }
{
    if columns == 0 {
        return false;
    }
    columns != count
}

// The room does not reach `count` places behind `put`.
fn lacks(room: usize, put: usize, count: usize) -> bool
    ensures { result ≡ ltb room (put + count) }
{
    if room < put {
        return true;
    }
    room - put < count
}

// The first column that is missing, or too many.
fn uneven_column(columns: usize, count: usize) -> usize
    requires { count ≤ 16 }
    ensures { result ≡ min columns count + 1 }
{
    if columns < count {
        return columns + 1;
    }
    count + 1
}

// Why a row of `count` numbers can't be put behind the rows that were.
#[tactic(auto, unfolding(sheet_reading::specs::Says::row_trouble_lem))]
pub fn row_trouble(columns: usize, rows: usize, put: usize, count: usize, room: usize) -> Trouble
    ensures { result ≡ row_trouble_lem columns rows put count room }
{
    if WIDEST < count {
        return Trouble {
            kind: TOO_WIDE,
            column: WIDEST + 1,
        };
    }
    if uneven(columns, count) {
        return Trouble {
            kind: UNEVEN,
            column: uneven_column(columns, count),
        };
    }
    if MOST_ROWS <= rows {
        return Trouble {
            kind: TOO_MANY_ROWS,
            column: 1,
        };
    }
    if lacks(room, put, count) {
        return Trouble {
            kind: TABLE_SHORT,
            column: 1,
        };
    }
    no_trouble()
}
