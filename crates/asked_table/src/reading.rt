// The text, read into the table.
ghost use Rattle.std.specs.Prelude.{IfOk};
ghost use Rattle.column_names.specs.Names.{InLine};

use asking::pieces::part;
use column_names::{MOST_COLUMNS, NameFault, column_said};
use sheet_reading::Reader;
use text_lines::{first_line, next_line, text_start};

// A text that was read: the reader at its end, whether its first line is names, and where its first row's line starts.
#[derive(Clone, Copy)]
pub struct Sheet {
    pub reader: Reader,
    pub names: bool,
    pub from: usize,
}

// The first line gave no row, and there is text behind it.
fn is_names(rows: usize, second: usize, length: usize) -> bool {
    rows == 0 && second < length
}

// The first row's line is the second line where the first is names.
fn first_row(names: bool, second: usize, top: usize) -> usize {
    if names { second } else { top }
}

// The names of a text whose first line was read so, or nothing.
fn names_in(t: &[u8], first: Reader) -> &[u8] {
    if first.fault == 0 && first.rows == 0 {
        first_line(t)
    } else {
        part(t, 0, 0)
    }
}

// The names of a text, or nothing.
pub fn names_of(text: &[u8], names: bool) -> &[u8] {
    if names {
        first_line(text)
    } else {
        part(text, 0, 0)
    }
}

// The column that a word says, before the rows are read: by its number from 1 or by its name.
pub(crate) fn label_said(t: &[u8], word: &[u8], table: &mut [u16]) -> Result<usize, NameFault>
    ensures { IfOk result InLine }
{
    let second = next_line(t, 0);
    let first = sheet::feed(sheet::start(0), part(t, 0, second), table);
    column_said(names_in(t, first), word, MOST_COLUMNS)
}

// Reads the whole text, whose column `label` holds labels (0: none does). The first line is fed alone: if it ends and gives no row, it is names.
pub(crate) fn read_rows(t: &[u8], label: usize, table: &mut [u16]) -> Sheet {
    let top = text_start(t);
    let second = next_line(t, 0);
    let first = sheet::feed(sheet::start(label), part(t, 0, second), table);
    let all = sheet::feed(first, part(t, second, t.len()), table);
    let reader = sheet::finish(all, table);
    let names = is_names(first.rows, second, t.len());
    let from = first_row(names, second, top);
    Sheet {
        reader,
        names,
        from,
    }
}
