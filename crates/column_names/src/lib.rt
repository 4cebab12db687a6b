// What names a column: its number from 1 on, or its name in the line of names.
#![tactic(auto)]

ghost use Rattle.std.specs.Prelude.{◌≤◌, IfOk, ◌≡◌};
ghost use Rattle.column_names.specs.Names.{InLine, column_said_lem, is_named, named_to, told};

use asking::pieces::bytes_of;
use asking::word_number::number;
use line_fields::field_of;

// More columns than this no line has.
pub const MOST_COLUMNS: usize = 16;

// What is wrong with a name of a column.
#[derive(Clone, Copy, PartialEq, Eq)]
pub enum NameFault {
    // No column has it.
    NoColumn,
    // Two columns have it, or more.
    TwoColumns,
}

// The line has a field in the column, and it is the name.
fn has_name(line: &[u8], name: &[u8], column: usize) -> bool
    ensures { result ≡ is_named line.now name.now column }
{
    match field_of(line, column) {
        Some(spot) => bytes_of(line, spot) == name,
        None => false,
    }
}

// The column, from 1 on, whose field is just these bytes.
pub fn column_of(line: &[u8], name: &[u8]) -> Result<usize, NameFault>
    ensures said { told result ≡ named_to line.now name.now 16 }
    ensures column { IfOk result InLine }
{
    let mut found = None;
    for k in 0..MOST_COLUMNS {
        if has_name(line, name, k + 1) {
            if found.is_some() {
                return Err(NameFault::TwoColumns);
            }
            found = Some(k + 1);
        }
    }
    found.ok_or(NameFault::NoColumn)
}

// The column that a word says, of c, by its number from 1 or by its name.
pub fn column_said(names: &[u8], word: &[u8], c: usize) -> Result<usize, NameFault>
    ensures said { told result ≡ column_said_lem names.now word.now c }
    ensures column { IfOk result InLine }
{
    let Some(said) = number(word) else {
        return column_of(names, word);
    };
    let column = said as usize;
    if column == 0 || MOST_COLUMNS < column || c < column {
        return Err(NameFault::NoColumn);
    }
    Ok(column)
}
