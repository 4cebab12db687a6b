// The table that a question is about: the text of the rows read into it, its column of labels known, and the columns chosen that count.
#![tactic(auto)]

mod choosing;
pub mod reading;

ghost use Rattle.std.specs.Prelude.{◌≤◌, IfOk};

use asking::Question;
use asking::pieces::bytes_of;
use choosing::{choice_asked, choose_columns, circles_asked};
use column_choice::Choice;
use column_names::NameFault;
use reading::{Sheet, label_said, names_of, read_rows};
use statuses::Status;
use telling::faults::{say_fault, status_of};
use telling::say_name_wrong;
use text_lines::first_line;

// The columns that are chosen, and the circles among them.
#[derive(Clone, Copy)]
pub struct Chosen {
    pub circles: u32,
    pub choice: Choice,
}

// Says what is wrong with the name of the column of labels. Gives the status.
fn say_label(err: i32, fault: NameFault, name: &[u8], text: &[u8]) -> Status {
    say_name_wrong(err, fault, name, first_line(text));
    Status::AskedWrongly
}

// The column of labels, from 1 on, or 0 where none is asked for. Else gives the status.
fn label_of(
    words: &[u8],
    q: Question,
    err: i32,
    text: &[u8],
    table: &mut [u16],
) -> Result<usize, Status>
    ensures { IfOk result (λ column. column ≤ 16) }
{
    let Some(label) = q.label else {
        return Ok(0);
    };
    let name = bytes_of(words, label);
    match label_said(text, name, table) {
        Ok(column) => Ok(column),
        Err(fault) => Err(say_label(err, fault, name, text)),
    }
}

// Says what is wrong with a text that was read, whose column `label` holds labels (0: none does). Gives the status where something is.
fn test_sheet(
    err: i32,
    sheet: Sheet,
    label: usize,
    words: &[u8],
    q: Question,
    text: &[u8],
) -> Result<(), Status> {
    let reader = sheet.reader;
    if reader.fault != 0 {
        say_fault(err, reader);
        return Err(status_of(reader.fault));
    }
    match q.label {
        Some(name) if reader.columns < label => Err(say_label(
            err,
            NameFault::NoColumn,
            bytes_of(words, name),
            text,
        )),
        _ => Ok(()),
    }
}

// Reads the text of the rows into the table. Else gives the status.
pub fn read_text(
    words: &[u8],
    q: Question,
    err: i32,
    text: &[u8],
    table: &mut [u16],
) -> Result<Sheet, Status> {
    let label = label_of(words, q, err, text, table)?;
    let sheet = read_rows(text, label, table);
    test_sheet(err, sheet, label, words, q, text)?;
    Ok(sheet)
}

// Chooses the columns that count, and makes the table of them in place. Else gives the status.
pub fn choose_said(
    words: &[u8],
    q: Question,
    err: i32,
    sheet: Sheet,
    text: &[u8],
    table: &mut [u16],
) -> Result<Chosen, Status>
    ensures { IfOk result (λ chosen. chosen.choice.k ≤ 16) }
{
    let reader = sheet.reader;
    let names = names_of(text, sheet.names);
    let choice = choice_asked(words, q, err, names, reader.columns, reader.label, text)?;
    let circles = circles_asked(words, q, err, names, reader.columns, choice, text)?;
    choose_columns(err, sheet, circles, choice, table)?;
    Ok(Chosen { circles, choice })
}
