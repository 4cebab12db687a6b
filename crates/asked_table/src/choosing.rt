// The columns that count, and those of them that are circles: what the question says of them, and the table that is made of them.
ghost use Rattle.std.specs.Prelude.{◌≤◌, IfOk};

use crate::reading::Sheet;
use asking::Question;
use asking::pieces::{bytes_of, part};
use circling::circles_of;
use column_choice::{Choice, choose_all, choose_list};
use column_names::MOST_COLUMNS;
use columns::{Unchosen, choose};
use saying::{say, say_number};
use statuses::Status;
use telling::{say_circles_wrong, say_columns_wrong};
use text_lines::first_line;

// The columns that count: those of the list, or all. What is wrong with them is said; else gives the status.
pub(crate) fn choice_asked(
    words: &[u8],
    q: Question,
    err: i32,
    names: &[u8],
    c: usize,
    label: usize,
    text: &[u8],
) -> Result<Choice, Status>
    ensures { IfOk result (λ choice. choice.k ≤ 16) }
{
    let (choice, list) = match q.columns {
        Some(columns) => {
            let list = bytes_of(words, columns);
            (choose_list(names, list, c, label), list)
        }
        None => (choose_all(c, label), part(words, 0, 0)),
    };
    match choice {
        Ok(choice) => Ok(choice),
        Err(fault) => {
            say_columns_wrong(err, fault, list, first_line(text));
            Err(Status::AskedWrongly)
        }
    }
}

// The circles among the columns that count: those of the list, or none. What is wrong with them is said; else gives the status.
pub(crate) fn circles_asked(
    words: &[u8],
    q: Question,
    err: i32,
    names: &[u8],
    c: usize,
    choice: Choice,
    text: &[u8],
) -> Result<u32, Status>
    requires { choice.k ≤ 16 }
{
    let Some(circle) = q.circle else {
        return Ok(0);
    };
    let list = bytes_of(words, circle);
    match circles_of(names, c, list, choice.chosen, choice.k) {
        Ok(circles) => Ok(circles),
        Err(wrong) => {
            say_circles_wrong(
                err,
                wrong.fault,
                bytes_of(list, wrong.item),
                first_line(text),
            );
            Err(Status::AskedWrongly)
        }
    }
}

// A number times its factor is too great for the table. Row 0 stands on the first line, or behind a line of names.
fn say_product(file: i32, row: usize, names: bool, column: usize, circle: bool) {
    say(file, b"line ");
    let line = if names { 2 } else { 1 };
    if row <= 1_048_576 {
        say_number(file, row + line);
    }
    say(file, b", column ");
    if column <= 16 {
        say_number(file, column + 1);
    }
    if circle {
        say(
            file,
            b": a number times its factor above 3,599, in a circle\n",
        );
    } else {
        say(file, b": a number times its factor above 65,535\n");
    }
}

// Column j of the chosen, by its number in the text from 0 on.
fn chosen_at(choice: Choice, j: usize) -> usize {
    if j < MOST_COLUMNS {
        choice.chosen[j]
    } else {
        0
    }
}

// Place j of the chosen columns is a circle.
fn bit_of(circles: u32, j: usize) -> bool {
    j < MOST_COLUMNS && (circles >> j) % 2 == 1
}

// The columns could not be chosen: a product is too great, or there are more or fewer columns than can be. Gives the status.
fn say_unchosen(
    file: i32,
    unchosen: Unchosen,
    names: bool,
    circles: u32,
    choice: Choice,
) -> Status {
    match unchosen {
        Unchosen::NoChoice => {
            say(
                file,
                b"as many columns can be chosen as the text has, and one at least\n",
            );
            Status::AskedWrongly
        }
        Unchosen::TooGreat { row, column } => {
            say_product(
                file,
                row,
                names,
                chosen_at(choice, column),
                bit_of(circles, column),
            );
            Status::TextFaulty
        }
    }
}

// Chooses the columns, in place. Else gives the status.
pub(crate) fn choose_columns(
    file: i32,
    sheet: Sheet,
    circles: u32,
    choice: Choice,
    table: &mut [u16],
) -> Result<(), Status> {
    let c = sheet.reader.columns;
    let n = sheet.reader.rows;
    match choose(
        table,
        c,
        n,
        circles,
        choice.chosen,
        choice.factors,
        choice.k,
    ) {
        Ok(()) => Ok(()),
        Err(unchosen) => Err(say_unchosen(file, unchosen, sheet.names, circles, choice)),
    }
}
