// The texts of a question: that of the rows, and behind it that of the rows that are withdrawn, with the set of the rows that it says.
#![tactic(auto)]

ghost use Rattle.std.specs.Prelude.{length, ◌≡◌};

use asking::Question;
use asking::pieces::{bytes_of, part};
use files::{Unread, is_input, opened, read_behind, read_whole};
use row_lines::LineFault;
use saying::{say, say_count, say_grouped, say_number, say_quoted};
use statuses::Status;
use std::io::{Input, Read};
use std::rt::Files;
use withdrawing::{Fault, withdraw_in};

// As many words as the set of the most rows has.
const SET_WORDS: usize = 32_768;

// The lengths of both texts; there may be no second.
#[derive(Clone, Copy)]
pub struct Texts {
    pub length: usize,
    pub second: usize,
}

// Reads the text of the rows. The file is closed. Gives the text's length, else the status.
fn read_first<R: Files + Input>(
    rt: &R,
    words: &[u8],
    q: Question,
    err: i32,
    text: &mut [u8],
) -> Result<usize, Status> {
    let name = bytes_of(words, q.file);
    let Some(mut file) = opened(rt, name) else {
        say_quoted(err, b"can't open ", name, b"");
        return Err(Status::AskedWrongly);
    };
    match read_whole(&mut file, text) {
        Ok(length) => Ok(length),
        Err(Unread::Failed) => {
            say_quoted(err, b"", name, b" can't be read");
            Err(Status::AskedWrongly)
        }
        Err(Unread::TooLong) => {
            say(err, b"the text is longer than ");
            say_grouped(err, text.len());
            say(err, b" bytes\n");
            Err(Status::NoRoom)
        }
    }
}

// Reads the second text of an open file behind the first. Gives its length, else the status.
fn read_second<F: Read>(
    err: i32,
    name: &[u8],
    file: &mut F,
    text: &mut [u8],
    from: usize,
) -> Result<usize, Status> {
    if text.len() < from {
        return Err(Status::NoRoom);
    }
    match read_behind(file, text, from) {
        Ok(length) => Ok(length),
        Err(Unread::Failed) => {
            say_quoted(err, b"", name, b" can't be read");
            Err(Status::AskedWrongly)
        }
        Err(Unread::TooLong) => {
            say_quoted(err, b"there is no room for all of ", name, b"");
            Err(Status::NoRoom)
        }
    }
}

// Reads the text of the rows that are withdrawn behind the first, if there is one. The file is closed. Gives its length, else the status.
fn read_without<R: Files + Input>(
    rt: &R,
    words: &[u8],
    q: Question,
    err: i32,
    text: &mut [u8],
    from: usize,
) -> Result<usize, Status> {
    let Some(without) = q.without else {
        return Ok(0);
    };
    let name = bytes_of(words, without);
    if is_input(name) && is_input(bytes_of(words, q.file)) {
        say(
            err,
            b"standard input is the minutes, and can't say which rows to leave out\n",
        );
        return Err(Status::AskedWrongly);
    }
    let Some(mut file) = opened(rt, name) else {
        say_quoted(err, b"can't open ", name, b"");
        return Err(Status::AskedWrongly);
    };
    read_second(err, name, &mut file, text, from)
}

// Reads the text of the rows, and behind it that of the rows that are withdrawn, if there is one. Else gives the status.
pub fn read_texts<R: Files + Input>(
    rt: &R,
    words: &[u8],
    q: Question,
    err: i32,
    text: &mut [u8],
) -> Result<Texts, Status> {
    let length = read_first(rt, words, q, err, text)?;
    let second = read_without(rt, words, q, err, text, length)?;
    Ok(Texts { length, second })
}

// The second text, behind the first.
pub fn second_of(t: &[u8], from: usize, count: usize) -> &[u8] {
    part(part(t, from, t.len()), 0, count)
}

// A set in which no row is withdrawn, with its length alone.
pub fn none_struck() -> [u32; SET_WORDS]
    ensures { 32768 ≡ length result }
{
    [0; SET_WORDS]
}

// What is wrong with a line of the second text.
fn say_line(file: i32, name: &[u8], line: usize, fault: LineFault, n: usize) {
    say(file, b"'");
    say(file, name);
    say(file, b"', line ");
    say_number(file, line);
    match fault {
        LineFault::NotANumber => say(file, b": not a number\n"),
        LineFault::NoRow => {
            say(file, b": there is no such row: the text has ");
            say_count(file, n, b"row");
            say(file, b", from row 0 on\n");
        }
        LineFault::Blank => say(file, b": empty\n"),
    }
}

// Says what is wrong with the rows that are withdrawn. Gives the status.
fn say_without(file: i32, name: &[u8], fault: Fault, n: usize) -> Status {
    match fault {
        Fault::NoSet => {
            say(
                file,
                b"there is no room for the rows that are withdrawn, of ",
            );
            say_grouped(file, n);
            say(file, b"\n");
            Status::NoRoom
        }
        Fault::Line(line, fault) => {
            say_line(file, name, line, fault, n);
            Status::TextFaulty
        }
    }
}

// The name of the file that says which rows are withdrawn.
fn without_name(words: &[u8], q: Question) -> &[u8] {
    match q.without {
        Some(without) => bytes_of(words, without),
        None => part(words, 0, 0),
    }
}

// Puts the rows that the second text says into the set. Else gives the status.
pub fn withdraw_said(
    words: &[u8],
    q: Question,
    err: i32,
    second: &[u8],
    n: usize,
    struck: &mut [u32],
) -> Result<(), Status> {
    match withdraw_in(second, n, struck) {
        Ok(()) => Ok(()),
        Err(fault) => Err(say_without(err, without_name(words, q), fault, n)),
    }
}
