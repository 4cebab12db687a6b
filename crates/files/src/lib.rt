// A file or standard input, read whole into a lent text.
#![tactic(auto)]

ghost use Rattle.std.specs.Prelude.{◌+◌, ◌≤◌, IfOk, length};

use std::io::{Error, Input, Read};
use std::rt::Files;
use std::{fs, str};

// Why a text is not there whole.
#[derive(Clone, Copy, PartialEq, Eq)]
pub enum Unread {
    // the reading failed before the text's end
    Failed,
    // the text is longer than its room
    TooLong,
}

// What is read: standard input, or a file, which is closed where it is dropped.
#[derive(Drop)]
pub enum Source<I, F> {
    Input(I),
    File(F),
}

impl<I: Read, F: Read> Read for Source<I, F> {
    fn read(&mut self, buf: &mut [u8]) -> std::io::Result<usize> {
        match self {
            Source::Input(input) => input.read(buf),
            Source::File(file) => file.read(buf),
        }
    }
}

// The name of standard input.
pub fn is_input(name: &[u8]) -> bool {
    check::same(name, b"-")
}

// An open file, or none where it can't be opened; a name that is no UTF-8 text can't be.
fn open_file<R: Files>(rt: &R, name: &[u8]) -> Option<R::File> {
    fs::open(rt, str::from_utf8(name).ok()?).ok()
}

// What a name stands for, where `-` is standard input.
pub fn opened<R: Files + Input>(rt: &R, name: &[u8]) -> Option<Source<R::Reader, R::File>> {
    if is_input(name) {
        return Some(Source::Input(rt.reader()));
    }
    Some(Source::File(open_file(rt, name)?))
}

// One read, where a read that fails gives no bytes.
fn read_some<F: Read>(file: &mut F, room: &mut [u8]) -> usize
    ensures { result ≤ length room.new }
{
    file.read(room).unwrap_or(0)
}

// Reads until the room is full, the file ends or a read fails. Gives how many bytes stand at the room's front then.
pub fn read_front<F: Read>(file: &mut F, room: &mut [u8]) -> usize
    ensures { result ≤ length room.new }
{
    let mut length = 0;
    while length < room.len() {
        let n = read_some(file, &mut room[length..]);
        if n == 0 {
            return length;
        }
        length += n;
    }
    length
}

// Reads to the end of the file, and gives the text's length. A byte that comes behind the end, or behind the room, is one too many.
pub fn read_whole<F: Read>(file: &mut F, text: &mut [u8]) -> Result<usize, Unread>
    ensures { IfOk result (λ n. n ≤ length text.new) }
{
    let length = read_front(file, text);
    let mut more = io::buffer();
    match file.read(&mut more) {
        Ok(0) => Ok(length),
        Ok(_) => Err(Unread::TooLong),
        Err(_) => Err(Unread::Failed),
    }
}

// The same behind the first `from` bytes of the room, which stay; gives the length of what was read.
pub fn read_behind<F: Read>(file: &mut F, text: &mut [u8], from: usize) -> Result<usize, Unread>
    requires { from ≤ length text.old }
    ensures { IfOk result (λ n. from + n ≤ length text.new) }
{
    read_whole(file, &mut text[from..])
}

// Writes a line to standard error: what failed, and why.
pub fn fail<R: Eprint>(rt: &R, what: &str, error: Error) {
    let _ = eprintln!(rt; "{what}: {error}");
}
