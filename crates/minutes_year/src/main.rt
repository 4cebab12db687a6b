// The analyst's program, for 1,048,576 rows. It needs 320 MB of stack, which bin/minutes sets; help and the version need little.
#![tactic(auto)]

use analyst::{Ends, filled};
use saying::{STDERR_FILENO, STDOUT_FILENO};
use statuses::Status;
use std::io::Input;
use std::rt::Files;

// Rooms, for 1,048,576 rows of 16 columns and 128 MB of text.
const TEXT: usize = 134_217_728;

const TABLE: usize = 16_777_216;

// Room and workspace for the index of as many rows.
const ROOM: usize = 12_582_920;

const WORK: usize = 6_291_456;

const ROWS: usize = 1_048_576;

// The words are at most 65,536 bytes, so that a question is answered once.
const MOST_BYTES: usize = 65_537;

// Answers in rooms of its own, once and as many times again as `again` says. A function that calls itself is never made a part of its caller: so the
// rooms are in a frame of their own, and help and the version need little stack.
fn answer<R: Files + Input>(rt: &R, words: &[u8], again: usize) -> Status {
    let mut text: [u8; TEXT] = filled(0);
    let mut table: [u16; TABLE] = filled(0);
    let mut room: [u32; ROOM] = filled(0);
    let mut work: [u32; WORK] = filled(0);
    let mut how: [u8; ROWS] = filled(0);
    let mut marks: [u8; ROWS] = filled(0);
    let mut rows: [u32; ROWS] = filled(0);
    let mut distances: [u32; ROWS] = filled(0);
    let status = analyst::run(
        rt,
        words,
        Ends {
            out: STDOUT_FILENO,
            err: STDERR_FILENO,
        },
        &mut text,
        &mut table,
        &mut room,
        &mut work,
        &mut how,
        &mut marks,
        &mut rows,
        &mut distances,
    );
    if again == 0 {
        return status;
    }
    answer(rt, words, again - 1)
}

// The status of the whole. Help and the version are told without the rooms.
fn status_of<R: Files + Input>(rt: &R, words: &[u8]) -> Status {
    if telling::tells(words, STDOUT_FILENO) {
        return Status::Answered;
    }
    answer(rt, words, words.len() / MOST_BYTES)
}

fn main(rt: HostRuntime) {
    let mut room = io::large_buffer();
    let status = match analyst::arguments(&rt, &mut room) {
        Some(length) => status_of(&rt, &room[..length]),
        None => analyst::refuse_words(STDERR_FILENO),
    };
    analyst::end_with(status);
}
