// The calls for C hosts: each calls one of the crates below, and keeps its contract. Every number that is given back has 32 bits; include/bourascul.h
// says what is lent. The crate bourascul_c exports them from an archive.
#![tactic(auto)]

ghost use Rattle.std.specs.Prelude.{min, length, ◌≡◌, ◌<◌};
ghost use Rattle.append.specs.Calls.{Appends};
ghost use Rattle.append_rows.specs.Calls.{AppendsRows};
ghost use Rattle.audit.specs.Calls.{Checks};
ghost use Rattle.bourascul.specs.Calls.{ReadsBlock};
ghost use Rattle.bourascul.specs.Recorded.{Recorded};
ghost use Rattle.build.specs.Calls.{Builds};
ghost use Rattle.image.specs.Calls.{Writes};
ghost use Rattle.listing.specs.Calls.{Lists};
ghost use Rattle.nearest.specs.Calls.{Answered};
ghost use Rattle.nearest_steps.specs.Asked.{asks, lends};
ghost use Rattle.orders.specs.Orders.{Orders, restoring, striking};
ghost use Rattle.radius.specs.Calls.{Searched};
ghost use Rattle.build.specs.Calls.{nodes_of, words_of};
ghost use Rattle.limits.specs.Refusal.{outcome};
ghost use Rattle.nearest.specs.Given.{given_of, measured_of};

use answers::Answer;
use limits::Refusal;

#[repr(C)]
#[derive(Clone, Copy)]
pub struct Built {
    pub number: u32,
    pub words: u32,
    pub nodes: u32,
}

#[repr(C)]
#[derive(Clone, Copy)]
pub struct Checked {
    pub number: u32,
    pub place: u32,
    pub second: u32,
}

#[repr(C)]
#[derive(Clone, Copy)]
pub struct Found {
    pub number: u32,
    pub inside: u32,
    pub measured: u32,
}

#[repr(C)]
#[derive(Clone, Copy)]
pub struct Near {
    pub number: u32,
    pub given: u32,
    pub measured: u32,
}

#[repr(C)]
#[derive(Clone, Copy)]
pub struct Written {
    pub number: u32,
    pub blocks: u32,
}

#[repr(C)]
#[derive(Clone, Copy)]
pub struct Read {
    pub number: u32,
    pub place: u32,
    pub words: u32,
}

#[repr(C)]
#[derive(Clone, Copy)]
pub struct Part {
    pub start: u32,
    pub length: u32,
}

// A block's number in 32 bits: those of an image beyond two terabytes may not fit.
fn block_number(x: usize) -> u32
    ensures { result ≡ min x 4294967295 }
{
    x.min(0xffff_ffff) as u32
}

// The number of an outcome, for C: 0 where the call is done.
fn number_of<T: Copy>(called: Result<T, Refusal>) -> u32
    ensures { result ≡ (outcome called).0 }
{
    match called {
        Ok(_) => 0,
        Err(refusal) => refusal.number(),
    }
}

// What a call that writes an index gives, for C: a refusal has zero counts.
fn built_for_c(called: Result<build::Built, Refusal>) -> Built
    requires { (words_of called < 4294967296) × (nodes_of called < 4294967296) }
    ensures { (result.number ≡ (outcome called).0) × (result.words ≡ words_of called) × (result.nodes ≡ nodes_of called) }
{
    match called {
        Ok(built) => Built {
            number: 0,
            words: built.words as u32,
            nodes: built.nodes as u32,
        },
        Err(refusal) => Built {
            number: refusal.number(),
            words: 0,
            nodes: 0,
        },
    }
}

// What a nearest search gives, for C: a refusal has zero counts.
fn near_for_c(called: Result<nearest::Given, Refusal>) -> Near
    requires { (given_of called < 4294967296) × (measured_of called < 4294967296) }
    ensures { (result.number ≡ (outcome called).0) × (result.given ≡ given_of called) × (result.measured ≡ measured_of called) }
{
    match called {
        Ok(found) => Near {
            number: 0,
            given: found.given as u32,
            measured: found.measured as u32,
        },
        Err(refusal) => Near {
            number: refusal.number(),
            given: 0,
            measured: 0,
        },
    }
}

pub fn bourascul_build(
    table: &[u16],
    c: u32,
    m: u32,
    l: u32,
    circles: u32,
    edition: u32,
    room: &mut [u32],
    work: &mut [u32],
) -> Built
    ensures { Builds table.now c circles edition m l room.old work.old room.new work.new
        result.number result.words result.nodes }
{
    built_for_c(build::build(
        table,
        c as usize,
        m as usize,
        l as usize,
        circles,
        edition as usize,
        room,
        work,
    ))
}

// The table's last row goes into the index, which has all the others.
pub fn bourascul_append(
    table: &[u16],
    c: u32,
    index: &[u32],
    room: &mut [u32],
    work: &mut [u32],
) -> Built
    ensures { Appends table.now c index.now room.old work.old room.new work.new
        result.number result.words result.nodes }
{
    built_for_c(append::append(table, c as usize, index, room, work))
}

// All of the table's rows that the index has not go into it.
pub fn bourascul_append_rows(
    table: &[u16],
    c: u32,
    index: &[u32],
    room: &mut [u32],
    work: &mut [u32],
) -> Built
    ensures { AppendsRows table.now c index.now room.old work.old room.new work.new
        result.number result.words result.nodes }
{
    built_for_c(append_rows::append_rows(table, c as usize, index, room, work))
}

pub fn bourascul_check(table: &[u16], c: u32, index: &[u32], work: &mut [u32]) -> Checked
    ensures { Checks table.now c index.now work.old work.new result.number result.place result.second }
{
    match audit::check(table, c as usize, index, work) {
        Ok(()) => Checked {
            number: 0,
            place: 0,
            second: 0,
        },
        Err(refusal) => Checked {
            number: refusal.number(),
            place: refusal.place() as u32,
            second: refusal.second() as u32,
        },
    }
}

pub fn bourascul_radius(
    table: &[u16],
    c: u32,
    index: &[u32],
    query: &[u16],
    r: u32,
    withdrawn: &[u32],
    how: &mut [u8],
) -> Found
    ensures { Searched table.now c index.now query.now r withdrawn.now how.old how.new
        result.number result.inside result.measured }
{
    match radius::radius(table, c as usize, index, query, r, withdrawn, how) {
        Ok(found) => Found {
            number: 0,
            inside: found.inside as u32,
            measured: found.measured as u32,
        },
        Err(refusal) => Found {
            number: refusal.number(),
            inside: 0,
            measured: 0,
        },
    }
}

pub fn bourascul_nearest(
    table: &[u16],
    c: u32,
    index: &[u32],
    query: &[u16],
    w: u32,
    withdrawn: &[u32],
    rows: &mut [u32],
    distances: &mut [u32],
    how: &mut [u8],
    work: &mut [u32],
) -> Near
    ensures { Answered (asks table.now c index.now query.now w withdrawn.now)
        (min (length rows.old) (length distances.old))
        (lends rows.old distances.old how.old work.old)
        (lends rows.new distances.new how.new work.new) result.number result.given result.measured }
{
    near_for_c(nearest::nearest(
        table, c as usize, index, query, w as usize, withdrawn, rows, distances, how, work,
    ))
}

// The nearest search of crate nearest, for a caller who has room of his own for so many answers.
fn within(
    table: &[u16],
    c: u32,
    index: &[u32],
    query: &[u16],
    w: u32,
    withdrawn: &[u32],
    own: usize,
    rows: &mut [u32],
    distances: &mut [u32],
    how: &mut [u8],
    work: &mut [u32],
) -> Near
    ensures { Answered (asks table.now c index.now query.now w withdrawn.now)
        (min own (min (length rows.old) (length distances.old)))
        (lends rows.old distances.old how.old work.old)
        (lends rows.new distances.new how.new work.new) result.number result.given result.measured }
{
    near_for_c(nearest::within(
        table, c as usize, index, query, w as usize, withdrawn, own, rows, distances, how, work,
    ))
}

// The rows nearest to the query, each with its distance as a record, in a row of answers that the caller lends. The two slices of numbers that the
// search hands out are lent too, and hold the same answers afterwards.
pub fn bourascul_nearest_answers(
    table: &[u16],
    c: u32,
    index: &[u32],
    query: &[u16],
    w: u32,
    withdrawn: &[u32],
    answers: &mut [Answer],
    rows: &mut [u32],
    distances: &mut [u32],
    how: &mut [u8],
    work: &mut [u32],
) -> Near
    ensures { Recorded (asks table.now c index.now query.now w withdrawn.now)
        answers.old answers.new
        (lends rows.old distances.old how.old work.old)
        (lends rows.new distances.new how.new work.new) result.number result.given result.measured }
{
    let room = answers.len();
    let near = within(
        table, c, index, query, w, withdrawn, room, rows, distances, how, work,
    );
    let given = near.given as usize;
    answers::fill_answers(answers, rows, distances, given);
    near
}

pub fn bourascul_write(index: &[u32], image: &mut [u8]) -> Written
    ensures { Writes index.now image.old image.new result.number result.blocks }
{
    match image::write_image(index, image) {
        Ok(blocks) => Written {
            number: 0,
            blocks: blocks as u32,
        },
        Err(refusal) => Written {
            number: refusal.number(),
            blocks: 0,
        },
    }
}

pub fn bourascul_read(image: &[u8], table: &[u16], c: u32, room: &mut [u32]) -> Read
    ensures { ReadsBlock table.now c image.now room.old room.new result.number result.place result.words }
{
    match card::read_image(image, table, c as usize, room) {
        Ok(words) => Read {
            number: 0,
            place: 0,
            words: words as u32,
        },
        Err(refusal) => Read {
            number: refusal.number(),
            place: block_number(refusal.place()),
            words: 0,
        },
    }
}

pub fn bourascul_list(index: &[u32], node: u32) -> Part
    ensures { Lists index.now node result.start result.length }
{
    match listing::part_of(index, node as usize) {
        Some(part) => Part {
            start: part.start as u32,
            length: part.length as u32,
        },
        None => Part {
            start: 0,
            length: 0,
        },
    }
}

// Strikes a row of n: it is withdrawn from the searches that are lent the set from now on.
pub fn bourascul_strike(withdrawn: &mut [u32], n: u32, row: u32) -> u32
    ensures { Orders withdrawn.old withdrawn.new n (striking row) result }
{
    number_of(orders::strike(withdrawn, n as usize, row as usize))
}

// Restores a row of n: it is withdrawn no longer.
pub fn bourascul_restore(withdrawn: &mut [u32], n: u32, row: u32) -> u32
    ensures { Orders withdrawn.old withdrawn.new n (restoring row) result }
{
    number_of(orders::restore(withdrawn, n as usize, row as usize))
}
