// The calls for C hosts as exports of an archive, which include/bourascul.h describes: each calls the function of its name in the library bourascul, and
// states its clause again. A static library is a crate of its own, since no crate can stand on one.
#![tactic(auto)]

ghost use Rattle.std.specs.Prelude.{min, length, ◌≡◌};
ghost use Rattle.append.specs.Calls.{Appends};
ghost use Rattle.append_rows.specs.Calls.{AppendsRows};
ghost use Rattle.audit.specs.Calls.{Checks};
ghost use Rattle.bourascul.specs.Calls.{ReadsBlock};
ghost use Rattle.bourascul.specs.Recorded.{Recorded};
ghost use Rattle.build.specs.Calls.{Builds};
ghost use Rattle.image.specs.Calls.{Writes};
ghost use Rattle.listing.specs.Calls.{Lists};
ghost use Rattle.nearest.specs.Calls.{Answered};
ghost use Rattle.nearest_steps.specs.Asked.{asks, lends};
ghost use Rattle.orders.specs.Orders.{Orders, restoring, striking};
ghost use Rattle.radius.specs.Calls.{Searched};

use answers::Answer;
use bourascul::{Built, Checked, Found, Near, Part, Read, Written};

#[unsafe(no_mangle)]
pub extern "C" fn bourascul_build(
    table: &[u16],
    c: u32,
    m: u32,
    l: u32,
    circles: u32,
    edition: u32,
    room: &mut [u32],
    work: &mut [u32],
) -> Built
    ensures { Builds table.now c circles edition m l room.old work.old room.new work.new
        result.number result.words result.nodes }
{
    bourascul::bourascul_build(table, c, m, l, circles, edition, room, work)
}

// The table's last row goes into the index, which has all the others.
#[unsafe(no_mangle)]
pub extern "C" fn bourascul_append(
    table: &[u16],
    c: u32,
    index: &[u32],
    room: &mut [u32],
    work: &mut [u32],
) -> Built
    ensures { Appends table.now c index.now room.old work.old room.new work.new
        result.number result.words result.nodes }
{
    bourascul::bourascul_append(table, c, index, room, work)
}

// All of the table's rows that the index has not go into it.
#[unsafe(no_mangle)]
pub extern "C" fn bourascul_append_rows(
    table: &[u16],
    c: u32,
    index: &[u32],
    room: &mut [u32],
    work: &mut [u32],
) -> Built
    ensures { AppendsRows table.now c index.now room.old work.old room.new work.new
        result.number result.words result.nodes }
{
    bourascul::bourascul_append_rows(table, c, index, room, work)
}

#[unsafe(no_mangle)]
pub extern "C" fn bourascul_check(table: &[u16], c: u32, index: &[u32], work: &mut [u32]) -> Checked
    ensures { Checks table.now c index.now work.old work.new result.number result.place result.second }
{
    bourascul::bourascul_check(table, c, index, work)
}

#[unsafe(no_mangle)]
pub extern "C" fn bourascul_radius(
    table: &[u16],
    c: u32,
    index: &[u32],
    query: &[u16],
    r: u32,
    withdrawn: &[u32],
    how: &mut [u8],
) -> Found
    ensures { Searched table.now c index.now query.now r withdrawn.now how.old how.new
        result.number result.inside result.measured }
{
    bourascul::bourascul_radius(table, c, index, query, r, withdrawn, how)
}

#[unsafe(no_mangle)]
pub extern "C" fn bourascul_nearest(
    table: &[u16],
    c: u32,
    index: &[u32],
    query: &[u16],
    w: u32,
    withdrawn: &[u32],
    rows: &mut [u32],
    distances: &mut [u32],
    how: &mut [u8],
    work: &mut [u32],
) -> Near
    ensures { Answered (asks table.now c index.now query.now w withdrawn.now)
        (min (length rows.old) (length distances.old))
        (lends rows.old distances.old how.old work.old)
        (lends rows.new distances.new how.new work.new) result.number result.given result.measured }
{
    bourascul::bourascul_nearest(
        table, c, index, query, w, withdrawn, rows, distances, how, work,
    )
}

// The rows nearest to the query, each with its distance as a record, in a row of answers that the caller lends. The two slices of numbers that the
// search hands out are lent too, and hold the same answers afterwards.
#[unsafe(no_mangle)]
pub extern "C" fn bourascul_nearest_answers(
    table: &[u16],
    c: u32,
    index: &[u32],
    query: &[u16],
    w: u32,
    withdrawn: &[u32],
    answers: &mut [Answer],
    rows: &mut [u32],
    distances: &mut [u32],
    how: &mut [u8],
    work: &mut [u32],
) -> Near
    ensures { Recorded (asks table.now c index.now query.now w withdrawn.now)
        answers.old answers.new
        (lends rows.old distances.old how.old work.old)
        (lends rows.new distances.new how.new work.new) result.number result.given result.measured }
{
    bourascul::bourascul_nearest_answers(
        table, c, index, query, w, withdrawn, answers, rows, distances, how, work,
    )
}

#[unsafe(no_mangle)]
pub extern "C" fn bourascul_write(index: &[u32], image: &mut [u8]) -> Written
    ensures { Writes index.now image.old image.new result.number result.blocks }
{
    bourascul::bourascul_write(index, image)
}

#[unsafe(no_mangle)]
pub extern "C" fn bourascul_read(image: &[u8], table: &[u16], c: u32, room: &mut [u32]) -> Read
    ensures { ReadsBlock table.now c image.now room.old room.new result.number result.place result.words }
{
    bourascul::bourascul_read(image, table, c, room)
}

#[unsafe(no_mangle)]
pub extern "C" fn bourascul_list(index: &[u32], node: u32) -> Part
    ensures { Lists index.now node result.start result.length }
{
    bourascul::bourascul_list(index, node)
}

// Strikes a row of n: it is withdrawn from the searches that are lent the set from now on.
#[unsafe(no_mangle)]
pub extern "C" fn bourascul_strike(withdrawn: &mut [u32], n: u32, row: u32) -> u32
    ensures { Orders withdrawn.old withdrawn.new n (striking row) result }
{
    bourascul::bourascul_strike(withdrawn, n, row)
}

// Restores a row of n: it is withdrawn no longer.
#[unsafe(no_mangle)]
pub extern "C" fn bourascul_restore(withdrawn: &mut [u32], n: u32, row: u32) -> u32
    ensures { Orders withdrawn.old withdrawn.new n (restoring row) result }
{
    bourascul::bourascul_restore(withdrawn, n, row)
}
