// The analyst's reader on a text of as many rows as the library takes, of one row more, and of as many in a table that is one row too short. The
// text is fed in pieces, and a row has one column, so that table and program fit a stack of 8 MB.
#![tactic(auto)]

mod rooms;

use saying::STDOUT_FILENO;
use sheet_reading::Reader;

fn say(text: &[u8]) {
    io::write_all(STDOUT_FILENO, text);
}

fn say_number(before: &[u8], n: u64) {
    say(before);
    io::print_decimal(STDOUT_FILENO, n);
}

// How many rows were read, and the fault, if there is one, with its place.
fn tell(what: &[u8], r: Reader) {
    say(what);
    say_number(b": read ", r.rows as u64);
    if r.fault != 0 {
        say_number(b", fault ", r.fault as u64);
        say_number(b" in line ", r.line);
        say_number(b", column ", r.column as u64);
    }
    say(b"\n");
}

// Feeds 16 rows as often.
fn feed_rows(reader: Reader, times: usize, table: &mut [u16]) -> Reader {
    let mut r = reader;
    for _ in 0..times {
        r = sheet::feed(
            r,
            b"7\n7\n7\n7\n7\n7\n7\n7\n7\n7\n7\n7\n7\n7\n7\n7\n",
            table,
        );
    }
    r
}

// As many rows as the library takes, and one more.
fn full() {
    let mut table = rooms::table_room();
    let all = feed_rows(sheet::start(0), 65_536, &mut table);
    tell(b"1,048,576 rows", sheet::finish(all, &mut table));
    let over = sheet::feed(all, b"7\n", &mut table);
    tell(b"1,048,577 rows", sheet::finish(over, &mut table));
}

// As many in a table that is too short by one.
fn short() {
    let mut table = rooms::short_room();
    let over = feed_rows(sheet::start(0), 65_536, &mut table);
    tell(b"1,048,576 rows, room for 1,048,575", over);
}

fn main() {
    full();
    short();
}
