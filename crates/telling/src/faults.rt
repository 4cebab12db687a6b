// What is wrong with a text, with the line and the column.
use saying::{say, say_count, say_number};
use sheet_reading::Reader;
use statuses::Status;

// A row that has another count than the rows above, or than the names if it is the first row.
fn say_uneven(file: i32, count: usize, columns: usize, rows: usize) {
    say_count(file, count, b"number");
    if rows == 0 {
        say(file, b", where there are ");
        say_count(file, columns, b"name");
    } else {
        say(file, b", where the rows above have ");
        say_number(file, columns);
    }
    say(file, b"\n");
}

// What is wrong with a line as a row of the table, or with the whole text.
fn say_row_fault(file: i32, r: Reader) {
    if r.fault == sheet_reading::UNEVEN {
        say_uneven(file, r.here.count, r.columns, r.rows);
    } else if r.fault == sheet_reading::TOO_MANY_ROWS {
        say(file, b"more than 1,048,576 rows\n");
    } else if r.fault == sheet_reading::NO_ROWS {
        say(file, b"no rows\n");
    } else {
        say(file, b"more rows than there is room for\n");
    }
}

// What is wrong with the column that the reader stopped at.
fn say_line_fault(file: i32, r: Reader) {
    if r.fault == line_reading::NOT_A_NUMBER {
        say(file, b"not a number\n");
    } else if r.fault == line_reading::TOO_GREAT {
        say(file, b"a number above 65,535\n");
    } else if r.fault == line_reading::TOO_WIDE {
        say(file, b"more than 16 columns\n");
    } else if r.fault == line_reading::EMPTY {
        say(file, b"empty\n");
    } else {
        say_row_fault(file, r);
    }
}

// Where it is, and what it is.
pub fn say_fault(file: i32, r: Reader) {
    say(file, b"line ");
    io::print_decimal(file, r.line);
    say(file, b", column ");
    say_number(file, r.column);
    say(file, b": ");
    say_line_fault(file, r);
}

// The status of a text with this fault: that there is no room for its rows, or that it has a fault.
pub fn status_of(fault: u32) -> Status {
    if fault == sheet_reading::TOO_MANY_ROWS || fault == sheet_reading::TABLE_SHORT {
        Status::NoRoom
    } else {
        Status::TextFaulty
    }
}
