// What is wrong with a question, and what would be right; help, and the version.
#![tactic(auto)]

pub mod faults;

use asking::Wrong;
use asking::pieces::bytes_of;
use circle_columns::CircleFault;
use column_choice::{ChoiceFault, ItemFault};
use column_names::NameFault;
use queries::Fault;
use saying::{say, say_count, say_number, say_quoted};
use statuses::Status;

// The usage in two lines.
fn say_usage(file: i32) {
    say(
        file,
        b"usage: minutes FILE like WHAT DISTANCE [OPTION ..]\n       \
          minutes FILE nearest WHAT HOW_MANY [OPTION ..]\n",
    );
}

fn say_version(file: i32) {
    say(
        file,
        b"minutes 2, over an index of edition 2 with 16 columns and 1,048,576 rows at most\n",
    );
}

fn say_help(file: i32) {
    say_usage(file);
    say(
        file,
        b"like: every row within DISTANCE, in row order; nearest: the HOW_MANY nearest rows, nearest first, of equals the lower row.\n\
          FILE is rows of numbers, a row a line, with a first line of names if you like; - is standard input. Rows count from 0.\n\
          WHAT is a row (1046), several (1046,899: within DISTANCE of any; like alone), values (=0,0,88,4), or what one row has: tender_distance=3284\n  \
          --columns NAME[*FACTOR],..  the columns that count, by name or number from 1, each times its whole factor\n  \
          --circle NAME,..            of these, those that go round: circles of 3,600 tenths of a degree\n  \
          --without FILE              rows that are withdrawn, a row number a line: they are in no answer\n  \
          --label NAME                a column that is no number and does not count: it is shown, and asked by: time=2026-04-12T07:31\n  \
          --count  --csv  --lines     the count alone; commas and a line of names; the recorder's own line behind each answer\n  \
          --by distance               like: nearest first\n\
          Status: 0 answered, 1 nothing found, 2 asked wrongly, 3 the text has a fault, 4 no room.\n",
    );
}

// Help or the version is asked for, and told.
pub fn tells(words: &[u8], out: i32) -> bool {
    if asking::has_word(words, b"--help") {
        say_help(out);
        return true;
    }
    if asking::has_word(words, b"--version") {
        say_version(out);
        return true;
    }
    false
}

// What is wrong with the words of the question.
pub fn say_asked_wrong(file: i32, words: &[u8], wrong: Wrong) {
    match wrong {
        Wrong::NoWords | Wrong::TooFew => say_usage(file),
        Wrong::OneMore(w) => say_quoted(
            file,
            b"",
            bytes_of(words, w),
            b" is one word too many: FILE, like or nearest, WHAT, and DISTANCE or HOW_MANY",
        ),
        Wrong::NoOption(w) => say_quoted(
            file,
            b"there is no option ",
            bytes_of(words, w),
            b"; there are --columns, --circle, --without, --label, --count, --csv, --lines, --by, --help and --version",
        ),
        Wrong::NoValue(w) => say_quoted(
            file,
            b"",
            bytes_of(words, w),
            b" needs a value: --columns speed,fan_pressure*2, --circle heading, --without struck.txt, --label time, --by distance",
        ),
        Wrong::Twice(w) => say_quoted(file, b"", bytes_of(words, w), b" is given twice"),
        Wrong::NoOrder(w) => say_quoted(
            file,
            b"answers do not come by ",
            bytes_of(words, w),
            b", but by distance, or in row order without --by",
        ),
        Wrong::NoWay(w) => say_quoted(
            file,
            b"behind FILE stands like or nearest, and not ",
            bytes_of(words, w),
            b"",
        ),
        Wrong::NoAmount(w) => say_quoted(
            file,
            b"DISTANCE is a whole number below 10,000,000, HOW_MANY one from 1 on, and not ",
            bytes_of(words, w),
            b"",
        ),
    }
}

// What is wrong with a name of a column; `names` are the columns that there are.
pub fn say_name_wrong(file: i32, fault: NameFault, name: &[u8], names: &[u8]) {
    match fault {
        NameFault::NoColumn => {
            say_quoted(file, b"there is no column ", name, b"");
            say_quoted(file, b"the text's first line is ", names, b"");
        }
        NameFault::TwoColumns => say_quoted(
            file,
            b"two columns have the name of ",
            name,
            b": ask by number",
        ),
    }
}

// What is wrong with an item of the list of columns.
fn say_item_wrong(file: i32, fault: ItemFault, item: &[u8], names: &[u8]) {
    match fault {
        ItemFault::Name(fault) => say_name_wrong(file, fault, item, names),
        ItemFault::NoFactor => say_quoted(
            file,
            b"a factor is a whole number from 1 to 65,535, unlike that of ",
            item,
            b"",
        ),
        ItemFault::LabelCounts => say_quoted(
            file,
            b"labels do not count, and ",
            item,
            b" is their column",
        ),
    }
}

// What is wrong with the list of columns.
pub fn say_columns_wrong(file: i32, fault: ChoiceFault, list: &[u8], names: &[u8]) {
    match fault {
        ChoiceFault::TooMany => say(
            file,
            b"at most 16 columns can be chosen, and one at least\n",
        ),
        ChoiceFault::Item(fault, item) => {
            say_item_wrong(file, fault, bytes_of(list, item), names)
        }
    }
}

// What is wrong with an item of the list of circles.
pub fn say_circles_wrong(file: i32, fault: CircleFault, item: &[u8], names: &[u8]) {
    match fault {
        CircleFault::Name(fault) => say_name_wrong(file, fault, item, names),
        CircleFault::TooMany => say(file, b"at most 16 circles can be named\n"),
        CircleFault::NotCounted => say_quoted(
            file,
            b"a circle is one of the columns that count, and ",
            item,
            b" is not",
        ),
    }
}

// What is wrong with what is asked about, by a question to a text of n rows, of which k columns count.
pub fn say_named_wrong(file: i32, fault: Fault, what: &[u8], n: usize, k: usize) {
    match fault {
        Fault::NoRow(row) => {
            say(file, b"there is no row ");
            say_number(file, row);
            say(file, b": the text has ");
            say_count(file, n, b"row");
            say(file, b", from row 0 on\n");
        }
        Fault::NotARow => say_quoted(
            file,
            b"",
            what,
            b" is neither a row (1046), rows (1046,899), values (=0,0,88,4) nor what one row has (tender_distance=3284)",
        ),
        Fault::TooManyRows => say(
            file,
            b"at most 64 rows can be asked about, and by nearest one\n",
        ),
        Fault::NotAValue(value) => {
            say(file, b"value ");
            say_number(file, value);
            say(file, b" times its factor is no whole number up to 65,535\n");
        }
        Fault::TooFewValues(_) => {
            say(file, b"there are ");
            say_count(file, k, b"column");
            say_quoted(file, b", and not as many values in ", what, b"");
        }
        Fault::NotOne(hits) => {
            say_count(file, hits, b"row");
            say_quoted(file, b" have ", what, b": one is needed");
        }
        Fault::NoLabel => say_quoted(
            file,
            b"no column has the name before the sign in ",
            what,
            b"",
        ),
        Fault::OffCircle(value) => {
            say(file, b"value ");
            say_number(file, value);
            say(
                file,
                b" times its factor is no number of a circle, which has 3,600\n",
            );
        }
    }
}

// Writes that the library refused, which the rooms that were tested do not meet.
pub fn refuse(file: i32, number: u32) -> Status {
    say(file, b"refused ");
    say_number(file, number as usize);
    say(file, b"\n");
    Status::NoRoom
}
