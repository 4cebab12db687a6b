// The analyst's program on the texts of data/: each question behind a question mark, what is written to either file, and the status.
#![tactic(auto)]

use analyst::{Ends, filled};
use asking::pieces::{bytes_of, piece_at};
use saying::STDOUT_FILENO;
use statuses::Status;
use std::io::Input;
use std::rt::Files;

// Small rooms, for 3,072 rows of 6 columns.
const TEXT: usize = 131_072;

const TABLE: usize = 18_432;

// Room and workspace for the index of as many rows.
const ROOM: usize = 36_872;

const WORK: usize = 18_432;

const ROWS: usize = 3_072;

fn say(text: &[u8]) {
    io::write_all(STDOUT_FILENO, text);
}

// Writes the words of a question with a blank before each.
fn say_words(words: &[u8]) {
    for i in 0..32 {
        match piece_at(words, 0, i) {
            Some(word) if word.end < words.len() => {
                say(b" ");
                say(bytes_of(words, word));
            }
            _ => {}
        }
    }
}

// Answers in these rooms, and in rooms of its own for what is found.
fn answer_in<R: Files + Input>(
    rt: &R,
    words: &[u8],
    text: &mut [u8],
    table: &mut [u16],
    room: &mut [u32],
    work: &mut [u32],
) -> Status {
    let mut how: [u8; ROWS] = filled(0);
    let mut marks: [u8; ROWS] = filled(0);
    let mut rows: [u32; ROWS] = filled(0);
    let mut distances: [u32; ROWS] = filled(0);
    analyst::run(
        rt,
        words,
        Ends {
            out: STDOUT_FILENO,
            err: STDOUT_FILENO,
        },
        text,
        table,
        room,
        work,
        &mut how,
        &mut marks,
        &mut rows,
        &mut distances,
    )
}

// Answers in rooms of its own.
fn answer<R: Files + Input>(rt: &R, words: &[u8]) -> Status {
    let mut text: [u8; TEXT] = filled(0);
    let mut table: [u16; TABLE] = filled(0);
    let mut room: [u32; ROOM] = filled(0);
    let mut work: [u32; WORK] = filled(0);
    answer_in(rt, words, &mut text, &mut table, &mut room, &mut work)
}

// Each word of a question is ended by a zero byte.
fn ask<R: Files + Input>(rt: &R, words: &[u8]) {
    say(b"?");
    say_words(words);
    say(b"\n");
    let status = answer(rt, words);
    say(b"status ");
    io::print_decimal(STDOUT_FILENO, u64::from(status.number()));
    say(b"\n");
}

// Asks each question of a list, in which a newline stands behind each.
fn ask_each<R: Files + Input>(rt: &R, list: &[u8]) {
    for i in 0..32 {
        match piece_at(list, b'\n', i) {
            Some(question) if question.end < list.len() => ask(rt, bytes_of(list, question)),
            _ => {}
        }
    }
}

fn the_season<R: Files + Input>(rt: &R) {
    ask_each(
        rt,
        b"season.csv\x00like\x001046\x0012\x00--columns\x00speed,shaft_turns,fan_pressure,tender_distance\x00\n\
          season.csv\x00like\x001046\x00300\x00\n\
          season.csv\x00nearest\x001046\x0010\x00--columns\x00speed,shaft_turns,fan_pressure,tender_distance\x00\n\
          season.csv\x00like\x001046,899\x0012\x00--columns\x00speed,shaft_turns,fan_pressure,tender_distance\x00--count\x00\n\
          season.csv\x00like\x00=0,0,88,4\x0012\x00--columns\x00speed,shaft_turns,fan_pressure,tender_distance\x00--count\x00\n\
          season.csv\x00like\x001046\x004\x00--by\x00distance\x00--columns\x001,2,4,6\x00\n",
    );
}

fn more_of_the_season<R: Files + Input>(rt: &R) {
    ask_each(
        rt,
        b"season.csv\x00--csv\x00like\x00--columns\x00speed,fan_pressure*2\x001046\x003\x00--lines\x00\n\
          season.csv\x00nearest\x00=400,300,1500,95,900,3000\x005\x00--lines\x00\n\
          season.csv\x00like\x001046,899,1046\x00300\x00--by\x00distance\x00--csv\x00\n\
          season.csv\x00like\x00=65535,0,0,0,0,0\x0010\x00\n\
          season.csv\x00nearest\x001046\x003\x00--count\x00\n\
          season.csv\x00like\x000\x000\x00--columns\x006*3,1\x00\n",
    );
}

fn by_what_stands<R: Files + Input>(rt: &R) {
    ask_each(
        rt,
        b"clock.csv\x00like\x00clock=731\x0012\x00--columns\x00speed,shaft_turns,fan_pressure\x00\n\
          clock.csv\x00nearest\x002\x003\x00--csv\x00--lines\x00\n\
          clock.csv\x00like\x00=0,88\x009\x00--columns\x00speed,fan_pressure\x00\n\
          clock.csv\x00like\x001\x0012\x00--columns\x002,3,4\x00--by\x00distance\x00--lines\x00\n\
          clock.csv\x00like\x00clock=734\x0012\x00\n\
          clock.csv\x00like\x00clock=noon\x0012\x00\n\
          clock.csv\x00like\x00when=noon\x0012\x00\n\
          clock.csv\x00like\x00fan_pressure=60001\x0012\x00\n\
          time.csv\x00like\x000\x0012\x00\n\
          twice.csv\x00like\x000\x0012\x00--columns\x00speed\x00\n\
          twice.csv\x00like\x000\x0012\x00--columns\x001,3,1\x00\n",
    );
}

fn labelled<R: Files + Input>(rt: &R) {
    ask_each(
        rt,
        b"hours.csv\x00like\x00time=2026-04-12T07:31\x0012\x00--label\x00time\x00\n\
          hours.csv\x00nearest\x002\x003\x00--label\x001\x00--csv\x00\n\
          hours.csv\x00like\x001\x0012\x00--lines\x00--label\x00time\x00--by\x00distance\x00\n\
          hours.csv\x00like\x00=0,88\x004\x00--columns\x00speed,fan_pressure\x00--label\x00time\x00--csv\x00--lines\x00\n\
          hours.csv\x00like\x001=2026-04-12T07:33\x0020\x00--label\x001\x00--count\x00\n\
          tags\x00like\x003=b8\x003\x00--label\x003\x00\n",
    );
}

fn labels_wrong<R: Files + Input>(rt: &R) {
    ask_each(
        rt,
        b"hours.csv\x00like\x000\x0012\x00\n\
          hours.csv\x00like\x000\x0012\x00--label\x00speed\x00\n\
          hours.csv\x00like\x000\x0012\x00--label\x00when\x00\n\
          hours.csv\x00like\x000\x0012\x00--label\x005\x00\n\
          clock.csv\x00like\x000\x0012\x00--label\x005\x00\n\
          hours.csv\x00like\x000\x0012\x00--label\x00time\x00--columns\x00time,speed\x00\n\
          hours.csv\x00like\x00time=2026-04-12T07:34\x0012\x00--label\x00time\x00\n\
          hours.csv\x00like\x000\x0012\x00--label\x00\n\
          hours.csv\x00like\x000\x0012\x00--label\x00time\x00--label\x001\x00\n\
          tags\x00like\x000\x0012\x00--label\x00a7\x00\n",
    );
}

fn round<R: Files + Input>(rt: &R) {
    ask_each(
        rt,
        b"season.csv\x00nearest\x00916\x004\x00--columns\x00speed,shaft_turns,fan_pressure,heading\x00--circle\x00heading\x00\n\
          season.csv\x00nearest\x00916\x004\x00--columns\x00speed,shaft_turns,fan_pressure,heading\x00\n\
          season.csv\x00like\x00288,774\x00120\x00--circle\x005,heading\x00--columns\x001,2,4,5\x00--by\x00distance\x00\n\
          season.csv\x00like\x00=424,3590\x0030\x00--circle\x00heading\x00--columns\x00fan_pressure,heading\x00--lines\x00\n\
          season.csv\x00like\x00916\x0050\x00--columns\x00heading,speed,5\x00--circle\x00heading\x00\n\
          season.csv\x00like\x001046\x00300\x00--circle\x00heading\x00--count\x00\n\
          compass\x00nearest\x000\x004\x00--columns\x001*10,2\x00--circle\x001\x00\n\
          compass\x00like\x00=359,7\x0020\x00--columns\x001*10,2\x00--circle\x001\x00--by\x00distance\x00\n\
          compass\x00like\x000\x0040\x00--columns\x001*10,2\x00\n",
    );
}

fn circles_wrong<R: Files + Input>(rt: &R) {
    ask_each(
        rt,
        b"seam.csv\x00like\x000\x009\x00--circle\x00heading\x00\n\
          seam.csv\x00like\x000\x009\x00--columns\x00speed*900,heading\x00--circle\x001,2\x00\n\
          seam.csv\x00like\x000\x009\x00--columns\x00heading*20,speed\x00--circle\x00speed\x00\n\
          compass\x00like\x00=360,7\x009\x00--columns\x001*10,2\x00--circle\x001\x00\n\
          season.csv\x00like\x00=0,3600\x009\x00--columns\x00speed,heading\x00--circle\x00heading\x00\n\
          season.csv\x00like\x00=0,70000\x009\x00--columns\x00speed,heading\x00--circle\x00heading\x00\n\
          season.csv\x00like\x001046\x0012\x00--columns\x00speed\x00--circle\x00heading\x00\n\
          season.csv\x00like\x001046\x0012\x00--columns\x00heading,speed\x00--circle\x00heading,fan_pressure\x00\n\
          season.csv\x00like\x001046\x0012\x00--circle\x00wind\x00\n\
          season.csv\x00like\x001046\x0012\x00--circle\x00heading*2\x00\n\
          season.csv\x00like\x001046\x0012\x00--circle\x00heading,\x00\n\
          season.csv\x00like\x001046\x0012\x00--circle\x007\x00\n\
          season.csv\x00like\x001046\x0012\x00--circle\x00\n\
          season.csv\x00like\x001046\x0012\x00--circle\x005\x00--circle\x005\x00\n\
          season.csv\x00like\x001046\x0012\x00--circle\x005,5,5,5,5,5,5,5,5,5,5,5,5,5,5,5,5\x00\n\
          twice.csv\x00like\x000\x0012\x00--circle\x00speed\x00\n\
          hours.csv\x00like\x000\x0012\x00--label\x00time\x00--circle\x00time\x00\n",
    );
}

fn without<R: Files + Input>(rt: &R) {
    ask_each(
        rt,
        b"season.csv\x00nearest\x00916\x004\x00--columns\x00speed,shaft_turns,fan_pressure,heading\x00--circle\x00heading\x00--without\x00struck_two\x00\n\
          season.csv\x00like\x001046\x00300\x00--without\x00struck\x00--count\x00\n\
          compass\x00like\x000\x002000\x00--without\x00struck\x00\n\
          compass\x00nearest\x002\x009\x00--without\x00struck_end\x00--by\x00distance\x00\n\
          compass\x00like\x000\x002000\x00--without\x00struck_none\x00\n\
          compass\x00like\x000\x002000\x00--without\x00struck_mark\x00\n\
          compass\x00like\x000\x002000\x00--without\x00struck_all\x00\n\
          compass\x00nearest\x000\x002\x00--without\x00struck_all\x00\n",
    );
}

fn without_wrong<R: Files + Input>(rt: &R) {
    ask_each(
        rt,
        b"compass\x00like\x000\x009\x00--without\x00struck_word\x00\n\
          compass\x00like\x000\x009\x00--without\x00struck_row\x00\n\
          compass\x00like\x000\x009\x00--without\x00struck_gap\x00\n\
          compass\x00like\x000\x009\x00--without\x00struck_pair\x00\n\
          compass\x00like\x000\x009\x00--without\x00struck_great\x00\n\
          compass\x00like\x000\x009\x00--without\x00struck_sign\x00\n\
          compass\x00like\x000\x009\x00--without\x00missing\x00\n\
          compass\x00like\x000\x009\x00--without\x00.\x00\n\
          compass\x00like\x000\x009\x00--without\x00\n\
          compass\x00like\x000\x009\x00--without\x00struck\x00--without\x00struck\x00\n\
          season.csv\x00like\x000\x009\x00--without\x00season.csv\x00\n",
    );
}

fn asked_wrongly<R: Files + Input>(rt: &R) {
    ask_each(
        rt,
        b"\n\
          season.csv\x00\n\
          season.csv\x00like\x001046\x00\n\
          season.csv\x00like\x001046\x0012\x0013\x00\n\
          season.csv\x00unlike\x001046\x0012\x00\n\
          season.csv\x00like\x001046\x0012.5\x00\n\
          season.csv\x00nearest\x001046\x000\x00\n\
          season.csv\x00like\x001046\x0010000000\x00\n\
          season.csv\x00like\x001046\x0012\x00--colums\x00speed\x00\n\
          season.csv\x00like\x001046\x0012\x00--columns\x00\n",
    );
}

fn options_wrong<R: Files + Input>(rt: &R) {
    ask_each(
        rt,
        b"season.csv\x00like\x001046\x0012\x00--columns\x00--csv\x00\n\
          season.csv\x00like\x001046\x0012\x00--columns\x00speed\x00--columns\x00heading\x00\n\
          season.csv\x00like\x001046\x0012\x00--by\x00row\x00\n\
          season.csv\x00like\x001046\x0012\x00--columns\x00wind\x00\n\
          season.csv\x00like\x001046\x0012\x00--columns\x007\x00\n\
          season.csv\x00like\x001046\x0012\x00--columns\x00speed,,heading\x00\n\
          season.csv\x00like\x001046\x0012\x00--columns\x00speed*0\x00\n\
          season.csv\x00like\x001046\x0012\x00--columns\x00speed*x\x00\n\
          season.csv\x00like\x001046\x0012\x00--columns\x00heading*20\x00\n",
    );
}

fn rows_wrong<R: Files + Input>(rt: &R) {
    ask_each(
        rt,
        b"season.csv\x00like\x003000\x0012\x00\n\
          season.csv\x00like\x001046,\x0012\x00\n\
          season.csv\x00like\x00row\x0012\x00\n\
          season.csv\x00nearest\x001046,899\x0012\x00\n\
          season.csv\x00like\x00=1,2,3\x0012\x00\n\
          season.csv\x00like\x00=1,2,3,4,5,6,7\x0012\x00\n\
          season.csv\x00like\x00=1,2,3,4,5,70000\x0012\x00\n\
          season.csv\x00like\x00=1,2,3,4,5,x\x0012\x00\n\
          season.csv\x00like\x00=1,2\x0012\x00--columns\x00speed*40000,heading\x00\n",
    );
}

fn other_files<R: Files + Input>(rt: &R) {
    ask_each(
        rt,
        b"like_400\x00like\x0037\x0012\x00\n\
          seven\x00nearest\x000\x004\x00\n\
          three\x00nearest\x0070000\x003\x00\n\
          strange\x00like\x000\x009\x00\n\
          uneven\x00like\x000\x009\x00\n\
          missing\x00like\x000\x009\x00\n\
          .\x00like\x000\x009\x00\n\
          --version\x00\n",
    );
}

fn odd_1<R: Files + Input>(rt: &R) {
    ask_each(
        rt,
        b"nothing\x00like\x000\x009\x00\n\
          names_alone\x00like\x000\x009\x00\n\
          blank_lines\x00like\x000\x009\x00\n\
          returns\x00like\x000\x009\x00--lines\x00\n\
          tabs\x00like\x000\x009\x00--lines\x00\n\
          semicolons\x00like\x000\x009\x00\n\
          mark\x00like\x000\x009\x00--lines\x00\n\
          half_mark\x00like\x000\x009\x00\n",
    );
}

fn odd_2<R: Files + Input>(rt: &R) {
    ask_each(
        rt,
        b"empty_place\x00like\x000\x009\x00\n\
          empty_before\x00like\x000\x009\x00\n\
          empty_behind\x00like\x000\x009\x00\n\
          comma_alone\x00like\x000\x009\x00\n\
          blank_between\x00like\x000\x009\x00\n\
          blank_end\x00like\x000\x009\x00\n\
          point\x00like\x000\x009\x00\n\
          sign\x00like\x000\x009\x00\n",
    );
}

fn odd_3<R: Files + Input>(rt: &R) {
    ask_each(
        rt,
        b"decimal_comma\x00like\x000\x009\x00\n\
          quotes\x00like\x000\x009\x00\n\
          names_below\x00like\x000\x009\x00\n\
          empty_name\x00like\x000\x009\x00\n\
          columns_17\x00like\x000\x009\x00\n\
          names_17\x00like\x000\x009\x00\n\
          number_70000\x00like\x000\x009\x00\n\
          zeros\x00like\x000\x009\x00\n",
    );
}

fn odd_4<R: Files + Input>(rt: &R) {
    ask_each(
        rt,
        b"minus_4\x00like\x000\x009\x00\n\
          point_12\x00like\x000\x009\x00\n\
          number_missing\x00like\x000\x009\x00\n\
          number_too_many\x00like\x000\x009\x00\n\
          return_inside\x00like\x000\x009\x00\n\
          bytes\x00like\x000\x009\x00\n\
          table_full\x00like\x000\x009\x00\n\
          rows_full\x00like\x000\x009\x00\n",
    );
}

// A text that is fed in pieces is read as the whole: its fault, line and column, rows and columns.
fn in_pieces() {
    let mut table = [0; 32];
    let first = sheet::feed(sheet::start(0), b"\xef\xbb", &mut table);
    let second = sheet::feed(first, b"\xbf1,2\r", &mut table);
    let third = sheet::feed(second, b"\n3,", &mut table);
    let r = sheet::finish(third, &mut table);
    say(b"in pieces: ");
    io::print_decimal(STDOUT_FILENO, r.fault as u64);
    say(b" ");
    io::print_decimal(STDOUT_FILENO, r.line);
    say(b" ");
    io::print_decimal(STDOUT_FILENO, r.column as u64);
    say(b" ");
    io::print_decimal(STDOUT_FILENO, r.rows as u64);
    say(b" ");
    io::print_decimal(STDOUT_FILENO, r.columns as u64);
    say(b"\n");
}

fn main(rt: HostRuntime) {
    the_season(&rt);
    more_of_the_season(&rt);
    by_what_stands(&rt);
    labelled(&rt);
    labels_wrong(&rt);
    round(&rt);
    circles_wrong(&rt);
    without(&rt);
    without_wrong(&rt);
    asked_wrongly(&rt);
    options_wrong(&rt);
    rows_wrong(&rt);
    other_files(&rt);
    odd_1(&rt);
    odd_2(&rt);
    odd_3(&rt);
    odd_4(&rt);
    in_pieces();
}
