// The image of the five-row index, written to a file and read back over its table, two nodes of it listed, and what reading says of images that are
// wrong.
#![tactic(auto)]

ghost use Rattle.std.specs.Prelude.{◌<◌, ◌≤◌, length};
ghost use Rattle.io.specs.Counts.{IsPrefixLen};

use card::read_image;
use files::read_front;
use limits::Refusal;
use lines::print_lines;
use listing::list_node;
use samples::{FIVE_ROWS, five_index};
use saying::STDOUT_FILENO;
use std::fs;
use std::io::Write;
use std::rt::Files;

// Two numbers on a line.
fn print_pair(a: u32, b: usize) {
    io::print_decimal(STDOUT_FILENO, u64::from(a));
    io::write_all(STDOUT_FILENO, b" ");
    io::print_decimal(STDOUT_FILENO, b as u64);
    io::write_all(STDOUT_FILENO, b"\n");
}

// What reading says of the image over a table of one column, into a room that the five-row index fits: the number and its place.
fn print_said(image: &[u8], table: &[u16]) {
    let mut room = [0u32; 43];
    match read_image(image, table, 1, &mut room) {
        Ok(_) => print_pair(0, 0),
        Err(refusal) => print_pair(refusal.number(), refusal.place()),
    }
}

// What writing or reading gives: 0 and a count, or the number of what refuses it and none.
fn print_counted(counted: Result<usize, Refusal>) {
    match counted {
        Ok(count) => print_pair(0, count),
        Err(refusal) => print_pair(refusal.number(), 0),
    }
}

// The same with byte p turned, and turned back.
fn print_turned(image: &mut [u8], table: &[u16], p: usize)
    requires { p < length image.old }
{
    image[p] = image[p].wrapping_add(1);
    print_said(image, table);
    image[p] = image[p].wrapping_sub(1);
}

// The same with a word after the last. It is the block's last, so that its check word differs by the same number.
fn print_late(image: &mut [u8], table: &[u16])
    requires { 512 ≤ length image.old }
{
    image[504] = 1;
    image[508] = image[508].wrapping_add(1);
    print_said(image, table);
}

// The bytes to a file.
fn save<R: Files + Eprint>(rt: &R, path: &str, bytes: &[u8]) {
    match fs::create(rt, path) {
        Ok(mut made) => {
            let _ = made.write_all(bytes);
        }
        Err(error) => files::fail(rt, path, error),
    }
}

// A file's bytes, and how many there were.
fn load<R: Files + Eprint>(rt: &R, path: &str, bytes: &mut [u8]) -> usize
    ensures { IsPrefixLen result bytes.new }
{
    match fs::open(rt, path) {
        Ok(mut back) => read_front(&mut back, bytes),
        Err(error) => {
            files::fail(rt, path, error);
            0
        }
    }
}

// The five nodes of an index, four words of each, and its positions.
fn print_index(room: &[u32])
    requires { 33 ≤ length room.now }
{
    print_lines(&room[8..33], 5, 4);
    print_lines(&room[33..], 2, 2);
}

// A node's number and how many words its members have, then the members, a line each.
fn print_members(index: &[u32], k: u32) {
    let part = list_node(index, k as usize);
    print_pair(k, part.len());
    print_lines(part, 2, 2);
}

// The five-row index through a file: what writing and reading say, then its nodes and positions, the members of node 2, and those of node 5, which
// is not there.
fn trip<R: Files + Eprint>(rt: &R, image: &mut [u8], table: &[u16]) {
    let index = five_index();
    print_counted(image::write_image(&index, image));
    save(rt, "five", image);
    let mut back = [0u8; 512];
    let n = load(rt, "five", &mut back);
    let mut room = [0u32; 43];
    print_counted(read_image(&back[..n], table, 1, &mut room));
    print_index(&room);
    print_members(&room, 2);
    print_members(&room, 5);
}

// The image of 150 rows in one leaf, in three blocks.
fn write_three(image: &mut [u8]) {
    let mut index = [0u32; 313];
    index[0] = 2;
    index[1] = 150;
    index[2] = 1;
    index[3] = 2;
    index[4] = 1024;
    index[5] = 1;
    index[6] = 1;
    index[9] = 150;
    print_counted(image::write_image(&index, image));
}

fn main(rt: HostRuntime) {
    let mut image = [0u8; 512];
    let five = FIVE_ROWS;
    trip(&rt, &mut image, &five);
    print_turned(&mut image, &five, 33);
    print_turned(&mut image, &five, 511);
    print_late(&mut image, &five);
    let mut three = [0u8; 1536];
    let rows = [0u16; 150];
    write_three(&mut three);
    print_said(&three, &rows);
    print_turned(&mut three, &rows, 1025);
    print_turned(&mut three, &rows, 513);
    print_turned(&mut three, &rows, 1);
}
