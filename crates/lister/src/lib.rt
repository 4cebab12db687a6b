// The listing program: the text of a file or of standard input, read as c, m, l and a table; the table's index; its nodes and positions as lines of numbers.
#![tactic(auto)]

ghost use Rattle.std.specs.Prelude.{◌*◌, ◌+◌, ◌≤◌, length, ◌≡◌};
ghost use Rattle.limits.specs.Refusal.{outcome};
ghost use Rattle.lister.specs.Keeps.{Keeps};
ghost use Rattle.lister.specs.Listing.{Lists, Runs};
ghost use Rattle.words.specs.Words.{width};

use limits::{Params, Refusal};
use lines::print_lines;
use saying::STDOUT_FILENO;
use std::io::{Input, Read};
use words::places::HEADER;

// How many words a node has, and how many of them are listed: all but the inner reach.
const WIDTH: usize = 5;

const LISTED: usize = 4;

// No column of a listed table is a circle.
const NO_CIRCLE: u32 = 0;

// One byte more than the longest readable text has, so that a text which fills it is unreadable whatever comes after.
const TEXT: usize = 6_163;

const NUMBERS: usize = 1_027;

// Room and workspace for 1,024 rows.
const ROOM: usize = 12_296;

const WORK: usize = 6_144;

// Keeps what fits of the bytes that came, behind what is kept already. Gives how many bytes are kept then.
fn keep(came: &[u8], text: &mut [u8], kept: usize) -> usize
    requires { kept ≤ length text.old }
    ensures { Keeps came.now text.old kept text.new result }
{
    let n = came.len().min(text.len() - kept);
    let end = kept + n;
    text[kept..end].copy_from_slice(&came[..n]);
    end
}

// Reads a file to its end, and keeps the front of it. Gives how many bytes are kept; a text that can't be read to its end counts as too long.
fn read_text<F: Read>(file: &mut F, text: &mut [u8]) -> usize
    ensures { result ≤ length text.new }
{
    let mut kept = 0;
    for _ in 0..u64::MAX {
        let mut chunk = io::buffer();
        let Ok(n) = file.read(&mut chunk) else {
            return text.len();
        };
        if n == 0 {
            return kept;
        }
        kept = keep(&chunk[..n], text, kept);
    }
    text.len()
}

// Prints an index: a line for each node, and then one for each position.
fn print_index(index: &[u32], nodes: usize, words: usize)
    requires { (8 + width 2 * nodes ≤ words) × (words ≤ length index.now) }
{
    let at = HEADER + WIDTH * nodes;
    print_lines(&index[HEADER..at], WIDTH, LISTED);
    print_lines(&index[at..words], 2, 2);
}

// Prints the number of what was refused, if anything was.
fn print_refused(listed: Result<(), Refusal>) {
    if let Err(refusal) = listed {
        io::write_all(STDOUT_FILENO, b"refused ");
        io::print_decimal(STDOUT_FILENO, u64::from(refusal.number()));
        io::write_all(STDOUT_FILENO, b"\n");
    }
}

// Builds the index of the numbers behind the first three, and prints it, unless the build is refused.
fn list(numbers: &[u16], room: &mut [u32], work: &mut [u32]) -> Result<(), Refusal>
    requires { 3 ≤ length numbers.now }
    ensures { Lists numbers.now room.old room.new work.old work.new (outcome result).0 }
{
    let c = usize::from(numbers[0]);
    let m = usize::from(numbers[1]);
    let l = usize::from(numbers[2]);
    let built = build::build(
        &numbers[3..],
        c,
        m,
        l,
        NO_CIRCLE,
        Params::LAST_EDITION,
        room,
        work,
    )?;
    print_index(room, built.nodes, built.words);
    Ok(())
}

// Reads the text as numbers, and lists them.
fn run_in<F: Read>(
    file: &mut F,
    text: &mut [u8],
    numbers: &mut [u16],
    room: &mut [u32],
    work: &mut [u32],
) -> Result<(), Refusal>
    ensures { Runs text.new numbers.old numbers.new room.old room.new
        work.old work.new (outcome result).0 }
{
    let n = read_text(file, text);
    let count = text::read_numbers(&text[..n], numbers)?;
    list(&numbers[..count], room, work)
}

// The buffers, with their lengths alone, which lending them as slices needs.
fn text_buffer() -> [u8; TEXT]
    ensures { 6163 ≡ length result }
{
    [0; TEXT]
}

fn number_buffer() -> [u16; NUMBERS]
    ensures { 1027 ≡ length result }
{
    [0; NUMBERS]
}

fn index_room() -> [u32; ROOM]
    ensures { 12296 ≡ length result }
{
    [0; ROOM]
}

fn workspace() -> [u32; WORK]
    ensures { 6144 ≡ length result }
{
    [0; WORK]
}

// The whole program on an open file. Gives what it was refused for, whose number it printed behind `refused`, or nothing where it printed an index:
// of that a contract can speak, and not of standard output.
pub fn run_on<F: Read>(file: &mut F) -> Result<(), Refusal>
    ensures { (outcome result).0 ≤ 18 }
{
    let mut text = text_buffer();
    let mut numbers = number_buffer();
    let mut room = index_room();
    let mut work = workspace();
    let listed = run_in(file, &mut text, &mut numbers, &mut room, &mut work);
    print_refused(listed);
    listed
}

// The whole program on standard input.
pub fn run<R: Input>(rt: &R) -> Result<(), Refusal>
    ensures { (outcome result).0 ≤ 18 }
{
    run_on(&mut rt.reader())
}
