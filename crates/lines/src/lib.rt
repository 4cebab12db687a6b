// Numbers as text. They are put into a lent buffer, which is written to a file where the next may not fit, so that many numbers take few writes:
// an answer of 65,536 rows takes 192, and took 262,161 number by number.
#![tactic(auto)]

ghost use Rattle.std.specs.Prelude.{◌+◌, ◌≤◌, length, ◌≡◌};
ghost use Rattle.lines.specs.Told.{Told};

use saying::STDOUT_FILENO;

// How many bytes a number and the byte behind it take at most.
pub const MOST: usize = 21;

// Puts n in decimal into the text, from byte `at` on, and `mark` behind it. Gives where that ends.
pub fn put_number(text: &mut [u8], at: usize, n: u64, mark: u8) -> usize
    requires { at + 21 ≤ length text.old }
    ensures { Told text.old at n mark text.new result }
{
    let mut digits = [0u8; 20];
    let k = io::decimal(n, &mut digits);
    let end = at + k;
    text[at..end].copy_from_slice(&digits[..k]);
    text[end] = mark;
    end + 1
}

// Makes room for `need` bytes behind the first `at`, which are written where fewer are left. Gives where the room starts: behind them, if it can.
pub fn make_room(file: i32, text: &[u8], at: usize, need: usize) -> usize
    requires { (at ≤ length text.now) × (need ≤ length text.now) }
    ensures { (result + need ≤ length text.now) × (at + need ≤ length text.now → result ≡ at) }
{
    if need <= text.len() - at {
        return at;
    }
    io::write_all(file, &text[..at]);
    0
}

// Puts some bytes into the text, and `mark` behind them; bytes that not even the empty text has room for are written at once. Gives where that ends.
pub fn put_bytes(file: i32, text: &mut [u8], at: usize, from: &[u8], mark: u8) -> usize
    requires { (at ≤ length text.old) × (1 ≤ length text.old) }
    ensures { result ≤ length text.old }
{
    let n = from.len();
    if text.len() <= n {
        io::write_all(file, &text[..at]);
        io::write_all(file, from);
        text[0] = mark;
        return 1;
    }
    let to = make_room(file, text, at, n + 1);
    let behind = to + n;
    text[to..behind].copy_from_slice(from);
    text[behind] = mark;
    behind + 1
}

// Puts a word into the text, if its place in the line is below `shown`, and behind it a space, or a newline behind the last. Gives where that ends.
fn put_word(text: &mut [u8], at: usize, word: u32, place: usize, shown: usize) -> usize
    requires { (at ≤ length text.old) × (21 ≤ length text.old) }
    ensures { result ≤ length text.old }
{
    let from = make_room(STDOUT_FILENO, text, at, MOST);
    if shown <= place {
        return from;
    }
    let mark = if place + 1 == shown { b'\n' } else { b' ' };
    put_number(text, from, u64::from(word), mark)
}

// Prints the words, `width` to a line, but of each line only the first `shown`. Gives how many words there were.
pub fn print_lines(words: &[u32], width: usize, shown: usize) -> usize
    requires { 1 ≤ width }
    ensures { result ≡ length words.now }
{
    let mut text = io::buffer();
    let mut at = 0;
    for (i, word) in words.iter().enumerate() {
        at = put_word(&mut text, at, *word, i % width, shown);
    }
    io::write_all(STDOUT_FILENO, &text[..at]);
    words.len()
}
