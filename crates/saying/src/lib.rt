// Words and numbers, written to a file.
#![tactic(auto)]

// The numbers of standard output and of standard error.
pub const STDOUT_FILENO: i32 = 1;

pub const STDERR_FILENO: i32 = 2;

pub fn say(file: i32, text: &[u8]) {
    io::write_all(file, text);
}

pub fn say_number(file: i32, n: usize) {
    io::print_decimal(file, n as u64);
}

// A comma, and the last three digits.
fn say_three(file: i32, n: usize) {
    say(file, b",");
    say_number(file, n % 1_000 / 100);
    say_number(file, n % 100 / 10);
    say_number(file, n % 10);
}

// A number with a comma before each three digits.
pub fn say_grouped(file: i32, n: usize) {
    match n {
        0..=999 => say_number(file, n),
        1_000..=999_999 => {
            say_number(file, n / 1_000);
            say_three(file, n);
        }
        _ => {
            say_number(file, n / 1_000_000);
            say_three(file, n / 1_000);
            say_three(file, n);
        }
    }
}

// A count and its noun.
pub fn say_count(file: i32, n: usize, one: &[u8]) {
    say_grouped(file, n);
    say(file, b" ");
    say(file, one);
    if n != 1 {
        say(file, b"s");
    }
}

// Words, then others in quotes, and then the end of the line.
pub fn say_quoted(file: i32, before: &[u8], quoted: &[u8], behind: &[u8]) {
    say(file, before);
    say(file, b"'");
    say(file, quoted);
    say(file, b"'");
    say(file, behind);
    say(file, b"\n");
}

// Minutes as she books them: hours and minutes behind the count where there is an hour or more.
pub fn say_minutes(file: i32, n: usize) {
    say_count(file, n, b"minute");
    if n >= 60 {
        say(file, b", ");
        say_grouped(file, n / 60);
        say(file, b" h ");
        say_number(file, n % 60);
        say(file, b" min");
    }
}

// The closing line: how many minutes were found, and how many distances this took.
pub fn say_found(file: i32, found: usize, measured: usize, rows: usize) {
    say_minutes(file, found);
    say(file, b"; ");
    say_grouped(file, measured);
    say(file, b" of ");
    say_grouped(file, rows);
    say(file, b" measured\n");
}
