// Where the lines of a text stand, and those of its rows.
#![tactic(auto)]

ghost use Rattle.std.specs.Prelude.{◌≤◌, length, ◌≡◌};
ghost use Rattle.text_lines.specs.Lines.{body_end_lem, keeps, kept, line_at, line_from_lem, line_starts, next_line_lem, text_start_lem};

use asking::pieces::end_from;

// The bytes that a text may begin with, as a mark of its encoding.
const MARK: [u8; 3] = [0xef, 0xbb, 0xbf];

// Behind the mark, if the text begins with it.
pub fn text_start(t: &[u8]) -> usize
    ensures { (result ≡ text_start_lem t.now) × (result ≤ length t.now) }
{
    if t.starts_with(&MARK) { MARK.len() } else { 0 }
}

// Where the line behind the one at `at` starts: behind its newline, or at the text's end.
pub fn next_line(t: &[u8], at: usize) -> usize
    requires { at ≤ length t.now }
    ensures { (result ≡ next_line_lem t.now at) × (at ≤ result) × (result ≤ length t.now) }
{
    let end = end_from(t, b'\n', at);
    if end < t.len() { end + 1 } else { end }
}

// Where the line at `at` ends, without its newline and a carriage return before that.
fn body_end(t: &[u8], at: usize) -> usize
    requires { at ≤ length t.now }
    ensures { (result ≡ body_end_lem t.now at) × (at ≤ result) × (result ≤ length t.now) }
{
    let end = end_from(t, b'\n', at);
    if at < end && t[end - 1] == b'\r' {
        end - 1
    } else {
        end
    }
}

// The line at `at`.
pub fn line_at(t: &[u8], at: usize) -> &[u8]
    requires { at ≤ length t.now }
    ensures { result.now ≡ line_at t.now at }
{
    &t[at..body_end(t, at)]
}

// The text's first line, without the mark.
pub fn first_line(t: &[u8]) -> &[u8]
    ensures { result.now ≡ line_at t.now (text_start_lem t.now) }
{
    line_at(t, text_start(t))
}

// Offsets of a longer text are not kept.
pub const LONGEST: usize = 4_294_967_295;

// Puts where each line from `from` on starts, of as many as there is room for.
fn find_lines(t: &[u8], from: usize, starts: &mut [u32])
    requires start { from ≤ length t.now }
    requires short { length t.now ≤ 4294967295 }
    ensures { starts.new ≡ line_starts t.now from (length starts.old) }
{
    let mut at = from;
    for start in starts.iter_mut() {
        *start = at as u32;
        at = next_line(t, at);
    }
}

// The line that starts at a place that was kept.
pub fn line_from(t: &[u8], start: u32) -> &[u8]
    ensures { result.now ≡ line_from_lem t.now start }
{
    line_at(t, (start as usize).min(t.len()))
}

// Puts where each of n lines from `from` on starts, if there is room for that.
pub fn keep_lines(t: &[u8], from: usize, starts: &mut [u32], n: usize) -> bool
    ensures { (result ≡ keeps t.now from (length starts.old) n)
        × (starts.new ≡ kept t.now from starts.old n) }
{
    if t.len() < from || LONGEST < t.len() || starts.len() < n {
        return false;
    }
    find_lines(t, from, &mut starts[..n]);
    true
}
