// The pieces of a text that one byte parts: the items of a list, the words of the arguments.
ghost use Rattle.std.specs.Prelude.{◌≤◌, length, ◌≡◌};
ghost use Rattle.asking.specs.Pieces.{Found, end_at, part_of};

// Where a piece of a text stands.
#[derive(Clone, Copy)]
pub struct Piece {
    pub start: usize,
    pub end: usize,
}

// Where the byte stands first, from place `at` on; the text's end where it does not.
pub fn end_from(t: &[u8], b: u8, at: usize) -> usize
    requires { at ≤ length t.now }
    ensures { (result ≡ end_at b t.now at) × (at ≤ result) × (result ≤ length t.now) }
{
    for i in at..t.len() {
        if t[i] == b {
            return i;
        }
    }
    t.len()
}

// Piece i of the text, from 0 on.
pub fn piece_at(t: &[u8], b: u8, i: usize) -> Option<Piece>
    ensures { Found b t.now i result }
{
    let mut start = 0;
    for _ in 0..i {
        let end = end_from(t, b, start);
        if end == t.len() {
            return None;
        }
        start = end + 1;
    }
    let end = end_from(t, b, start);
    Some(Piece { start, end })
}

// The bytes from `start` up to `end`, as far as the text has them: it can't fail, so that a question may keep pieces as numbers, with no invariant.
pub fn part(t: &[u8], start: usize, end: usize) -> &[u8]
    ensures { result.now ≡ part_of t.now start end }
{
    let to = end.min(t.len());
    let from = start.min(to);
    &t[from..to]
}

// The bytes of a piece.
pub fn bytes_of(t: &[u8], p: Piece) -> &[u8]
    ensures { result.now ≡ part_of t.now p.start p.end }
{
    part(t, p.start, p.end)
}
