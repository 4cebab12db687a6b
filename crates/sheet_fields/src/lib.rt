// What one byte of a text of rows is.
#![tactic(auto)]

ghost use Rattle.sheet_fields.specs.Kinds.{kind_of};
ghost use Rattle.std.specs.Prelude.{◌≡◌};

// A digit with its value, a blank, a byte that parts two fields, a sign or a point, any other, or a quote. A newline ends the line, and a carriage return
// before it is passed over.
#[derive(Clone, Copy)]
pub enum Kind {
    Digit(u8),
    Blank,
    Parting,
    Sign,
    Other,
    Quote,
}

pub const NEWLINE: u8 = b'\n';

pub const RETURN: u8 = b'\r';

// What a byte is.
#[tactic(auto, unfolding(crate::specs::Kinds::kind_of, crate::specs::Kinds::parting, crate::specs::Kinds::signing, crate::specs::Kinds::quoting,))]
pub fn kind_of(b: u8) -> Kind
    ensures { result ≡ kind_of b }
{
    match b {
        b'0'..=b'9' => Kind::Digit(b - b'0'),
        b' ' => Kind::Blank,
        b',' | b';' | b'\t' => Kind::Parting,
        b'+' | b'-' | b'.' => Kind::Sign,
        b'"' | b'\'' => Kind::Quote,
        _ => Kind::Other,
    }
}
