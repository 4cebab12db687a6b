// One byte more of the listing program's text: where its reader stands then, and the number that ends there.
#![tactic(auto)]

ghost use Rattle.std.specs.Prelude.{◌+◌, ◌≤◌, drop, length, take, ◌++◌, ◌≡◌};
ghost use Rattle.text_reading.specs.Reading.{begun, ended_by, ends, grown, onward, parting, stepped};

use text_reading::Place;

const SPACE: u8 = b' ';

pub const NEWLINE: u8 = b'\n';

// A space or a newline parts two numbers.
#[tactic(auto, unfolding(text_reading::specs::Reading::parting))]
fn parts(b: u8) -> bool
    ensures { result ≡ parting b }
{
    b == SPACE || b == NEWLINE
}

// A text may end inside a number and behind a newline.
pub fn may_end(place: Place) -> bool
    ensures { result ≡ ends place }
{
    matches!(place, Place::Line | Place::Inside(_))
}

// A digit starts a number.
#[tactic(auto, unfolding(text_reading::specs::Reading::begun))]
fn begin(b: u8) -> Place
    ensures { result ≡ begun b }
{
    if b.is_ascii_digit() {
        Place::Inside(u16::from(b - b'0'))
    } else {
        Place::Lost
    }
}

// The digit d goes behind the number v.
#[tactic(auto, unfolding(text_reading::specs::Reading::grown))]
fn grow(v: u16, d: u8) -> Place
    ensures { result ≡ grown v d }
{
    if v == 0 {
        return Place::Lost;
    }
    match u16::try_from(10 * u32::from(v) + u32::from(d)) {
        Ok(grown) => Place::Inside(grown),
        Err(_) => Place::Lost,
    }
}

// Inside the number v, one byte more.
#[tactic(auto, unfolding(text_reading::specs::Reading::onward))]
fn go_on(v: u16, b: u8) -> Place
    ensures { result ≡ onward v b }
{
    match b {
        SPACE => Place::Start,
        NEWLINE => Place::Line,
        b'0'..=b'9' => grow(v, b - b'0'),
        _ => Place::Lost,
    }
}

// Where the reader stands after one more byte.
pub fn step(place: Place, b: u8) -> Place
    ensures { result ≡ stepped place b }
{
    match place {
        Place::Start | Place::Line => begin(b),
        Place::Inside(v) => go_on(v, b),
        Place::Lost => Place::Lost,
    }
}

// How many numbers end where the byte b follows: 0 or 1.
#[tactic(auto, unfolding(text_reading::specs::Reading::ended_by, text_reading::specs::Reading::parting))]
pub fn ended(place: Place, b: u8) -> usize
    ensures { result ≡ length (ended_by place b) }
{
    match place {
        Place::Inside(_) if parts(b) => 1,
        _ => 0,
    }
}

// Puts the number that ends where the byte b follows, if one does. Gives the next free place.
#[tactic(auto, unfolding(text_reading::specs::Reading::ended_by, text_reading::specs::Reading::parting))]
pub fn put_ended(place: Place, b: u8, room: &mut [u16], at: usize) -> usize
    requires { at + length (ended_by place b) ≤ length room.old }
    ensures { (result ≡ at + length (ended_by place b))
        × (room.new ≡ take at room.old ++ ended_by place b ++ drop result room.old) }
{
    match place {
        Place::Inside(v) if parts(b) => {
            room[at] = v;
            at + 1
        }
        _ => at,
    }
}
