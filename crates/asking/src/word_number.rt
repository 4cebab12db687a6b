// The number that a word says.
ghost use Rattle.std.specs.Prelude.{◌<◌, MatchOption, ◌≡◌};
ghost use Rattle.asking.specs.Worth.{worth};

// A word says a number below this, or none.
pub const NO_NUMBER: u32 = 10_000_000;

// The number that a word says in decimal.
pub fn number(word: &[u8]) -> Option<u32>
    ensures { MatchOption result (10000000 ≡ worth word.now) (λ n. (n ≡ worth word.now) × (n < 10000000)) }
{
    if word.is_empty() {
        return None;
    }
    let mut value = 0;
    for b in word {
        let digit = match b {
            b'0'..=b'9' => b - b'0',
            _ => return None,
        };
        value = 10 * value + u32::from(digit);
        if value >= NO_NUMBER {
            return None;
        }
    }
    Some(value)
}
