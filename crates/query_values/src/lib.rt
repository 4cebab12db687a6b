// The values that are asked about, as the numbers of one query.
#![tactic(auto)]

ghost use Rattle.std.specs.Prelude.{◌≤◌, length, MatchOption, ◌≡◌};
ghost use Rattle.asking.specs.Worth.{worth};
ghost use Rattle.limits.specs.Limits.{max_columns};
ghost use Rattle.queries.specs.Faults.{count_of, more_of, wrong_of};
ghost use Rattle.query_values.specs.Values.{PutsValues, times_of};

use asking::pieces::piece_at;
use asking::word_number::number;
use column_products::most;
use limits::Params;
use queries::Fault;

// A table holds numbers up to this.
const MOST_VALUE: u32 = 65_535;

// The number that a word says times its factor, if a table can hold each of them and the product.
fn times(word: &[u8], factor: u32) -> Option<u16>
    ensures { MatchOption result (65536 ≡ times_of (worth word.now) factor) (λ value. (value ≡ times_of (worth word.now) factor) × (value ≤ 65535)) }
{
    match number(word) {
        Some(said) if said <= MOST_VALUE && factor <= MOST_VALUE => {
            u16::try_from(said * factor).ok()
        }
        _ => None,
    }
}

// Puts the values of a list, parted by commas, each times its factor: one for each of the k chosen columns, of which some are circles.
pub fn put_values(
    list: &[u8],
    circles: u32,
    factors: [u32; Params::MOST_COLUMNS],
    k: usize,
    queries: &mut [u16],
) -> Result<usize, Fault>
    requires { (k ≤ max_columns) × (length queries.old ≡ 1024) }
    ensures { PutsValues list.now circles factors k queries.old queries.new (wrong_of result) (more_of result) (count_of result)
        × (count_of result ≤ 64) }
{
    for i in 0..k {
        let Some(item) = piece_at(list, b',', i) else {
            return Err(Fault::TooFewValues(i));
        };
        let Some(value) = times(&list[item.start..item.end], factors[i]) else {
            return Err(Fault::NotAValue(i + 1));
        };
        if most(circles, i) < u32::from(value) {
            return Err(Fault::OffCircle(i + 1));
        }
        queries[i] = value;
    }
    match piece_at(list, b',', k) {
        Some(_) => Err(Fault::TooFewValues(k + 1)),
        None => Ok(1),
    }
}
