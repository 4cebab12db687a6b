// The radius call: refused, or the search and its counts.
#![tactic(auto)]

ghost use Rattle.limits.specs.Refusal.{outcome};
ghost use Rattle.radius.specs.Calls.{Searched, inside_of, measured_of};

use descent::search;
use limits::Refusal;
use radius_refusals::test_radius;
use rows_withdrawn::words_asked;
use tallies::tally;
use words::places::rows;

// What a call gives: how many rows are in, and how many were measured.
#[derive(Clone, Copy)]
pub struct Found {
    pub inside: usize,
    pub measured: usize,
}

// Which rows of the table are within r of the query, by the index, those withdrawn left out. Of the first n how-bytes each says whether its
// row is in (2, 3), and whether it was measured (1, 3).
pub fn radius(
    table: &[u16],
    c: usize,
    index: &[u32],
    query: &[u16],
    r: u32,
    withdrawn: &[u32],
    how: &mut [u8],
) -> Result<Found, Refusal>
    ensures { Searched table.now c index.now query.now r withdrawn.now
        how.old how.new (outcome result).0 (inside_of result) (measured_of result) }
{
    test_radius(table, c, index, query, withdrawn, how.len())?;
    let n = rows(index);
    how[..n].fill(0);
    let end = words_asked(withdrawn);
    let mut unlisted = [0; 1];
    search(
        table,
        c,
        index,
        query,
        r,
        &withdrawn[..end],
        how,
        &mut unlisted[..0],
    );
    let counts = tally(how, n);
    Ok(Found {
        inside: counts.inside,
        measured: counts.measured,
    })
}
