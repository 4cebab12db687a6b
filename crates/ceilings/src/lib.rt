// The distance of two rows as far as a ceiling.
#![tactic(auto)]

ghost use Rattle.std.specs.Prelude.{◌*◌, ◌+◌, ◌<◌, ◌≤◌, min, length, ◌≡◌};
ghost use Rattle.limits.specs.Limits.{max_columns, max_distance};
ghost use Rattle.measure.specs.Distance.{capped, l1};
ghost use Rattle.measure.specs.Table.{from};

use limits::Params;
use row_distances::{columns, many, plain, round_columns, rounded, row_of};

// One more than a ceiling, which counts as the greatest distance where it is above that.
fn one_over(ceiling: u32) -> u32
    ensures { result ≡ min ceiling max_distance + 1 }
{
    ceiling.min(Params::MOST_DISTANCE) + 1
}

// The distance of two rows with circles as far as the ceiling. After eight columns it looks whether they are too far apart already, and then adds no
// more: a look after each column would cost more than it saves.
fn rounded_to(a: &[u16], b: &[u16], circles: u32, ceiling: u32) -> u32
    requires { (length a.now ≡ length b.now) × (length a.now ≤ max_columns) }
    ensures { result ≡ capped ceiling (l1 (length a.now) circles a.now b.now) }
{
    let over = one_over(ceiling);
    let c = a.len();
    if c <= 8 {
        return rounded(a, b, circles).min(over);
    }
    let eight = round_columns(a, b, circles, 0, 0, 8);
    if over <= eight {
        return over;
    }
    round_columns(a, b, circles, eight, 8, c).min(over)
}

// The same for two rows of more than eight columns that have no circle. It is called from two places, so that it stays apart and is not in the way
// of the few columns' code.
fn many_to(a: &[u16], b: &[u16], ceiling: u32) -> u32
    requires { (length a.now ≡ length b.now) × (length a.now ≤ max_columns) × (8 < length a.now) }
    ensures { result ≡ capped ceiling (l1 (length a.now) 0 a.now b.now) }
{
    let over = one_over(ceiling);
    let c = a.len();
    let eight = columns(a, b, 0, 0, 8);
    if over <= eight {
        return over;
    }
    if c == 16 {
        return columns(a, b, eight, 8, 16).min(over);
    }
    columns(a, b, eight, 8, c).min(over)
}

// The distance of two rows where it is at most the ceiling, else one more than the ceiling; a ceiling above the greatest distance counts as that. With
// at most eight columns there is nothing to stop.
pub fn distance_to(a: &[u16], b: &[u16], circles: u32, ceiling: u32) -> u32
    requires { (length a.now ≡ length b.now) × (length a.now ≤ max_columns) }
    ensures given { result ≡ capped ceiling (l1 (length a.now) circles a.now b.now) }
    ensures few { l1 (length a.now) circles a.now b.now ≤ max_distance }
{
    if circles != 0 {
        return rounded_to(a, b, circles, ceiling);
    }
    let c = a.len();
    if 8 < c {
        return many_to(a, b, ceiling);
    }
    if 6 < c {
        return many(a, b).min(one_over(ceiling));
    }
    plain(a, b).min(one_over(ceiling))
}

// The same for a query and row i.
pub fn query_distance_to(
    table: &[u16],
    c: usize,
    circles: u32,
    query: &[u16],
    i: usize,
    ceiling: u32,
) -> u32
    requires { (c ≤ max_columns) × (c * i + c ≤ length table.now) × (length query.now ≡ c) }
    ensures given { result ≡ capped ceiling (from table.now c circles query.now i) }
    ensures few { from table.now c circles query.now i ≤ max_distance }
{
    let b = row_of(table, c, i);
    if circles != 0 {
        return rounded_to(query, b, circles, ceiling);
    }
    if 8 < c {
        return many_to(query, b, ceiling);
    }
    if 6 < c {
        return many(query, b).min(one_over(ceiling));
    }
    plain(query, b).min(one_over(ceiling))
}
