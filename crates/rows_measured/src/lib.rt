// A row measured in a nearest search: it is marked and listed, and entered among the answers unless it is withdrawn.
#![tactic(auto)]

ghost use Rattle.std.specs.Prelude.{◌+◌, ◌-◌, ◌*◌, ◌<◌, ◌≤◌, suc, ℕ, ◌≡◌};
ghost use Rattle.answers_held.specs.Answers.{HeldQueue};
ghost use Rattle.laws.specs.Bags.{is};
ghost use Rattle.laws.specs.Upto.{sum_to};
ghost use Rattle.limits.specs.Limits.{max_rows};
ghost use Rattle.measure.specs.Table.{from};
ghost use Rattle.nearest_steps.specs.Handled.{Enters};
ghost use Rattle.nearest_steps.specs.Standing.{GrewAlone, GrewCentres, Ready};
ghost use Rattle.rows_listed.specs.Listed.{ListedTo};
ghost use Rattle.rowset.specs.Sets.{is_in_lem};
ghost use Rattle.words.specs.InShape.{InShape};
ghost use Rattle.words.specs.Words.{nodes#, circles#, first#, n#};

use answers_held::{enter, last, turn};
use ceilings::distance_to;
use frontier::workspace::{ANSWERS, DISTANCES};
use row_distances::{query_distance, row_of};
use rows_listed::mark_row;
use rows_withdrawn::is_in;
use words::places::{circles, node_first};

// How many entries the answers have, and the word behind the list of rows measured.
#[derive(Clone, Copy)]
pub struct Seen {
    pub held: usize,
    pub next: usize,
}

// Enters row r, which is at d, among the answers, unless it is withdrawn: how many are held then.
fn enter_row(
    n: usize,
    w: usize,
    withdrawn: &[u32],
    work: &mut [u32],
    held: usize,
    r: usize,
    d: u32,
) -> usize
    requires { HeldQueue work.old (3 * n) w held × (r < n) × (n ≤ max_rows) }
    ensures { Enters (is_in_lem withdrawn.now) n w r d work.old work.new held result }
{
    if is_in(withdrawn, r) {
        return held;
    }
    enter(work, ANSWERS * n, w, held, turn(r as u32, d))
}

// Measures row r, which is a centre, in full: its distance is kept, for the bounds of its node and of what is below it.
pub fn measure_centre(
    table: &[u16],
    c: usize,
    circles: u32,
    query: &[u16],
    n: usize,
    w: usize,
    withdrawn: &[u32],
    how: &mut [u8],
    work: &mut [u32],
    held: usize,
    next: usize,
    r: usize,
) -> Seen
    requires ready { Ready table.now c circles query.now (is_in_lem withdrawn.now) n w how.old work.old held }
    requires r_lt_n { (r < n) × (ListedTo n how.old work.old next) }
    ensures { GrewCentres (from table.now c circles query.now) (is_in_lem withdrawn.now) n w
        how.old how.new work.old work.new held result.held (λ (s : ℕ). is s r)
        × (ListedTo n how.new work.new result.next) }
{
    let d = query_distance(table, c, circles, query, r);
    let next = mark_row(how, work, n, next, r);
    let held = enter_row(n, w, withdrawn, work, held, r, d);
    work[DISTANCES * n + r] = d;
    Seen { held, next }
}

// Measures row r of a leaf, as far as the last distance: beyond that it is no answer. At the last distance itself it may be one, before a
// higher-numbered row.
pub fn measure_row(
    table: &[u16],
    c: usize,
    circles: u32,
    query: &[u16],
    n: usize,
    w: usize,
    withdrawn: &[u32],
    how: &mut [u8],
    work: &mut [u32],
    held: usize,
    next: usize,
    r: usize,
) -> Seen
    requires ready { Ready table.now c circles query.now (is_in_lem withdrawn.now) n w how.old work.old held }
    requires r_lt_n { (r < n) × (ListedTo n how.old work.old next) }
    ensures { GrewAlone (from table.now c circles query.now) (is_in_lem withdrawn.now) n w
        how.old how.new work.old work.new held result.held (λ (s : ℕ). is s r)
        × (ListedTo n how.new work.new result.next) }
{
    let far = last(work, ANSWERS * n, w, held);
    let d = distance_to(query, row_of(table, c, r), circles, far);
    let next = mark_row(how, work, n, next, r);
    if far < d {
        return Seen { held, next };
    }
    let held = enter_row(n, w, withdrawn, work, held, r, d);
    Seen { held, next }
}

// Measures the firsts of the nodes from a + 1 up to e: the first child shares its parent's first, which is measured.
pub fn measure_centres(
    table: &[u16],
    c: usize,
    query: &[u16],
    index: &[u32],
    n: usize,
    w: usize,
    withdrawn: &[u32],
    how: &mut [u8],
    work: &mut [u32],
    held: usize,
    next: usize,
    a: usize,
    e: usize,
) -> Seen
    requires ready { Ready table.now c (circles# index.now) query.now (is_in_lem withdrawn.now) n w how.old work.old held }
    requires in_shape { (InShape index.now) × (n ≡ n# index.now) × (a < e) × (e ≤ nodes# index.now)
        × (ListedTo n how.old work.old next) }
    ensures { GrewCentres (from table.now c (circles# index.now) query.now)
        (is_in_lem withdrawn.now) n w
        how.old how.new work.old work.new held result.held
        (λ (s : ℕ). sum_to (λ (i : ℕ). is s (first# index.now (a + suc i))) (e - (a + 1)))
        × (ListedTo n how.new work.new result.next) }
{
    let o = circles(index);
    let mut seen = Seen { held, next };
    for j in a + 1..e {
        let r = node_first(index, j);
        seen = measure_centre(
            table, c, o, query, n, w, withdrawn, how, work, seen.held, seen.next, r,
        );
    }
    seen
}
