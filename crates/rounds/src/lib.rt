// Choosing the centres of a run: farthest first. A run's part of the workspace has an entry of three words for each member: the row,
// its least distance to the centres so far, and the centre that is so close.
#![tactic(auto)]

ghost use Rattle.std.specs.Prelude.{◌%◌, ◌*◌, ◌+◌, ◌-◌, ◌≤◌, ltb, drop, get_or, length, take, cond, ◌++◌, ◌∷◌, ◌≡◌};
ghost use Rattle.limits.specs.Limits.{max_columns};
ghost use Rattle.measure.specs.Table.{between};
ghost use Rattle.rounds.specs.Entries.{Entries, InTable, ahead, all_but, far, near_all, round_of, rounds_of};

use row_distances::row_distance;

// What an entry keeps, now that it is d away from a new centre and was x away from the closest: the new or the old. A value that is chosen is no
// branch; one would be guessed wrong as often as a row changes its centre, which costs more than the distance.
fn kept(d: u32, x: u32, new: u32, old: u32) -> u32
    ensures { result ≡ cond (ltb d x) new old }
{
    if d < x { new } else { old }
}

// An entry's least distance and its centre, now that `centre` is one.
fn nearer_one(table: &[u16], c: usize, circles: u32, centre: u32, entry: &mut [u32])
    requires { (c ≤ max_columns) × InTable table.now c centre × (length entry.old ≡ 3)
        × InTable table.now c (get_or entry.old 0 0) }
    ensures { entry.new ≡ near_all (between table.now c circles) centre entry.old }
{
    let d = row_distance(table, c, circles, centre as usize, entry[0] as usize);
    let x = entry[1];
    let a = entry[2];
    entry[1] = kept(d, x, d, x);
    entry[2] = kept(d, x, centre, a);
}

// The same for every entry.
fn nearer(table: &[u16], c: usize, circles: u32, centre: u32, part: &mut [u32])
    requires { (c ≤ max_columns) × InTable table.now c centre × Entries (InTable table.now c) part.old }
    ensures { part.new ≡ near_all (between table.now c circles) centre part.old }
{
    let mut p = 0;
    while p < part.len() {
        let e = p + 3;
        nearer_one(table, c, circles, centre, &mut part[p..e]);
        p = e;
    }
}

// The entry at p is to be chosen before the one at b: it is farther from the centres, or as far with a row number that is no greater.
fn precedes(part: &[u32], p: usize, b: usize) -> bool
    requires { (p + 3 ≤ length part.now) × (b + 3 ≤ length part.now) }
    ensures { result ≡ ahead (get_or part.now p 0) (get_or part.now (p + 1) 0)
        (get_or part.now b 0) (get_or part.now (b + 1) 0) }
{
    part[b + 1] < part[p + 1] || (part[p + 1] == part[b + 1] && part[p] <= part[b])
}

// Where the entry stands that is chosen next.
fn farthest(part: &[u32]) -> usize
    requires { (3 ≤ length part.now) × (length part.now % 3 ≡ 0) }
    ensures { (result ≡ far part.now) × (result + 3 ≤ length part.now) × (result % 3 ≡ 0) }
{
    let mut p = part.len() - 3;
    let mut b = p;
    while 0 < p {
        p -= 3;
        if precedes(part, p, b) {
            b = p;
        }
    }
    b
}

// An entry at the front of a part.
pub fn put_entry(part: &mut [u32], row: u32, least: u32, centre: u32)
    requires { 3 ≤ length part.old }
    ensures { part.new ≡ row ∷ least ∷ centre ∷ drop 3 part.old }
{
    part[0] = row;
    part[1] = least;
    part[2] = centre;
}

// Moves the first b words three up, over an entry that stands at b.
fn shift(part: &mut [u32], b: usize)
    requires { b + 3 ≤ length part.old }
    ensures { part.new ≡ take 3 part.old ++ all_but b part.old }
{
    part.copy_within(..b, 3);
}

// One round: of the entries in the first `bound` words the one that is farthest from the centres becomes a centre and moves to the front; all
// others keep their order and learn of it.
fn round(table: &[u16], c: usize, circles: u32, bound: usize, part: &mut [u32])
    requires c_le_max_columns { (c ≤ max_columns) × Entries (InTable table.now c) part.old }
    requires le_bound { (3 ≤ bound) × (bound ≤ length part.old) × (bound % 3 ≡ 0) }
    ensures { part.new ≡ round_of (between table.now c circles) bound part.old }
{
    let b = farthest(&part[..bound]);
    let row = part[b];
    shift(part, b);
    put_entry(part, row, 0, row);
    nearer(table, c, circles, row, &mut part[3..]);
}

// The rounds that leave m centres at the front of a run whose first is at the front. They are chosen among its first `early` rows; the entries
// behind these learn of them in the same pass, so that `nearer` is called in one place and compiled there.
pub fn choose(table: &[u16], c: usize, circles: u32, m: usize, early: usize, run: &mut [u32])
    requires c_le_max_columns { (c ≤ max_columns) × Entries (InTable table.now c) run.old }
    requires le_m { (1 ≤ m) × (m ≤ early) × (3 * early ≤ length run.old) }
    ensures { run.new ≡ take 3 run.old
        ++ rounds_of (between table.now c circles) (m - 1) (3 * early - 3) (drop 3 run.old) }
{
    for r in 1..m {
        let at = 3 * r;
        round(table, c, circles, 3 * early - at, &mut run[at..]);
    }
}
