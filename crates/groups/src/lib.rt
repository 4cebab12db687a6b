// One centre's group: the entries of a run that are closest to it, written behind it.
#![tactic(auto)]

ghost use Rattle.groups.specs.Groups.{Gatherable, Gathered, Picked, Picking};
ghost use Rattle.laws.specs.Lists.{lower};
ghost use Rattle.std.specs.Prelude.{◌≡◌};

use rounds::put_entry;

// A group: how many members, the greatest distance to its centre, and the least of a member other than the centre, 0 where there is none, which is
// what the node's word says then. Both are at hand where a run is shared out, so that the inner reach costs no distance more.
#[derive(Clone, Copy)]
pub struct Group {
    pub count: usize,
    pub radius: u32,
    pub inner: u32,
}

// The least of k distances: d is the last of them, and `low` the least of those before it.
pub fn least_of(k: usize, low: u32, d: u32) -> u32
    ensures { result ≡ lower k low d }
{
    if k <= 1 { d } else { d.min(low) }
}

// Writes from word `to` on those of the entries from lo to hi whose centre is `centre`.
pub fn pick(work: &mut [u32], lo: usize, hi: usize, centre: u32, to: usize) -> Group
    requires { Picking work.old lo hi centre to }
    ensures { Picked work.old lo hi centre to work.new result.count result.radius result.inner }
{
    let mut count: usize = 0;
    let mut radius: u32 = 0;
    let mut inner: u32 = 0;
    let mut p = lo;
    while p < hi {
        let at = p;
        p += 3;
        if work[at + 2] == centre {
            let row = work[at];
            let least = work[at + 1];
            let q = to + 3 * count;
            put_entry(&mut work[q..], row, least, centre);
            count += 1;
            radius = radius.max(least);
            inner = least_of(count, inner, least);
        }
    }
    Group {
        count,
        radius,
        inner,
    }
}

// Writes one centre's group from word `to` on: the centre, and those of the entries from lo to hi that are closest to it.
pub fn gather(work: &mut [u32], lo: usize, hi: usize, centre: u32, to: usize) -> Group
    requires { Gatherable work.old lo hi centre to }
    ensures { Gathered work.old lo hi centre to work.new result.count result.radius result.inner }
{
    put_entry(&mut work[to..], centre, 0, centre);
    let g = pick(work, lo, hi, centre, to + 3);
    Group {
        count: g.count + 1,
        ..g
    }
}
