// The rows measured, listed in the workspace: what a search marked is unmarked by the list, with no pass over all rows.
#![tactic(auto)]

ghost use Rattle.std.specs.Prelude.{◌<◌, ◌≤◌, ◌≡◌};
ghost use Rattle.buffers.specs.Wiped.{wiped};
ghost use Rattle.rows_listed.specs.Listed.{Listed, ListedTo, Marked};
ghost use Rattle.words.specs.Words.{at};

use frontier::workspace::MET;

// Marks row r as measured and lists it at word `next`, unless it is marked: the word behind the list then.
pub fn mark_row(how: &mut [u8], work: &mut [u32], n: usize, next: usize, r: usize) -> usize
    requires listed_to { ListedTo n how.old work.old next }
    requires r_lt_n { (r < n) × (at how.old r ≤ 1) }
    ensures { Marked n r how.old how.new work.old work.new result }
{
    if how[r] == 0 {
        how[r] = 1;
        work[next] = r as u32;
        return next + 1;
    }
    next
}

// Unmarks the rows that are listed: then all n how-bytes are 0.
pub fn unmark(how: &mut [u8], work: &[u32], n: usize, met: usize)
    requires { Listed n how.old work.now met }
    ensures { how.new ≡ wiped n how.old }
{
    let first = MET * n;
    for i in 0..met {
        how[work[first + i] as usize] = 0;
    }
}
