// The rows that several searches mark, put together: one search more.
#![tactic(auto)]

ghost use Rattle.std.specs.Prelude.{◌≤◌, length, ◌≡◌};
ghost use Rattle.joined_marks.specs.Joins.{fresh, merged, sum_fresh, united};

// A how-byte of 2 or 3 says that the row is in.
const IN: u8 = 2;

// A row's mark after one search more.
#[tactic(auto, unfolding(crate::specs::Joins::merged))]
fn merge(mark: u8, how: u8) -> u8
    ensures { result ≡ merged mark how }
{
    if how < IN { mark } else { 1 }
}

// 1 for a row that no search before found, else 0.
#[tactic(auto, unfolding(crate::specs::Joins::fresh))]
fn newly(mark: u8, how: u8) -> usize
    ensures { (result ≡ fresh mark how) × (result ≤ 1) }
{
    if how >= IN && mark == 0 { 1 } else { 0 }
}

// The rows that a search found join those marked before. Gives how many are new.
pub fn join(how: &[u8], marks: &mut [u8], n: usize) -> usize
    requires { (n ≤ length how.now) × (n ≤ length marks.old) }
    ensures { (marks.new ≡ united how.now marks.old n)
        × (result ≡ sum_fresh how.now marks.old n) × (result ≤ n) }
{
    let mut new = 0;
    for i in 0..n {
        new += newly(marks[i], how[i]);
        marks[i] = merge(marks[i], how[i]);
    }
    new
}
