// The full check: it takes an index from anyone, and names its first fault.
#![tactic(auto)]

ghost use Rattle.std.specs.Prelude.{◌*◌, ◌≤◌, length, ◌≡◌};
ghost use Rattle.audit.specs.Calls.{Checks};
ghost use Rattle.audit.specs.Passes.{measured_faults};
ghost use Rattle.buffers.specs.Wiped.{wiped};
ghost use Rattle.limits.specs.Refusal.{outcome};
ghost use Rattle.limits.specs.Said.{said};
ghost use Rattle.measure.specs.Space.{Space};
ghost use Rattle.measure.specs.Table.{between};
ghost use Rattle.tree.specs.Check.{faults};
ghost use Rattle.tree.specs.Tested.{Tested};
ghost use Rattle.words.specs.Words.{circles#, n#};

use audit_refusals::test_audit;
use limits::Refusal;
use nearness::closeness;
use reach::radii::first_wrong_reach;
use repeated_rows::first_again;
use stored_distances::first_wrong_distance;
use words::places::rows;

// The first fault that distances show.
fn measured_fault(table: &[u16], c: usize, index: &[u32]) -> Result<(), Refusal>
    requires { Tested index.now table.now c × Space (between table.now c (circles# index.now)) }
    ensures { outcome result ≡ said (measured_faults (between table.now c (circles# index.now)) index.now) }
{
    if let Some(p) = first_wrong_distance(table, c, index) {
        return Err(Refusal::StoredDistance(p));
    }
    if let Some(k) = first_wrong_reach(table, c, index) {
        return Err(Refusal::Reach(k));
    }
    match closeness(table, c, index) {
        Some(stray) => Err(Refusal::Stray(stray.node, stray.position)),
        None => Ok(()),
    }
}

// The first fault of an index in shape. The first 6n words of the workspace end as zero.
fn first_fault(table: &[u16], c: usize, index: &[u32], work: &mut [u32]) -> Result<(), Refusal>
    requires tested { Tested index.now table.now c × Space (between table.now c (circles# index.now)) }
    requires index_in_bounds { 6 * n# index.now ≤ length work.old }
    ensures says { outcome result ≡ said (faults (between table.now c (circles# index.now)) index.now) }
    ensures leaves { work.new ≡ wiped (6 * n# index.now) work.old }
{
    let n = rows(index);
    work[..n].fill(0);
    let again = first_again(index, work);
    work[..6 * n].fill(0);
    match again {
        Some(p) => Err(Refusal::RowAgain(p)),
        None => measured_fault(table, c, index),
    }
}

// The full check of an index for a table of c columns: where it is not accepted, the first refusal or fault with its places.
// Each row is measured once for its stored distance, and at each level of the tree once for the radius and the inner reach and at most m times for
// the centres; with few columns and no circle m + 1 times, its own twice, and once alone where it is too near to its own to be closer to another.
pub fn check(table: &[u16], c: usize, index: &[u32], work: &mut [u32]) -> Result<(), Refusal>
    ensures { Checks table.now c index.now work.old work.new (outcome result).0 (outcome result).1 (outcome result).2 }
{
    test_audit(table, c, index, work.len())?;
    first_fault(table, c, index, work)
}
