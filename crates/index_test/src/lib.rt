// What is wrong with an index for a table.
#![tactic(auto)]

ghost use Rattle.limits.specs.Refusal.{outcome};
ghost use Rattle.limits.specs.Said.{said};
ghost use Rattle.words.specs.Index.{index_faults};
ghost use Rattle.std.specs.Prelude.{◌≡◌};

use header_test::words_ok;
use limits::Refusal;
use shape_test::shape_ok;
use words::places::{columns, rows};

// What is wrong with an index for a table of n rows of c columns.
pub fn test_index(index: &[u32], n: usize, c: usize) -> Result<(), Refusal>
    ensures { outcome result ≡ said (index_faults index.now n c) }
{
    if !words_ok(index) {
        return Err(Refusal::OtherTable);
    }
    if rows(index) != n {
        return Err(Refusal::OtherTable);
    }
    if columns(index) != c {
        return Err(Refusal::OtherTable);
    }
    if !shape_ok(index) {
        return Err(Refusal::Shape);
    }
    Ok(())
}
