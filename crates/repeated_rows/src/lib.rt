// The full check's pass over row numbers that stand again. The workspace marks the rows met so far.
#![tactic(auto)]

ghost use Rattle.repeated_rows.specs.Zeros.{Clear};
ghost use Rattle.laws.specs.First.{First};
ghost use Rattle.tree.specs.Check.{again};
ghost use Rattle.words.specs.InShape.{InShape};
ghost use Rattle.words.specs.Words.{n#};
ghost use Rattle.std.specs.Prelude.{◌<◌, drop, IfSome, unwrap_or, ◌≡◌};

use words::places::{row_at, rows};

// The lowest position whose row stands at a lower one too. The marks stay in the first n words.
pub fn first_again(index: &[u32], work: &mut [u32]) -> Option<usize>
    requires in_shape { InShape index.now }
    requires clear { Clear (n# index.now) work.old }
    ensures first { First (again index.now) 0 (n# index.now) (unwrap_or result (n# index.now)) }
    ensures inside { IfSome result (λ p. p < n# index.now) }
    ensures rest { drop (n# index.now) work.new ≡ drop (n# index.now) work.old }
{
    for p in 0..rows(index) {
        let row = row_at(index, p);
        if work[row] != 0 {
            return Some(p);
        }
        work[row] = 1;
    }
    None
}
