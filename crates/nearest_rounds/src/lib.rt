// The rounds of a nearest search: best first, until what waits is farther than the last answer.
#![tactic(auto)]

ghost use Rattle.nearest_steps.specs.Asked.{asks};
ghost use Rattle.nearest_steps.specs.Rounds.{SearchEnd, SearchStart};
ghost use Rattle.rows_listed.specs.Listed.{ListedTo};
ghost use Rattle.words.specs.Words.{n#};

use answers_held::last;
use frontier::workspace::{ANSWERS, MET};
use items_taken::take_item;
use queue::key_of;
use queue_pop::pop;
use queue_push::push;
use rows_measured::{Seen, measure_centre};
use words::places::{circles, node_first, pair_at, rows};

// The best-first search of an index that is not empty, with all how-bytes 0: how many answers are held at its end, and the word
// behind the list of rows measured.
pub fn search(
    table: &[u16],
    c: usize,
    query: &[u16],
    index: &[u32],
    w: usize,
    withdrawn: &[u32],
    how: &mut [u8],
    work: &mut [u32],
) -> Seen
    requires { SearchStart (asks table.now c index.now query.now w withdrawn.now) how.old work.old }
    ensures { SearchEnd (asks table.now c index.now query.now w withdrawn.now)
        how.old how.new work.old work.new result.held
        × (ListedTo (n# index.now) how.new work.new result.next) }
{
    let n = rows(index);
    let base = pair_at(index, 0);
    let first = node_first(index, 0);
    let o = circles(index);
    let seen = measure_centre(
        table,
        c,
        o,
        query,
        n,
        w,
        withdrawn,
        how,
        work,
        0,
        MET * n,
        first,
    );
    let mut held = seen.held;
    let mut next = seen.next;
    push(work, 0, 0, 0);
    let mut len = 1;
    while 0 < len {
        let e = pop(work, 0, len);
        if last(work, ANSWERS * n, w, held) < key_of(e) {
            return Seen { held, next };
        }
        let sizes = take_item(
            table,
            c,
            query,
            index,
            n,
            base,
            w,
            withdrawn,
            how,
            work,
            len - 1,
            held,
            next,
            e,
        );
        len = sizes.len;
        held = sizes.held;
        next = sizes.next;
    }
    Seen { held, next }
}
