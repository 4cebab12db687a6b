// Taking an item that waits: a row is measured, a leaf is opened, an inner node is opened.
#![tactic(auto)]

ghost use Rattle.std.specs.Prelude.{◌<◌, ◌≡◌};
ghost use Rattle.frontier.specs.Waiting.{item_of};
ghost use Rattle.index_space.specs.Items.{node};
ghost use Rattle.measure.specs.Table.{from};
ghost use Rattle.nearest_steps.specs.Asked.{asks};
ghost use Rattle.nearest_steps.specs.Rounds.{CanTake, Taken};
ghost use Rattle.rows_listed.specs.Listed.{ListedTo};
ghost use Rattle.rowset.specs.Sets.{is_in_lem};
ghost use Rattle.words.specs.Words.{child#, circles#, first#, n#, pair_at};

use answers_held::last;
use frontier::workspace::ANSWERS;
use frontier::{nearest_centre, open_leaf, queue_children};
use queue::{id_of, key_of};
use rows_measured::{measure_centres, measure_row};
use words::places::{centres, circles, node_child, word};

// How many entries the frontier and the answers have, and the word behind the list of rows measured.
#[derive(Clone, Copy)]
pub struct Sizes {
    pub len: usize,
    pub held: usize,
    pub next: usize,
}

// Opens the inner node k, which has the bound b: its centres are measured, and its children wait.
fn open_inner(
    table: &[u16],
    c: usize,
    query: &[u16],
    index: &[u32],
    n: usize,
    w: usize,
    withdrawn: &[u32],
    how: &mut [u8],
    work: &mut [u32],
    len: usize,
    held: usize,
    next: usize,
    k: usize,
    b: u32,
) -> Sizes
    requires can_take { CanTake (asks table.now c index.now query.now w withdrawn.now) how.old work.old len held
        (node k b (from table.now c (circles# index.now) query.now (first# index.now k))) }
    requires n_value { (n ≡ n# index.now) × (0 < child# index.now k) × (ListedTo n how.old work.old next) }
    ensures { Taken index.now (from table.now c (circles# index.now) query.now)
        (is_in_lem withdrawn.now) w
        how.old how.new
        work.old work.new len result.len held result.held
        (node k b (from table.now c (circles# index.now) query.now (first# index.now k)))
        × (ListedTo n how.new work.new result.next) }
{
    let a = node_child(index, k);
    let e = a + centres(index);
    let seen = measure_centres(
        table, c, query, index, n, w, withdrawn, how, work, held, next, a, e,
    );
    let y = nearest_centre(index, work, n, a, e);
    let far = last(work, ANSWERS * n, w, seen.held);
    let len = queue_children(index, work, n, len, a, e, b, y, far);
    Sizes {
        len,
        held: seen.held,
        next: seen.next,
    }
}

// Opens node k, which has the bound b.
fn open_node(
    table: &[u16],
    c: usize,
    query: &[u16],
    index: &[u32],
    n: usize,
    w: usize,
    withdrawn: &[u32],
    how: &mut [u8],
    work: &mut [u32],
    len: usize,
    held: usize,
    next: usize,
    k: usize,
    b: u32,
) -> Sizes
    requires can_take { CanTake (asks table.now c index.now query.now w withdrawn.now) how.old work.old len held
        (node k b (from table.now c (circles# index.now) query.now (first# index.now k))) }
    requires n_value { (n ≡ n# index.now) × (ListedTo n how.old work.old next) }
    ensures { Taken index.now (from table.now c (circles# index.now) query.now)
        (is_in_lem withdrawn.now) w
        how.old how.new
        work.old work.new len result.len held result.held
        (node k b (from table.now c (circles# index.now) query.now (first# index.now k)))
        × (ListedTo n how.new work.new result.next) }
{
    if node_child(index, k) == 0 {
        let far = last(work, ANSWERS * n, w, held);
        let len = open_leaf(index, work, n, len, k, b, far);
        return Sizes { len, held, next };
    }
    open_inner(
        table, c, query, index, n, w, withdrawn, how, work, len, held, next, k, b,
    )
}

// Takes the item of the entry e, which is out of the frontier: a node is opened, a position's row is measured. The positions' words stand from
// `base` on.
pub fn take_item(
    table: &[u16],
    c: usize,
    query: &[u16],
    index: &[u32],
    n: usize,
    base: usize,
    w: usize,
    withdrawn: &[u32],
    how: &mut [u8],
    work: &mut [u32],
    len: usize,
    held: usize,
    next: usize,
    e: u64,
) -> Sizes
    requires can_take { CanTake (asks table.now c index.now query.now w withdrawn.now) how.old work.old len held
        (item_of index.now (from table.now c (circles# index.now) query.now) e) }
    requires n_value { (n ≡ n# index.now) × (base ≡ pair_at index.now 0) × (ListedTo n how.old work.old next) }
    ensures { Taken index.now (from table.now c (circles# index.now) query.now)
        (is_in_lem withdrawn.now) w
        how.old how.new
        work.old work.new len result.len held result.held
        (item_of index.now (from table.now c (circles# index.now) query.now) e)
        × (ListedTo n how.new work.new result.next) }
{
    let id = id_of(e) as usize;
    if id < 2 * n {
        return open_node(
            table,
            c,
            query,
            index,
            n,
            w,
            withdrawn,
            how,
            work,
            len,
            held,
            next,
            id,
            key_of(e),
        );
    }
    let r = word(index, base + 2 * (id - 2 * n));
    let o = circles(index);
    let seen = measure_row(
        table, c, o, query, n, w, withdrawn, how, work, held, next, r,
    );
    Sizes {
        len,
        held: seen.held,
        next: seen.next,
    }
}
