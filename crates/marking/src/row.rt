// What is left of a row: its how-byte, and where it is in its place in the list.
ghost use Rattle.std.specs.Prelude.{◌<◌, ℕ, leb, set, cond, [], ◌∷◌, ◌≡◌};
ghost use Rattle.limits.specs.Limits.{max_rows};
ghost use Rattle.marking.specs.Listed.{Leaves, entered};
ghost use Rattle.rowset.specs.Sets.{is_in_lem};

use limits::Params;
use rows_withdrawn::is_in;

// What stands in the list for the distance of a row that was not measured: a word of the list, in which an Option would take two.
pub const UNMEASURED: u32 = 4294967295;

// A row's how-byte, where how-bytes are lent.
pub fn put(how: &mut [u8], row: usize, byte: u8)
    ensures { how.new ≡ set how.old row byte }
{
    if row < how.len() {
        how[row] = byte;
    }
}

// A row that is in at the distance d, behind those that are listed, where a list with room for it is lent.
pub fn enter(list: &mut [u32], d: u32, row: usize)
    requires { row < max_rows }
    ensures { list.new ≡ entered d row list.old }
{
    if list.is_empty() {
        return;
    }
    let k = list[0] as usize;
    if k < ((list.len() - 1) / 2).min(Params::MOST_ROWS) {
        list[2 * k + 1] = d;
        list[2 * k + 2] = row as u32;
        list[0] = (k + 1) as u32;
    }
}

// A row that was measured, where x is the number that measuring gave: in where that is at most r, and only if it is not withdrawn.
pub fn mark_measured(
    x: u32,
    row: usize,
    r: u32,
    withdrawn: &[u32],
    how: &mut [u8],
    list: &mut [u32],
)
    requires { row < max_rows }
    ensures { Leaves (is_in_lem withdrawn.now) (λ (i : ℕ). x) ((row, cond (leb x r) 3 1) ∷ []) how.old how.new
        list.old list.new }
{
    if x <= r && !is_in(withdrawn, row) {
        put(how, row, 3);
        enter(list, x, row);
    } else {
        put(how, row, 1);
    }
}
