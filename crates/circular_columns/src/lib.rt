// The columns that are circles, and whether they hold a number that does not stand on one.
#![tactic(auto)]

ghost use Rattle.std.specs.Prelude.{◌<◌, ◌≤◌, ◌&&◌, ◌≡◌};
ghost use Rattle.limits.specs.Limits.{max_columns};
ghost use Rattle.measure.specs.Distance.{is_circle_lem};
ghost use Rattle.measure.specs.Table.{column_off_lem, off_circle_lem, rows_of};

// Column j is a circle.
fn is_circle(circles: u32, j: usize) -> bool
    requires { j < max_columns }
    ensures { result ≡ is_circle_lem circles j }
{
    (circles >> j) % 2 == 1
}

// A number of column j is 3,600 or more. It looks at every row, without a branch.
fn column_off(table: &[u16], c: usize, j: usize) -> bool
    requires { j < c }
    ensures { result ≡ column_off_lem table.now c (rows_of table.now c) j }
{
    let mut off = false;
    for i in 0..table.len() / c {
        off |= 3_600 <= table[c * i + j];
    }
    off
}

// Column j is a circle and holds such a number.
fn circle_off(table: &[u16], c: usize, circles: u32, j: usize) -> bool
    requires { (j < c) × (c ≤ max_columns) }
    ensures { result ≡ (is_circle_lem circles j && column_off_lem table.now c (rows_of table.now c) j) }
{
    is_circle(circles, j) && column_off(table, c, j)
}

// A column that is a circle holds 3,600 or more. Where none is a circle there is nothing to look at.
pub fn off_circle(table: &[u16], c: usize, circles: u32) -> bool
    requires { c ≤ max_columns }
    ensures { result ≡ off_circle_lem c circles table.now }
{
    if circles == 0 {
        return false;
    }
    let mut off = false;
    for j in 0..c {
        off |= circle_off(table, c, circles, j);
    }
    off
}
