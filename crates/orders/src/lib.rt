// The foremen's orders on a set of rows: to strike a row and to restore one.
#![tactic(auto)]

ghost use Rattle.orders.specs.Orders.{Orders, restoring, said_order, striking};
ghost use Rattle.std.specs.Prelude.{◌≡◌};
ghost use Rattle.limits.specs.Refusal.{outcome};

use limits::Refusal;
use rowset::{restore_row, strike_row};
use set_refusals::set_bad;

// What refuses an order on row r of n rows, if anything does.
fn test_order(set: &[u32], n: usize, r: usize) -> Result<(), Refusal>
    ensures { outcome result ≡ said_order set.now n r }
{
    if set_bad(set, n) {
        return Err(Refusal::Set);
    }
    if n <= r {
        return Err(Refusal::NoRow);
    }
    Ok(())
}

// Strikes a row of n: it is withdrawn from now on.
pub fn strike(set: &mut [u32], n: usize, row: usize) -> Result<(), Refusal>
    ensures { Orders set.old set.new n (striking row) (outcome result).0 }
{
    test_order(set, n, row)?;
    strike_row(set, row);
    Ok(())
}

// Restores a row of n: it is withdrawn no longer.
pub fn restore(set: &mut [u32], n: usize, row: usize) -> Result<(), Refusal>
    ensures { Orders set.old set.new n (restoring row) (outcome result).0 }
{
    test_order(set, n, row)?;
    restore_row(set, row);
    Ok(())
}
