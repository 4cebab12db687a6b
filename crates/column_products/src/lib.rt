// The products of the chosen columns with their factors: a product, and the greatest that there may be.
#![tactic(auto)]

ghost use Rattle.std.specs.Prelude.{◌*◌, ◌<◌, ◌≡◌};
ghost use Rattle.column_products.specs.Chosen.{most};
ghost use Rattle.limits.specs.Limits.{max_columns};

// The greatest product at place j of the chosen columns, in a circle the last tenth of a degree. Without a branch, since every product is held to it.
pub fn most(circles: u32, j: usize) -> u32
    requires { j < max_columns }
    ensures { result ≡ most circles j }
{
    65_535 - 61_936 * ((circles >> j) % 2)
}

// A number times its factor.
pub fn product(x: u16, factor: u32) -> u64
    ensures { result ≡ x * factor }
{
    u64::from(x) * u64::from(factor)
}
