// Tables of one column, for one row more than the library takes and for one less, with their lengths alone, which lending them as slices needs.
ghost use Rattle.std.specs.Prelude.{length, ◌≡◌};

const TABLE: usize = 1_048_577;

const SHORT: usize = 1_048_575;

pub fn table_room() -> [u16; TABLE]
    ensures { 1048577 ≡ length result }
{
    [0; TABLE]
}

pub fn short_room() -> [u16; SHORT]
    ensures { 1048575 ≡ length result }
{
    [0; SHORT]
}
