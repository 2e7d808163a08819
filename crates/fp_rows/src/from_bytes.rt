use crate::numbers::Numbers;
use crate::row_ref::RowRef;
use group_table::Prime;

impl<'a> RowRef<'a> {
    ghost use Rattle.std.specs.Prelude.{◌≡◌, ℕ, ◌<◌, length};
    ghost use Rattle.group_table.specs.Prime.{prime_value};
    ghost use Rattle.linear_algebra.specs.Rows.{entry};
    ghost use Rattle.fp_rows.specs.Refs.{entries_of, modulus_of};

    /// The list of numbers that bytes hold, each of which is below p. Nothing is copied.
    pub fn of_bytes(p: Prime, bytes: &'a [u8]) -> RowRef<'a>
        requires { (j : ℕ) → j < length bytes.now → entry bytes.now j < prime_value p }
        ensures entries { entries_of result ≡ bytes.now }
        ensures modulus { modulus_of result ≡ prime_value p }
    {
        RowRef::over(p, Numbers::Bytes(bytes))
    }
}
