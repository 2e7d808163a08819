//! What the first lines of a text fix.

ghost use Rattle.std.specs.Prelude.{◌≡◌, ◌≤◌};
ghost use Rattle.group_table.specs.Prime.{prime_value};
ghost use Rattle.limits.specs.declared.TheConstants.{MOST_GENERATORS};

use group_table::Prime;

/// The generators g_1 to g_n over a prime: the prime, and their number.
#[derive(Clone, Copy, Debug, PartialEq, Eq)]
pub struct Generators {
    pub prime: Prime,
    pub gens: u32,
    pub ghost few: { gens ≤ MOST_GENERATORS },
}

impl Generators {
    /// The number of the prime.
    pub fn p(self) -> u32
        ensures value { result ≡ prime_value self.prime }
        ensures range { (2 ≤ result) × (result ≤ 7) }
    {
        u32::from(self.prime.value())
    }
}
