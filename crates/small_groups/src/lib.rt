//! Well-known p-groups of small order, for the tests of other crates.
#![tactic(auto)]

ghost use Rattle.std.specs.Prelude.{◌≡◌, ◌≤◌, ◌*◌, ◌<◌, ◌^◌, All, IfOk, vec_len};
ghost use Rattle.group_table.specs.Prime.{prime_value};
ghost use Rattle.small_groups.specs.SmallGroup.{order_of, prime_of, rank_of};

use group_table::{Group, Memory, Prime, TableFault};
use std::alloc::Global;

/// A p-group on the numbers e_1 + e_2 p + .., in its usual power-commutator presentation.
#[derive(Clone, Copy, Debug, PartialEq, Eq)]
pub enum SmallGroup {
    Trivial,
    /// The cyclic groups of order 2, 4 and 3.
    Two,
    Four,
    Three,
    /// The elementary abelian groups of order 4 and 9.
    Klein,
    Nine,
    /// g_3 is the commutator of g_2 and g_1, and in the quaternion group the square of both.
    Dihedral,
    Quaternion,
    /// The product of the cyclic group of order 4 and two of order 2: g_4 is the square of g_1.
    Sixteen,
    /// The extraspecial group of order 27 and exponent 3: g_3 is the commutator of g_2 and g_1.
    TwentySeven,
    /// The extraspecial groups of order 32: g_5 is the commutator of g_2 and g_1 and that of g_4 and g_3,
    /// and in the one of minus type the square of g_3 and of g_4.
    ThirtyTwoPlus,
    ThirtyTwoMinus,
}

// Digit i of a number in base p.
fn digit(p: u16, a: u16, i: u32) -> u16
    requires { (1 < p) × (p ≤ 3) × (i < 5) }
    ensures { result < p }
{
    let mut rest = a;
    for _i in 0..i {
        rest /= p;
    }
    rest % p
}

impl SmallGroup {
    /// The prime of which the order is a power.
    pub fn prime(self) -> Prime
        ensures { prime_value result ≡ prime_of self }
    {
        match self {
            SmallGroup::Three | SmallGroup::Nine | SmallGroup::TwentySeven => Prime::P3,
            _ => Prime::P2,
        }
    }

    /// The number of generators in the presentation.
    pub fn rank(self) -> u32
        ensures { result ≡ rank_of self }
    {
        match self {
            SmallGroup::Trivial => 0,
            SmallGroup::Two | SmallGroup::Three => 1,
            SmallGroup::Four | SmallGroup::Klein | SmallGroup::Nine => 2,
            SmallGroup::Dihedral | SmallGroup::Quaternion | SmallGroup::TwentySeven => 3,
            SmallGroup::Sixteen => 4,
            SmallGroup::ThirtyTwoPlus | SmallGroup::ThirtyTwoMinus => 5,
        }
    }

    /// How many elements it has.
    pub fn order(self) -> u16
        ensures value { result ≡ order_of self }
        ensures power { result ≡ prime_of self ^ rank_of self }
    {
        match self {
            SmallGroup::Trivial => 1,
            SmallGroup::Two => 2,
            SmallGroup::Three => 3,
            SmallGroup::Four | SmallGroup::Klein => 4,
            SmallGroup::Dihedral | SmallGroup::Quaternion => 8,
            SmallGroup::Nine => 9,
            SmallGroup::Sixteen => 16,
            SmallGroup::TwentySeven => 27,
            SmallGroup::ThirtyTwoPlus | SmallGroup::ThirtyTwoMinus => 32,
        }
    }

    // What the powers and the commutator add to digit i of the product of a and b.
    fn carry(self, i: u32, a: u16, b: u16) -> u16
        ensures { result ≤ 16 }
    {
        let p = u16::from(self.prime().value());
        let (a1, a2, a3, a4) = (
            digit(p, a, 0),
            digit(p, a, 1),
            digit(p, a, 2),
            digit(p, a, 3),
        );
        let (b1, b2, b3, b4) = (
            digit(p, b, 0),
            digit(p, b, 1),
            digit(p, b, 2),
            digit(p, b, 3),
        );
        match (self, i) {
            (SmallGroup::Four, 1) | (SmallGroup::Sixteen, 3) => a1 * b1,
            (SmallGroup::Dihedral | SmallGroup::TwentySeven, 2) => a2 * b1,
            (SmallGroup::Quaternion, 2) => a1 * b1 + a2 * b1 + a2 * b2,
            (SmallGroup::ThirtyTwoPlus, 4) => a2 * b1 + a4 * b3,
            (SmallGroup::ThirtyTwoMinus, 4) => a2 * b1 + a4 * b3 + a3 * b3 + a4 * b4,
            _ => 0,
        }
    }

    // Digit i of the product of a and b.
    fn product_digit(self, i: u32, a: u16, b: u16) -> u16
        requires { i < 5 }
        ensures { result ≤ 2 }
    {
        let p = u16::from(self.prime().value());
        if i < self.rank() {
            (digit(p, a, i) + digit(p, b, i) + self.carry(i, a, b)) % p
        } else {
            0
        }
    }

    // The product of a and b.
    fn product(self, a: u16, b: u16) -> u16
        ensures { result < order_of self }
    {
        let p = u16::from(self.prime().value());
        let low = self.product_digit(0, a, b) + p * self.product_digit(1, a, b);
        let high = self.product_digit(2, a, b) + p * self.product_digit(3, a, b);
        // Only groups of order 32 have a fifth digit.
        let last = 16 * self.product_digit(4, a, b);
        (low + p * p * high + last) % self.order()
    }

    // The entries of the multiplication table, row by row.
    fn entries(self, alloc: Global) -> Result<Vec<u16>, Memory>
        ensures size { IfOk result (λ table. vec_len table ≡ order_of self * order_of self) }
        ensures entries { IfOk result (λ table. All (λ e. e < order_of self) table.items) }
    {
        let order = self.order();
        let mut table = Vec::new(alloc);
        for place in 0..order * order {
            table.push(self.product(place / order, place % order))?;
        }
        Ok(table)
    }

    /// The group.
    pub fn group(self, alloc: Global) -> Result<Group, TableFault>
        ensures prime { IfOk result (λ g. g.p ≡ prime_of self) }
        ensures rank { IfOk result (λ g. g.n ≡ rank_of self) }
    {
        let table = self.entries(alloc)?;
        let _order = self.order();
        Group::from_table(alloc, self.prime(), self.rank(), table)
    }
}
