//! The elements of the group of a consistent presentation: its table, and the numbers of exponent lists.

ghost use Rattle.std.specs.Prelude.{◌≡◌, ◌<◌, ◌^◌, IfOk};
ghost use Rattle.power_commutator.specs.Presentations.{IsWord, number, word_of};
ghost use Rattle.pc_group.specs.GroupOf.{IsGroupOf, HasPowers, HasCommutators};

use crate::consistency::Consistent;
use crate::presentation::Word;
use crate::word_numbers::word_number;
use group_table::{Group, Memory};
use smallvec::SmallVec;
use std::alloc::Global;

/// A copy of the group of order p^n that a consistent presentation gives.
/// The element g_1^e_1 g_2^e_2 .. has the number e_1 + e_2 p + e_3 p^2 and so on.
pub fn group_of(alloc: Global, c: &Consistent) -> Result<Group, Memory>
    ensures group { IfOk result (IsGroupOf c.now) }
    ensures powers { IfOk result (HasPowers c.now) }
    ensures commutators { IfOk result (HasCommutators c.now) }
{
    c.group().try_clone(alloc)
}

/// The number of the element with these n exponents below p.
pub fn number(c: &Consistent, w: &Word) -> u16
    requires { IsWord c.now.prime c.now.gens 0 w.now.items }
    ensures value { result ≡ number c.now.prime w.now.items }
    ensures below { result < c.now.prime ^ c.now.gens }
    ensures inverse { word_of c.now.prime c.now.gens result ≡ w.now.items }
{
    let prime = c.presentation().prime().value() as usize;
    word_number(prime, w.as_slice()) as u16
}

/// The exponents of the element with this number, which is below p^n.
pub fn word_of(c: &Consistent, e: u16) -> Word
    requires { e < c.now.prime ^ c.now.gens }
    ensures value { result.items ≡ word_of c.now.prime c.now.gens e }
    ensures word { IsWord c.now.prime c.now.gens 0 result.items }
    ensures inverse { number c.now.prime result.items ≡ e }
{
    let p = c.presentation();
    let prime = p.prime().value() as u16;
    let mut word = SmallVec::new(p.allocator());
    let mut rest = e;
    for i in 0..p.gens() {
        word.push_reserved((rest % prime) as u8);
        rest = rest / prime;
    }
    word
}
