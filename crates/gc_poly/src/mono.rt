//! Monomials.

ghost use Rattle.std.specs.Prelude.{◌≡◌, ℕ, ◌+◌, ◌<◌, ◌≤◌, ◌==◌, true, false, length, take, IfOk};
ghost use Rattle.graded_polynomials.specs.Monomials.{exponent, joined, IsTrimmed, IsGreater};

use group_table::Memory;
use smallvec::SmallVec;
use std::alloc::Global;
use std::hash::{Hash, Hasher};
use std::marker::Model;

/// A monomial, by the exponents of its generators. Contracts see their list, which has no zero at its end.
#[derive(Debug, Drop)]
pub struct Mono {
    exponents: SmallVec<u8, 8, Global>,
}

impl Model for Mono {
    ghost use Rattle.std.specs.Prelude.{List, ℕ};
    ghost use Rattle.graded_polynomials.specs.Monomials.{IsTrimmed};

    ghost Value = { List ℕ };

    ghost view = { λ m. m.exponents.items };

    ghost invariant = { λ m. IsTrimmed m.exponents.items };
}

impl Mono {
    /// The monomial with these exponents.
    pub fn of(alloc: Global, exponents: &[u8]) -> Result<Mono, Memory>
        ensures trimmed { IfOk result IsTrimmed }
        ensures exponents { IfOk result (λ m. (i : ℕ) → exponent m i ≡ exponent exponents.now i) }
    {
        let kept = &exponents[..trimmed_len(exponents)];
        Ok(Mono {
            exponents: SmallVec::from_slice(alloc, kept)?,
        })
    }

    /// The exponent of generator i, 0 past the end of the list.
    pub fn exponent(&self, i: usize) -> u8
        ensures { result ≡ exponent self.now i }
    {
        let exponents = self.exponents.as_slice();
        if i < exponents.len() { exponents[i] } else { 0 }
    }

    /// The length of the list of exponents.
    pub fn len(&self) -> usize
        ensures value { result ≡ length self.now }
        ensures trimmed { IsTrimmed self.now }
    {
        self.exponents.len()
    }

    /// Whether this is the monomial 1.
    pub fn is_empty(&self) -> bool
        ensures { result ≡ (length self.now == 0) }
    {
        self.exponents.is_empty()
    }

    /// Whether this monomial is greater: it has the greater exponent at the first place where the two differ.
    pub fn is_greater(&self, other: &Mono) -> bool
        ensures greater { result ≡ true → IsGreater self.now other.now }
        ensures not_greater { result ≡ false → IsGreater self.now other.now → ⊥ }
    {
        for i in 0..self.len() {
            let x = self.exponent(i);
            let y = other.exponent(i);
            if x != y {
                return x > y;
            }
        }
        false
    }

    /// The monomial with the exponents added.
    pub fn joined(&self, alloc: Global, other: &Mono) -> Result<Mono, Memory>
        requires { (i : ℕ) → exponent self.now i + exponent other.now i ≤ 255 }
        ensures { IfOk result (λ m. m ≡ joined self.now other.now) }
    {
        let mut exponents = SmallVec::new(alloc);
        for i in 0..self.len().max(other.len()) {
            exponents.push(self.exponent(i) + other.exponent(i))?;
        }
        Ok(Mono { exponents })
    }

    /// An equal monomial.
    pub fn try_clone(&self, alloc: Global) -> Result<Mono, Memory>
        ensures { IfOk result (λ m. m ≡ self.now) }
    {
        Ok(Mono {
            exponents: SmallVec::from_slice(alloc, self.exponents.as_slice())?,
        })
    }
}

impl PartialEq for Mono {
    ghost use Rattle.std.specs.Cmp.{partial_equiv_from_equiv};
    ghost use Rattle.std.specs.Prelude.{nat_eq};
    ghost use Rattle.std.specs.Cmp.Lexicographic.{pointwise, nat_list_eq_equiv};

    ghost eq = { pointwise nat_eq };

    ghost laws = { partial_equiv_from_equiv nat_list_eq_equiv };

    fn eq(&self, other: &Self) -> bool {
        self.exponents == other.exponents
    }
}

impl Eq for Mono {
    ghost use Rattle.std.specs.Cmp.Lexicographic.{nat_list_eq_equiv};

    ghost laws = { nat_list_eq_equiv };
}

impl Hash for Mono {
    ghost use Rattle.std.specs.Hash as fed;
    ghost use Rattle.std.specs.Cmp.Rules.{hashing};
    ghost use Rattle.std.proofs.Common.{rules};

    ghost hash_input = { λ m. fed.slice fed.u8 m };

    ghost respects_eq = { Prim.search (hashing, rules) };

    fn hash<H: Hasher>(&self, state: &mut H) {
        self.exponents.hash(state);
    }
}

// How many exponents are left without the zeros at the end.
fn trimmed_len(exponents: &[u8]) -> usize
    ensures within { result ≤ length exponents.now }
    ensures trimmed { IsTrimmed (take result exponents.now) }
    ensures zeros { (i : ℕ) → exponent (take result exponents.now) i ≡ exponent exponents.now i }
{
    let mut len = exponents.len();
    while len > 0 && exponents[len - 1] == 0 {
        len -= 1;
    }
    len
}
