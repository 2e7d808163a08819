//! Descending lists of monomials, numbered.

ghost use Rattle.std.specs.Prelude.{◌≡◌, ◌<◌, [], ◌∷◌, ◌++◌, ◌==◌, ◌↔◌, length, All, Contains, OnOk, OnErr};
ghost use Rattle.std.specs.Prelude.{IfSome, IsNone, slice_get, Some};
ghost use Rattle.graded_polynomials.specs.Monomials.{IsGreater};

use crate::Mono;
use group_table::Memory;
use indexmap::IndexSet;
use std::alloc::Global;
use std::marker::Model;

/// A descending list of monomials that finds the place of a monomial. Contracts see the list.
#[derive(Drop)]
pub struct Monos {
    monomials: IndexSet<Mono>,
}

impl Model for Monos {
    ghost use Rattle.std.specs.Prelude.{List, ℕ};

    ghost Value = { List (List ℕ) };

    ghost use Rattle.gc_poly.specs.Lists.{IsDescending};

    ghost view = { λ ms. ms.monomials.keys };

    ghost invariant = { λ ms. IsDescending ms.monomials.keys };
}

impl Monos {
    ghost use Rattle.gc_poly.specs.Lists.{IsDescending};

    /// No monomial yet.
    pub fn new(alloc: Global) -> Monos
        ensures { result ≡ [] }
    {
        Monos {
            monomials: IndexSet::new(alloc),
        }
    }

    /// Adds a monomial that is less than the last.
    pub fn push(&mut self, m: Mono) -> Result<(), Memory>
        requires { All (λ n. IsGreater n m) self.old }
        ensures ok { OnOk result (self.new ≡ self.old ++ m ∷ []) }
        ensures err { OnErr result (self.new ≡ self.old) }
    {
        self.monomials.insert(m)?;
        Ok(())
    }

    /// The number of monomials.
    pub fn len(&self) -> usize
        ensures value { result ≡ length self.now }
        ensures descending { IsDescending self.now }
    {
        self.monomials.len()
    }

    /// Whether there is no monomial.
    pub fn is_empty(&self) -> bool
        ensures { result ≡ (length self.now == 0) }
    {
        self.monomials.is_empty()
    }

    /// Monomial i, counted from 0.
    pub fn get(&self, i: usize) -> &Mono
        requires { i < length self.now }
        ensures { slice_get self.now i ≡ Some result.now }
    {
        &self.monomials.as_slice()[i]
    }

    /// The place of a monomial, where it is in the list.
    pub fn position(&self, m: &Mono) -> Option<usize>
        ensures some { IfSome result (λ i. slice_get self.now i ≡ Some m.now) }
        ensures none { IsNone result ↔ (Contains self.now m.now → ⊥) }
    {
        self.monomials.get_index_of(m)
    }
}
