//! Lists of polynomials.

ghost use Rattle.std.specs.Prelude.{◌≡◌, ◌<◌, [], ◌∷◌, ◌++◌, ◌==◌, length, OnOk, OnErr, slice_get, Some};

use crate::Poly;
use group_table::Memory;
use std::alloc::Global;
use std::marker::Model;

/// A list of polynomials. Contracts see the list.
#[derive(Debug, Drop)]
pub struct Polys {
    polynomials: Vec<Poly>,
}

impl Model for Polys {
    ghost use Rattle.std.specs.Prelude.{List};
    ghost use Rattle.graded_polynomials.specs.Polynomials.{Polynomial};

    ghost Value = { List Polynomial };

    ghost view = { λ fs. fs.polynomials.items };
}

impl Polys {
    /// No polynomial yet.
    pub fn new(alloc: Global) -> Polys
        ensures { result ≡ [] }
    {
        Polys {
            polynomials: Vec::new(alloc),
        }
    }

    /// Adds a polynomial at the end.
    pub fn push(&mut self, p: Poly) -> Result<(), Memory>
        ensures ok { OnOk result (self.new ≡ self.old ++ p ∷ []) }
        ensures err { OnErr result (self.new ≡ self.old) }
    {
        self.polynomials.push(p)?;
        Ok(())
    }

    /// The number of polynomials.
    pub fn len(&self) -> usize
        ensures { result ≡ length self.now }
    {
        self.polynomials.len()
    }

    /// Whether there is no polynomial.
    pub fn is_empty(&self) -> bool
        ensures { result ≡ (length self.now == 0) }
    {
        self.polynomials.is_empty()
    }

    /// Polynomial i, counted from 0.
    pub fn get(&self, i: usize) -> &Poly
        requires { i < length self.now }
        ensures { slice_get self.now i ≡ Some result.now }
    {
        &self.polynomials[i]
    }
}
