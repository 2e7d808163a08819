//! Polynomials, made a term at a time.

ghost use Rattle.std.specs.Prelude.{◌≡◌, ◌+◌, ◌<◌, ◌≤◌, [], ◌∷◌, ◌++◌, length, All, IfOk, OnOk, OnErr};
ghost use Rattle.std.specs.Prelude.{IfSome, IsNone, ◌↔◌, ◌==◌, slice_get, Some, option_map};

use crate::sums::{add_at, find};
use crate::term::Term;
use crate::{Gens, Mono};
use group_table::Memory;
use std::alloc::Global;
use std::marker::Model;

/// A polynomial: a degree, and descending terms whose coefficients are not 0. Contracts see the degree and
/// the terms.
#[derive(Debug, Drop)]
pub struct Poly {
    degree: u32,
    terms: Vec<Term>,
}

impl Model for Poly {
    ghost use Rattle.graded_polynomials.specs.Polynomials.{Polynomial};

    ghost Value = { Polynomial };

    ghost use Rattle.gc_poly.specs.Polynomials.{AreStored};

    ghost view = { λ f. record { degree = f.degree; terms = f.terms.items } };

    ghost invariant = { λ f. AreStored f.terms.items };
}

impl Poly {
    ghost use Rattle.gc_poly.specs.Polynomials.{AreStored, AreBelow, IsOverGenerators, IsMonomialOf, IsSumOf};

    /// The polynomial 0 of a degree.
    pub fn zero(alloc: Global, degree: u32) -> Poly
        ensures { result ≡ record { degree = degree; terms = [] } }
    {
        Poly {
            degree,
            terms: Vec::new(alloc),
        }
    }

    /// A number below p, as a polynomial of degree 0.
    pub fn constant(alloc: Global, gens: &Gens, c: u8) -> Result<Poly, Memory>
        requires { c < gens.now.prime }
        ensures { IfOk result (IsSumOf gens.now 0 (record { scalar = c; monomial = [] } ∷ [])) }
    {
        let mut out = Poly::zero(alloc, 0);
        out.add_term(gens, c, &Mono::of(alloc, &[])?)?;
        Ok(out)
    }

    /// The degree.
    pub fn degree(&self) -> u32
        ensures value { result ≡ self.now.degree }
        ensures stored { AreStored self.now.terms }
    {
        let _ = &self.terms;
        self.degree
    }

    /// The number of terms.
    pub fn terms(&self) -> usize
        ensures { result ≡ length self.now.terms }
    {
        self.terms.len()
    }

    /// The coefficient of term i, counted from 0.
    pub fn coefficient(&self, i: usize) -> u8
        requires { i < length self.now.terms }
        ensures { option_map (λ t. t.scalar) (slice_get self.now.terms i) ≡ Some result }
    {
        self.terms[i].coefficient()
    }

    /// The monomial of term i, counted from 0.
    pub fn mono(&self, i: usize) -> &Mono
        requires { i < length self.now.terms }
        ensures { option_map (λ t. t.monomial) (slice_get self.now.terms i) ≡ Some result.now }
    {
        self.terms[i].monomial()
    }

    /// The greatest monomial, that of the first term.
    pub fn leading(&self) -> Option<&Mono>
        ensures none { IsNone result ↔ (self.now.terms ≡ []) }
        ensures first { IfSome result (λ m. option_map (λ t. t.monomial)
            (slice_get self.now.terms 0) ≡ Some m.now) }
        ensures greatest { IfSome result (λ m. AreBelow m.now self.now.terms) }
    {
        if self.terms.is_empty() {
            None
        } else {
            Some(self.mono(0))
        }
    }

    /// Adds c times m. c is below p, and m is a monomial of the polynomial's degree.
    pub fn add_term(&mut self, gens: &Gens, c: u8, m: &Mono) -> Result<(), Memory>
        requires over { IsOverGenerators gens.now self.old }
        requires below { c < gens.now.prime }
        requires monomial { IsMonomialOf gens.now self.old.degree m.now }
        ensures ok { OnOk result (IsSumOf gens.now self.old.degree
            (self.old.terms ++ record { scalar = c; monomial = m.now } ∷ []) self.new) }
        ensures err { OnErr result (self.new ≡ self.old) }
    {
        match find(&self.terms, m) {
            Ok(i) => add_at(gens.modulus(), &mut self.terms, i, c),
            Err(i) => {
                if c != 0 {
                    let monomial = m.try_clone(*self.terms.allocator())?;
                    self.terms.insert(i, Term::new(c, monomial))?;
                }
            }
        }
        Ok(())
    }
}
