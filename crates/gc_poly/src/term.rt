//! Terms of polynomials.

ghost use Rattle.std.specs.Prelude.{◌≡◌, IfOk};

use crate::Mono;
use group_table::Memory;
use std::alloc::Global;
use std::marker::Model;

/// A number times a monomial.
#[derive(Debug, Drop)]
pub(crate) struct Term {
    coefficient: u8,
    monomial: Mono,
}

impl Model for Term {
    ghost use Rattle.graded_polynomials.specs.Polynomials as polynomials;

    ghost Value = { polynomials.Term };

    ghost view = { λ t. record { scalar = t.coefficient; monomial = t.monomial } };
}

impl Term {
    pub(crate) fn new(coefficient: u8, monomial: Mono) -> Term
        ensures { result ≡ record { scalar = coefficient; monomial = monomial } }
    {
        Term {
            coefficient,
            monomial,
        }
    }

    pub(crate) fn coefficient(&self) -> u8
        ensures { result ≡ self.now.scalar }
    {
        self.coefficient
    }

    pub(crate) fn monomial(&self) -> &Mono
        ensures { result.now ≡ self.now.monomial }
    {
        &self.monomial
    }

    pub(crate) fn set_coefficient(&mut self, coefficient: u8)
        ensures { self.new ≡ record self.old { scalar = coefficient } }
    {
        self.coefficient = coefficient;
    }
}
