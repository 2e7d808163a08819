//! Terms as they are read.

ghost use Rattle.std.specs.Prelude.{◌≡◌, ℕ, ◌≤◌, ◌<◌, ◌+◌, length, slice_get, Some};
ghost use Rattle.graded_polynomials.specs.Texts as texts;
ghost use Rattle.polynomial_texts.specs.Readings.{term_degree};
ghost use Rattle.polynomial_reader.specs.Reading.{IsFactorOf, AreFactorsOf};

use gc_poly::Gens;
use std::marker::Model;

/// A power of a generator.
#[derive(Debug, Drop)]
pub(crate) struct Factor {
    generator: usize,
    exponent: u8,
}

impl Model for Factor {
    ghost use Rattle.graded_polynomials.specs.Texts as texts;

    ghost Value = { texts.Factor };

    ghost view = { λ x. record { generator = x.generator; exponent = x.exponent } };
}

impl Factor {
    pub(crate) fn new(generator: usize, exponent: u8) -> Factor
        ensures { result ≡ record { generator = generator; exponent = exponent } }
    {
        Factor {
            generator,
            exponent,
        }
    }

    pub(crate) fn generator(&self) -> usize
        ensures { result ≡ self.now.generator }
    {
        self.generator
    }

    pub(crate) fn exponent(&self) -> u8
        ensures { result ≡ self.now.exponent }
    {
        self.exponent
    }
}

/// A numeral, and powers of generators in the order in which they stand.
#[derive(Debug, Drop)]
pub(crate) struct ReadTerm {
    numeral: u8,
    factors: Vec<Factor>,
}

impl Model for ReadTerm {
    ghost use Rattle.graded_polynomials.specs.Texts as texts;

    ghost Value = { texts.ReadTerm };

    ghost view = { λ t. record { numeral = t.numeral; factors = t.factors.items } };
}

impl ReadTerm {
    pub(crate) fn new(numeral: u8, factors: Vec<Factor>) -> ReadTerm
        ensures { result ≡ record { numeral = numeral; factors = factors.items } }
    {
        ReadTerm { numeral, factors }
    }

    pub(crate) fn numeral(&self) -> u8
        ensures { result ≡ self.now.numeral }
    {
        self.numeral
    }

    pub(crate) fn factors(&self) -> &[Factor]
        ensures { result.now ≡ self.now.factors }
    {
        &self.factors
    }
}
