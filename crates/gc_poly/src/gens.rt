//! Generators by their degrees.

ghost use Rattle.std.specs.Prelude.{◌≡◌, ◌+◌, ◌∷◌, ◌++◌, ◌<◌, ◌≤◌, [], length, ◌==◌, slice_index, All, OnOk};
ghost use Rattle.std.specs.Prelude.{OnErr};
ghost use Rattle.limits.specs.declared.TheConstants.{GREATEST_DEGREE};
ghost use Rattle.group_table.specs.Prime.{prime_value};
ghost use Rattle.graded_polynomials.specs.Texts.{ordinal};
ghost use Rattle.linear_algebra.specs.Modular.{IsSmallPrime};

use group_table::{Memory, Prime};
use std::alloc::Global;
use std::marker::Model;

/// A prime p, and generators of degrees from 1 to `GREATEST_DEGREE` that do not descend. Contracts see p and
/// the list of degrees.
#[derive(Debug, Drop)]
pub struct Gens {
    prime: Prime,
    degrees: Vec<u32>,
}

impl Model for Gens {
    ghost use Rattle.gc_poly.specs.Generators.{Generators};

    ghost Value = { Generators };

    ghost use Rattle.std.specs.Prelude.{◌≤◌, length};
    ghost use Rattle.group_table.specs.Prime.{prime_value};
    ghost use Rattle.gc_poly.specs.Generators.{AreOrdered};

    ghost view = { λ g. record { prime = prime_value g.prime; degrees = g.degrees.items } };

    ghost invariant = { λ g. AreOrdered g.degrees.items × (length g.degrees.items ≤ 4294967295) };
}

impl Gens {
    ghost use Rattle.graded_polynomials.specs.Monomials.{is_exterior};
    ghost use Rattle.gc_poly.specs.Generators.{AreOrdered, greatest};

    /// No generators yet.
    pub fn new(alloc: Global, p: Prime) -> Gens
        ensures { result ≡ record { prime = prime_value p; degrees = [] } }
    {
        Gens {
            prime: p,
            degrees: Vec::new(alloc),
        }
    }

    /// Adds a generator of a degree from 1 to `GREATEST_DEGREE`, not below that of the last.
    pub fn push(&mut self, degree: u32) -> Result<(), Memory>
        requires few { length self.old.degrees < 4294967295 }
        requires low { 1 ≤ degree }
        requires high { degree ≤ GREATEST_DEGREE }
        requires order { All (λ d. d ≤ degree) self.old.degrees }
        ensures ok { OnOk result (self.new ≡ record self.old { degrees = self.old.degrees ++ degree ∷ [] }) }
        ensures err { OnErr result (self.new ≡ self.old) }
    {
        self.degrees.push(degree)?;
        Ok(())
    }

    /// The number of generators.
    pub fn len(&self) -> usize
        ensures value { result ≡ length self.now.degrees }
        ensures few { result ≤ 4294967295 }
        ensures valid { AreOrdered self.now.degrees }
    {
        self.degrees.len()
    }

    /// Whether there is no generator.
    pub fn is_empty(&self) -> bool
        ensures { result ≡ (length self.now.degrees == 0) }
    {
        self.degrees.is_empty()
    }

    /// The degree of generator i, counted from 0.
    pub fn degree(&self, i: usize) -> u32
        requires { i < length self.now.degrees }
        ensures value { result ≡ slice_index self.now.degrees i }
        ensures low { 1 ≤ result }
        ensures high { result ≤ GREATEST_DEGREE }
        ensures valid { AreOrdered self.now.degrees }
    {
        self.degrees[i]
    }

    /// The prime p.
    pub fn prime(&self) -> Prime
        ensures value { prime_value result ≡ self.now.prime }
        ensures prime { IsSmallPrime self.now.prime }
    {
        self.prime
    }

    /// Whether generator i has odd degree, for odd p.
    pub fn is_exterior(&self, i: usize) -> bool
        requires { i < length self.now.degrees }
        ensures { result ≡ is_exterior (greatest self.now) (slice_index self.now.degrees i) }
    {
        self.modulus() != 2 && self.degrees[i] % 2 == 1
    }

    /// The number p.
    pub fn modulus(&self) -> u8
        ensures value { result ≡ self.now.prime }
        ensures low { 2 ≤ result }
        ensures high { result ≤ 7 }
        ensures valid { AreOrdered self.now.degrees }
    {
        self.prime.value()
    }

    /// The k of the name `x_d_k` of generator i: which one it is among those of its degree d, from 1.
    pub fn number(&self, i: usize) -> u32
        requires { i < length self.now.degrees }
        ensures { result ≡ ordinal self.now.degrees i }
    {
        let degree = self.degrees[i];
        let mut before = 0;
        for d in &self.degrees[..i] {
            if *d == degree {
                before += 1;
            }
        }
        before + 1
    }
}
