//! The table of candidates and their restrictions to subgroups.

ghost use Rattle.std.specs.Prelude.{◌≡◌, ◌<◌, ◌≤◌, ◌∷◌, ◌++◌, [], length, All, OnOk, OnErr};
ghost use Rattle.limits.specs.declared.TheConstants.{GREATEST_DEGREE};
ghost use Rattle.group_table.specs.Prime.{prime_value};

use gc_poly::{Gens, Polys};
use group_table::{Memory, Prime};
use std::alloc::Global;
use std::marker::Model;

/// A class that is a candidate, by its degree and its restrictions to the subgroups.
#[derive(Drop)]
pub(crate) struct Candidate {
    pub(crate) degree: u32,
    pub(crate) images: Polys,
}

impl Model for Candidate {
    ghost use Rattle.param_test.specs.Tables.{CandidateValue};

    ghost Value = { CandidateValue };

    ghost view = { λ c. record { degree = c.degree; images = c.images } };
}

/// Elementary abelian subgroups, by the generators of their cohomology rings, and candidates for parameters
/// with their restrictions to the subgroups. Contracts see the prime and both lists.
#[derive(Drop)]
pub struct ParamTable {
    prime: Prime,
    pub(crate) subgroups: Vec<Gens>,
    pub(crate) candidates: Vec<Candidate>,
}

impl Model for ParamTable {
    ghost use Rattle.group_table.specs.Prime.{prime_value};
    ghost use Rattle.param_test.specs.Tables.{TableValue, AreCandidatesOver};

    ghost Value = { TableValue };

    ghost view = { λ t. record {
      prime = prime_value t.prime;
      subgroups = t.subgroups.items;
      candidates = t.candidates.items;
    } };

    ghost invariant = { λ t. AreCandidatesOver t.subgroups.items t.candidates.items };
}

impl ParamTable {
    ghost use Rattle.param_test.specs.Tables.{AreRestrictions};

    /// No subgroups and no candidates yet.
    pub fn new(alloc: Global, p: Prime) -> ParamTable
        ensures { result ≡ record { prime = prime_value p; subgroups = []; candidates = [] } }
    {
        ParamTable {
            prime: p,
            subgroups: Vec::new(alloc),
            candidates: Vec::new(alloc),
        }
    }

    /// Adds a subgroup, by the generators of its cohomology ring, before the first candidate. After an error
    /// the table is as before.
    pub fn add_subgroup(&mut self, gens: Gens) -> Result<(), Memory>
        requires prime { gens.prime ≡ self.old.prime }
        requires before { self.old.candidates ≡ [] }
        ensures ok { OnOk result (self.new
            ≡ record self.old { subgroups = self.old.subgroups ++ gens ∷ [] }) }
        ensures err { OnErr result (self.new ≡ self.old) }
    {
        self.subgroups.push(gens)?;
        Ok(())
    }

    /// Adds a candidate of a degree not below that of the last, with its restriction to each subgroup. After
    /// an error the table is as before.
    pub fn add_candidate(&mut self, degree: u32, images: Polys) -> Result<(), Memory>
        requires few { length self.old.candidates < 4294967295 }
        requires low { degree ≤ GREATEST_DEGREE }
        requires order { All (λ c. c.degree ≤ degree) self.old.candidates }
        requires images { AreRestrictions self.old.subgroups degree images }
        ensures ok { OnOk result (self.new ≡ record self.old {
          candidates = self.old.candidates ++ record { degree = degree; images = images } ∷ [];
        }) }
        ensures err { OnErr result (self.new ≡ self.old) }
    {
        self.candidates.push(Candidate { degree, images })?;
        Ok(())
    }
}
