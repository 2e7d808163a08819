//! What a report holds.

ghost use Rattle.std.specs.Prelude.{◌≡◌, length};
ghost use Rattle.coho_report.specs.Verdicts.{is_complete};

use crate::parameters::Parameters;
use crate::subgroups::SubgroupReport;
use ring_present::Ring;
use std::marker::Model;

/// What the answer to `ring` tells: the prime, the order of the group, the degree through which the ring is
/// known, the ranks, the generators by their degrees, the relations, the maximal elementary abelian subgroups
/// with the restrictions, and the parameters with their bound.
#[derive(Drop)]
pub struct Report {
    pub(crate) order: u16,
    pub(crate) ranks: Vec<usize>,
    pub(crate) ring: Ring,
    pub(crate) subgroups: Vec<SubgroupReport>,
    pub(crate) parameters: Option<Parameters>,
}

impl Model for Report {
    ghost use Rattle.std.specs.Prelude.{◌≡◌, All, IfSome, length, map};
    ghost use Rattle.gc_poly.specs.Polynomials.{IsOverGenerators};
    ghost use Rattle.coho_report.specs.Values.{ReportValue};

    ghost Value = { ReportValue };

    ghost view = { λ r. record {
      prime = r.ring.prime;
      order = r.order;
      degree = r.ring.degree;
      ranks = r.ranks.items;
      generators = map (λ g. g.degree) r.ring.generators;
      relations = r.ring.relations;
      subgroups = r.subgroups.items;
      parameters = r.parameters;
    } };

    ghost invariant = { λ r. All (λ s. length s.images ≡ length r.ring.generators) r.subgroups.items
        × IfSome r.parameters (All (IsOverGenerators (record {
          prime = r.ring.prime;
          degrees = map (λ g. g.degree) r.ring.generators;
        }))) };
}

impl Report {
    /// The number of generators.
    pub fn generators(&self) -> usize
        ensures { result ≡ length self.now.generators }
    {
        self.ring.gens().len()
    }

    /// The number of relations.
    pub fn relations(&self) -> usize
        ensures { result ≡ length self.now.relations }
    {
        self.ring.relations()
    }

    /// The number of maximal elementary abelian subgroups, up to conjugacy.
    pub fn subgroups(&self) -> usize
        ensures { result ≡ length self.now.subgroups }
    {
        self.subgroups.len()
    }

    /// Whether there are parameters, and their bound is at most the degree through which the ring is known
    /// (Symonds 2010).
    pub fn complete(&self) -> bool
        ensures { result ≡ is_complete self.now.degree self.now.parameters }
    {
        match &self.parameters {
            None => false,
            Some(found) => found.bound() <= self.ring.degree(),
        }
    }
}
