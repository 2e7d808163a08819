//! The parameters of a ring.

ghost use Rattle.std.specs.Prelude.{◌≡◌, ◌≤◌, ◌<◌, [], length, map, All, AllPairs, IfOk, IfSome};
ghost use Rattle.limits.specs.declared.TheConstants.{GREATEST_DEGREE};
ghost use Rattle.group_table.specs.Prime.{prime_value};
ghost use Rattle.p_groups.specs.PGroups.{largest_residue};
ghost use Rattle.gc_poly.specs.Polynomials.{IsOverGenerators};
ghost use Rattle.param_test.specs.Bounds.{greatest};
ghost use Rattle.ring_present.specs.Values.{generators_of};
ghost use Rattle.coho_report.specs.Choices.{IsChosen, IsClassIn, IsFormAt};
ghost use Rattle.coho_report.specs.OwnRings.{IsRingThrough};
ghost use Rattle.coho_report.specs.Related.{AreRelated};
ghost use Rattle.coho_report.specs.Restrictors.{IsRestrictor, Restricts};
ghost use Rattle.coho_report.specs.Tables.{generators_by, IsTabled};
ghost use Rattle.coho_report.specs.Verdicts.{bound_of};

use crate::candidates::{Candidate, candidates};
use crate::restrictors::{Restrictor, restrictions};
use fp_rows::Positions;
use gc_poly::{Gens, Poly};
use group_table::{Memory, Prime};
use min_res::Resolution;
use param_test::{ParamTable, bound, search};
use ring_present::Ring;
use std::alloc::Global;
use std::marker::Model;

/// Parameters, with the bound that their degrees give.
#[derive(Drop)]
pub struct Parameters {
    forms: Vec<Poly>,
    bound: u32,
}

impl Model for Parameters {
    ghost use Rattle.std.specs.Prelude.{List, ◌≡◌};
    ghost use Rattle.graded_polynomials.specs.Polynomials.{Polynomial};
    ghost use Rattle.coho_report.specs.Verdicts.{bound_of};

    ghost Value = { List Polynomial };

    ghost view = { λ x. x.forms.items };

    ghost invariant = { λ x. x.bound ≡ bound_of x.forms.items };
}

impl Parameters {
    ghost use Rattle.coho_report.specs.Verdicts.{bound_of};

    /// The polynomials.
    pub(crate) fn forms(&self) -> &[Poly]
        ensures { result.now ≡ self.now }
    {
        &self.forms
    }

    /// The bound of their degrees.
    pub(crate) fn bound(&self) -> u32
        ensures { result ≡ bound_of self.now }
    {
        self.bound
    }
}

// The same generators.
fn copy_of(alloc: Global, gens: &Gens) -> Result<Gens, Memory>
    ensures { IfOk result (λ g. g ≡ gens.now) }
{
    let mut copy = Gens::new(alloc, gens.prime());
    for i in 0..gens.len() {
        copy.push(gens.degree(i))?;
    }
    Ok(copy)
}

// The generators of the subgroups' own rings, and no candidates yet.
fn own_generators(alloc: Global, p: Prime, restrictors: &[Restrictor]) -> Result<ParamTable, Memory>
    requires { All (λ x. x.own.value.ring.prime ≡ prime_value p) restrictors.now }
    ensures { IfOk result (λ t. t
        ≡ record { prime = prime_value p; subgroups = generators_by restrictors.now; candidates = [] }) }
{
    let mut table = ParamTable::new(alloc, p);
    for i in 0..restrictors.len() {
        table.add_subgroup(copy_of(alloc, restrictors[i].own.ring.gens())?)?;
    }
    Ok(table)
}

// The candidates with their restrictions.
fn table_of(
    alloc: Global,
    p: Prime,
    restrictors: &[Restrictor],
    candidates: &[Candidate],
) -> Result<ParamTable, Memory>
    requires prime { All (λ x. x.own.value.ring.prime ≡ prime_value p) restrictors.now }
    requires restricts { All (λ c. All (λ x. Restricts x c) restrictors.now) candidates.now }
    requires few { length candidates.now ≤ 4294967295 }
    requires low { All (λ c. c.degree ≤ GREATEST_DEGREE) candidates.now }
    requires order { AllPairs (λ c d. c.degree ≤ d.degree) candidates.now }
    ensures prime { IfOk result (λ t. t.prime ≡ prime_value p) }
    ensures subgroups { IfOk result (λ t. t.subgroups ≡ generators_by restrictors.now) }
    ensures candidates { IfOk result
        (λ t. AreRelated (IsTabled restrictors.now) candidates.now t.candidates) }
{
    let mut table = own_generators(alloc, p, restrictors)?;
    for i in 0..candidates.len() {
        let c = &candidates[i];
        let images = restrictions(alloc, restrictors, c)?;
        table.add_candidate(c.degree, images)?;
    }
    Ok(table)
}

// The greatest rank of the subgroups.
fn greatest_rank(restrictors: &[Restrictor]) -> usize
    ensures { result ≡ greatest (map (λ x. x.own.value.rank) restrictors.now) }
{
    let mut greatest = 0;
    for i in 0..restrictors.len() {
        greatest = greatest.max(restrictors[i].own.rank);
    }
    greatest
}

// The candidates at these places, as polynomials.
fn forms_at(
    alloc: Global,
    ring: &Ring,
    candidates: &[Candidate],
    places: &Positions,
) -> Result<Vec<Poly>, Memory>
    requires classes { All (IsClassIn ring.now) candidates.now }
    requires places { All (λ k. k < length candidates.now) places.now }
    ensures { IfOk result (λ v. AreRelated (IsFormAt ring.now candidates.now) places.now v.items) }
{
    let mut forms = Vec::new(alloc);
    for i in 0..places.len() {
        let c = &candidates[places.get(i) as usize];
        forms.push(ring.normal_form(alloc, c.degree, c.class.view())?)?;
    }
    Ok(forms)
}

// The bound of the degrees.
fn bound_of(alloc: Global, forms: &[Poly]) -> Result<u32, Memory>
    requires few { length forms.now ≤ 8 }
    requires low { All (λ f. f.degree ≤ GREATEST_DEGREE) forms.now }
    ensures { IfOk result (λ b. b ≡ bound_of forms.now) }
{
    let mut degrees = Vec::new(alloc);
    for i in 0..forms.len() {
        degrees.push(forms[i].degree())?;
    }
    Ok(bound(&degrees))
}

/// The parameters of a ring, where the search finds some.
pub(crate) fn find_parameters(
    alloc: Global,
    res: &Resolution,
    ring: &Ring,
    restrictors: &[Restrictor],
) -> Result<Option<Parameters>, Memory>
    requires ring { IsRingThrough res.now.group ring.now.degree ring.now }
    requires within { ring.now.degree ≤ res.now.last }
    requires high { ring.now.degree ≤ GREATEST_DEGREE }
    requires restrictors { All (IsRestrictor res.now.group ring.now.degree) restrictors.now }
    requires ranks { All (λ x. x.own.value.rank ≤ 8) restrictors.now }
    ensures parameters { IfOk result (IsChosen res.now.group ring.now.degree
        (generators_of (largest_residue res.now.group) ring.now.generators) restrictors.now) }
    ensures over { IfOk result (λ found. IfSome found (All (IsOverGenerators (record {
      prime = ring.now.prime;
      degrees = map (λ g. g.degree) ring.now.generators;
    })))) }
{
    let candidates = candidates(alloc, res, ring)?;
    let table = table_of(alloc, ring.gens().prime(), restrictors, &candidates)?;
    match search(alloc, &table, greatest_rank(restrictors))? {
        None => Ok(None),
        Some(places) => {
            let forms = forms_at(alloc, ring, &candidates, &places)?;
            let bound = bound_of(alloc, &forms)?;
            Ok(Some(Parameters { forms, bound }))
        }
    }
}
