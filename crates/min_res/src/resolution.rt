//! A minimal resolution, a stage at a time.

ghost use Rattle.fp_rows.specs.Refs.{entries_of, modulus_of};
ghost use Rattle.min_res.specs.Defined.{InK, IsExactMinimal, IsSectionOf, IsStageAt, σ};
ghost use Rattle.min_res.specs.Radicals.{IsRadicalBasis};
ghost use Rattle.min_res.specs.Refusals.{AreWithin, IsRefusal};
ghost use Rattle.min_res.specs.RecordChecks.{IsNotAdopted, MayFollow};
ghost use Rattle.min_res.specs.Stages.{rank_of, stage_rows};
ghost use Rattle.min_res.specs.Values.{first_alone};
ghost use Rattle.resolution_stages.specs.Chain.{parts_of};
ghost use Rattle.std.specs.Prelude.{◌≡◌, ◌≤◌, ◌<◌, ◌+◌, ◌-◌, ◌*◌, ◌^◌, ◌↔◌, ℕ, suc, true, false};
ghost use Rattle.std.specs.Prelude.{IfErr, IfOk, IfSome, IsNone, OnErr, OnOk, length, max};
ghost use Rattle.p_groups.specs.PGroups.{order_of, prime_of};

use crate::adopt_fault::AdoptFault;
use crate::adoption::adopted_stage;
use crate::fault::ResFault;
use crate::first::first_stage;
use crate::next::next_stage;
use crate::parts::StageParts;
use crate::stage::Stage;
use fp_rows::{Row, RowRef};
use group_algebra::Algebra;
use group_table::Memory;
use neg_basis::NegBasis;
use std::alloc::Global;
use std::marker::Model;
use std::rc::Rc;

/// The stages 0 to `last` of the minimal resolution of the field of p elements over the group algebra of a
/// p-group.
///
/// It is seen as the group, the numbers `last` and `computed`, and whether `extend` made the last stage: the
/// stage of each degree is that of the group, so a resolution that is extended keeps its algebra and all its
/// stages, and what was made from it is made from the longer one.
#[derive(Drop)]
pub struct Resolution {
    alloc: Global,
    algebra: Algebra,
    stages: Vec<Rc<Stage>>,
    computed: u32,
    radical: Option<NegBasis>,
}

impl Model for Resolution {
    ghost use Rattle.std.specs.Prelude.{◌-◌, is_some, length};
    ghost use Rattle.min_res.specs.Values.{ResolutionValue, coded_resolution};
    ghost use Rattle.min_res.specs.Stores.{stage_values, IsResolutionStore};

    ghost Value = { ResolutionValue };

    ghost coded = { coded_resolution };

    ghost view = { λ r. record {
      group = r.algebra;
      last = length r.stages.items - 1;
      computed = r.computed;
      extended = is_some r.radical;
    } };

    ghost invariant = { λ r. IsResolutionStore r.algebra (stage_values r.stages.items) r.computed r.radical };
}

impl Resolution {
    /// The resolution with the stage of degree 0 alone.
    pub fn start(alloc: Global, a: Algebra) -> Result<Resolution, Memory>
        ensures { IfOk result (λ r. r ≡ first_alone a) }
    {
        let first = Rc::new(alloc, first_stage(alloc, &a)?)?;
        let mut stages = Vec::new(alloc);
        stages.push(first)?;
        Ok(Resolution {
            alloc,
            algebra: a,
            stages,
            computed: 0,
            radical: None,
        })
    }

    /// Adds the next stage. `TooLarge` comes exactly where the order of the group times its rank is above the
    /// limit. After an error the resolution is as before.
    pub fn extend(&mut self, limit: u64) -> Result<(), ResFault>
        requires few { self.old.last + 1 < 2 ^ 32 }
        requires limit { limit ≤ 2 ^ 28 }
        ensures group { self.new.group ≡ self.old.group }
        ensures grown { OnOk result (self.new.last ≡ suc self.old.last) }
        ensures computed { OnOk result (self.new.computed ≡ suc self.old.computed) }
        ensures extended { OnOk result (self.new.extended ≡ true) }
        ensures within { OnOk result
            (order_of self.old.group * rank_of self.old.group (suc self.old.last) ≤ limit) }
        ensures refused { IfErr result (λ e. IsRefusal self.old.group (suc self.old.last) limit e) }
        ensures kept { OnErr result (self.new ≡ self.old) }

        // What the new stage is, for a reader of this clause alone.
        ensures exact_minimal { OnOk result (IsExactMinimal self.old.group self.old.last) }
        ensures section { OnOk result (IsSectionOf self.old.group self.old.last) }
    {
        let (stage, radical) = self.next(limit)?;
        let shared = Rc::new(self.alloc, stage)?;
        self.stages.push(shared)?;
        self.computed += 1;
        self.radical = Some(radical);
        Ok(())
    }

    /// Adds the stages up to degree n, where they are not there. `TooLarge` comes exactly where the order of
    /// the group times the rank is above the limit in one of their degrees, and names the first such degree.
    /// After an error the stages that were there and those that were added stay.
    pub fn extend_to(&mut self, n: u32, limit: u64) -> Result<(), ResFault>
        requires limit { limit ≤ 2 ^ 28 }
        ensures group { self.new.group ≡ self.old.group }
        ensures grown { OnOk result (self.new.last ≡ max self.old.last n) }
        ensures between { (self.old.last ≤ self.new.last) × (self.new.last ≤ max self.old.last n) }
        ensures computed { self.new.computed + self.old.last ≡ self.old.computed + self.new.last }
        ensures extended { self.old.last < self.new.last → self.new.extended ≡ true }
        ensures within { AreWithin self.old.group self.old.last self.new.last limit }
        ensures refused { IfErr result (IsRefusal self.old.group (suc self.new.last) limit) }
        ensures below { OnErr result (self.new.last < n) }
        ensures kept { self.new.last ≡ self.old.last → self.new ≡ self.old }
    {
        while self.last() < n {
            self.extend(limit)?;
        }
        Ok(())
    }

    // The stage after the last one, and the basis of J K that the rows of its boundary are chosen against.
    fn next(&self, limit: u64) -> Result<(Stage, NegBasis), ResFault>
        requires few { self.now.last + 1 < 2 ^ 32 }
        requires limit { limit ≤ 2 ^ 28 }
        ensures stage { IfOk result (λ next. IsStageAt self.now.group (suc self.now.last) next.0) }
        ensures width { IfOk result (λ next. next.0.kernel.width ≤ limit) }
        ensures radical { IfOk result (λ next. IsRadicalBasis self.now.group self.now.last next.1) }
        ensures refusal { IfErr result (λ e. IsRefusal self.now.group (suc self.now.last) limit e) }
    {
        let last = self.stage_at(self.last());
        match next_stage(self.alloc, &self.algebra, last, limit) {
            Ok(next) => Ok(next),
            Err(fault) => Err(fault),
        }
    }

    /// Adds the stage with these parts, which have the sizes of the next one. They are verified by products
    /// alone, and nothing is eliminated. `False` comes exactly where they are not those of the next stage,
    /// with the first check that fails and its first row. After an error the resolution is as before.
    pub fn adopt<S: StageParts>(&mut self, given: &S) -> Result<(), AdoptFault>
        requires few { self.old.last + 1 < 2 ^ 32 }
        requires prime { S.modulus given.now ≡ prime_of self.old.group }
        requires follows { MayFollow self.old.group self.old.last (S.parts given.now) }
        requires small { order_of self.old.group * length (S.parts given.now).positions ≤ 2 ^ 28 }
        ensures group { self.new.group ≡ self.old.group }
        ensures grown { OnOk result (self.new.last ≡ suc self.old.last) }
        ensures computed { self.new.computed ≡ self.old.computed }
        ensures extended { OnOk result (self.new.extended ≡ false) }
        ensures next { OnOk result
            (S.parts given.now ≡ parts_of (stage_rows self.old.group) self.old.last) }
        ensures refused { IfErr result (IsNotAdopted self.old.group self.old.last (S.parts given.now)) }
        ensures kept { OnErr result (self.new ≡ self.old) }
    {
        let stage = self.adopted(given)?;
        let next = Rc::new(self.alloc, stage)?;
        self.stages.push(next)?;
        self.radical = None;
        Ok(())
    }

    // The stage after the last one, with these parts.
    fn adopted<S: StageParts>(&self, given: &S) -> Result<Stage, AdoptFault>
        requires few { self.now.last + 1 < 2 ^ 32 }
        requires prime { S.modulus given.now ≡ prime_of self.now.group }
        requires follows { MayFollow self.now.group self.now.last (S.parts given.now) }
        requires small { order_of self.now.group * length (S.parts given.now).positions ≤ 2 ^ 28 }
        ensures next { OnOk result
            (S.parts given.now ≡ parts_of (stage_rows self.now.group) self.now.last) }
        ensures stage { IfOk result (λ s. IsStageAt self.now.group (suc self.now.last) s) }
        ensures width { IfOk result (λ s. s.kernel.width ≤ 2 ^ 28) }
        ensures refused { IfErr result (IsNotAdopted self.now.group self.now.last (S.parts given.now)) }
    {
        let last = self.stage_at(self.last());
        match adopted_stage(self.alloc, &self.algebra, last, given) {
            Ok(stage) => Ok(stage),
            Err(fault) => Err(fault),
        }
    }

    /// A negative standard basis of J K_(d-1), where `extend` added the last stage, that of degree d; and
    /// `None` exactly where it did not.
    pub fn radical(&self) -> Option<&NegBasis>
        ensures none { IsNone result ↔ (self.now.extended ≡ false) }
        ensures basis { IfSome result (λ b. (d : ℕ) → self.now.last ≡ suc d
            → IsRadicalBasis self.now.group d b.now) }
    {
        self.radical.as_ref()
    }

    /// The group algebra.
    pub fn algebra(&self) -> &Algebra
        ensures { result.now ≡ self.now.group }
    {
        &self.algebra
    }

    /// The degree of the last stage.
    pub fn last(&self) -> u32
        ensures { result ≡ self.now.last }
    {
        (self.stages.len() - 1) as u32
    }

    /// The number of stages that `extend` made: 0 after `start`, and `adopt` keeps it.
    pub fn computed(&self) -> u32
        ensures { result ≡ self.now.computed }
    {
        self.computed
    }

    /// The stage of degree d, which is at most `last`. The rows of its kernel have at most 2^28 entries.
    pub fn stage_at(&self, d: u32) -> &Rc<Stage>
        requires { d ≤ self.now.last }
        ensures stage { IsStageAt self.now.group d result.now.value }
        ensures small { result.now.value.kernel.width ≤ 2 ^ 28 }
    {
        &self.stages[d as usize]
    }

    /// The stage of degree d, and `None` exactly where d is above `last`. The rows of its kernel have at most
    /// 2^28 entries.
    pub fn stage(&self, d: u32) -> Option<&Rc<Stage>>
        ensures none { IsNone result ↔ (self.now.last < d) }
        ensures stage { IfSome result (λ s. IsStageAt self.now.group d s.now.value) }
        ensures small { IfSome result (λ s. s.now.value.kernel.width ≤ 2 ^ 28) }
    {
        if d <= self.last() {
            Some(self.stage_at(d))
        } else {
            None
        }
    }

    /// Writes the section of v, a member of K_(d-1), under the boundary of degree d, which is from 1 to
    /// `last`.
    pub fn section(&self, d: u32, v: RowRef<'_>, out: &mut Row)
        requires from { 1 ≤ d }
        requires to { d ≤ self.now.last }
        requires prime { modulus_of v ≡ prime_of self.now.group }
        requires member { InK self.now.group (d - 1) (entries_of v) }
        requires out_prime { out.old.p ≡ prime_of self.now.group }
        requires out_length { length out.old.entries ≡ order_of self.now.group * rank_of self.now.group d }
        ensures prime { out.new.p ≡ out.old.p }
        ensures value { out.new.entries ≡ σ self.now.group (d - 1) (entries_of v.entry) }
    {
        self.stage_at(d).section(v, out);
    }
}
