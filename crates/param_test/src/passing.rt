//! Whether the restrictions of a tuple of candidates are finite on each subgroup.

ghost use Rattle.std.specs.Prelude.{◌≡◌, ◌<◌, ◌≤◌, true, false, map, length, All, IfOk, slice_get, Some};
ghost use Rattle.limits.specs.declared.TheConstants.{GREATEST_DEGREE};
ghost use Rattle.gc_poly.specs.Generators.{Generators};
ghost use Rattle.gc_poly.specs.Polynomials.{IsOverGenerators};
ghost use Rattle.param_test.specs.Variables.{variables, all_kept};
ghost use Rattle.param_test.specs.Finiteness.{IsFinite};
ghost use Rattle.param_test.specs.Parameters.{restriction, Passes};

use crate::answer::Finite;
use crate::degrees::finite_in;
use crate::restriction::{count_variables, keep, ring_of};
use crate::table::ParamTable;
use gc_poly::{Gens, Poly, Polys};
use group_table::Memory;
use std::alloc::Global;

impl ParamTable {
    // The restriction of candidate k to subgroup j.
    fn restriction(&self, j: usize, k: usize) -> &Poly
        requires candidate { k < length self.now.candidates }
        requires subgroup { j < length self.now.subgroups }
        ensures value { result.now ≡ restriction self.now j k }
        ensures over { (g : Generators) → slice_get self.now.subgroups j ≡ Some g
            → IsOverGenerators g result.now }
        ensures low { result.now.degree ≤ GREATEST_DEGREE }
    {
        self.candidates[k].images.get(j)
    }

    // The restrictions of the candidates of a tuple to subgroup j, in the variables.
    fn kept_restrictions(
        &self,
        alloc: Global,
        gens: &Gens,
        ring: &Gens,
        j: usize,
        tuple: &[usize],
    ) -> Result<Polys, Memory>
        requires inside { All (λ k. k < length self.now.candidates) tuple.now }
        requires subgroup { j < length self.now.subgroups }
        requires gens { slice_get self.now.subgroups j ≡ Some gens.now }
        requires ring { ring.now ≡ variables gens.now }
        ensures kept { IfOk result (λ fs. fs ≡ all_kept gens.now (map (restriction self.now j) tuple.now)) }
        ensures over { IfOk result (All (IsOverGenerators ring.now)) }
        ensures low { IfOk result (All (λ f. f.degree ≤ 24)) }
    {
        let mut kept = Polys::new(alloc);
        for k in tuple {
            kept.push(keep(alloc, gens, ring, self.restriction(j, *k))?)?;
        }
        Ok(kept)
    }

    // Whether the restrictions to subgroup j are finite.
    fn is_finite_on(&self, alloc: Global, tuple: &[usize], j: usize) -> Result<bool, Memory>
        requires inside { All (λ k. k < length self.now.candidates) tuple.now }
        requires subgroup { j < length self.now.subgroups }
        ensures yes { IfOk result (λ b. b ≡ true → (g : Generators) → slice_get self.now.subgroups j ≡ Some g
            → IsFinite g (map (restriction self.now j) tuple.now)) }
        ensures no { IfOk result (λ b. b ≡ false → (g : Generators) → slice_get self.now.subgroups j ≡ Some g
            → IsFinite g (map (restriction self.now j) tuple.now) → ⊥) }
    {
        let gens = &self.subgroups[j];
        if count_variables(gens) > 1500 {
            return Ok(false);
        }
        let ring = ring_of(alloc, gens)?;
        let kept = self.kept_restrictions(alloc, gens, &ring, j, tuple)?;
        match finite_in(alloc, &ring, &kept)? {
            Finite::Yes(_) => Ok(true),
            Finite::No(_) => Ok(false),
            Finite::TooMany(_) => Ok(false),
        }
    }

    /// Whether the restrictions of the candidates of a tuple are finite on each subgroup.
    pub(crate) fn passes(&self, alloc: Global, tuple: &[usize]) -> Result<bool, Memory>
        requires { All (λ k. k < length self.now.candidates) tuple.now }
        ensures yes { IfOk result (λ b. b ≡ true → Passes self.now tuple.now) }
        ensures no { IfOk result (λ b. b ≡ false → Passes self.now tuple.now → ⊥) }
    {
        for j in 0..self.subgroups.len() {
            if !self.is_finite_on(alloc, tuple, j)? {
                return Ok(false);
            }
        }
        Ok(true)
    }
}
