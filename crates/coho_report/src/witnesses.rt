//! What is in no report: a report with one of these is refused by `IsCohomologyReport` alone.

ghost use Rattle.std.specs.Prelude.{◌≡◌, ◌≢◌, ◌≤◌, ℕ, List, [], ◌∷◌, ◌++◌, Some, slice_get};
ghost use Rattle.std.specs.List.{AllByRecursion as Each};
ghost use Rattle.p_groups.specs.PGroups.{PGroup, prime_of};
ghost use Rattle.graded_polynomials.specs.Monomials.{degree};
ghost use Rattle.graded_polynomials.specs.Polynomials.{Polynomial, Term};
ghost use Rattle.graded_polynomials.specs.Texts.{power};
ghost use Rattle.graded_algebra.specs.Algebras.{degrees};
ghost use Rattle.group_cocycles.specs.Rings.{Generators};
ghost use Rattle.param_test.specs.Variables.{variables};
ghost use Rattle.coho_report.specs.Cohomology.{AreFiniteOn, IsCohomologyReport, IsNamedRing, SubgroupRing};
ghost use Rattle.coho_report.specs.Cohomology.{own_group};
ghost use Rattle.coho_report.specs.Values.{ReportValue, SubgroupValue};

/// A line by which a generator of degree d restricts to a polynomial with a term of another degree is in no
/// report.
pub fn image_of_another_degree()
    ensures { (G : PGroup) (n : ℕ) (r : ReportValue) (i j : ℕ) (v : SubgroupValue) (d : ℕ) (f : Polynomial)
        (first : List Term) (t : Term) (last : List Term)
        → slice_get r.subgroups i ≡ Some v → slice_get r.generators j ≡ Some d
        → slice_get v.images j ≡ Some f → f.terms ≡ first ++ t ∷ last
        → degree v.generators t.monomial ≢ d → IsCohomologyReport G n r → ⊥ }
{}

/// Where a line of a report says that a generator restricts to variable k of a subgroup, no report on the
/// same group through the same degree has variable l in its place. So the lines of a subgroup under an
/// automorphism that exchanges two variables are in no report.
pub fn exchanged_variables()
    ensures { (G : PGroup) (n : ℕ) (r o : ReportValue) (i j k l d e : ℕ) (v w : SubgroupValue)
        → slice_get r.subgroups i ≡ Some v
        → slice_get v.images j
        ≡ Some (record { degree = d; terms = record { scalar = 1; monomial = power k 1 } ∷ [] })
        → slice_get o.subgroups i ≡ Some w
        → slice_get w.images j
        ≡ Some (record { degree = e; terms = record { scalar = 1; monomial = power l 1 } ∷ [] })
        → k ≢ l → IsCohomologyReport G n r → IsCohomologyReport G n o → ⊥ }
{}

/// Parameters that are all 0, of whatever degrees they are said to be, leave no finite ring on a subgroup
/// that has a variable and no relation.
pub fn zero_parameters()
    ensures { (G : PGroup) (n : ℕ) (s : SubgroupRing G) (hs : Generators G) (fs : List Polynomial) (d : ℕ)
        (ds : List ℕ) → IsNamedRing (own_group G s) n s.generators []
        → (variables (record { prime = prime_of G; degrees = degrees s.generators })).degrees ≡ d ∷ ds
        → Each (λ f. (1 ≤ f.degree) × (f.degree ≤ n)) fs → Each (λ f. f.terms ≡ []) fs
        → AreFiniteOn G hs fs s → ⊥ }
{}
