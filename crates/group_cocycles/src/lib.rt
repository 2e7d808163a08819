//! Classes of a p-group are the cocycles of its normalised bar complex up to coboundaries (Brown, "Cohomology
//! of Groups", I.7 and III.1): a class is a row of numbers modulo p, one for each basis element of its degree
//! in the minimal resolution.
#![tactic(auto)]

ghost use Rattle.group_cocycles.specs.Cocycles.{cocycle_of, GroupCochain, IsClass, IsClassOf, IsCoboundary};
ghost use Rattle.group_cocycles.specs.Cocycles.{IsCocycle};
ghost use Rattle.cohomology_algebra.specs.Claims.{IsPresentation};
ghost use Rattle.graded_algebra.specs.Algebras.{Generator, degrees};
ghost use Rattle.graded_algebra.specs.Vectors.{Vector};
ghost use Rattle.graded_polynomials.specs.Monomials.{degree};
ghost use Rattle.graded_polynomials.specs.Polynomials.{Polynomial, Term};
ghost use Rattle.group_algebra.specs.Coordinates.{layer_coordinates};
ghost use Rattle.group_cocycles.specs.Dimensions.{IsDimension};
ghost use Rattle.group_cocycles.specs.Rings.{cocycles_of, Generators, IsCohomologyRing};
ghost use Rattle.linear_algebra.specs.Rows.{entry};
ghost use Rattle.min_res.specs.Stages.{rank_of, stage_rows};
ghost use Rattle.p_groups.specs.PGroups.{PGroup, group, largest_residue};
ghost use Rattle.std.specs.Prelude.{◌≡◌, ◌≢◌, ℕ, List, ◌∷◌, ◌++◌};

/// The cocycle of a class is a cocycle.
pub fn cocycle_law()
    ensures { (G : PGroup) (d : ℕ) (x : List ℕ) → IsCocycle G d (cocycle_of G d x) }
{}

/// It is a coboundary only for the class 0.
pub fn coboundary_law()
    ensures { (G : PGroup) (d : ℕ) (x : List ℕ) → IsClass G d x → IsCoboundary G d (cocycle_of G d x)
        → (k : ℕ) → entry x k ≡ 0 }
{}

/// Each cocycle has a class: one alone, and it differs by a coboundary from the cocycle of that class.
pub fn one_class_law()
    ensures { (G : PGroup) (d : ℕ) (u : GroupCochain G) → IsCocycle G d u
        → (x : List ℕ) × IsClassOf G d u x }
{}

/// Generators and relations through a degree, by classes with products by lifts, are those of the cohomology
/// ring of the bar complex. They exist through every degree (`presentations_exist` of `presentation_rows`).
pub fn ring_law()
    ensures { (G : PGroup) (n : ℕ) (gs : List (Generator (Vector (largest_residue G)))) (rs : List Polynomial)
        → IsPresentation (largest_residue G) (group G) (layer_coordinates G) (stage_rows G) n gs rs
        → IsCohomologyRing G n (cocycles_of G gs) rs }
{}

/// The rank of a degree is the dimension of the cohomology of the bar complex in that degree.
pub fn dimension_law()
    ensures { (G : PGroup) (d : ℕ) → IsDimension G d (rank_of G d) }
{}

/// A relation with a term that is not of the relation's degree is among the relations of no cohomology ring.
pub fn mislabelled_relation()
    ensures { (G : PGroup) (n : ℕ) (hs : Generators G) (before : List Polynomial) (r : Polynomial)
        (after : List Polynomial) (first : List Term) (t : Term) (last : List Term)
        → r.terms ≡ first ++ t ∷ last → degree (degrees hs) t.monomial ≢ r.degree
        → IsCohomologyRing G n hs (before ++ r ∷ after) → ⊥ }
{}
