//! Graded commutative algebras by generators and relations: evaluation of polynomials in classes, which
//! generators and relations are taken
//! degree by degree, that they present the algebra, standard monomials and normal forms.
//! The laws are stated for algebras of vectors over the field of p = q + 1 elements.
#![tactic(auto)]

ghost use Rattle.std.specs.Prelude.{◌≡◌, ℕ, suc, ◌+◌, ◌<◌, List, ◌++◌, true};
ghost use Rattle.std.specs.List.{AllByRecursion as Each};
ghost use Rattle.linear_algebra.specs.Modular.{IsFieldModulo};
ghost use Rattle.graded_polynomials.specs.Monomials.{fits, joined, IsMonomial, IsMonomials};
ghost use Rattle.graded_polynomials.specs.Polynomials.{Term, Polynomial};
ghost use Rattle.graded_algebra.specs.Algebras.{Generator, degrees};
ghost use Rattle.graded_algebra.specs.Presentations.{IsGenerators, IsSpanGenerators, IsRelations, IsStandard};
ghost use Rattle.graded_algebra.specs.Presentations.{IsNormalForm};
ghost use Rattle.graded_algebra.specs.Vectors.{Vector, vectors, GradedAlgebra, IsOfDegree, algebra, basis};
ghost use Rattle.graded_algebra.specs.Claims.{PresentationClaims};

/// Generators and relations that are taken degree by degree through n present the algebra through n, and none
/// of them is superfluous.
pub fn presentation()
    ensures { (q n : ℕ) → IsFieldModulo (suc q)
        → (G : GradedAlgebra q) (gs : List (Generator (Vector q))) (rs : List Polynomial)
        → IsGenerators q (algebra q G) (basis q G) n gs → IsRelations q (algebra q G) gs n rs
        → PresentationClaims q (Vector q) (algebra q G) (IsOfDegree q G) n gs rs }
{}

/// There is one list of generators through a degree, whatever the product is.
pub fn one_list_of_generators()
    ensures { (q n : ℕ) (mul : ℕ → ℕ → Vector q → Vector q → Vector q) (basis : ℕ → List (Vector q))
        (gs hs : List (Generator (Vector q)))
        → IsGenerators q (vectors q mul) basis n gs → IsGenerators q (vectors q mul) basis n hs → gs ≡ hs }
{}

/// There is one list of relations through a degree, whatever the product is.
pub fn one_list_of_relations()
    ensures { (q n : ℕ) (mul : ℕ → ℕ → Vector q → Vector q → Vector q) (gs : List (Generator (Vector q)))
        (rs ss : List Polynomial)
        → IsRelations q (vectors q mul) gs n rs → IsRelations q (vectors q mul) gs n ss → rs ≡ ss }
{}

/// A class has one normal form, whatever the product is.
pub fn one_normal_form()
    ensures { (q d : ℕ) (mul : ℕ → ℕ → Vector q → Vector q → Vector q) (gs : List (Generator (Vector q)))
        (ms : List (List ℕ)) → IsMonomials q (degrees gs) d ms → (v : Vector q) (f g : List Term)
        → IsNormalForm q (vectors q mul) gs d v f → IsNormalForm q (vectors q mul) gs d v g → f ≡ g }
{}

/// A quotient of a standard monomial is standard.
pub fn quotients_of_standard_monomials()
    ensures { (q e d : ℕ) (G : GradedAlgebra q) (gs : List (Generator (Vector q))) (a m : List ℕ)
        → IsMonomial q (degrees gs) e a → IsMonomial q (degrees gs) d m
        → fits q (degrees gs) (joined a m) ≡ true
        → IsStandard q (algebra q G) gs (e + d) (joined a m) → IsStandard q (algebra q G) gs d m }
{}

/// Generators taken by spans of monomials are those taken by values of polynomials.
pub fn generators_by_spans()
    ensures { (q n : ℕ) (G : GradedAlgebra q) (gs : List (Generator (Vector q)))
        → IsSpanGenerators q (algebra q G) (basis q G) n gs → IsGenerators q (algebra q G) (basis q G) n gs }
{}

/// There is one list of generators by spans through a degree, whatever the product is.
pub fn one_list_of_span_generators()
    ensures { (q n : ℕ) (mul : ℕ → ℕ → Vector q → Vector q → Vector q) (basis : ℕ → List (Vector q))
        (gs hs : List (Generator (Vector q)))
        → IsSpanGenerators q (vectors q mul) basis n gs → IsSpanGenerators q (vectors q mul) basis n hs
        → gs ≡ hs }
{}

/// The relations through n stay those where generators of degree above n are added, whatever the product is.
pub fn relations_stay()
    ensures { (q n : ℕ) (mul : ℕ → ℕ → Vector q → Vector q → Vector q) (gs new : List (Generator (Vector q)))
        (rs : List Polynomial) → Each (λ e. n < e) (degrees new)
        → IsRelations q (vectors q mul) gs n rs → IsRelations q (vectors q mul) (gs ++ new) n rs }
{}
