//! The relations and standard monomials of a degree from the standard monomials of lower degrees, without a
//! list of all monomials: candidates, the critical rows that tell which of them lead in the consequences of
//! lower relations, and the relations among the others. A row has one number modulo p for each member of a
//! list of monomials, and x_i is generator i. The laws hold for graded commutative algebras of vectors over
//! the field of p = q + 1 elements (Becker and Weispfenning, "Groebner Bases", 5.3 and 5.5; Green, LNM 1828,
//! chapter 4).
#![tactic(auto)]

mod more_generators;

ghost use Rattle.std.specs.Prelude.{◌≡◌, ◌≢◌, ℕ, suc, ◌+◌, ◌*◌, ◌<◌, ◌≤◌, ◌↔◌, false, true, List, [], ◌++◌};
ghost use Rattle.std.specs.Prelude.{length, map, slice_index_or};
ghost use Rattle.std.specs.List.{AllByRecursion as Each};
ghost use Rattle.linear_algebra.specs.Modular.{IsFieldModulo};
ghost use Rattle.linear_algebra.specs.Rows.{IsRow, IsEchelonOf, IsReduced as IsRowReduced, IsPivot};
ghost use Rattle.linear_algebra.specs.Kernels.{IsKernelOf};
ghost use Rattle.linear_algebra.specs.Choices.{IsPreimage, IsGreedy};
ghost use Rattle.graded_polynomials.specs.Monomials.{IsMonomial, IsMonomials, IsGreater, degree, fits};
ghost use Rattle.graded_polynomials.specs.Monomials.{joined, sign, swaps};
ghost use Rattle.graded_polynomials.specs.Polynomials.{Term, Polynomial, IsOver, scaled};
ghost use Rattle.graded_polynomials.specs.Texts.{power};
ghost use Rattle.graded_algebra.specs.Algebras.{Generator, degrees, evaluate, times, value};
ghost use Rattle.graded_algebra.specs.Presentations.{IsLeading, IsConsequence, IsRelations, IsStandard};
ghost use Rattle.graded_algebra.specs.Presentations.{IsNormalForm, IsSpanGenerators, generators_of};
ghost use Rattle.graded_algebra.specs.Vectors.{Vector, GradedAlgebra, algebra, basis, unit, vectors};
ghost use Rattle.presentation_rows.specs.Pivots.{new_relations};
ghost use Rattle.presentation_rows.specs.RowPolynomials.{polynomial_of, row_of};
ghost use Rattle.presentation_rows.specs.Values.{vector, AreValues, AreUnitRows};
ghost use Rattle.ring_completion.specs.Candidates.{AreSome, IsListed, IsQuotient, AreCandidates, AreLeft};
ghost use Rattle.ring_completion.specs.Completions.{generator_times, degree_of, IsGenerator, IsStandardOf};
ghost use Rattle.ring_completion.specs.Completions.{IsClearBefore, AreProducts};
ghost use Rattle.ring_completion.specs.Borders.{AreReached};
ghost use Rattle.ring_completion.specs.Eliminations.{AreForms, AreCritical, exchange, form_of};
ghost use Rattle.ring_completion.specs.Left.{without_pivots, IsForm, AreFormsLeft, IsCompletion};
ghost use Rattle.ring_completion.specs.Listings.{AreStandardLists, candidates_of, is_clear_before, is_listed};
ghost use Rattle.ring_completion.specs.Listings.{standard_of};

pub use more_generators::{
    candidates_with_one_more_generator, forms_with_one_more_generator,
    left_monomials_with_one_more_generator, products_with_more_generators,
    standard_lists_with_next_degree,
};

/// The standard monomials of a degree are among its candidates.
pub fn standard_monomials_are_candidates()
    ensures { (q d : ℕ) (G : GradedAlgebra q) (gs : List (Generator (Vector q))) (ms : List (List ℕ))
        → AreCandidates q (algebra q G) gs d ms
        → (m : List ℕ) → IsMonomial q (degrees gs) d m → IsStandard q (algebra q G) gs d m → IsListed ms m }
{}

/// A candidate leads in the consequences of the relations of lower degree exactly where it is a pivot of the
/// critical rows: those of the exchanges and squares, as in Buchberger's criterion (Becker and Weispfenning,
/// "Groebner Bases", 5.3).
pub fn leading_candidates()
    ensures { (q n k : ℕ) (G : GradedAlgebra q) (gs : List (Generator (Vector q))) (rs : List Polynomial)
        (ms : List (List ℕ)) (products : ℕ → List ℕ → List Term) (forms : ℕ → List ℕ → List ℕ)
        (rows reduced : List (List ℕ))
        → IsFieldModulo (suc q) → Each (λ e. 0 < e) (degrees gs) → IsRelations q (algebra q G) gs n rs
        → IsCompletion q G.mul gs rs (suc n) ms products forms rows
        → IsEchelonOf (suc q) (length ms) rows reduced → k < length ms
        → IsLeading q (algebra q G) (IsConsequence q (algebra q G) gs rs (suc n)) (slice_index_or ms k [])
        ↔ IsPivot reduced k }
{}

/// The candidates that are no pivots of the critical rows are the monomials that lead in no consequence of
/// the relations of lower degree.
pub fn candidates_that_are_left()
    ensures { (q n : ℕ) (G : GradedAlgebra q) (gs : List (Generator (Vector q))) (rs : List Polynomial)
        (ms : List (List ℕ)) (products : ℕ → List ℕ → List Term) (forms : ℕ → List ℕ → List ℕ)
        (rows reduced : List (List ℕ))
        → IsFieldModulo (suc q) → Each (λ e. 0 < e) (degrees gs) → IsRelations q (algebra q G) gs n rs
        → IsCompletion q G.mul gs rs (suc n) ms products forms rows
        → IsEchelonOf (suc q) (length ms) rows reduced
        → AreLeft q (algebra q G) gs rs (suc n) (without_pivots reduced 0 ms) }
{}

/// The monomials that are a generator times a standard monomial serve as the candidates do: with the rows of
/// the products as forms, those that are no pivots of the critical rows are the monomials that lead in no
/// consequence of the relations of lower degree, and a form that is reduced is one over them.
pub fn monomials_that_are_left()
    ensures left { (q n : ℕ) (G : GradedAlgebra q) (gs : List (Generator (Vector q))) (rs : List Polynomial)
        (ms : List (List ℕ)) (products : ℕ → List ℕ → List Term) (forms : ℕ → List ℕ → List ℕ)
        (rows reduced : List (List ℕ))
        → IsFieldModulo (suc q) → Each (λ e. 0 < e) (degrees gs) → IsRelations q (algebra q G) gs n rs
        → AreReached q (algebra q G) gs (suc n) ms → AreProducts q (algebra q G) gs (suc n) products
        → AreForms q G.mul gs rs (suc n) ms forms → AreCritical q G.mul gs (suc n) products forms rows
        → IsEchelonOf (suc q) (length ms) rows reduced
        → AreLeft q (algebra q G) gs rs (suc n) (without_pivots reduced 0 ms) }
    ensures forms { (q n : ℕ) (G : GradedAlgebra q) (gs : List (Generator (Vector q))) (rs : List Polynomial)
        (ms : List (List ℕ)) (products : ℕ → List ℕ → List Term) (forms : ℕ → List ℕ → List ℕ)
        (rows reduced : List (List ℕ))
        → IsFieldModulo (suc q) → Each (λ e. 0 < e) (degrees gs) → IsRelations q (algebra q G) gs n rs
        → AreReached q (algebra q G) gs (suc n) ms → AreProducts q (algebra q G) gs (suc n) products
        → AreForms q G.mul gs rs (suc n) ms forms → AreCritical q G.mul gs (suc n) products forms rows
        → IsEchelonOf (suc q) (length ms) rows reduced
        → AreFormsLeft q (algebra q G) gs rs (suc n) ms reduced }
{}

/// The candidates are those monomials with a standard quotient of which each quotient is standard.
pub fn candidates_among_products()
    ensures { (q n : ℕ) (G : GradedAlgebra q) (gs : List (Generator (Vector q))) (rs : List Polynomial)
        (ms cs : List (List ℕ))
        → IsFieldModulo (suc q) → Each (λ e. 0 < e) (degrees gs) → IsRelations q (algebra q G) gs n rs
        → AreReached q (algebra q G) gs (suc n) ms → AreSome q (degrees gs) (suc n) cs
        → ((k i e : ℕ) (r : List ℕ) → k < length cs → IsQuotient q (degrees gs) i e r (slice_index_or cs k [])
        → IsStandard q (algebra q G) gs e r)
        → ((k : ℕ) → k < length ms
        → ((i e : ℕ) (r : List ℕ) → IsQuotient q (degrees gs) i e r (slice_index_or ms k [])
        → IsStandard q (algebra q G) gs e r)
        → IsListed cs (slice_index_or ms k []))
        → AreCandidates q (algebra q G) gs (suc n) cs }
{}

/// The rows of the kernel of the values of the candidates, whose pivots are none of the critical rows', are
/// the new relations.
pub fn relations_of_candidates()
    ensures { (q n : ℕ) (G : GradedAlgebra q) (gs : List (Generator (Vector q))) (rs : List Polynomial)
        (ms : List (List ℕ)) (products : ℕ → List ℕ → List Term) (forms : ℕ → List ℕ → List ℕ)
        (rows reduced values kernel : List (List ℕ))
        → IsFieldModulo (suc q) → Each (λ e. 0 < e) (degrees gs) → IsRelations q (algebra q G) gs n rs
        → IsCompletion q G.mul gs rs (suc n) ms products forms rows
        → IsEchelonOf (suc q) (length ms) rows reduced
        → AreValues q (algebra q G) gs ms values → IsKernelOf (suc q) values kernel
        → IsRelations q (algebra q G) gs (suc n) (rs ++ new_relations (suc n) ms reduced kernel) }
{}

/// The rows of the kernel of the values of the monomials that lead in no consequence of the relations of
/// lower degree are the new relations.
pub fn relations_of_left_monomials()
    ensures { (q n : ℕ) (G : GradedAlgebra q) (gs : List (Generator (Vector q))) (rs : List Polynomial)
        (ms values kernel : List (List ℕ))
        → IsFieldModulo (suc q) → Each (λ e. 0 < e) (degrees gs) → IsRelations q (algebra q G) gs n rs
        → AreLeft q (algebra q G) gs rs (suc n) ms → AreValues q (algebra q G) gs ms values
        → IsKernelOf (suc q) values kernel
        → IsRelations q (algebra q G) gs (suc n) (rs ++ new_relations (suc n) ms [] kernel) }
{}

/// Of the monomials that lead in no consequence those are standard that are no pivots of the kernel of the
/// values, and no others are standard.
pub fn standard_left_monomials()
    ensures pivots { (q n k : ℕ) (G : GradedAlgebra q) (gs : List (Generator (Vector q)))
        (rs : List Polynomial) (ms values kernel : List (List ℕ))
        → IsFieldModulo (suc q) → Each (λ e. 0 < e) (degrees gs) → IsRelations q (algebra q G) gs n rs
        → AreLeft q (algebra q G) gs rs (suc n) ms → AreValues q (algebra q G) gs ms values
        → IsKernelOf (suc q) values kernel → k < length ms
        → IsStandard q (algebra q G) gs (suc n) (slice_index_or ms k []) ↔ (IsPivot kernel k → ⊥) }
    ensures all { (q n : ℕ) (G : GradedAlgebra q) (gs : List (Generator (Vector q))) (rs : List Polynomial)
        (ms values kernel : List (List ℕ))
        → IsFieldModulo (suc q) → Each (λ e. 0 < e) (degrees gs) → IsRelations q (algebra q G) gs n rs
        → AreLeft q (algebra q G) gs rs (suc n) ms → AreValues q (algebra q G) gs ms values
        → IsKernelOf (suc q) values kernel
        → (m : List ℕ) → IsMonomial q (degrees gs) (suc n) m → IsStandard q (algebra q G) gs (suc n) m
        → IsListed ms m }
{}

/// The preimage of a class, over the monomials that lead in no consequence, that is 0 at the kernel's pivots
/// is the row of its normal form.
pub fn normal_forms_over_left_monomials()
    ensures { (q n : ℕ) (G : GradedAlgebra q) (gs : List (Generator (Vector q))) (rs : List Polynomial)
        (ms values kernel : List (List ℕ)) (c u : List ℕ)
        → IsFieldModulo (suc q) → Each (λ e. 0 < e) (degrees gs) → IsRelations q (algebra q G) gs n rs
        → AreLeft q (algebra q G) gs rs (suc n) ms → AreValues q (algebra q G) gs ms values
        → IsKernelOf (suc q) values kernel
        → IsPreimage (suc q) values kernel c u
        → IsNormalForm q (algebra q G) gs (suc n) (vector q c) (polynomial_of ms u) }
{}

/// A descending list of the monomials of which each quotient by a generator is standard is the list of
/// candidates.
pub fn candidates_by_quotients()
    ensures { (q n : ℕ) (G : GradedAlgebra q) (gs : List (Generator (Vector q))) (rs : List Polynomial)
        (ms : List (List ℕ))
        → IsFieldModulo (suc q) → Each (λ e. 0 < e) (degrees gs) → IsRelations q (algebra q G) gs n rs
        → AreSome q (degrees gs) (suc n) ms
        → ((k i e : ℕ) (r : List ℕ) → k < length ms → IsQuotient q (degrees gs) i e r (slice_index_or ms k [])
        → IsStandard q (algebra q G) gs e r)
        → ((m : List ℕ) → IsMonomial q (degrees gs) (suc n) m
        → ((i e : ℕ) (r : List ℕ) → IsQuotient q (degrees gs) i e r m → IsStandard q (algebra q G) gs e r)
        → IsListed ms m)
        → AreCandidates q (algebra q G) gs (suc n) ms }
{}

/// The form of a product that is 0 is 0, and that of a product that is a candidate is its row, whatever the
/// product of vectors is.
pub fn forms_of_zero_and_of_candidates()
    ensures zero { (q d i : ℕ) (mul : ℕ → ℕ → Vector q → Vector q → Vector q)
        (gs : List (Generator (Vector q))) (rs : List Polynomial)
        (ms : List (List ℕ)) (s u : List ℕ) → AreSome q (degrees gs) d ms
        → fits q (degrees gs) (joined (power i 1) s) ≡ false
        → vector q u ≡ (vectors q mul).zero
        → IsForm q (vectors q mul) gs rs d ms (generator_times q (degrees gs) i s) u }
    ensures candidate { (q d i : ℕ) (mul : ℕ → ℕ → Vector q → Vector q → Vector q)
        (gs : List (Generator (Vector q))) (rs : List Polynomial)
        (ms : List (List ℕ)) (s : List ℕ) → AreSome q (degrees gs) d ms → IsListed ms (joined (power i 1) s)
        → IsForm q (vectors q mul) gs rs d ms (generator_times q (degrees gs) i s)
        (row_of q ms (generator_times q (degrees gs) i s)) }
{}

/// The form of x_i x_j r, where x_j r is standard, is by sign the sum of the forms of x_j t over the terms t
/// of the product x_i r.
pub fn forms_by_another_factor()
    ensures { (q n i j e : ℕ) (G : GradedAlgebra q) (gs : List (Generator (Vector q))) (rs : List Polynomial)
        (ms : List (List ℕ))
        (products : ℕ → List ℕ → List Term) (forms : ℕ → List ℕ → List ℕ) (r u : List ℕ)
        → IsFieldModulo (suc q) → Each (λ e. 0 < e) (degrees gs) → IsRelations q (algebra q G) gs n rs
        → AreSome q (degrees gs) (suc n) ms
        → AreProducts q (algebra q G) gs (suc n) products → i ≢ j → IsGenerator q (degrees gs) i
        → IsGenerator q (degrees gs) j
        → IsStandardOf q (algebra q G) gs e r
        → degree_of (degrees gs) i + (degree_of (degrees gs) j + e) ≡ suc n
        → IsMonomial q (degrees gs) (degree_of (degrees gs) j + e) (joined (power j 1) r)
        → Each (λ t. IsRow (suc q) (length ms) (forms j t.monomial)
        × IsForm q (algebra q G) gs rs (suc n) ms (generator_times q (degrees gs) j t.monomial)
        (forms j t.monomial))
        (products i r)
        → vector q u ≡ times (algebra q G)
        (sign q (swaps (degrees gs) (power j 1) r)
        * sign q (degree_of (degrees gs) i * degree_of (degrees gs) j))
        (form_of q G.mul gs forms j (products i r))
        → IsForm q (algebra q G) gs rs (suc n) ms (generator_times q (degrees gs) i (joined (power j 1) r)) u }
{}

/// The normal form of a multiple of a monomial that is not standard has smaller monomials only, and products
/// keep the order.
pub fn normal_forms_are_smaller()
    ensures smaller { (q e c : ℕ) (mul : ℕ → ℕ → Vector q → Vector q → Vector q)
        (gs : List (Generator (Vector q))) (ns : List (List ℕ)) (k : List ℕ) (f : List Term)
        → IsMonomials q (degrees gs) e ns → IsMonomial q (degrees gs) e k
        → (IsStandard q (vectors q mul) gs e k → ⊥)
        → IsNormalForm q (vectors q mul) gs e (times (vectors q mul) c (evaluate (vectors q mul) gs k)) f
        → Each (λ t. IsGreater k t.monomial) f }
    ensures ordered { (a m n : List ℕ) → IsGreater m n → IsGreater (joined a m) (joined a n) }
{}

/// A form over the candidates that is reduced by the critical rows is a form over the candidates that are
/// left.
pub fn forms_over_left_candidates()
    ensures { (q n : ℕ) (G : GradedAlgebra q) (gs : List (Generator (Vector q))) (rs : List Polynomial)
        (ms : List (List ℕ)) (products : ℕ → List ℕ → List Term) (forms : ℕ → List ℕ → List ℕ)
        (rows reduced : List (List ℕ))
        → IsFieldModulo (suc q) → Each (λ e. 0 < e) (degrees gs) → IsRelations q (algebra q G) gs n rs
        → IsCompletion q G.mul gs rs (suc n) ms products forms rows
        → IsEchelonOf (suc q) (length ms) rows reduced
        → AreFormsLeft q (algebra q G) gs rs (suc n) ms reduced }
{}

/// A form over the monomials that lead in no consequence, reduced by the kernel of their values, is the row
/// of the normal form of the product.
pub fn products_of_forms()
    ensures { (q n : ℕ) (G : GradedAlgebra q) (gs : List (Generator (Vector q))) (rs : List Polynomial)
        (ms values kernel : List (List ℕ)) (f : List Term) (u w : List ℕ)
        → IsFieldModulo (suc q) → Each (λ e. 0 < e) (degrees gs) → IsRelations q (algebra q G) gs n rs
        → AreLeft q (algebra q G) gs rs (suc n) ms → AreValues q (algebra q G) gs ms values
        → IsKernelOf (suc q) values kernel
        → IsForm q (algebra q G) gs rs (suc n) ms f u
        → IsRow (suc q) (length ms) w → IsRowReduced (suc q) kernel u w
        → IsNormalForm q (algebra q G) gs (suc n) (value (algebra q G) gs f) (polynomial_of ms w) }
{}

/// The unit vectors at the greedy positions after the values of the monomials that lead in no consequence are
/// the classes of the new generators.
pub fn generators_after_left_monomials()
    ensures { (q n : ℕ) (G : GradedAlgebra q) (gs : List (Generator (Vector q))) (rs : List Polynomial)
        (ms values span unit_rows : List (List ℕ)) (positions : List ℕ)
        → IsFieldModulo (suc q) → Each (λ e. 0 < e) (degrees gs) → IsRelations q (algebra q G) gs n rs
        → AreLeft q (algebra q G) gs rs (suc n) ms → AreValues q (algebra q G) gs ms values
        → IsSpanGenerators q (algebra q G) (basis q G) n gs
        → IsEchelonOf (suc q) (G.ranks (suc n)) values span → AreUnitRows (G.ranks (suc n)) unit_rows
        → IsGreedy (suc q) unit_rows span positions
        → IsSpanGenerators q (algebra q G) (basis q G) (suc n)
        (gs ++ generators_of q (algebra q G) (suc n) (map (unit q) positions)) }
{}

/// Monomials by their first factor: each of positive degree is a generator times a monomial with no factor
/// before it, and the earlier generator gives the greater product.
pub fn monomials_by_first_factor()
    ensures all { (q d : ℕ) (ds m : List ℕ) → 0 < d → IsMonomial q ds d m
        → (i : ℕ) × (s : List ℕ) × IsQuotient q ds i (degree ds s) s m × IsClearBefore i s }
    ensures order { (i j : ℕ) (s t : List ℕ) → i < j → IsClearBefore i s → IsClearBefore j t
        → IsGreater (joined (power i 1) s) (joined (power j 1) t) }
{}

/// Where x_i x_j s is a candidate, the exchange of x_i and x_j at s is 0.
pub fn exchanges_at_candidates()
    ensures { (q n i j e : ℕ) (G : GradedAlgebra q) (gs : List (Generator (Vector q))) (rs : List Polynomial)
        (ms : List (List ℕ)) (products : ℕ → List ℕ → List Term) (forms : ℕ → List ℕ → List ℕ) (s : List ℕ)
        → IsFieldModulo (suc q) → Each (λ e. 0 < e) (degrees gs) → IsRelations q (algebra q G) gs n rs
        → AreCandidates q (algebra q G) gs (suc n) ms → AreProducts q (algebra q G) gs (suc n) products
        → AreForms q G.mul gs rs (suc n) ms forms → i < j → IsGenerator q (degrees gs) i
        → IsGenerator q (degrees gs) j
        → IsStandardOf q (algebra q G) gs e s
        → degree_of (degrees gs) i + (degree_of (degrees gs) j + e) ≡ suc n
        → IsListed ms (joined (power i 1) (joined (power j 1) s))
        → exchange q G.mul gs products forms i j s ≡ (algebra q G).zero }
{}

/// The list that is made by first factors from the lists of standard monomials of degrees 1 to n is that of
/// the candidates of degree n + 1.
pub fn candidates_as_listed()
    ensures { (q n : ℕ) (G : GradedAlgebra q) (gs : List (Generator (Vector q))) (rs : List Polynomial)
        (lists : List (List (List ℕ)))
        → IsFieldModulo (suc q) → Each (λ e. 0 < e) (degrees gs) → IsRelations q (algebra q G) gs n rs
        → AreStandardLists q (algebra q G) gs n lists
        → AreCandidates q (algebra q G) gs (suc n) (candidates_of q (degrees gs) lists (suc n)) }
{}

/// What loops over lists of generators and of standard monomials see: a generator is a place in the list of
/// degrees, a standard monomial stands in the list of its degree, and tests decide the rest.
pub fn generators_and_standard_monomials_by_lists()
    ensures generators { (q i : ℕ) (ds : List ℕ) → IsGenerator q ds i ↔ i < length ds }
    ensures degrees { (i : ℕ) (ds : List ℕ) → i < length ds → degree_of ds i ≡ slice_index_or ds i 0 }
    ensures standard { (q n e : ℕ) (G : GradedAlgebra q) (gs : List (Generator (Vector q)))
        (rs : List Polynomial) (lists : List (List (List ℕ))) (s : List ℕ)
        → IsFieldModulo (suc q) → Each (λ e. 0 < e) (degrees gs) → IsRelations q (algebra q G) gs n rs
        → AreStandardLists q (algebra q G) gs n lists → e ≤ n
        → IsStandardOf q (algebra q G) gs e s ↔ IsListed (standard_of lists e) s }
    ensures clear { (i : ℕ) (s : List ℕ) → IsClearBefore i s ↔ is_clear_before i s ≡ true }
    ensures listed { (ms : List (List ℕ)) (m : List ℕ) → IsListed ms m ↔ is_listed ms m ≡ true }
{}

/// Each degree has a completion: candidates, products, forms and critical rows.
pub fn completions_exist()
    ensures { (q n : ℕ) (G : GradedAlgebra q) (gs : List (Generator (Vector q))) (rs : List Polynomial)
        → IsFieldModulo (suc q) → Each (λ e. 0 < e) (degrees gs) → IsRelations q (algebra q G) gs n rs
        → (ms : List (List ℕ)) × (products : ℕ → List ℕ → List Term) × (forms : ℕ → List ℕ → List ℕ)
        × (rows : List (List ℕ))
        × IsCompletion q G.mul gs rs (suc n) ms products forms rows }
{}
