//! What generators of the degree add to the candidates, forms, products and lists.

ghost use Rattle.std.specs.Prelude.{◌≡◌, ℕ, suc, ◌+◌, ◌<◌, List, [], ◌∷◌, ◌++◌, length};
ghost use Rattle.std.specs.List.{AllByRecursion as Each};
ghost use Rattle.linear_algebra.specs.Modular.{IsFieldModulo};
ghost use Rattle.linear_algebra.specs.Kernels.{IsKernelOf};
ghost use Rattle.graded_polynomials.specs.Monomials.{IsMonomial};
ghost use Rattle.graded_polynomials.specs.Polynomials.{Term, Polynomial, scaled};
ghost use Rattle.graded_polynomials.specs.Texts.{power};
ghost use Rattle.graded_algebra.specs.Algebras.{Generator, degrees, value};
ghost use Rattle.graded_algebra.specs.Presentations.{IsConsequence, IsRelations, IsNormalForm};
ghost use Rattle.graded_algebra.specs.Vectors.{Vector, GradedAlgebra, IsOfDegree, algebra, vectors};
ghost use Rattle.presentation_rows.specs.RowPolynomials.{polynomial_of};
ghost use Rattle.presentation_rows.specs.Values.{vector, AreValues};
ghost use Rattle.ring_completion.specs.Candidates.{AreCandidates, AreLeft};
ghost use Rattle.ring_completion.specs.Completions.{generator_times, degree_of, IsGenerator, IsStandardOf};
ghost use Rattle.ring_completion.specs.Completions.{AreProducts};
ghost use Rattle.ring_completion.specs.Left.{without_pivots, IsForm};
ghost use Rattle.ring_completion.specs.Listings.{AreStandardLists};

/// One more generator of the degree adds its monomial behind those that lead in no consequence, and its class
/// behind their values.
pub fn left_monomials_with_one_more_generator()
    ensures monomials { (q n : ℕ) (G : GradedAlgebra q) (gs : List (Generator (Vector q)))
        (g : Generator (Vector q)) (rs : List Polynomial) (ms : List (List ℕ))
        → IsFieldModulo (suc q) → Each (λ e. 0 < e) (degrees gs) → IsRelations q (algebra q G) gs n rs
        → g.degree ≡ suc n
        → AreLeft q (algebra q G) gs rs (suc n) ms
        → AreLeft q (algebra q G) (gs ++ g ∷ []) rs (suc n) (ms ++ power (length (degrees gs)) 1 ∷ []) }
    ensures values { (q n : ℕ) (G : GradedAlgebra q) (gs : List (Generator (Vector q)))
        (g : Generator (Vector q)) (rs : List Polynomial)
        (ms values : List (List ℕ)) (w : List ℕ)
        → IsFieldModulo (suc q) → Each (λ e. 0 < e) (degrees gs) → IsRelations q (algebra q G) gs n rs
        → g.degree ≡ suc n
        → AreLeft q (algebra q G) gs rs (suc n) ms → AreValues q (algebra q G) gs ms values
        → vector q w ≡ g.class → IsOfDegree q G g.degree g.class
        → AreValues q (algebra q G) (gs ++ g ∷ []) (ms ++ power (length (degrees gs)) 1 ∷ [])
        (values ++ w ∷ []) }
{}

/// One more generator of the degree adds its monomial behind the candidates.
pub fn candidates_with_one_more_generator()
    ensures { (q n : ℕ) (G : GradedAlgebra q) (gs : List (Generator (Vector q))) (g : Generator (Vector q))
        (ms : List (List ℕ))
        → IsFieldModulo (suc q) → Each (λ e. 0 < e) (degrees gs) → g.degree ≡ suc n
        → AreCandidates q (algebra q G) gs (suc n) ms
        → AreCandidates q (algebra q G) (gs ++ g ∷ []) (suc n) (ms ++ power (length (degrees gs)) 1 ∷ []) }
{}

/// One more generator of the degree leaves the forms as they are, with a 0 behind.
pub fn forms_with_one_more_generator()
    ensures { (q n i e : ℕ) (G : GradedAlgebra q) (gs : List (Generator (Vector q)))
        (g : Generator (Vector q)) (rs : List Polynomial)
        (ms : List (List ℕ)) (s u : List ℕ)
        → IsFieldModulo (suc q) → Each (λ e. 0 < e) (degrees gs) → IsRelations q (algebra q G) gs n rs
        → g.degree ≡ suc n
        → AreLeft q (algebra q G) gs rs (suc n) ms → IsGenerator q (degrees gs) i
        → IsMonomial q (degrees gs) e s → length u ≡ length ms
        → IsForm q (algebra q G) gs rs (suc n) ms (generator_times q (degrees gs) i s) u
        → IsForm q (algebra q G) (gs ++ g ∷ []) rs (suc n) (ms ++ power (length (degrees gs)) 1 ∷ [])
        (generator_times q (degrees (gs ++ g ∷ [])) i s) (u ++ 0 ∷ []) }
{}

/// Products of degrees to n stay where generators of higher degree are added, and normal forms of those of
/// degree n + 1 join them, whatever the product of vectors is.
pub fn products_with_more_generators()
    ensures { (q n : ℕ) (mul : ℕ → ℕ → Vector q → Vector q → Vector q) (gs new : List (Generator (Vector q)))
        (products : ℕ → List ℕ → List Term)
        → Each (λ e. n < e) (degrees new) → AreProducts q (vectors q mul) gs (suc n) products
        → ((i e : ℕ) (s : List ℕ) → IsGenerator q (degrees (gs ++ new)) i
        → IsStandardOf q (vectors q mul) (gs ++ new) e s
        → degree_of (degrees (gs ++ new)) i + e ≡ suc n
        → IsNormalForm q (vectors q mul) (gs ++ new) (suc n)
        (value (vectors q mul) (gs ++ new) (generator_times q (degrees (gs ++ new)) i s)) (products i s))
        → AreProducts q (vectors q mul) (gs ++ new) (suc (suc n)) products }
{}

/// The lists of standard monomials with those of the next degree, where generators of that degree are added.
pub fn standard_lists_with_next_degree()
    ensures { (q n : ℕ) (G : GradedAlgebra q) (gs new : List (Generator (Vector q))) (rs : List Polynomial)
        (lists : List (List (List ℕ)))
        (ms values kernel : List (List ℕ)) → IsFieldModulo (suc q) → Each (λ e. 0 < e) (degrees (gs ++ new))
        → Each (λ e. n < e) (degrees new)
        → length lists ≡ n → AreStandardLists q (algebra q G) gs n lists
        → IsRelations q (algebra q G) (gs ++ new) n rs
        → AreLeft q (algebra q G) (gs ++ new) rs (suc n) ms → AreValues q (algebra q G) (gs ++ new) ms values
        → IsKernelOf (suc q) values kernel
        → AreStandardLists q (algebra q G) (gs ++ new) (suc n) (lists ++ without_pivots kernel 0 ms ∷ []) }
{}
