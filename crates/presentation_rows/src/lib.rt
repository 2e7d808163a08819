//! The presentation of a graded algebra in one degree, by rows over the field of p = q + 1 elements:
//! monomials are places of rows,
//! their values are rows of a matrix, relations are rows of its kernel, and normal forms are preimages.
//! The laws hold for any product of vectors.
#![tactic(auto)]

ghost use Rattle.std.specs.Prelude.{◌≡◌, ℕ, suc, ◌+◌, ◌*◌, ◌<◌, ◌↔◌, List, [], ◌∷◌, ◌++◌, length, map};
ghost use Rattle.std.specs.Prelude.{slice_index_or};
ghost use Rattle.std.specs.List.{AllByRecursion as Each};
ghost use Rattle.linear_algebra.specs.Modular.{IsFieldModulo};
ghost use Rattle.linear_algebra.specs.Rows.{entry, IsRow, IsEchelonOf, IsCombination, IsPivot};
ghost use Rattle.linear_algebra.specs.Kernels.{IsKernelOf};
ghost use Rattle.linear_algebra.specs.Choices.{IsGreedy, IsPreimage, ArePreimages};
ghost use Rattle.graded_polynomials.specs.Monomials.{IsMonomial, IsMonomials, IsTrimmed};
ghost use Rattle.graded_polynomials.specs.Texts.{power};
ghost use Rattle.graded_polynomials.specs.Polynomials.{Term, Polynomial, IsOver, IsPolynomial, IsSame};
ghost use Rattle.graded_algebra.specs.Algebras.{Generator, degrees, evaluate, value};
ghost use Rattle.graded_algebra.specs.Presentations.{IsRelation, IsConsequence, IsLeading, IsStandard};
ghost use Rattle.graded_algebra.specs.Presentations.{IsSpanGenerators, IsRelations, IsNormalForm};
ghost use Rattle.graded_algebra.specs.Presentations.{generators_of};
ghost use Rattle.graded_algebra.specs.Vectors.{Vector, vectors, unit, units};
ghost use Rattle.presentation_rows.specs.RowPolynomials.{polynomial_of, row_of};
ghost use Rattle.presentation_rows.specs.Ranks.{HasRanks};
ghost use Rattle.presentation_rows.specs.Values.{vector, AreValues, AreUnitRows};
ghost use Rattle.presentation_rows.specs.Factors.{IsLastFactor};
ghost use Rattle.presentation_rows.specs.Pivots.{new_relations};
ghost use Rattle.presentation_rows.specs.Multiples.{AreMultiples};

/// A row over the monomials of a degree stands for a stored polynomial of that degree.
pub fn rows_are_polynomials()
    ensures { (q d : ℕ) (ds : List ℕ) (ms : List (List ℕ)) (u : List ℕ) → IsMonomials q ds d ms
        → IsRow (suc q) (length ms) u
        → IsPolynomial q ds d (polynomial_of ms u) }
{}

/// A polynomial of a degree is the one that its row over the monomials stands for.
pub fn polynomials_are_rows()
    ensures { (q d : ℕ) (ds : List ℕ) (ms : List (List ℕ)) (f : List Term) → IsMonomials q ds d ms
        → IsOver q ds d f
        → IsRow (suc q) (length ms) (row_of q ms f) × IsSame q f (polynomial_of ms (row_of q ms f)) }
{}

/// The value of a row over the monomials is the combination of their values.
pub fn values_of_rows()
    ensures { (q : ℕ) (mul : ℕ → ℕ → Vector q → Vector q
        → Vector q) (gs : List (Generator (Vector q))) (ms values : List (List ℕ))
        → AreValues q (vectors q mul) gs ms values
        → (u c : List ℕ) → IsCombination (suc q) (entry u) values (entry c)
        → value (vectors q mul) gs (polynomial_of ms u) ≡ vector q c }
{}

/// The value of a monomial is the value of its quotient by its last factor, times the class of that
/// generator.
pub fn value_by_last_factor()
    ensures { (q d i : ℕ) (mul : ℕ → ℕ → Vector q → Vector q
        → Vector q) (gs : List (Generator (Vector q))) (g : Generator (Vector q))
        (m n : List ℕ) → IsMonomial q (degrees gs) d m → IsTrimmed n → IsLastFactor i n m
        → slice_index_or gs i g ≡ g
        → (e : ℕ) × (e + g.degree ≡ d) × IsMonomial q (degrees gs) e n
        × (evaluate (vectors q mul) gs m ≡ mul e g.degree (evaluate (vectors q mul) gs n) g.class) }
{}

/// The unit vectors at the greedy positions are the classes of the new generators.
pub fn generators_of_degree()
    ensures { (q d n : ℕ) (mul : ℕ → ℕ → Vector q → Vector q → Vector q) (basis : ℕ
        → List (Vector q)) (gs : List (Generator (Vector q)))
        (ms values span basis_rows : List (List ℕ)) (positions : List ℕ)
        → IsSpanGenerators q (vectors q mul) basis d gs → IsMonomials q (degrees gs) (suc d) ms
        → basis (suc d) ≡ units q 0 n
        → AreValues q (vectors q mul) gs ms values → IsEchelonOf (suc q) n values span
        → AreUnitRows n basis_rows → IsGreedy (suc q) basis_rows span positions
        → IsSpanGenerators q (vectors q mul) basis (suc d)
        (gs ++ generators_of q (vectors q mul) (suc d) (map (unit q) positions)) }
{}

/// The reduced echelon list of the unit rows are the unit rows.
pub fn echelon_of_unit_rows()
    ensures { (p n : ℕ) (rows basis_rows : List (List ℕ)) → 1 < p → AreUnitRows n rows
        → IsEchelonOf p n rows basis_rows → AreUnitRows n basis_rows }
{}

/// A monomial leads in the relations exactly where it is a pivot of the kernel of the values, and is standard
/// exactly where it is none.
pub fn leading_monomials()
    ensures leading { (q d k : ℕ) (mul : ℕ → ℕ → Vector q → Vector q
        → Vector q) (gs : List (Generator (Vector q)))
        (ms values kernel : List (List ℕ)) → 1 < suc q → IsMonomials q (degrees gs) d ms
        → AreValues q (vectors q mul) gs ms values → IsKernelOf (suc q) values kernel → k < length ms
        → IsLeading q (vectors q mul) (IsRelation q (vectors q mul) gs d)
        (slice_index_or ms k []) ↔ IsPivot kernel k }
    ensures standard { (q d k : ℕ) (mul : ℕ → ℕ → Vector q → Vector q
        → Vector q) (gs : List (Generator (Vector q)))
        (ms values kernel : List (List ℕ)) → 1 < suc q → IsMonomials q (degrees gs) d ms
        → AreValues q (vectors q mul) gs ms values → IsKernelOf (suc q) values kernel → k < length ms
        → IsStandard q (vectors q mul) gs d (slice_index_or ms k []) ↔ (IsPivot kernel k → ⊥) }
{}

/// A monomial leads in the consequences of earlier relations exactly where it is a pivot of the span of their
/// multiples.
pub fn leading_consequences()
    ensures { (q n d k : ℕ) (mul : ℕ → ℕ → Vector q → Vector q
        → Vector q) (gs : List (Generator (Vector q))) (rs : List Polynomial)
        (ms rows multiples : List (List ℕ)) → 1 < suc q → IsRelations q (vectors q mul) gs n rs
        → IsMonomials q (degrees gs) d ms
        → AreMultiples q (degrees gs) rs d ms rows → IsEchelonOf (suc q) (length ms) rows multiples
        → k < length ms
        → IsLeading q (vectors q mul) (IsConsequence q (vectors q mul) gs rs d)
        (slice_index_or ms k []) ↔ IsPivot multiples k }
{}

/// The rows of the kernel whose pivot is none of the multiples' are the new relations.
pub fn relations_of_degree()
    ensures { (q n : ℕ) (mul : ℕ → ℕ → Vector q → Vector q
        → Vector q) (gs : List (Generator (Vector q))) (rs : List Polynomial)
        (ms values kernel rows multiples : List (List ℕ)) → 1 < suc q → IsRelations q (vectors q mul) gs n rs
        → IsMonomials q (degrees gs) (suc n) ms → AreValues q (vectors q mul) gs ms values
        → IsKernelOf (suc q) values kernel
        → AreMultiples q (degrees gs) rs (suc n) ms rows → IsEchelonOf (suc q) (length ms) rows multiples
        → IsRelations q (vectors q mul) gs (suc n) (rs ++ new_relations (suc n) ms multiples kernel) }
{}

/// The preimage of a class that is 0 at the kernel's pivots is the row of its normal form.
pub fn normal_forms_of_preimages()
    ensures { (q d : ℕ) (mul : ℕ → ℕ → Vector q → Vector q → Vector q) (gs : List (Generator (Vector q)))
        (ms values kernel : List (List ℕ)) (c u : List ℕ) → 1 < suc q → IsMonomials q (degrees gs) d ms
        → AreValues q (vectors q mul) gs ms values → IsKernelOf (suc q) values kernel
        → IsPreimage (suc q) values kernel c u
        → IsNormalForm q (vectors q mul) gs d (vector q c) (polynomial_of ms u) }
{}

/// The combination of the preimages of the unit rows with the entries of a class is the preimage of the
/// class.
pub fn preimages_of_combinations()
    ensures { (p n : ℕ) (values kernel basis_rows us : List (List ℕ)) (c u : List ℕ) → 1 < p
        → AreUnitRows n basis_rows → ArePreimages p values kernel basis_rows us → IsKernelOf p values kernel
        → IsRow p n c → IsRow p (length values) u → IsCombination p (entry c) us (entry u)
        → IsPreimage p values kernel c u }
{}

/// Generators of higher degree add no monomials of a degree, and leave the values of its monomials as they
/// are.
pub fn lower_degrees_stay()
    ensures monomials { (q d : ℕ) (ds es : List ℕ) (ms : List (List ℕ)) → Each (λ e. d < e) es
        → IsMonomials q ds d ms → IsMonomials q (ds ++ es) d ms }
    ensures values { (q d : ℕ) (mul : ℕ → ℕ → Vector q → Vector q
        → Vector q) (gs new : List (Generator (Vector q)))
        (ms values : List (List ℕ)) → IsMonomials q (degrees gs) d ms
        → AreValues q (vectors q mul) gs ms values
        → AreValues q (vectors q mul) (gs ++ new) ms values }
{}

/// One more generator of a degree adds one monomial of that degree, behind the others, and its value is the
/// class of the generator
/// where 1 times the class is the class.
pub fn one_more_generator()
    ensures monomials { (q d : ℕ) (ds : List ℕ) (ms : List (List ℕ)) → 0 < d → Each (λ a. 0 < a) ds
        → IsMonomials q ds d ms → IsMonomials q (ds ++ d ∷ []) d (ms ++ power (length ds) 1 ∷ []) }
    ensures values { (q : ℕ) (mul : ℕ → ℕ → Vector q → Vector q
        → Vector q) (gs : List (Generator (Vector q))) (g : Generator (Vector q))
        (ms values : List (List ℕ)) (w : List ℕ) → IsMonomials q (degrees gs) g.degree ms
        → AreValues q (vectors q mul) gs ms values
        → vector q w ≡ g.class → mul 0 g.degree (unit q 0) g.class ≡ g.class
        → AreValues q (vectors q mul) (gs ++ g ∷ []) (ms ++ power (length (degrees gs)) 1 ∷ [])
        (values ++ w ∷ []) }
{}

/// Generators and relations through each degree exist, for any product with values in the vectors of its
/// degree.
pub fn presentations_exist()
    ensures { (q n : ℕ) (ranks : ℕ → ℕ) (mul : ℕ → ℕ → Vector q → Vector q → Vector q) → IsFieldModulo (suc q)
        → HasRanks q ranks mul
        → (gs : List (Generator (Vector q))) × (rs : List Polynomial)
        × IsSpanGenerators q (vectors q mul) (λ d. units q 0 (ranks d)) n gs
        × IsRelations q (vectors q mul) gs n rs }
{}
