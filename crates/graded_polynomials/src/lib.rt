//! Polynomials over graded commutative generators: monomials, sums of terms, their products with signs,
//! ideals, and their texts.
//! For odd p a generator of odd degree has exponent at most 1, and two factors of odd degree change places
//! with the sign -1.
#![tactic(auto)]

ghost use Rattle.std.specs.Prelude.{◌≡◌, ℕ, ◌<◌, List, ◌++◌, All};
ghost use Rattle.graded_polynomials.specs.Monomials.{IsMonomials};
ghost use Rattle.graded_polynomials.specs.Polynomials.{Term, IsOver, IsPolynomial, IsSame};

/// A polynomial is stored in one way.
pub fn one_stored_polynomial()
    ensures { (q : ℕ) (ds : List ℕ) (d e : ℕ) (f g : List Term)
        → IsPolynomial q ds d f → IsPolynomial q ds e g → IsSame q f g → f ≡ g }
{}

/// There is one descending list of all monomials of a degree.
pub fn one_list_of_monomials()
    ensures { (q : ℕ) (ds : List ℕ) (d : ℕ) (ms ns : List (List ℕ))
        → IsMonomials q ds d ms → IsMonomials q ds d ns → ms ≡ ns }
{}

/// There is a list of all monomials of a degree, where the generators have positive degrees.
pub fn a_list_of_monomials()
    ensures { (q : ℕ) (ds : List ℕ) → All (λ e. 0 < e) ds → (d : ℕ) → (ms : List (List ℕ))
        × IsMonomials q ds d ms }
{}

/// A sum of terms of a degree stays one where generators are added behind the others, and so does a stored
/// polynomial.
pub fn polynomials_stay()
    ensures sum { (q : ℕ) (ds new : List ℕ) (d : ℕ) (f : List Term) → IsOver q ds d f
        → IsOver q (ds ++ new) d f }
    ensures stored { (q : ℕ) (ds new : List ℕ) (d : ℕ) (f : List Term)
        → IsPolynomial q ds d f → IsPolynomial q (ds ++ new) d f }
{}
