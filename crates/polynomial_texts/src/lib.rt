//! The texts of polynomials: their grammar, and what a text is read as.
#![tactic(auto)]

ghost use Rattle.std.specs.Prelude.{◌≡◌, ◌≢◌, ◌≤◌, ℕ, List, []};
ghost use Rattle.limits.specs.declared.TheConstants.{GREATEST_DEGREE};
ghost use Rattle.graded_polynomials.specs.Polynomials.{Polynomial, IsPolynomial};
ghost use Rattle.graded_polynomials.specs.Texts.{polynomial_text};
ghost use Rattle.polynomial_texts.specs.Readings.{Answer, reads, AreDegrees, IsAnswer};

/// A text has at most one answer.
pub fn one_answer()
    ensures { (q : ℕ) (ds text : List ℕ) (a b : Answer) → q ≤ 6 → AreDegrees ds
        → IsAnswer q ds text a → IsAnswer q ds text b → a ≡ b }
{}

/// The text of a stored polynomial of degree 1 to `GREATEST_DEGREE` that is not 0 is read as that polynomial,
/// and as nothing else.
pub fn text_reads_back()
    ensures answer { (q : ℕ) (ds : List ℕ) (f : Polynomial) → AreDegrees ds → f.terms ≢ [] → 1 ≤ f.degree
        → f.degree ≤ GREATEST_DEGREE
        → IsPolynomial q ds f.degree f.terms → IsAnswer q ds (polynomial_text ds f.terms) (reads f) }
    ensures only { (q : ℕ) (ds : List ℕ) (f : Polynomial) (a : Answer) → q ≤ 6 → AreDegrees ds → f.terms ≢ []
        → 1 ≤ f.degree → f.degree ≤ GREATEST_DEGREE
        → IsPolynomial q ds f.degree f.terms → IsAnswer q ds (polynomial_text ds f.terms) a → a ≡ reads f }
{}
