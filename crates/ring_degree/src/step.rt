//! The next degree.

ghost use Rattle.std.specs.Prelude.{◌≡◌, ℕ, ◌-◌, ◌<◌, ◌≤◌, List, length, All, IfOk};
ghost use Rattle.limits.specs.declared.TheConstants.{GREATEST_DEGREE};
ghost use Rattle.graded_polynomials.specs.Polynomials.{Polynomial};
ghost use Rattle.graded_algebra.specs.Algebras.{Generator, degrees};
ghost use Rattle.graded_algebra.specs.Vectors.{Vector, GradedAlgebra};
ghost use Rattle.gc_poly.specs.Generators.{greatest};
ghost use Rattle.ring_completion.specs.Candidates.{AreSome};
ghost use Rattle.ring_degree.specs.Steps.{IsRingBelow, IsStep};
ghost use Rattle.ring_degree.specs.Tables.{AreMatrices, AreTables};

use crate::critical::Pairs;
use crate::forms::forms;
use crate::left::{candidates, reduced_matrices, without_pivots};
use crate::reached::reached;
use crate::table::Table;
use fp_rows::{Matrix, echelon};
use gc_poly::{Gens, Monos};
use group_table::Memory;
use std::alloc::Global;

/// What the tables of lower degrees tell of the next degree.
#[derive(Drop)]
pub struct Step {
    /// The monomials of which each quotient by a generator is standard, descending.
    pub candidates: Monos,
    /// The monomials that lead in no consequence of the relations of lower degree, descending.
    pub left: Monos,
    /// For each generator a row over these for each standard monomial of the degree that is left: what the
    /// product is, up to consequences.
    pub forms: Vec<Matrix>,
}

/// What the tables of the degrees 0 to d - 1 tell of degree d, which is at most `GREATEST_DEGREE`, where the
/// generators are those of degree below d. As Buchberger's criterion by critical pairs, of which those of the
/// first generator of a monomial suffice (Becker and Weispfenning, "Groebner Bases", 5.3 and 5.5).
pub fn next_degree(alloc: Global, gens: &Gens, tables: &[Table]) -> Result<Step, Memory>
    requires some { 0 < length tables.now }
    requires small { length tables.now ≤ GREATEST_DEGREE }
    requires below { All (λ e. e < length tables.now) gens.now.degrees }
    requires tables { AreTables gens.now tables.now }
    ensures left { IfOk result (λ x. AreSome (greatest gens.now) gens.now.degrees (length tables.now)
        x.left) }
    ensures shape { IfOk result (λ x. AreMatrices gens.now tables.now (length tables.now)
        (length x.left) x.forms.items) }
    ensures step { IfOk result (λ x. (G : GradedAlgebra (greatest gens.now))
        (gs : List (Generator (Vector (greatest gens.now)))) (rs : List Polynomial)
        → degrees gs ≡ gens.now.degrees
        → IsRingBelow (greatest gens.now) G gs rs (length tables.now - 1) tables.now
        → IsStep (greatest gens.now) G gs rs (length tables.now - 1) tables.now x) }
{
    let _prime = gens.modulus();
    let list = reached(alloc, gens, tables)?;
    let forms = forms(alloc, gens, tables, &list)?;
    let pairs = Pairs {
        gens,
        tables,
        forms: &forms,
        width: list.len(),
    };
    let leading = echelon(alloc, &pairs.critical(alloc)?)?;
    let left = without_pivots(alloc, &list, &leading)?;
    let reduced = reduced_matrices(alloc, &forms, &leading, left.len())?;
    let candidates = candidates(alloc, gens, tables, &list)?;
    Ok(Step {
        candidates,
        left,
        forms: reduced,
    })
}
