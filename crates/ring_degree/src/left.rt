//! What is left of a list of monomials, and the candidates among them.

ghost use Rattle.std.specs.Prelude.{◌≡◌, ℕ, ◌-◌, ◌<◌, ◌≤◌, ◌↔◌, true, List, length, All, IfOk};
ghost use Rattle.linear_algebra.specs.Rows.{IsMatrix};
ghost use Rattle.ring_completion.specs.Left as rests;
ghost use Rattle.graded_polynomials.specs.Monomials.{exponent};
ghost use Rattle.ring_completion.specs.Candidates.{IsListed};
ghost use Rattle.ring_completion.specs.Listings.{without_factor};
ghost use Rattle.ring_degree.specs.Rests.{AreRests, HasQuotientsIn, AreCandidatesIn};
ghost use Rattle.ring_degree.specs.Tables.{at_generator, rows_at, standard_at};

use crate::factors::quotient;
use crate::table::Table;
use fp_rows::{Echelon, Matrix, Row};
use gc_poly::{Gens, Mono, Monos};
use group_table::Memory;
use std::alloc::Global;

/// The monomials whose places are no pivots.
pub(crate) fn without_pivots(alloc: Global, list: &Monos, e: &Echelon) -> Result<Monos, Memory>
    ensures { IfOk result (λ ms. ms ≡ rests.without_pivots e.now.rows 0 list.now) }
{
    let mut left = Monos::new(alloc);
    for k in 0..list.len() {
        if !e.is_pivot(k) {
            left.push(list.get(k).try_clone(alloc)?)?;
        }
    }
    Ok(left)
}

// Writes the entries whose places are no pivots.
fn write_without_pivots(v: &Row, e: &Echelon, out: &mut Row)
    requires prime { out.old.p ≡ v.now.p }
    requires length { length out.old.entries ≡ length (rests.without_pivots e.now.rows 0 v.now.entries) }
    ensures { out.new ≡ record out.old { entries = rests.without_pivots e.now.rows 0 v.now.entries } }
{
    let _room = out.len();
    let mut at = 0;
    for k in 0..v.len() {
        if !e.is_pivot(k) {
            out.set(at, v.get(k));
            at += 1;
        }
    }
}

// The rows, each reduced, over the places that are no pivots, of which there are so many.
fn reduced_rows(alloc: Global, rows: &Matrix, e: &Echelon, left: usize) -> Result<Matrix, Memory>
    requires prime { rows.now.p ≡ e.now.p }
    requires width { rows.now.width ≡ e.now.width }
    requires left { (v : List ℕ) → length v ≡ e.now.width
        → length (rests.without_pivots e.now.rows 0 v) ≡ left }
    ensures prime { IfOk result (λ m. m.p ≡ rows.now.p) }
    ensures width { IfOk result (λ m. m.width ≡ left) }
    ensures rows { IfOk result (λ m. AreRests e.now.p e.now.rows rows.now.rows m.rows) }
    ensures matrix { IfOk result (λ m. IsMatrix m.p m.width m.rows) }
{
    let mut reduced = Matrix::new(alloc, rows.prime(), left);
    let mut out = Row::zero(alloc, rows.prime(), left)?;
    for k in 0..rows.rows() {
        let mut v = Row::zero(alloc, rows.prime(), rows.width())?;
        v.add(1, rows.row(k));
        e.reduce(&mut v);
        write_without_pivots(&v, e, &mut out);
        reduced.push(out.view())?;
    }
    let _count = reduced.rows();
    Ok(reduced)
}

/// The same of each matrix.
pub(crate) fn reduced_matrices(
    alloc: Global,
    matrices: &[Matrix],
    e: &Echelon,
    left: usize,
) -> Result<Vec<Matrix>, Memory>
    requires primes { All (λ m. m.p ≡ e.now.p) matrices.now }
    requires widths { All (λ m. m.width ≡ e.now.width) matrices.now }
    requires left { (v : List ℕ) → length v ≡ e.now.width
        → length (rests.without_pivots e.now.rows 0 v) ≡ left }
    ensures count { IfOk result (λ f. length f.items ≡ length matrices.now) }
    ensures primes { IfOk result (λ f. All (λ m. m.p ≡ e.now.p) f.items) }
    ensures widths { IfOk result (λ f. All (λ m. m.width ≡ left) f.items) }
    ensures matrices { IfOk result (λ f. All (λ m. IsMatrix m.p m.width m.rows) f.items) }
    ensures rows { IfOk result (λ f. (i : ℕ) → i < length matrices.now
        → AreRests e.now.p e.now.rows (rows_at matrices.now i) (rows_at f.items i)) }
{
    let mut reduced = Vec::new(alloc);
    for i in 0..matrices.len() {
        reduced.push(reduced_rows(alloc, &matrices[i], e, left)?)?;
    }
    Ok(reduced)
}

// Whether the quotient by generator i, a factor, of a monomial of the next degree is in the tables.
fn has_quotient(
    alloc: Global,
    gens: &Gens,
    tables: &[Table],
    m: &Mono,
    i: usize,
) -> Result<bool, Memory>
    requires within { i < length gens.now.degrees }
    requires factor { 0 < exponent m.now i }
    requires below { All (λ e. e < length tables.now) gens.now.degrees }
    ensures { IfOk result (λ b. (b ≡ true) ↔ IsListed (standard_at tables.now
        (length tables.now - at_generator gens.now.degrees i)) (without_factor i m.now)) }
{
    let low = &tables[tables.len() - gens.degree(i) as usize];
    let rest = quotient(alloc, m, i)?;
    match low.standard.position(&rest) {
        Some(_) => Ok(true),
        None => Ok(false),
    }
}

// Whether each quotient of a monomial of the next degree by a generator is in the tables.
fn is_candidate(alloc: Global, gens: &Gens, tables: &[Table], m: &Mono) -> Result<bool, Memory>
    requires below { All (λ e. e < length tables.now) gens.now.degrees }
    ensures { IfOk result (λ b. (b ≡ true) ↔ HasQuotientsIn gens.now.degrees tables.now m.now) }
{
    for i in 0..gens.len() {
        if m.exponent(i) > 0 && !has_quotient(alloc, gens, tables, m, i)? {
            return Ok(false);
        }
    }
    Ok(true)
}

/// The candidates among the monomials of the next degree with a standard quotient.
pub(crate) fn candidates(
    alloc: Global,
    gens: &Gens,
    tables: &[Table],
    list: &Monos,
) -> Result<Monos, Memory>
    requires below { All (λ e. e < length tables.now) gens.now.degrees }
    ensures { IfOk result (AreCandidatesIn gens.now.degrees tables.now list.now) }
{
    let mut found = Monos::new(alloc);
    for k in 0..list.len() {
        if is_candidate(alloc, gens, tables, list.get(k))? {
            found.push(list.get(k).try_clone(alloc)?)?;
        }
    }
    Ok(found)
}
