ghost use Rattle.std.specs.Prelude.{◌≡◌, ℕ, List, suc, ◌+◌, ◌<◌, ◌≤◌, length, IfOk, OnOk, map};
ghost use Rattle.group_table.specs.Prime.{prime_value};
ghost use Rattle.linear_algebra.specs.Rows.{entry, row, pivot, IsRow, IsMatrix, IsEchelon, IsEchelonOf};
ghost use Rattle.linear_algebra.specs.Rows.{IsReduced, IsCombination};
ghost use Rattle.linear_algebra.specs.Modular.{IsFieldModulo};
ghost use Rattle.linear_algebra.specs.Elimination.{AreCleared, IsPrepared, IsPlace};
ghost use Rattle.linear_algebra.specs.Kernels.{unit_row, IsKernelOf};
ghost use Rattle.linear_algebra.specs.Choices.{ArePreimages};
ghost use Rattle.fp_rows.specs.Lists.{lists, AreOver};
ghost use Rattle.fp_rows.specs.Solving.{IsSolvedFrom};
ghost use Rattle.fp_rows.specs.Eliminations.{IsElimination};

use crate::arithmetic::inverse;
use crate::basis::Echelon;
use crate::elimination::place_of;
use crate::matrix::Matrix;
use crate::row::Row;
use group_table::{Memory, Prime};
use std::alloc::Global;

/// The kernel of the rows, the span of the rows, and for each row of the span's list the combination that is
/// 0 at the pivots of the kernel.
#[derive(Drop)]
pub struct Solution {
    pub kernel: Echelon,
    pub image: Echelon,
    pub preimages: Matrix,
}

// What the rows from some row on leave: the list of their span, for each row of it the combination that makes
// it, and the kernel,
// whose list is in the descending order of its pivots.
#[derive(Drop)]
pub struct Elimination {
    pub rows: Vec<Row>,
    pub pivots: Vec<usize>,
    pub made: Vec<Row>,
    pub kernel: Vec<Row>,
    pub kernel_pivots: Vec<usize>,
}

// Makes v 0 at each pivot, by a member of the span of the rows, and changes u by what makes that member.
fn reduce_pair(rows: &[Row], pivots: &[usize], made: &[Row], v: &mut Row, u: &mut Row)
    requires matrix { IsMatrix v.old.p (length v.old.entries) (lists rows.now) }
    requires echelon { IsEchelon (lists rows.now) }
    requires pivots_are { pivots.now ≡ map pivot (lists rows.now) }
    requires same_prime { u.old.p ≡ v.old.p }
    requires same_count { length (lists made.now) ≡ length (lists rows.now) }
    requires made_rows { IsMatrix v.old.p (length u.old.entries) (lists made.now) }
    ensures prime { v.new.p ≡ v.old.p }
    ensures made_prime { u.new.p ≡ u.old.p }
    ensures row_is { IsRow v.old.p (length v.old.entries) v.new.entries }
    ensures made_is { IsRow v.old.p (length u.old.entries) u.new.entries }
    ensures reduced { IsReduced v.old.p (lists rows.now) v.old.entries v.new.entries }
    ensures maps { (generators : List (List ℕ))
        → ((i : ℕ) → i < length (lists rows.now)
        → IsCombination v.old.p (entry (row (lists made.now) i)) generators (entry (row (lists rows.now) i)))
        → IsCombination v.old.p (entry u.old.entries) generators (entry v.old.entries)
        → IsCombination v.old.p (entry u.new.entries) generators (entry v.new.entries) }
    ensures kept { (s : ℕ) → ((i : ℕ) → i < length (lists made.now) → entry (row (lists made.now) i) s ≡ 0)
        → entry u.new.entries s ≡ entry u.old.entries s }
    ensures field { IsFieldModulo v.old.p }
{
    let _made = u.len();
    let m = v.prime().value();
    for (i, r) in rows.iter().enumerate() {
        let c = v.get(pivots[i]);
        if c != 0 {
            v.add_row(m - c, r);
            u.add_row(m - c, &made[i]);
        }
    }
}

// Makes each row 0 at place t, where v is 1, by a multiple of v, and changes what makes it by the multiple of
// u.
fn clear_pairs(rows: &mut [Row], made: &mut [Row], t: usize, v: &Row, u: &Row)
    requires rows_are { IsMatrix v.now.p (length v.now.entries) (lists rows.old) }
    requires over { AreOver v.now.p rows.old }
    requires inside { t < length v.now.entries }
    requires same_prime { u.now.p ≡ v.now.p }
    requires same_count { length made.old ≡ length rows.old }
    requires made_rows { IsMatrix v.now.p (length u.now.entries) (lists made.old) }
    requires made_over { AreOver v.now.p made.old }
    ensures cleared { AreCleared v.now.p (length v.now.entries) t v.now.entries (lists rows.old)
        (lists rows.new) }
    ensures over { AreOver v.now.p rows.new }
    ensures made_count { length made.new ≡ length made.old }
    ensures made_rows { IsMatrix v.now.p (length u.now.entries) (lists made.new) }
    ensures made_over { AreOver v.now.p made.new }
    ensures maps { (generators : List (List ℕ))
        → IsCombination v.now.p (entry u.now.entries) generators (entry v.now.entries)
        → ((i : ℕ) → i < length rows.old
        → IsCombination v.now.p (entry (row (lists made.old) i)) generators (entry (row (lists rows.old) i)))
        → (i : ℕ) → i < length rows.old → IsCombination v.now.p (entry (row (lists made.new) i)) generators
        (entry (row (lists rows.new) i)) }
    ensures kept { (i s : ℕ) → i < length rows.old → entry u.now.entries s ≡ 0
        → entry (row (lists made.new) i) s ≡ entry (row (lists made.old) i) s }
    ensures field { IsFieldModulo v.now.p }
{
    let _made = u.len();
    let m = v.prime().value();
    for (i, r) in rows.iter_mut().enumerate() {
        let c = r.get(t);
        if c != 0 {
            r.add_row(m - c, v);
            made[i].add_row(m - c, u);
        }
    }
}

// Makes v 0 at the pivots of the rows and its first entry that is not 0 1, changes u by what makes the
// change, and returns the place of
// that entry.
fn prepare_pair(rows: &[Row], pivots: &[usize], made: &[Row], v: &mut Row, u: &mut Row) -> usize
    requires matrix { IsMatrix v.old.p (length v.old.entries) (lists rows.now) }
    requires echelon { IsEchelon (lists rows.now) }
    requires pivots_are { pivots.now ≡ map pivot (lists rows.now) }
    requires same_prime { u.old.p ≡ v.old.p }
    requires same_count { length (lists made.now) ≡ length (lists rows.now) }
    requires made_rows { IsMatrix v.old.p (length u.old.entries) (lists made.now) }
    ensures prime { v.new.p ≡ v.old.p }
    ensures made_prime { u.new.p ≡ u.old.p }
    ensures place { result ≡ pivot v.new.entries }
    ensures prepared { IsPrepared v.old.p (length v.old.entries)
        (lists rows.now) v.old.entries v.new.entries }
    ensures made_is { IsRow v.old.p (length u.old.entries) u.new.entries }
    ensures maps { (generators : List (List ℕ))
        → ((i : ℕ) → i < length (lists rows.now)
        → IsCombination v.old.p (entry (row (lists made.now) i)) generators (entry (row (lists rows.now) i)))
        → IsCombination v.old.p (entry u.old.entries) generators (entry v.old.entries)
        → IsCombination v.old.p (entry u.new.entries) generators (entry v.new.entries) }
    ensures zero { (s : ℕ) → entry u.old.entries s ≡ 0
        → ((i : ℕ) → i < length (lists made.now) → entry (row (lists made.now) i) s ≡ 0)
        → entry u.new.entries s ≡ 0 }
    ensures kept { result ≡ length v.old.entries → (s : ℕ)
        → ((i : ℕ) → i < length (lists made.now) → entry (row (lists made.now) i) s ≡ 0)
        → entry u.new.entries s ≡ entry u.old.entries s }
{
    reduce_pair(rows, pivots, made, v, u);
    let t = v.first();
    if t < v.len() {
        let c = inverse(v.prime(), v.get(t));
        v.scale(c);
        u.scale(c);
    }
    t
}

// `clear_pairs` for vectors.
fn clear_vecs(rows: &mut Vec<Row>, made: &mut Vec<Row>, t: usize, v: &Row, u: &Row)
    requires rows_are { IsMatrix v.now.p (length v.now.entries) (lists rows.old.items) }
    requires over { AreOver v.now.p rows.old.items }
    requires inside { t < length v.now.entries }
    requires same_prime { u.now.p ≡ v.now.p }
    requires same_count { length made.old.items ≡ length rows.old.items }
    requires made_rows { IsMatrix v.now.p (length u.now.entries) (lists made.old.items) }
    requires made_over { AreOver v.now.p made.old.items }
    ensures cleared { AreCleared v.now.p (length v.now.entries) t v.now.entries (lists rows.old.items)
        (lists rows.new.items) }
    ensures over { AreOver v.now.p rows.new.items }
    ensures made_count { length made.new.items ≡ length made.old.items }
    ensures made_rows { IsMatrix v.now.p (length u.now.entries) (lists made.new.items) }
    ensures made_over { AreOver v.now.p made.new.items }
    ensures maps { (generators : List (List ℕ))
        → IsCombination v.now.p (entry u.now.entries) generators (entry v.now.entries)
        → ((i : ℕ) → i < length rows.old.items
        → IsCombination v.now.p (entry (row (lists made.old.items) i)) generators
        (entry (row (lists rows.old.items) i)))
        → (i : ℕ) → i < length rows.old.items
        → IsCombination v.now.p (entry (row (lists made.new.items) i)) generators
        (entry (row (lists rows.new.items) i)) }
    ensures kept { (i s : ℕ) → i < length rows.old.items → entry u.now.entries s ≡ 0
        → entry (row (lists made.new.items) i) s ≡ entry (row (lists made.old.items) i) s }
    ensures field { IsFieldModulo v.now.p }
{
    clear_pairs(rows, made, t, v, u);
}

// Puts a row that is 0 at the pivots of the list into it, with what makes it.
fn insert_pair(
    rows: &mut Vec<Row>,
    pivots: &mut Vec<usize>,
    made: &mut Vec<Row>,
    t: usize,
    v: Row,
    u: Row,
) -> Result<(), Memory>
    requires matrix { IsMatrix v.p (length v.entries) (lists rows.old.items) }
    requires echelon { IsEchelon (lists rows.old.items) }
    requires over { AreOver v.p rows.old.items }
    requires pivots_are { pivots.old.items ≡ map pivot (lists rows.old.items) }
    requires same_prime { u.p ≡ v.p }
    requires same_count { length made.old.items ≡ length rows.old.items }
    requires made_rows { IsMatrix v.p (length u.entries) (lists made.old.items) }
    requires made_over { AreOver v.p made.old.items }
    requires row_is { IsRow v.p (length v.entries) v.entries }
    requires place { t ≡ pivot v.entries }
    requires inside { t < length v.entries }
    requires zero_at_pivots { (i : ℕ) → i < length (lists rows.old.items)
        → entry v.entries (pivot (row (lists rows.old.items) i)) ≡ 0 }
    requires monic { entry v.entries t ≡ 1 }
    ensures solved { OnOk result ((generators : List (List ℕ)) (k : ℕ) (K : List (List ℕ))
        → length u.entries ≡ length generators
        → IsSolvedFrom v.p (length v.entries) generators (suc k) (lists rows.old.items)
        (lists made.old.items) K
        → IsPrepared v.p (length v.entries) (lists rows.old.items) (row generators k) v.entries
        → IsRow v.p (length generators) u.entries
        → IsCombination v.p (entry u.entries) generators (entry v.entries)
        → ((x : ℕ) → x < k → entry u.entries x ≡ 0)
        → ((j : ℕ) → j < length K → entry u.entries (pivot (row K j)) ≡ 0)
        → IsSolvedFrom v.p (length v.entries) generators k (lists rows.new.items) (lists made.new.items) K) }
    ensures over { OnOk result (AreOver v.p rows.new.items) }
    ensures made_over { OnOk result (AreOver v.p made.new.items) }
    ensures pivots_are { OnOk result (pivots.new.items ≡ map pivot (lists rows.new.items)) }
{
    clear_vecs(rows, made, t, &v, &u);
    let at = place_of(pivots, t);
    pivots.insert(at, t)?;
    rows.insert(at, v)?;
    made.insert(at, u)?;
    Ok(())
}

// `prepare_pair` by the rows of vectors.
fn prepare_vecs(
    rows: &Vec<Row>,
    pivots: &Vec<usize>,
    made: &Vec<Row>,
    v: &mut Row,
    u: &mut Row,
) -> usize
    requires matrix { IsMatrix v.old.p (length v.old.entries) (lists rows.now.items) }
    requires echelon { IsEchelon (lists rows.now.items) }
    requires pivots_are { pivots.now.items ≡ map pivot (lists rows.now.items) }
    requires same_prime { u.old.p ≡ v.old.p }
    requires same_count { length (lists made.now.items) ≡ length (lists rows.now.items) }
    requires made_rows { IsMatrix v.old.p (length u.old.entries) (lists made.now.items) }
    ensures prime { v.new.p ≡ v.old.p }
    ensures made_prime { u.new.p ≡ u.old.p }
    ensures place { result ≡ pivot v.new.entries }
    ensures prepared { IsPrepared v.old.p (length v.old.entries)
        (lists rows.now.items) v.old.entries v.new.entries }
    ensures made_is { IsRow v.old.p (length u.old.entries) u.new.entries }
    ensures maps { (generators : List (List ℕ))
        → ((i : ℕ) → i < length (lists rows.now.items)
        → IsCombination v.old.p (entry (row (lists made.now.items) i)) generators
        (entry (row (lists rows.now.items) i)))
        → IsCombination v.old.p (entry u.old.entries) generators (entry v.old.entries)
        → IsCombination v.old.p (entry u.new.entries) generators (entry v.new.entries) }
    ensures zero { (s : ℕ) → entry u.old.entries s ≡ 0
        → ((i : ℕ) → i < length (lists made.now.items) → entry (row (lists made.now.items) i) s ≡ 0)
        → entry u.new.entries s ≡ 0 }
    ensures kept { result ≡ length v.old.entries → (s : ℕ)
        → ((i : ℕ) → i < length (lists made.now.items) → entry (row (lists made.now.items) i) s ≡ 0)
        → entry u.new.entries s ≡ entry u.old.entries s }
{
    prepare_pair(rows, pivots, made, v, u)
}

// The row with 1 at place i.
fn unit(alloc: Global, p: Prime, n: usize, i: usize) -> Result<Row, Memory>
    requires { i < n }
    ensures { IfOk result (λ r. r ≡ record { p = prime_value p; entries = unit_row n i }) }
{
    let mut r = Row::zero(alloc, p, n)?;
    r.set(i, 1);
    Ok(r)
}

// From the rows after row k to those from row k on.
fn step(alloc: Global, m: &Matrix, k: usize, e: &mut Elimination) -> Result<(), Memory>
    requires below { k < length m.now.rows }
    requires state { IsElimination m.now.p m.now.width m.now.rows (suc k) e.old }
    ensures { OnOk result (IsElimination m.now.p m.now.width m.now.rows k e.new) }
{
    let mut v = Row::copy_of(alloc, m.row(k))?;
    let mut u = unit(alloc, m.prime(), m.rows(), k)?;
    let t = prepare_vecs(&e.rows, &e.pivots, &e.made, &mut v, &mut u);
    if t < v.len() {
        insert_pair(&mut e.rows, &mut e.pivots, &mut e.made, t, v, u)?;
    } else {
        e.kernel.push(u)?;
        e.kernel_pivots.push(k)?;
    }
    Ok(())
}

// The elimination of all rows.
fn eliminate(alloc: Global, m: &Matrix) -> Result<Elimination, Memory>
    ensures { IfOk result (IsElimination m.now.p m.now.width m.now.rows 0) }
{
    let mut e = Elimination {
        rows: Vec::new(alloc),
        pivots: Vec::new(alloc),
        made: Vec::new(alloc),
        kernel: Vec::new(alloc),
        kernel_pivots: Vec::new(alloc),
    };
    let mut k = m.rows();
    while k > 0 {
        k -= 1;
        step(alloc, m, k, &mut e)?;
    }
    Ok(e)
}

/// The kernel and the span of the rows, with the preimages of the span's list, by one elimination.
pub fn solve(alloc: Global, m: &Matrix) -> Result<Solution, Memory>
    ensures primes { IfOk result (λ s. (s.kernel.p ≡ m.now.p) × (s.image.p ≡ m.now.p)
        × (s.preimages.p ≡ m.now.p)) }
    ensures widths { IfOk result (λ s. (s.kernel.width ≡ length m.now.rows) × (s.image.width ≡ m.now.width)
        × (s.preimages.width ≡ length m.now.rows)) }
    ensures kernel { IfOk result (λ s. IsKernelOf m.now.p m.now.rows s.kernel.rows) }
    ensures image { IfOk result (λ s. IsEchelonOf m.now.p m.now.width m.now.rows s.image.rows) }
    ensures preimages { IfOk result (λ s. ArePreimages m.now.p m.now.rows s.kernel.rows s.image.rows
        s.preimages.rows) }
{
    let mut e = eliminate(alloc, m)?;
    let n = m.rows();
    let prime = m.prime();
    e.kernel.reverse();
    e.kernel_pivots.reverse();
    let kernel = Echelon::of_parts(alloc, prime, n, e.kernel, e.kernel_pivots);
    let image = Echelon::of_parts(alloc, prime, m.width(), e.rows, e.pivots);
    let preimages = Matrix {
        alloc,
        prime,
        width: n,
        rows: e.made,
    };
    Ok(Solution {
        kernel,
        image,
        preimages,
    })
}

/// The reduced row echelon basis of the kernel: of the lists u with u_0 row_0 + u_1 row_1 + .. = 0.
pub fn kernel(alloc: Global, m: &Matrix) -> Result<Echelon, Memory>
    ensures prime { IfOk result (λ e. e.p ≡ m.now.p) }
    ensures width { IfOk result (λ e. e.width ≡ length m.now.rows) }
    ensures rows { IfOk result (λ e. IsKernelOf m.now.p m.now.rows e.rows) }
{
    let solution = solve(alloc, m)?;
    Ok(solution.kernel)
}
