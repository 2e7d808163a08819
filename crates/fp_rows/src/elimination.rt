ghost use Rattle.std.specs.Prelude.{◌≡◌, ℕ, ◌+◌, ◌<◌, ◌≤◌, ◌++◌, ◌∷◌, [], length, IfOk, OnOk, IsTrue, false};
ghost use Rattle.std.specs.Prelude.{slice_index, map};
ghost use Rattle.group_table.specs.Prime.{prime_value};
ghost use Rattle.linear_algebra.specs.Rows.{entry, row, pivot, IsRow, IsMatrix, IsEchelon, IsEchelonOf};
ghost use Rattle.linear_algebra.specs.Rows.{IsInSpan, IsReduced};
ghost use Rattle.linear_algebra.specs.Modular.{IsFieldModulo};
ghost use Rattle.linear_algebra.specs.Elimination.{IsCleared, AreCleared, IsPrepared, IsPlace};
ghost use Rattle.fp_rows.specs.Lists.{lists, AreOver};

use crate::arithmetic::inverse;
use crate::row::Row;
use group_table::Memory;

/// Makes v 0 at each pivot, by a member of the span of the rows.
pub fn reduce_by(rows: &[Row], pivots: &[usize], v: &mut Row)
    requires matrix { IsMatrix v.old.p (length v.old.entries) (lists rows.now) }
    requires echelon { IsEchelon (lists rows.now) }
    requires pivots_are { pivots.now ≡ map pivot (lists rows.now) }
    ensures prime { v.new.p ≡ v.old.p }
    ensures row_is { IsRow v.old.p (length v.old.entries) v.new.entries }
    ensures reduced { IsReduced v.old.p (lists rows.now) v.old.entries v.new.entries }
    ensures field { IsFieldModulo v.old.p }
{
    let m = v.prime().value();
    for (i, r) in rows.iter().enumerate() {
        let c = v.get(pivots[i]);
        if c != 0 {
            v.add_row(m - c, r);
        }
    }
}

// Makes each row 0 at place t, where v is 1, by a multiple of v.
fn clear_column(rows: &mut [Row], t: usize, v: &Row)
    requires rows_are { IsMatrix v.now.p (length v.now.entries) (lists rows.old) }
    requires over { AreOver v.now.p rows.old }
    requires inside { t < length v.now.entries }
    ensures cleared { AreCleared v.now.p (length v.now.entries) t v.now.entries (lists rows.old)
        (lists rows.new) }
    ensures over { AreOver v.now.p rows.new }
{
    let m = v.prime().value();
    for r in rows.iter_mut() {
        let c = r.get(t);
        if c != 0 {
            r.add_row(m - c, v);
        }
    }
}

/// How many pivots are below t.
pub fn place_of(pivots: &[usize], t: usize) -> usize
    ensures within { result ≤ length pivots.now }
    ensures below { (i : ℕ) → i < result → slice_index pivots.now i < t }
    ensures here { result < length pivots.now → t ≤ slice_index pivots.now result }
{
    for (i, q) in pivots.iter().enumerate() {
        if *q >= t {
            return i;
        }
    }
    pivots.len()
}

// Makes v 0 at the pivots of the rows and its first entry that is not 0 1, and returns the place of that
// entry.
fn prepare(rows: &[Row], pivots: &[usize], v: &mut Row) -> usize
    requires matrix { IsMatrix v.old.p (length v.old.entries) (lists rows.now) }
    requires echelon { IsEchelon (lists rows.now) }
    requires pivots_are { pivots.now ≡ map pivot (lists rows.now) }
    ensures prime { v.new.p ≡ v.old.p }
    ensures place { result ≡ pivot v.new.entries }
    ensures prepared { IsPrepared v.old.p (length v.old.entries)
        (lists rows.now) v.old.entries v.new.entries }
    ensures field { IsFieldModulo v.old.p }
{
    reduce_by(rows, pivots, v);
    let t = v.first();
    if t < v.len() {
        let c = inverse(v.prime(), v.get(t));
        v.scale(c);
    }
    t
}

// `prepare` by the rows of a vector.
fn prepare_vec(rows: &Vec<Row>, pivots: &Vec<usize>, v: &mut Row) -> usize
    requires matrix { IsMatrix v.old.p (length v.old.entries) (lists rows.now.items) }
    requires echelon { IsEchelon (lists rows.now.items) }
    requires pivots_are { pivots.now.items ≡ map pivot (lists rows.now.items) }
    ensures prime { v.new.p ≡ v.old.p }
    ensures place { result ≡ pivot v.new.entries }
    ensures prepared { IsPrepared v.old.p (length v.old.entries)
        (lists rows.now.items) v.old.entries v.new.entries }
    ensures field { IsFieldModulo v.old.p }
{
    prepare(rows, pivots, v)
}

// Clears column t of the rows, and returns the place at which v belongs.
fn clear_vec(rows: &mut Vec<Row>, pivots: &Vec<usize>, t: usize, v: &Row) -> usize
    requires matrix { IsMatrix v.now.p (length v.now.entries) (lists rows.old.items) }
    requires over { AreOver v.now.p rows.old.items }
    requires echelon { IsEchelon (lists rows.old.items) }
    requires pivots_are { pivots.now.items ≡ map pivot (lists rows.old.items) }
    requires zero_at_pivots { (i : ℕ) → i < length (lists rows.old.items)
        → entry v.now.entries (pivot (row (lists rows.old.items) i)) ≡ 0 }
    requires monic { entry v.now.entries t ≡ 1 }
    requires inside { t < length v.now.entries }
    ensures cleared { AreCleared v.now.p (length v.now.entries) t v.now.entries (lists rows.old.items)
        (lists rows.new.items) }
    ensures over { AreOver v.now.p rows.new.items }
    ensures place { IsPlace t result (lists rows.old.items) }
{
    clear_column(rows, t, v);
    place_of(pivots, t)
}

/// Puts one more row into a reduced echelon list, and says whether the row was outside the span.
pub fn insert_row(rows: &mut Vec<Row>, pivots: &mut Vec<usize>, mut v: Row) -> Result<bool, Memory>
    requires matrix { IsMatrix v.p (length v.entries) (lists rows.old.items) }
    requires over { AreOver v.p rows.old.items }
    requires echelon { IsEchelon (lists rows.old.items) }
    requires pivots_are { pivots.old.items ≡ map pivot (lists rows.old.items) }
    ensures rows_are { OnOk result (IsEchelonOf v.p (length v.entries)
        (lists rows.old.items ++ v.entries ∷ []) (lists rows.new.items)) }
    ensures over { OnOk result (AreOver v.p rows.new.items) }
    ensures pivots_are { OnOk result (pivots.new.items ≡ map pivot (lists rows.new.items)) }
    ensures outside { IfOk result (λ added. IsTrue added
        → ¬ (IsInSpan v.p (lists rows.old.items) (entry v.entries))) }
    ensures inside { IfOk result (λ added. added ≡ false
        → IsInSpan v.p (lists rows.old.items) (entry v.entries)) }
{
    let t = prepare_vec(rows, pivots, &mut v);
    if t < v.len() {
        let at = clear_vec(rows, pivots, t, &v);
        pivots.insert(at, t)?;
        rows.insert(at, v)?;
        Ok(true)
    } else {
        Ok(false)
    }
}
