ghost use Rattle.std.specs.Prelude.{◌≡◌, ◌≢◌, ℕ, ◌+◌, ◌-◌, ◌*◌, ◌%◌, ◌<◌, ◌≤◌, ◌++◌, ◌∷◌, [], length, OnOk};
ghost use Rattle.std.specs.Prelude.{map};
ghost use Rattle.group_table.specs.Prime.{prime_value};
ghost use Rattle.linear_algebra.specs.Modular.{IsCongruent, IsFieldModulo};
ghost use Rattle.linear_algebra.specs.Rows.{entry, row, pivot, IsRow, IsReduced};
ghost use Rattle.fp_rows.specs.Refs.{entries_of, modulus_of};
ghost use Rattle.neg_basis.specs.Bases.{IsBasis};
ghost use Rattle.neg_basis.specs.Founds.{IsReady};
ghost use Rattle.neg_basis.specs.Turns.{IsMonicRest, IsAdded};

use crate::found::Found;
use crate::origin::Origin;
use fp_rows::{Matrix, Row, RowRef, inverse};
use group_table::{Memory, Prime};

/// Makes v 0 at each head, by a member of the span of the vectors.
pub(crate) fn reduce_by(vectors: &Matrix, heads: &[usize], v: &mut Row)
    requires basis { IsBasis vectors.now.p vectors.now.width vectors.now.rows }
    requires heads_are { heads.now ≡ map pivot vectors.now.rows }
    requires same_prime { v.old.p ≡ vectors.now.p }
    requires same_width { length v.old.entries ≡ vectors.now.width }
    ensures field { IsFieldModulo vectors.now.p }
    ensures prime { v.new.p ≡ v.old.p }
    ensures row { IsRow vectors.now.p vectors.now.width v.new.entries }
    ensures reduced { IsReduced vectors.now.p vectors.now.rows v.old.entries v.new.entries }
{
    let _len = v.len();
    let p = vectors.prime().value();
    for (i, head) in heads.iter().enumerate() {
        let c = v.get(*head);
        if c != 0 {
            v.add(p - c, vectors.row(i));
        }
    }
}

// The place of the first entry that is not 0, and the length where each is 0.
fn head_of(v: &Row) -> usize
    ensures { result ≡ pivot v.now.entries }
{
    v.view().next_place(0)
}

// Multiplies each entry by c, modulo p.
fn scale(p: Prime, c: u8, v: &mut Row)
    requires factor { c < prime_value p }
    requires same_prime { v.old.p ≡ prime_value p }
    ensures { v.new ≡ record v.old { entries = map (λ x. c * x % prime_value p) v.old.entries } }
{
    let len = v.len();
    if c == 1 {
        return;
    }
    let m = p.value();
    for i in 0..len {
        let product = c * v.get(i);
        v.set(i, product % m);
    }
}

/// Makes v the row r.
pub(crate) fn load(v: &mut Row, r: RowRef<'_>)
    requires same_prime { modulus_of r ≡ v.old.p }
    requires same_length { length (entries_of r) ≡ length v.old.entries }
    ensures prime { v.new.p ≡ v.old.p }
    ensures row { IsRow v.old.p (length v.old.entries) v.new.entries }
    ensures entries { (j : ℕ) → IsCongruent v.old.p (entry v.new.entries j) (entry (entries_of r.entry) j) }
{
    v.clear();
    v.add(1, r);
}

// Reduces v by the vectors and makes its first entry that is not 0 1, and returns the place of that entry.
fn prepare(vectors: &Matrix, heads: &[usize], v: &mut Row) -> usize
    requires basis { IsBasis vectors.now.p vectors.now.width vectors.now.rows }
    requires heads_are { heads.now ≡ map pivot vectors.now.rows }
    requires same_prime { v.old.p ≡ vectors.now.p }
    requires same_width { length v.old.entries ≡ vectors.now.width }
    ensures prime { v.new.p ≡ v.old.p }
    ensures row { IsRow vectors.now.p vectors.now.width v.new.entries }
    ensures field { IsFieldModulo vectors.now.p }
    ensures place { result ≡ pivot v.new.entries }
    ensures prepared { IsMonicRest vectors.now.p vectors.now.width vectors.now.rows (entry v.old.entries)
        v.new.entries }
{
    let p = vectors.prime();
    reduce_by(vectors, heads, v);
    let head = head_of(v);
    if head < v.len() {
        let c = inverse(p, v.get(head));
        scale(p, c, v);
    }
    head
}

/// Reduces v by the vectors, and adds what is left of it, unless that is 0.
pub(crate) fn insert(found: &mut Found, v: &mut Row, origin: Origin) -> Result<(), Memory>
    requires { IsReady found.old.vectors.p found.old.vectors.width found.old v.old }
    ensures field { IsFieldModulo found.old.vectors.p }
    ensures ready { OnOk result (IsReady found.old.vectors.p found.old.vectors.width found.new v.new) }
    ensures grown { OnOk result (length found.old.vectors.rows ≤ length found.new.vectors.rows) }
    ensures added { OnOk result (IsAdded found.old.vectors.p found.old.vectors.width
        found.old.vectors.rows found.old.origins.items (entry v.old.entries) origin
        found.new.vectors.rows found.new.origins.items) }
{
    let head = prepare(&found.vectors, &found.heads, v);
    if head < v.len() {
        found.vectors.push(v.view())?;
        found.heads.push(head)?;
        found.origins.push(origin)?;
    }
    Ok(())
}
