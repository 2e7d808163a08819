//! The value of a class at the rows of a chain map.

ghost use Rattle.fp_rows.specs.Refs.{entries_of, modulus_of};
ghost use Rattle.linear_algebra.specs.Rows.{entry, pairing, row};
ghost use Rattle.std.specs.Prelude.{◌≡◌, ◌≤◌, ◌<◌, ℕ, length};

use fp_rows::{Matrix, Row, RowRef};

/// Writes at each place i the pairing of a with row i, of which the entries past those of a don't count.
pub(crate) fn write_pairings(a: RowRef<'_>, rows: &Matrix, out: &mut Row)
    requires primes { (modulus_of a ≡ rows.now.p) × (out.old.p ≡ rows.now.p) }
    requires argument { length (entries_of a) ≤ rows.now.width }
    requires out_length { length out.old.entries ≡ length rows.now.rows }
    ensures prime { out.new.p ≡ out.old.p }
    ensures length { length out.new.entries ≡ length out.old.entries }
    ensures value { (i : ℕ) → i < length rows.now.rows
        → entry out.new.entries i ≡ pairing rows.now.p (entries_of a.entry) (row rows.now.rows i) }
{
    for i in 0..rows.rows() {
        out.set(i, a.pairing(rows.row(i)));
    }
}
