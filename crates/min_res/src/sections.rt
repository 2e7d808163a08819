//! Values of a section by its table.

ghost use Rattle.fp_rows.specs.Refs.{entries_of, modulus_of};
ghost use Rattle.resolution_stages.specs.Chain.{section_row};
ghost use Rattle.std.specs.Prelude.{◌≡◌, length};

use fp_rows::{Echelon, Matrix, Row, RowRef};

/// Writes the sum of the rows, row k times the entry of v at the pivot of row k of the list.
pub(crate) fn write_section(v: RowRef<'_>, list: &Echelon, rows: &Matrix, out: &mut Row)
    requires value_length { length (entries_of v) ≡ list.now.width }
    requires value_prime { modulus_of v ≡ rows.now.p }
    requires same_count { length rows.now.rows ≡ length list.now.rows }
    requires out_length { length out.old.entries ≡ rows.now.width }
    requires out_prime { out.old.p ≡ rows.now.p }
    ensures prime { out.new.p ≡ out.old.p }
    ensures sum { out.new.entries
        ≡ section_row rows.now.p rows.now.width list.now.rows rows.now.rows (entries_of v.entry) }
{
    out.clear();
    for k in 0..rows.rows() {
        out.add(v.get(list.pivot(k)), rows.row(k));
    }
}
