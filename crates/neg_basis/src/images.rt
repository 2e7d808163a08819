ghost use Rattle.std.specs.Prelude.{◌≡◌, ◌+◌, ◌*◌, ◌^◌, ◌≤◌, OnOk};
ghost use Rattle.linear_algebra.specs.Rows.{IsRow};
ghost use Rattle.fp_rows.specs.Refs.{entries_of, modulus_of};
ghost use Rattle.neg_basis.specs.Founds.{IsReady};
ghost use Rattle.neg_basis.specs.Turns.{HaveOrigins, TakesImages};

use crate::found::Found;
use crate::ops::Ops;
use crate::work::take;
use fp_rows::{Row, RowRef};
use group_table::Memory;

/// Takes the images of row r of a list under each map, where the images of the rows before it are taken.
pub(crate) fn take_images<T: Ops>(
    ops: &T,
    found: &mut Found,
    r: usize,
    row: RowRef<'_>,
    v: &mut Row,
) -> Result<(), Memory>
    requires maps_fit { T.maps ops.now ≤ 2 ^ 32 }
    requires width_fits { T.width ops.now ≤ 2 ^ 32 }
    requires images_fit { (r + 1) * T.maps ops.now ≤ 2 ^ 32 }
    requires ready { IsReady (T.modulus ops.now) (T.width ops.now) found.old v.old }
    requires row_prime { modulus_of row ≡ T.modulus ops.now }
    requires row_is { IsRow (T.modulus ops.now) (T.width ops.now) (entries_of row) }
    ensures ready { OnOk result (IsReady (T.modulus ops.now) (T.width ops.now) found.new v.new) }
    ensures origins { OnOk result (HaveOrigins found.old.vectors.rows found.old.origins.items
        → HaveOrigins found.new.vectors.rows found.new.origins.items) }
    ensures taken { OnOk result (TakesImages (T.modulus ops.now) (T.width ops.now) (T.maps ops.now)
        (T.image ops.now) (entries_of row.entry) r (T.maps ops.now) found.old.vectors.rows
        found.old.origins.items found.new.vectors.rows found.new.origins.items) }
{
    let maps = ops.count();
    for k in 0..maps {
        let number = (r * maps + k) as u32;
        ops.apply(k, row, v);
        take(ops, found, number, v)?;
    }
    Ok(())
}
