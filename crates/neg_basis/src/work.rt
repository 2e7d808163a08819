ghost use Rattle.std.specs.Prelude.{◌≡◌, ℕ, ◌+◌, ◌^◌, ◌<◌, ◌≤◌, length, OnOk};
ghost use Rattle.linear_algebra.specs.Rows.{entry};
ghost use Rattle.neg_basis.specs.Founds.{IsReady};
ghost use Rattle.neg_basis.specs.Turns.{Continues, HaveOrigins, TakesGenerator};

use crate::found::Found;
use crate::ops::Ops;
use crate::origin::Origin;
use crate::steps::insert;
use fp_rows::Row;
use group_table::Memory;

// Applies one map to vector `of`, and adds what is left of the image.
fn apply_one<T: Ops>(
    ops: &T,
    found: &mut Found,
    of: usize,
    number: usize,
    v: &mut Row,
) -> Result<(), Memory>
    requires number_is { number < T.maps ops.now }
    requires number_fits { number < 2 ^ 32 }
    requires of_is { of < length found.old.vectors.rows }
    requires of_fits { of < 2 ^ 32 }
    requires ready { IsReady (T.modulus ops.now) (T.width ops.now) found.old v.old }
    ensures ready { OnOk result (IsReady (T.modulus ops.now) (T.width ops.now) found.new v.new) }
    ensures grown { OnOk result (length found.old.vectors.rows ≤ length found.new.vectors.rows) }
    ensures origins { OnOk result (HaveOrigins found.old.vectors.rows found.old.origins.items
        → HaveOrigins found.new.vectors.rows found.new.origins.items) }
    ensures worked { OnOk result (Continues (T.modulus ops.now) (T.width ops.now) (T.maps ops.now)
        (T.image ops.now) found.old.vectors.rows found.old.origins.items of number
        found.new.vectors.rows found.new.origins.items of (number + 1)) }
{
    ops.apply(number, found.vectors.row(of), v);
    let origin = Origin::Step {
        map: number as u32,
        of: of as u32,
    };
    insert(found, v, origin)
}

// Applies each map to vector `of`, and adds what is left of the images.
fn apply_all<T: Ops>(ops: &T, found: &mut Found, of: usize, v: &mut Row) -> Result<(), Memory>
    requires maps_fit { T.maps ops.now ≤ 2 ^ 32 }
    requires of_is { of < length found.old.vectors.rows }
    requires of_fits { of < 2 ^ 32 }
    requires ready { IsReady (T.modulus ops.now) (T.width ops.now) found.old v.old }
    ensures ready { OnOk result (IsReady (T.modulus ops.now) (T.width ops.now) found.new v.new) }
    ensures grown { OnOk result (length found.old.vectors.rows ≤ length found.new.vectors.rows) }
    ensures origins { OnOk result (HaveOrigins found.old.vectors.rows found.old.origins.items
        → HaveOrigins found.new.vectors.rows found.new.origins.items) }
    ensures worked { OnOk result (Continues (T.modulus ops.now) (T.width ops.now) (T.maps ops.now)
        (T.image ops.now) found.old.vectors.rows found.old.origins.items of 0
        found.new.vectors.rows found.new.origins.items (of + 1) 0) }
{
    for number in 0..ops.count() {
        apply_one(ops, found, of, number, v)?;
    }
    Ok(())
}

/// Applies each map to each vector from position `from` on, to those that are added too.
pub(crate) fn close<T: Ops>(
    ops: &T,
    found: &mut Found,
    from: usize,
    v: &mut Row,
) -> Result<(), Memory>
    requires maps_fit { T.maps ops.now ≤ 2 ^ 32 }
    requires width_fits { T.width ops.now ≤ 2 ^ 32 }
    requires from_is { from ≤ length found.old.vectors.rows }
    requires ready { IsReady (T.modulus ops.now) (T.width ops.now) found.old v.old }
    ensures ready { OnOk result (IsReady (T.modulus ops.now) (T.width ops.now) found.new v.new) }
    ensures origins { OnOk result (HaveOrigins found.old.vectors.rows found.old.origins.items
        → HaveOrigins found.new.vectors.rows found.new.origins.items) }
    ensures worked { OnOk result (Continues (T.modulus ops.now) (T.width ops.now) (T.maps ops.now)
        (T.image ops.now) found.old.vectors.rows found.old.origins.items from 0
        found.new.vectors.rows found.new.origins.items (length found.new.vectors.rows) 0) }
{
    let mut of = from;
    while of < found.vectors.rows() {
        apply_all(ops, found, of, v)?;
        of += 1;
    }
    Ok(())
}

/// Takes generator v with its number as its origin: adds what is left of it, and then what is left of images,
/// until each map is applied to each vector.
pub(crate) fn take<T: Ops>(
    ops: &T,
    found: &mut Found,
    number: u32,
    v: &mut Row,
) -> Result<(), Memory>
    requires maps_fit { T.maps ops.now ≤ 2 ^ 32 }
    requires width_fits { T.width ops.now ≤ 2 ^ 32 }
    requires ready { IsReady (T.modulus ops.now) (T.width ops.now) found.old v.old }
    ensures ready { OnOk result (IsReady (T.modulus ops.now) (T.width ops.now) found.new v.new) }
    ensures origins { OnOk result (HaveOrigins found.old.vectors.rows found.old.origins.items
        → HaveOrigins found.new.vectors.rows found.new.origins.items) }
    ensures taken { OnOk result (TakesGenerator (T.modulus ops.now) (T.width ops.now) (T.maps ops.now)
        (T.image ops.now) (entry v.old.entries) number found.old.vectors.rows found.old.origins.items
        found.new.vectors.rows found.new.origins.items) }
{
    let done = found.vectors.rows();
    insert(found, v, Origin::Chosen(number))?;
    close(ops, found, done, v)?;
    Ok(())
}
