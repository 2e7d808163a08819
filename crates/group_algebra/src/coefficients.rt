//! Members of the group algebra by their coefficients.

ghost use Rattle.std.specs.Prelude.{◌≡◌, ◌<◌, length};
ghost use Rattle.group_table.specs.Prime.{prime_value};
ghost use Rattle.group_table.specs.Tables.{order};
ghost use Rattle.fp_rows.specs.Refs.{entries_of, modulus_of};
ghost use Rattle.group_algebra.specs.Coefficients.{AreSumCoordinates, IsTranslate};

use fp_rows::{Row, RowRef, add_product};
use group_table::{Group, Prime};

/// Writes the sum coordinates of the member with the coefficients a.
pub(crate) fn write_sum_coordinates(a: RowRef<'_>, out: &mut Row)
    requires same_prime { out.old.p ≡ modulus_of a }
    requires same_length { length out.old.entries ≡ length (entries_of a) }
    requires some { 0 < length (entries_of a) }
    ensures prime { out.new.p ≡ out.old.p }
    ensures coordinates { AreSumCoordinates (modulus_of a.entry) (length (entries_of a.entry))
        (entries_of a.entry) out.new.entries }
{
    out.clear();
    out.add(1, a);
    out.set(0, a.sum());
}

/// Writes the coefficients of the member with the sum coordinates x.
pub(crate) fn write_coefficients(p: Prime, x: RowRef<'_>, out: &mut Row)
    requires modulus { modulus_of x ≡ prime_value p }
    requires same_prime { out.old.p ≡ prime_value p }
    requires same_length { length out.old.entries ≡ length (entries_of x) }
    requires some { 0 < length (entries_of x) }
    ensures prime { out.new.p ≡ out.old.p }
    ensures coefficients { AreSumCoordinates (prime_value p) (length (entries_of x.entry)) out.new.entries
        (entries_of x.entry) }
{
    out.clear();
    out.add(1, x);
    let rest = x.part(1, x.len() - 1).sum();
    out.set(0, add_product(p, x.get(0), p.value() - 1, rest));
}

/// Writes the coefficients of g times the member with the coefficients a.
pub(crate) fn write_translate(group: &Group, g: u16, a: RowRef<'_>, out: &mut Row)
    requires element { g < order group.now }
    requires modulus { modulus_of a ≡ group.now.p }
    requires same_prime { out.old.p ≡ group.now.p }
    requires length { length (entries_of a) ≡ order group.now }
    requires same_length { length out.old.entries ≡ order group.now }
    ensures prime { out.new.p ≡ out.old.p }
    ensures translate { IsTranslate group.now g (entries_of a.entry) out.new.entries }
{
    let order = group.order() as usize;
    out.clear();
    let mut k = a.next_place(0);
    while k < order {
        out.set(group.mul(g, k as u16) as usize, a.get(k));
        k = a.next_place(k + 1);
    }
    prove!(out.len() == order);
}
