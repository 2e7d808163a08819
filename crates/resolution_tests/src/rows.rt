//! Rows by their entries.

ghost use Rattle.group_table.specs.Prime.{prime_value};
ghost use Rattle.std.specs.Prelude.{◌≡◌, IfOk, length};

use fp_rows::{Row, RowRef};
use group_table::Prime;
use std::alloc::Global;
use std::process::Abort;
use std::test::Fail;

/// The row with these entries, which are below p.
pub(crate) fn row_of(rt: &impl Abort, alloc: Global, p: Prime, entries: &[u8]) -> Result<Row, Fail>
    ensures { IfOk result (λ r. (r.p ≡ prime_value p) × (length r.entries ≡ length entries.now)) }
{
    let mut row = Row::zero(alloc, p, entries.len())?;
    for i in 0..entries.len() {
        assert!(rt; entries[i] < p.value());
        row.set(i, entries[i]);
    }
    Ok(row)
}

/// Whether a row has these entries.
pub(crate) fn shows(r: RowRef<'_>, entries: &[u8]) -> bool {
    if r.len() != entries.len() {
        return false;
    }
    for i in 0..entries.len() {
        if r.get(i) != entries[i] {
            return false;
        }
    }
    true
}
