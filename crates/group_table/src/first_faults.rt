//! The first place where a table is not that of a group with the identity 0.

ghost use Rattle.group_table.specs.TableFaults.{IsUnitAt, IsLatinAt, IsAssociativeAt, HasUnit, HasLatinRows};
ghost use Rattle.group_table.specs.TableFaults.{IsAssociative, IsFirstFailure, IsFirstNotAssociative};
ghost use Rattle.group_table.specs.Tables.{GroupTable, order, product};
ghost use Rattle.std.specs.Prelude.{◌≡◌, ◌<◌, ◌↔◌, ℕ, IsTrue, IfOk, MatchOption, length};

use crate::Memory;
use crate::table::Table;
use std::alloc::Global;

/// The first element for which 0 is not a unit.
pub(crate) fn first_not_unit(table: &Table) -> Option<u16>
    ensures { MatchOption result (HasUnit table.now) (IsFirstFailure (order table.now) (IsUnitAt table.now)) }
{
    for a in 0..table.order() {
        if table.mul(0, a) != a || table.mul(a, 0) != a {
            return Some(a);
        }
    }
    None
}

/// The first row that has an entry twice.
pub(crate) fn first_not_latin(alloc: Global, table: &Table) -> Result<Option<u16>, Memory>
    ensures { IfOk result (λ row. MatchOption row (HasLatinRows table.now)
        (IsFirstFailure (order table.now) (IsLatinAt table.now))) }
{
    let mut seen = vec![in alloc; false; table.order() as usize]?;
    for a in 0..table.order() {
        if !is_latin(table, a, &mut seen) {
            return Ok(Some(a));
        }
    }
    Ok(None)
}

// Whether row a has no entry twice; `seen` marks the entries that were met.
fn is_latin(table: &Table, a: u16, seen: &mut [bool]) -> bool
    requires row { a < order table.now }
    requires marks { length seen.old ≡ order table.now }
    ensures { IsTrue result ↔ IsLatinAt table.now a }
{
    seen.fill(false);
    for b in 0..table.order() {
        let entry = table.mul(a, b) as usize;
        if seen[entry] {
            return false;
        }
        seen[entry] = true;
    }
    true
}

/// The first triple that does not associate, in ascending order.
pub(crate) fn first_not_associative(table: &Table) -> Option<(u16, u16, u16)>
    ensures { MatchOption result (IsAssociative table.now)
        (λ t. IsFirstNotAssociative table.now t.0 t.1 t.2) }
{
    for a in 0..table.order() {
        if let Some((b, c)) = first_pair(table, a) {
            return Some((a, b, c));
        }
    }
    None
}

// The first b and c that do not associate with a.
fn first_pair(table: &Table, a: u16) -> Option<(u16, u16)>
    requires { a < order table.now }
    ensures { let n = order table.now in
        MatchOption result
        ((b c : ℕ) → b < n → c < n → IsAssociativeAt table.now a b c)
        (λ p. IsFirstFailure n (λ b. (c : ℕ) → c < n → IsAssociativeAt table.now a b c) p.0
        × IsFirstFailure n (IsAssociativeAt table.now a p.0) p.1) }
{
    for b in 0..table.order() {
        if let Some(c) = first_third(table, a, b) {
            return Some((b, c));
        }
    }
    None
}

// The first c that does not associate with a and b.
fn first_third(table: &Table, a: u16, b: u16) -> Option<u16>
    requires left { a < order table.now }
    requires middle { b < order table.now }
    ensures { let n = order table.now in
        MatchOption result ((c : ℕ) → c < n
        → IsAssociativeAt table.now a b c) (IsFirstFailure n (IsAssociativeAt table.now a b)) }
{
    let ab = table.mul(a, b);
    for c in 0..table.order() {
        if table.mul(ab, c) != table.mul(a, table.mul(b, c)) {
            return Some(c);
        }
    }
    None
}
