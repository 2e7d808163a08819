ghost use Rattle.std.specs.Prelude.{◌≡◌, ◌<◌, ◌^◌, length, IfOk};
ghost use Rattle.linear_algebra.specs.Choices.{IsGreedy};

use crate::basis::Echelon;
use crate::elimination::insert_row;
use crate::positions::Positions;
use crate::row::Row;
use group_table::Memory;
use std::alloc::Global;

// A vector with these rows.
fn copies_of(alloc: Global, rows: &[Row]) -> Result<Vec<Row>, Memory>
    ensures { IfOk result (λ v. v.items ≡ rows.now) }
{
    let mut copies = Vec::new(alloc);
    for r in rows {
        let copy = Row::copy_of(alloc, r.view())?;
        copies.push(copy)?;
    }
    Ok(copies)
}

// A vector with these places.
fn places_of(alloc: Global, places: &[usize]) -> Result<Vec<usize>, Memory>
    ensures { IfOk result (λ v. v.items ≡ places.now) }
{
    let mut v = Vec::new(alloc);
    v.extend_from_slice(places)?;
    Ok(v)
}

/// The positions of the rows of s that are not in the span of t and the rows taken before them.
pub fn greedy(alloc: Global, s: &Echelon, t: &Echelon) -> Result<Positions, Memory>
    requires same_prime { s.now.p ≡ t.now.p }
    requires same_width { s.now.width ≡ t.now.width }
    requires few { length s.now.rows < 2 ^ 32 }
    ensures { IfOk result (λ positions. IsGreedy s.now.p s.now.rows t.now.rows positions) }
{
    let mut positions = Positions::new(alloc);
    let taken = &t.matrix;
    let offered = &s.matrix;
    let mut rows = copies_of(alloc, &taken.rows)?;
    let mut pivots = places_of(alloc, &t.pivots)?;
    for (i, r) in offered.rows.iter().enumerate() {
        let v = Row::copy_of(alloc, r.view())?;
        if insert_row(&mut rows, &mut pivots, v)? {
            positions.push(i as u32)?;
        }
    }
    Ok(positions)
}
