//! The search for parameters.

ghost use Rattle.std.specs.Prelude.{◌≡◌, ◌≤◌, ◌<◌, All, IfOk};
ghost use Rattle.param_test.specs.Tables.{degrees_of, AreCandidatesOver};
ghost use Rattle.param_test.specs.Parameters.{Passes, IsFoundIn};

use crate::table::ParamTable;
use crate::walk::search_degree;
use fp_rows::Positions;
use group_table::Memory;
use std::alloc::Global;

// The degrees of the candidates.
fn degrees(alloc: Global, table: &ParamTable) -> Result<Vec<u32>, Memory>
    ensures degrees { IfOk result (λ ds. ds.items ≡ degrees_of table.now.candidates) }
    ensures valid { AreCandidatesOver table.now.subgroups table.now.candidates }
{
    let mut degrees = Vec::new(alloc);
    for c in &table.candidates {
        degrees.push(c.degree)?;
    }
    Ok(degrees)
}

// The positions as a list.
fn positions(alloc: Global, tuple: &[usize]) -> Result<Positions, Memory>
    requires { All (λ k. k ≤ 4294967295) tuple.now }
    ensures { IfOk result (λ t. t ≡ tuple.now) }
{
    let mut positions = Positions::new(alloc);
    for k in tuple {
        positions.push(*k as u32)?;
    }
    Ok(positions)
}

/// The first tuple of r candidates whose restrictions are finite on every subgroup, of the first 5,000 tuples
/// by total degree and then place by place; none where none of them passes.
pub fn search(alloc: Global, table: &ParamTable, r: usize) -> Result<Option<Positions>, Memory>
    ensures { IfOk result (IsFoundIn table.now r) }
{
    let degrees = degrees(alloc, table)?;
    if r > degrees.len() {
        return Ok(None);
    }
    if r == 0 {
        if table.passes(alloc, &[])? {
            return Ok(Some(Positions::new(alloc)));
        }
        return Ok(None);
    }
    let mut left = 5000;
    for sum in 0..24 * r as u64 + 1 {
        if let Some(tuple) = search_degree(alloc, table, &degrees, r, sum, &mut left)? {
            return Ok(Some(positions(alloc, &tuple)?));
        }
        if left == 0 {
            return Ok(None);
        }
    }
    Ok(None)
}
