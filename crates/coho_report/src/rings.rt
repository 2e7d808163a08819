//! Rings through a degree.

ghost use Rattle.std.specs.Prelude.{◌≤◌, IfOk};
ghost use Rattle.limits.specs.declared.TheConstants.{GREATEST_DEGREE};
ghost use Rattle.coho_report.specs.OwnRings.{IsRingThrough};

use group_table::Memory;
use min_res::Resolution;
use ring_present::Ring;
use std::alloc::Global;

/// The ring through degree n.
pub(crate) fn ring_through(alloc: Global, res: &Resolution, n: u32) -> Result<Ring, Memory>
    requires from { 1 ≤ n }
    requires to { n ≤ res.now.last }
    requires high { n ≤ GREATEST_DEGREE }
    ensures { IfOk result (IsRingThrough res.now.group n) }
{
    let mut ring = Ring::start(alloc, res.algebra().group().prime());
    for _d in 0..n {
        ring.add_degree(res)?;
    }
    let _degree = ring.degree();
    Ok(ring)
}
