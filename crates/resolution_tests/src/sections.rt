//! Tests of the sections of minimal resolutions.

ghost use Rattle.min_res.specs.Defined.{InK};
ghost use Rattle.min_res.specs.Stages.{rank_of};
ghost use Rattle.p_groups.specs.PGroups.{order_of, prime_of};
ghost use Rattle.std.specs.Prelude.{◌≡◌, ◌*◌, IfOk, IsTrue, length};

use crate::resolutions::resolved;
use crate::rows::{row_of, shows};
use fp_rows::Row;
use min_res::Resolution;
use small_groups::SmallGroup;
use std::alloc::Global;
use std::process::Abort;
use std::test::Fail;

// Whether a row is one of the kernel of degree d.
fn is_in_kernel(resolution: &Resolution, d: u32, v: &Row) -> bool
    requires { v.now.p ≡ prime_of resolution.now.group }
    ensures { IsTrue result → InK resolution.now.group d v.now.entries }
{
    let Some(stage) = resolution.stage(d) else {
        return false;
    };
    if v.len() != stage.kernel().width() {
        return false;
    }
    stage.kernel().contains(v.view())
}

// The zero of the free module of degree d.
fn zero_of(alloc: Global, resolution: &Resolution, d: u32) -> Result<Row, Fail>
    ensures prime { IfOk result (λ r. r.p ≡ prime_of resolution.now.group) }
    ensures width { IfOk result (λ r. length r.entries
        ≡ order_of resolution.now.group * rank_of resolution.now.group d) }
{
    let p = resolution.algebra().group().prime();
    let stage = resolution.stage(d).ok_or("no stage")?;
    let row = Row::zero(alloc, p, stage.kernel().width())?;
    Ok(row)
}

// The section, under the boundary of degree d, of a row of the kernel of degree d - 1.
fn section_of(
    rt: &impl Abort,
    alloc: Global,
    resolution: &Resolution,
    d: u32,
    entries: &[u8],
) -> Result<Row, Fail> {
    assert!(rt; 0 < d && d <= resolution.last());
    let v = row_of(rt, alloc, resolution.algebra().group().prime(), entries)?;
    assert!(rt; is_in_kernel(resolution, d - 1, &v));
    let mut out = zero_of(alloc, resolution, d)?;
    resolution.section(d, v.view(), &mut out);
    Ok(out)
}

// The group algebra of three elements has the layer basis 1, X = g - 1, X^2. The boundary of degree 1 takes 1
// to X and that of degree 2 takes 1 to X^2, so their kernels are the multiples of X^2 and of X: the sections
// of 2 X + X^2 and of 2 X^2 are 2 + X and 2.
#[test]
fn sections_of_three_elements(rt: HostRuntime) -> Result<(), Fail> {
    let resolution = resolved(rt.alloc(), SmallGroup::Three, 2)?;
    let first = section_of(&rt, rt.alloc(), &resolution, 1, &[0, 2, 1])?;
    assert!(rt; shows(first.view(), &[2, 1, 0]));
    let second = section_of(&rt, rt.alloc(), &resolution, 2, &[0, 0, 2])?;
    assert!(rt; shows(second.view(), &[2, 0, 0]));
    Ok(())
}
