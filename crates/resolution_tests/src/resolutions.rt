//! Tests of minimal resolutions.

use crate::rows::shows;
use fp_rows::Row;
use group_algebra::Algebra;
use min_res::{ResFault, Resolution, Stage};
use small_groups::SmallGroup;
use std::alloc::Global;
use std::process::Abort;
use std::test::Fail;

/// The resolution to this degree.
pub(crate) fn resolved(alloc: Global, kind: SmallGroup, degree: u32) -> Result<Resolution, Fail> {
    let group = kind.group(alloc)?;
    let algebra = Algebra::build(alloc, &group)?;
    let mut resolution = Resolution::start(alloc, algebra)?;
    resolution.extend_to(degree, 4096)?;
    Ok(resolution)
}

// Whether the stages of these degrees have these ranks.
fn has_ranks(resolution: &Resolution, ranks: &[(u32, usize)]) -> bool {
    for (d, rank) in ranks {
        if *d > resolution.last() || resolution.stage_at(*d).rank() != *rank {
            return false;
        }
    }
    true
}

// Whether the kernels of these degrees have these dimensions.
fn has_kernels(resolution: &Resolution, kernels: &[(u32, usize)]) -> bool {
    for (d, dimension) in kernels {
        match resolution.stage(*d) {
            Some(stage) if stage.degree() == *d && stage.kernel().rows() == *dimension => {}
            _ => return false,
        }
    }
    true
}

// Whether these rows of the boundaries of these degrees have these places in the list of the kernel before.
fn has_positions(resolution: &Resolution, positions: &[(u32, usize, u32)]) -> bool {
    for (d, i, position) in positions {
        match resolution.stage(*d) {
            Some(stage)
                if stage.degree() > 0 && *i < stage.rank() && stage.position(*i) == *position => {}
            _ => return false,
        }
    }
    true
}

// Whether `extend` made the last stage against a basis of J K of this many vectors.
fn has_radical(resolution: &Resolution, vectors: usize) -> bool {
    match resolution.radical() {
        Some(basis) => basis.len() == vectors,
        None => false,
    }
}

#[test]
fn resolves_the_dihedral_group(rt: HostRuntime) -> Result<(), Fail> {
    let resolution = resolved(rt.alloc(), SmallGroup::Dihedral, 2)?;
    assert!(rt; has_ranks(&resolution, &[(0, 1), (1, 2), (2, 3)]));
    assert!(rt; has_kernels(&resolution, &[(0, 7), (1, 9), (2, 15)]));
    assert!(rt;
        has_positions(
            &resolution,
            &[(1, 0, 0), (1, 1, 1), (2, 0, 0), (2, 1, 1), (2, 2, 5)]
        )
    );
    assert!(rt; resolution.stage(3).is_none());
    assert_eq!(rt; resolution.computed(), 2);
    assert!(rt; has_radical(&resolution, 6));
    Ok(())
}

#[test]
fn resolves_the_trivial_group(rt: HostRuntime) -> Result<(), Fail> {
    let resolution = resolved(rt.alloc(), SmallGroup::Trivial, 1)?;
    assert!(rt; has_ranks(&resolution, &[(0, 1), (1, 0)]));
    assert!(rt; has_kernels(&resolution, &[(0, 0), (1, 0)]));
    assert!(rt; has_radical(&resolution, 0));
    Ok(())
}

#[test]
fn has_the_ranks_of_the_quaternion_group(rt: HostRuntime) -> Result<(), Fail> {
    let resolution = resolved(rt.alloc(), SmallGroup::Quaternion, 6)?;
    assert!(rt;
        has_ranks(
            &resolution,
            &[(0, 1), (1, 2), (2, 2), (3, 1), (4, 1), (5, 2), (6, 2)]
        )
    );
    Ok(())
}

#[test]
fn has_no_radical_at_the_start(rt: HostRuntime) -> Result<(), Fail> {
    let resolution = resolved(rt.alloc(), SmallGroup::Two, 0)?;
    assert!(rt; resolution.radical().is_none());
    Ok(())
}

#[test]
fn has_the_ranks_of_an_elementary_group(rt: HostRuntime) -> Result<(), Fail> {
    let resolution = resolved(rt.alloc(), SmallGroup::Nine, 4)?;
    assert!(rt; has_ranks(&resolution, &[(0, 1), (1, 2), (2, 3), (3, 4), (4, 5)]));
    Ok(())
}

// Whether the next stage is refused for this dimension of degree 2, above this limit, and taken where it is
// the limit.
fn names_the_dimension(resolution: &mut Resolution, dimension: u64) -> bool {
    if resolution.last() != 1 || dimension == 0 || dimension > 4096 {
        return false;
    }
    let fault = resolution.extend(dimension - 1).err();
    let named = fault
        == Some(ResFault::TooLarge {
            degree: 2,
            dimension,
        });
    named && resolution.last() == 1 && resolution.extend(dimension).is_ok()
}

#[test]
fn names_the_dimension_above_the_limit(rt: HostRuntime) -> Result<(), Fail> {
    let mut resolution = resolved(rt.alloc(), SmallGroup::Klein, 1)?;
    assert!(rt; names_the_dimension(&mut resolution, 12));
    assert_eq!(rt; resolution.last(), 2);
    Ok(())
}

// Whether extension to degree 4 ends at degree 3, which this fault names, and the stages before it stay.
fn ends_at(resolution: &mut Resolution, limit: u64, dimension: u64) -> bool {
    if limit > 4096 {
        return false;
    }
    let fault = resolution.extend_to(4, limit).err();
    fault
        == Some(ResFault::TooLarge {
            degree: 3,
            dimension,
        })
}

// The ranks of the Klein group are 1, 2, 3, 4 and so on.
#[test]
fn extends_to_the_last_degree_within_the_limit(rt: HostRuntime) -> Result<(), Fail> {
    let mut resolution = resolved(rt.alloc(), SmallGroup::Klein, 0)?;
    assert!(rt; ends_at(&mut resolution, 12, 16));
    assert_eq!(rt; resolution.last(), 2);
    resolution.extend_to(1, 0)?;
    assert_eq!(rt; resolution.last(), 2);
    assert_eq!(rt; resolution.computed(), 2);
    Ok(())
}

// Whether the first row of the list before, of the boundary and of the table of sections are these.
fn has_first_rows(stage: &Stage, source: &[u8], image: &[u8], section: &[u8]) -> bool {
    let Some(list) = stage.source() else {
        return false;
    };
    if stage.degree() == 0 || stage.rank() == 0 || list.rows() == 0 {
        return false;
    }
    shows(list.row(0), source)
        && shows(stage.image(0), image)
        && shows(stage.section_row(0), section)
}

// Whether the boundary takes the first basis element to the value.
fn has_first_value(alloc: Global, stage: &Stage, value: &[u8]) -> Result<bool, Fail> {
    let Some(source) = stage.source() else {
        return Ok(false);
    };
    let prime = stage.kernel().prime();
    let mut image = Row::zero(alloc, prime, source.width())?;
    let mut unit = Row::zero(alloc, prime, stage.kernel().width())?;
    if unit.len() == 0 || stage.degree() == 0 {
        return Ok(false);
    }
    unit.set_unit(0);
    stage.boundary(unit.view(), &mut image);
    Ok(shows(image.view(), value))
}

// In the basis 1, g - 1 of the group of two elements the boundary of degree 1 takes 1 to g - 1, and g - 1 to
// 0.
#[test]
fn reads_the_stage_of_two_elements(rt: HostRuntime) -> Result<(), Fail> {
    let resolution = resolved(rt.alloc(), SmallGroup::Two, 1)?;
    assert!(rt; resolution.last() == 1);
    let stage = resolution.stage_at(1);
    assert!(rt; has_first_rows(stage, &[0, 1], &[0, 1], &[1, 0]));
    assert!(rt; has_first_value(rt.alloc(), stage, &[0, 1])?);
    Ok(())
}
