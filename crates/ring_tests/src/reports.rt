//! Reports worked out by hand. Whole reports on more groups are compared with what the built program prints.

ghost use Rattle.std.specs.Prelude.{◌≡◌, ◌≤◌, IfOk};
ghost use Rattle.limits.specs.declared.TheConstants.{GREATEST_DEGREE};

use coho_report::{Report, ReportFault, compose, write_report};
use group_algebra::Algebra;
use group_table::{Group, Memory};
use limits::{GREATEST_DEGREE, GREATEST_DIMENSION};
use min_res::Resolution;
use small_groups::SmallGroup;
use std::alloc::Global;
use std::process::Abort;
use std::test::Fail;

const KLEIN: &str = "coho ring 1\nprime 2\norder 4\ndegree 2\nranks 1 2 3\n\
    generators 2\nx_1_1\nx_1_2\nrelations 0\n\
    subgroups 1\nsubgroup 1 rank 2 basis 1 2\nx_1_1 -> x_1_1\nx_1_2 -> x_1_2\n\
    parameters 2\nx_1_1\nx_1_2\nbound 1\nverdict complete\n";

const FOUR: &str = "coho ring 1\nprime 2\norder 4\ndegree 1\nranks 1 1\ngenerators 1\nx_1_1\n\
    relations 0\nsubgroups 1\nsubgroup 1 rank 1 basis 2\nx_1_1 -> 0\n\
    parameters none\nbound none\nverdict not complete\n";

// The stages of this group up to this degree.
fn resolved(
    rt: &impl Abort,
    alloc: Global,
    group: &Group,
    degree: u32,
) -> Result<Resolution, Memory>
    ensures { IfOk result (λ r. r.last ≡ degree) }
{
    let mut resolution = Resolution::start(alloc, Algebra::build(alloc, group)?)?;
    for _d in 0..degree {
        assert!(rt; resolution.last() < GREATEST_DEGREE);
        assert!(rt; resolution.extend(GREATEST_DIMENSION).is_ok());
    }
    assert_eq!(rt; resolution.last(), degree);
    Ok(resolution)
}

fn reported(
    rt: &impl Abort,
    alloc: Global,
    group: &Group,
    degree: u32,
) -> Result<Report, ReportFault>
    requires from { 1 ≤ degree }
    requires high { degree ≤ GREATEST_DEGREE }
{
    let resolution = resolved(rt, alloc, group, degree)?;
    compose(alloc, &resolution, degree, GREATEST_DIMENSION)
}

// Whether these are the bytes of the report.
fn is_written(alloc: Global, report: &Report, text: &str) -> Result<bool, Memory> {
    let bytes = write_report(alloc, report)?;
    Ok(bytes.as_slice() == text.as_bytes())
}

#[test]
fn reports_on_the_klein_group(rt: HostRuntime) -> Result<(), Fail> {
    let group = SmallGroup::Klein.group(rt.alloc())?;
    let report = reported(&rt, rt.alloc(), &group, 2)?;
    assert_eq!(rt; report.generators(), 2);
    assert_eq!(rt; report.relations(), 0);
    assert_eq!(rt; report.subgroups(), 1);
    assert!(rt; report.complete());
    let written = is_written(rt.alloc(), &report, KLEIN)?;
    assert!(rt; written);
    Ok(())
}

// In degree 1 the cyclic group of order 4 has no parameters.
#[test]
fn tells_that_a_ring_is_not_complete(rt: HostRuntime) -> Result<(), Fail> {
    let group = SmallGroup::Four.group(rt.alloc())?;
    let report = reported(&rt, rt.alloc(), &group, 1)?;
    assert!(rt; !report.complete());
    let written = is_written(rt.alloc(), &report, FOUR)?;
    assert!(rt; written);
    Ok(())
}

// Whether the report through a degree is refused at this degree of the one subgroup, for this dimension.
fn is_refused(
    alloc: Global,
    resolution: &Resolution,
    n: u32,
    limit: u64,
    degree: u32,
    dimension: u64,
) -> bool
    requires from { 1 ≤ n }
    requires to { n ≤ resolution.now.last }
    requires high { n ≤ GREATEST_DEGREE }
    requires limit { limit ≤ 268435456 }
{
    let expected = ReportFault::TooLarge {
        subgroup: 1,
        degree,
        dimension,
    };
    compose(alloc, resolution, n, limit).err() == Some(expected)
}

// Over the subgroup, which is the group, the stages have dimensions 4, 8 and 12.
#[test]
fn names_the_first_refusal(rt: HostRuntime) -> Result<(), Fail> {
    let group = SmallGroup::Klein.group(rt.alloc())?;
    let resolution = resolved(&rt, rt.alloc(), &group, 3)?;
    assert!(rt; is_refused(rt.alloc(), &resolution, 1, 7, 1, 8));
    assert!(rt; is_refused(rt.alloc(), &resolution, 3, 8, 2, 12));
    Ok(())
}
