//! A report, from a resolution.

ghost use Rattle.std.specs.Prelude.{◌≡◌, ◌+◌, ◌≤◌, ◌<◌, ◌^◌, suc, IfOk, IfErr};
ghost use Rattle.limits.specs.declared.TheConstants.{GREATEST_DEGREE};
ghost use Rattle.min_res.specs.Stages.{rank_of};
ghost use Rattle.coho_report.specs.Cohomology.{IsCohomologyReport};
ghost use Rattle.coho_report.specs.Limits.{AreSmall};
ghost use Rattle.coho_report.specs.Reports.{IsReport, ranks_below};
ghost use Rattle.coho_report.specs.Refusals.{IsRefusal};

use crate::parameters::find_parameters;
use crate::rings::ring_through;
use crate::subgroups::subgroup_reports;
use crate::{Report, ReportFault};
use min_res::Resolution;
use std::alloc::{AllocError, Global};

// The rank of degree d.
fn rank_at(res: &Resolution, d: u32) -> usize
    requires { d ≤ res.now.last }
    ensures { result ≡ rank_of res.now.group d }
{
    res.stage_at(d).rank()
}

// The ranks of the degrees below c.
fn ranks_below(alloc: Global, res: &Resolution, c: u32) -> Result<Vec<usize>, AllocError>
    requires { c ≤ res.now.last + 1 }
    ensures { IfOk result (λ ranks. ranks.items ≡ ranks_below res.now.group c) }
{
    let mut ranks = Vec::new(alloc);
    for d in 0..c {
        ranks.push(rank_at(res, d))?;
    }
    Ok(ranks)
}

/// The report on the ring of the resolution's group through degree n, with the restrictions of the generators
/// to the maximal elementary abelian subgroups, and the parameters. `TooLarge` comes exactly where over a
/// listed subgroup a dimension of degrees 1 to n is above the limit: it names the first such subgroup and its
/// first such degree.
pub fn compose(alloc: Global, res: &Resolution, n: u32, limit: u64) -> Result<Report, ReportFault>
    requires from { 1 ≤ n }
    requires to { n ≤ res.now.last }
    requires high { n ≤ GREATEST_DEGREE }
    requires limit { limit ≤ 2 ^ 28 }
    ensures report { IfOk result (λ report. IsReport res.now.group n report) }
    ensures cohomology { IfOk result (λ report. IsCohomologyReport res.now.group n report) }
    ensures small { IfOk result (λ report. AreSmall res.now.group n limit) }
    ensures refused { IfErr result (IsRefusal res.now.group n limit) }
{
    let ring = ring_through(alloc, res, n)?;
    let ranks = ranks_below(alloc, res, n + 1)?;
    let order = res.algebra().group().order();
    let told = subgroup_reports(alloc, res, &ring, limit)?;
    let parameters = find_parameters(alloc, res, &ring, &told.restrictors)?;
    Ok(Report {
        order,
        ranks,
        ring,
        subgroups: told.reports,
        parameters,
    })
}
