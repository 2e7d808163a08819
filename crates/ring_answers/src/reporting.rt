//! The report on the ring of a presentation's group.

ghost use Rattle.std.specs.Prelude.{◌≡◌, ◌≤◌, IfErr, IfOk};
ghost use Rattle.coho_steps.specs.Groups.{ForGroupOf};
ghost use Rattle.coho_steps.specs.Lines.{contents};
ghost use Rattle.coho_steps.specs.Stops.{IsRefused};
ghost use Rattle.power_commutator.specs.Presentations.{Presentation};
ghost use Rattle.ring_answers.specs.Answers.{sample_lines};
ghost use Rattle.ring_answers.specs.Ringing.{IsReportRefusal, IsReportTo, stop_of};
ghost use Rattle.stage_answers.specs.Resolving.{IsResolutionTo};

use coho_report::{Report, ReportFault, compose, summary_lines};
use coho_steps::{Cause, Stop};
use limits::{GREATEST_DEGREE, GREATEST_DIMENSION};
use min_res::Resolution;
use std::alloc::{AllocError, Global};

// The program's stop at a fault.
fn stop_of<'a>(fault: ReportFault) -> Stop<'a>
    ensures { result ≡ stop_of fault }
{
    match fault {
        ReportFault::TooLarge {
            subgroup,
            degree,
            dimension,
        } => Stop::Refused(Cause::SubgroupStage {
            subgroup,
            degree,
            dimension,
        }),
        ReportFault::Memory => Stop::Memory,
    }
}

/// The report on the ring of the group of a resolution, through its last degree.
pub fn report_of<'a>(alloc: Global, resolution: &Resolution, n: u32) -> Result<Report, Stop<'a>>
    requires low { 1 ≤ n }
    requires high { n ≤ GREATEST_DEGREE }
    requires last { resolution.now.last ≡ n }
    ensures found { (P : Presentation) → IsResolutionTo P n resolution.now
        → IfOk result (λ report. ForGroupOf P (λ G. IsReportTo G n report)) }
    ensures refused { (P : Presentation) → IsResolutionTo P n resolution.now
        → IfErr result (IsRefused (λ refusal. ForGroupOf P (λ G. IsReportRefusal G n refusal))) }
{
    match compose(alloc, resolution, n, GREATEST_DIMENSION) {
        Ok(report) => Ok(report),
        Err(fault) => Err(stop_of(fault)),
    }
}

/// The lines of the answer to `sample`.
pub fn sample_lines(alloc: Global, k: u32, report: &Report) -> Result<Vec<Vec<u8>>, AllocError>
    ensures { IfOk result (λ lines. contents lines.items ≡ sample_lines k report.now) }
{
    let mut lines = Vec::new(alloc);
    lines.push(format!(in alloc; "sample {k}\n")?.into_bytes())?;
    lines.append(&mut summary_lines(alloc, report)?)?;
    Ok(lines)
}
