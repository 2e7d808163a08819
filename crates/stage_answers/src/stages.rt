ghost use Rattle.std.specs.Prelude.{◌≡◌, ◌≤◌, IfOk, IfErr, OnOk};
ghost use Rattle.coho_steps.specs.Groups.{ForGroupOf};
ghost use Rattle.stage_answers.specs.Stages.{IsStageRefusal};
ghost use Rattle.stage_walk.specs.Dimensions.{Fit};
ghost use Rattle.stage_answers.specs.Resolving.{IsResolutionTo, IsStageFault, stop_of};
ghost use Rattle.coho_steps.specs.Stops.{IsRefused};

use crate::layers::algebra_of;
use coho_steps::{Cause, Stop};
use limits::{GREATEST_DEGREE, GREATEST_DIMENSION};
use min_res::{ResFault, Resolution};
use pc_group::Consistent;
use std::alloc::Global;

// Adds the stages of degree 1 to n to the first one.
fn extend_to(resolution: &mut Resolution, n: u32) -> Result<(), ResFault>
    requires first { resolution.old.last ≡ 0 }
    requires degree { n ≤ GREATEST_DEGREE }
    ensures group { resolution.new.group ≡ resolution.old.group }
    ensures last { OnOk result (resolution.new.last ≡ n) }
    ensures fit { OnOk result (Fit resolution.old.group n) }
    ensures refused { IfErr result (IsStageFault resolution.old.group n) }
{
    resolution.extend_to(n, GREATEST_DIMENSION)
}

// The program's stop at a fault.
fn stop_of<'a>(fault: ResFault) -> Stop<'a>
    ensures { result ≡ stop_of fault }
{
    match fault {
        ResFault::TooLarge { degree, dimension } => {
            Stop::Refused(Cause::Stage { degree, dimension })
        }
        ResFault::Memory => Stop::Memory,
    }
}

/// The minimal resolution of a consistent presentation's group, to degree n.
pub fn resolution_of<'a>(
    alloc: Global,
    consistent: &Consistent,
    n: u32,
) -> Result<Resolution, Stop<'a>>
    requires { n ≤ GREATEST_DEGREE }
    ensures found { IfOk result (IsResolutionTo consistent.now n) }
    ensures refused { IfErr result
        (IsRefused (λ refusal. ForGroupOf consistent.now (λ G. IsStageRefusal G n refusal))) }
{
    let algebra = algebra_of(alloc, consistent)?;
    let mut resolution = Resolution::start(alloc, algebra)?;
    match extend_to(&mut resolution, n) {
        Ok(()) => Ok(resolution),
        Err(fault) => Err(stop_of(fault)),
    }
}
