//! A stage from parts that come from outside.

ghost use Rattle.group_table.specs.Prime.{prime_value};
ghost use Rattle.min_res.specs.Candidates.{IsBoundaryBy, IsCandidate, MayComeNext, kept_parts, kernel_by};
ghost use Rattle.min_res.specs.Defined.{IsStageAt};
ghost use Rattle.min_res.specs.RecordChecks.{IsNotAdopted};
ghost use Rattle.p_groups.specs.PGroups.{order_of, prime_of};
ghost use Rattle.resolution_stages.specs.Chain.{parts_of};
ghost use Rattle.min_res.specs.Stages.{stage_rows};
ghost use Rattle.std.specs.Prelude.{◌≡◌, ◌≤◌, ◌<◌, ◌+◌, ◌*◌, ◌^◌, suc, IfErr, IfOk, OnOk, length};

use crate::adopt_fault::AdoptFault;
use crate::boundary::Boundary;
use crate::candidate::Candidate;
use crate::check::Check;
use crate::matrices::{chosen_rows, matrix_of};
use crate::part_lists::{PartRows, positions_of, rows_of};
use crate::parts::StageParts;
use crate::stage::Stage;
use fp_rows::{Echelon, FromRows, Row};
use group_algebra::Algebra;
use group_table::Memory;
use std::alloc::Global;
use std::rc::Rc;

// The boundary with these positions and sections.
fn boundary_of<S: StageParts>(
    alloc: Global,
    algebra: &Algebra,
    last: &Stage,
    given: &S,
) -> Result<Boundary, Memory>
    requires { MayComeNext algebra.now last.now (S.modulus given.now) (S.parts given.now) }
    ensures { IfOk result (IsBoundaryBy algebra.now last.now.degree (S.parts given.now)) }
{
    let source = last.list().clone()?;
    let positions = positions_of(alloc, given)?;
    let rows = chosen_rows(alloc, &source, &positions)?;
    let matrix = matrix_of(alloc, algebra, last.rank(), &rows)?;
    let width = algebra.group().order() as usize * positions.len();
    let sections = rows_of(
        alloc,
        given,
        PartRows::Sections,
        source.prime(),
        width,
        source.rows(),
    )?;
    Ok(Boundary {
        source,
        positions,
        matrix,
        sections,
    })
}

// The rows of the kernel, where they are a reduced echelon list.
fn kernel_list<S: StageParts>(
    alloc: Global,
    algebra: &Algebra,
    last: &Stage,
    given: &S,
) -> Result<Echelon, AdoptFault>
    requires { MayComeNext algebra.now last.now (S.modulus given.now) (S.parts given.now) }
    ensures kernel { IfOk result (λ list. list ≡ kernel_by algebra.now (S.parts given.now)) }
    ensures refused { IfErr result (IsNotAdopted algebra.now last.now.degree (S.parts given.now)) }
{
    let list = last.kernel();
    let width = algebra.group().order() as usize * given.rank();
    let rows = rows_of(
        alloc,
        given,
        PartRows::Kernel,
        list.prime(),
        width,
        width - list.rows(),
    )?;
    match Echelon::from_rows(alloc, rows) {
        Ok(kernel) => Ok(kernel),
        Err(FromRows::Not { row, matrix: _ }) => Err(AdoptFault::False {
            check: Check::ReducedKernel.number(),
            row: row as u32,
        }),
        Err(FromRows::Memory { matrix: _ }) => Err(AdoptFault::Memory),
    }
}

// Tests the parts that the boundary and the kernel show.
fn test(
    alloc: Global,
    algebra: &Algebra,
    last: &Stage,
    boundary: &Boundary,
    kernel: &Echelon,
) -> Result<(), AdoptFault>
    requires last { IsStageAt algebra.now last.now.degree last.now }
    requires candidate { IsCandidate algebra.now last.now.degree boundary.now kernel.now }
    ensures passed { OnOk result (kept_parts boundary.now kernel.now
        ≡ parts_of (stage_rows algebra.now) last.now.degree) }
    ensures refused { IfErr result
        (IsNotAdopted algebra.now last.now.degree (kept_parts boundary.now kernel.now)) }
{
    let candidate = Candidate {
        algebra,
        last,
        boundary,
        kernel,
    };
    let mut value = Row::zero(alloc, kernel.prime(), last.kernel().width())?;
    match candidate.pass_all(&mut value) {
        Ok(()) => Ok(()),
        Err(failure) => Err(AdoptFault::False {
            check: failure.check.number(),
            row: failure.row as u32,
        }),
    }
}

/// The stage after `last` with these parts, which have its sizes. `False` comes exactly where they are not
/// those of the next stage, with the first check that fails and its first row.
pub(crate) fn adopted_stage<S: StageParts>(
    alloc: Global,
    algebra: &Algebra,
    last: &Stage,
    given: &S,
) -> Result<Stage, AdoptFault>
    requires parts { MayComeNext algebra.now last.now (S.modulus given.now) (S.parts given.now) }
    requires degree { last.now.degree + 1 < 2 ^ 32 }
    ensures parts { OnOk result (S.parts given.now ≡ parts_of (stage_rows algebra.now) last.now.degree) }
    ensures stage { IfOk result (λ s. IsStageAt algebra.now (suc last.now.degree) s) }
    ensures width { IfOk result (λ s. s.kernel.width ≤ 2 ^ 28) }
    ensures refused { IfErr result (IsNotAdopted algebra.now last.now.degree (S.parts given.now)) }
{
    let boundary = boundary_of(alloc, algebra, last, given)?;
    let kernel = kernel_list(alloc, algebra, last, given)?;
    test(alloc, algebra, last, &boundary, &kernel)?;
    Ok(Stage {
        degree: last.degree() + 1,
        rank: boundary.positions().len(),
        kernel: Rc::new(alloc, kernel)?,
        boundary: Some(boundary),
    })
}
