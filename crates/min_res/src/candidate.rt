//! The checks of the parts of a stage that comes from outside.

ghost use Rattle.min_res.specs.declared.check.Check.TheVariants as check_of;

use crate::boundary::Boundary;
use crate::check::{Check, Failure};
use crate::row_tests::{are_equal, are_later_sums_zero, are_sums_zero, is_zero_at_pivots, lacks};
use crate::stage::Stage;
use fp_rows::{Echelon, Row};
use group_algebra::Algebra;

/// Parts that may follow the stage `last`: the boundary has their positions and sections, and its matrix.
#[derive(Clone, Copy)]
pub(crate) struct Candidate<'a> {
    pub(crate) algebra: &'a Algebra,
    pub(crate) last: &'a Stage,
    pub(crate) boundary: &'a Boundary,
    pub(crate) kernel: &'a Echelon,
}

impl<'a> Candidate<'a> {
    ghost use Rattle.std.specs.Prelude.{◌≡◌, ◌↔◌, ◌<◌, ◌+◌, IfErr, IfSome, IsNone, IsTrue, OnOk};
    ghost use Rattle.min_res.specs.Held.{IsFit, IsValueRowOf, rows_of, Holds, HoldsThroughout, HoldBelow};
    ghost use Rattle.min_res.specs.Held.{IsFirstRow, IsFirstFault, MayTest};
    ghost use Rattle.min_res.specs.RecordChecks.{number_of};

    // How many rows a check is made at.
    fn count(&self, check: Check) -> usize
        requires { IsFit self.now }
        ensures { result ≡ rows_of self.now check }
    {
        match check {
            Check::ReducedKernel | Check::KernelToZero | Check::MinimalKernel => self.kernel.rows(),
            Check::SectionsToRows | Check::ZeroAtPivots | Check::LaterPositions => {
                self.last.kernel().rows()
            }
        }
    }

    // Whether the boundary takes row k of the kernel to 0.
    fn kernel_to_zero(&self, k: usize, value: &mut Row) -> bool
        requires { MayTest self.now check_of.KernelToZero k value.old }
        ensures value { IsValueRowOf self.now value.new }
        ensures holds { IsTrue result ↔ Holds self.now check_of.KernelToZero k }
    {
        self.boundary.write_value(self.kernel.row(k), value);
        value.view().is_zero()
    }

    // Whether the boundary takes section k to row k of the list before.
    fn section_to_row(&self, k: usize, value: &mut Row) -> bool
        requires { MayTest self.now check_of.SectionsToRows k value.old }
        ensures value { IsValueRowOf self.now value.new }
        ensures holds { IsTrue result ↔ Holds self.now check_of.SectionsToRows k }
    {
        self.boundary
            .write_value(self.boundary.section_row(k), value);
        are_equal(value.view(), self.last.kernel().row(k))
    }

    // Whether row k of the list before is among the positions, or its section is 0 at the place in layer 0 of
    // each block whose position is greater.
    fn later_positions(&self, k: usize) -> bool
        requires fits { IsFit self.now }
        requires inside { k < rows_of self.now check_of.LaterPositions }
        ensures { IsTrue result ↔ Holds self.now check_of.LaterPositions k }
    {
        let positions = self.boundary.positions();
        let section = self.boundary.section_row(k);
        !lacks(positions, k) || are_later_sums_zero(self.algebra, positions, k, section)
    }

    // Whether a check holds at row k. The kernel is a reduced echelon list: each of its rows is reduced.
    fn holds(&self, check: Check, k: usize, value: &mut Row) -> bool
        requires { MayTest self.now check k value.old }
        ensures value { IsValueRowOf self.now value.new }
        ensures holds { IsTrue result ↔ Holds self.now check k }
    {
        match check {
            Check::ReducedKernel => k < self.kernel.rows(),
            Check::KernelToZero => self.kernel_to_zero(k, value),
            Check::SectionsToRows => self.section_to_row(k, value),
            Check::ZeroAtPivots => is_zero_at_pivots(self.kernel, self.boundary.section_row(k)),
            Check::MinimalKernel => {
                are_sums_zero(
                    self.algebra,
                    self.boundary.positions().len(),
                    self.kernel.row(k),
                )
            }
            Check::LaterPositions => self.later_positions(k),
        }
    }

    // The first row at which a check fails.
    fn first_row(&self, check: Check, value: &mut Row) -> Option<usize>
        requires fits { IsFit self.now }
        requires value { IsValueRowOf self.now value.old }
        ensures value { IsValueRowOf self.now value.new }
        ensures row { IfSome result (IsFirstRow self.now check) }
        ensures none { IsNone result → HoldsThroughout self.now check }
    {
        for k in 0..self.count(check) {
            if !self.holds(check, k, value) {
                return Some(k);
            }
        }
        None
    }

    // A check at each of its rows, where those before it hold.
    fn pass(&self, check: Check, value: &mut Row) -> Result<(), Failure>
        requires fits { IsFit self.now }
        requires value { IsValueRowOf self.now value.old }
        requires before { HoldBelow self.now (number_of check) }
        ensures value { IsValueRowOf self.now value.new }
        ensures passed { OnOk result (HoldBelow self.now (number_of check + 1)) }
        ensures failed { IfErr result (IsFirstFault self.now) }
    {
        match self.first_row(check, value) {
            Some(row) => Err(Failure { check, row }),
            None => Ok(()),
        }
    }

    /// The checks in their order, each at its rows. An error names the first that fails.
    pub(crate) fn pass_all(&self, value: &mut Row) -> Result<(), Failure>
        requires fits { IsFit self.now }
        requires value { IsValueRowOf self.now value.old }
        ensures passed { OnOk result (HoldBelow self.now 7) }
        ensures failed { IfErr result (IsFirstFault self.now) }
    {
        self.pass(Check::ReducedKernel, value)?;
        self.pass(Check::KernelToZero, value)?;
        self.pass(Check::SectionsToRows, value)?;
        self.pass(Check::ZeroAtPivots, value)?;
        self.pass(Check::MinimalKernel, value)?;
        self.pass(Check::LaterPositions, value)
    }
}
