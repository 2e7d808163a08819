//! The checks of the parts of a stage that comes from outside.

/// A check of the parts of a stage, in the order in which they are made. None eliminates.
#[derive(Clone, Copy, Debug, PartialEq, Eq)]
pub enum Check {
    /// The kernel rows are a reduced echelon list.
    ReducedKernel,
    /// The boundary takes each kernel row to 0.
    KernelToZero,
    /// The boundary takes each section to its row of the list before.
    SectionsToRows,
    /// Each section is 0 at every pivot of the kernel rows.
    ZeroAtPivots,
    /// Each kernel row is 0 at every place of layer 0.
    MinimalKernel,
    /// A row of the list before that is not among the positions has a section whose part in layer 0 is 0 at
    /// each block whose position is greater.
    LaterPositions,
}

impl Check {
    ghost use Rattle.std.specs.Prelude.{◌≡◌};
    ghost use Rattle.min_res.specs.RecordChecks.{number_of};

    /// Its number in the order, from 1 on.
    pub fn number(self) -> u8
        ensures { result ≡ number_of self }
    {
        match self {
            Check::ReducedKernel => 1,
            Check::KernelToZero => 2,
            Check::SectionsToRows => 3,
            Check::ZeroAtPivots => 4,
            Check::MinimalKernel => 5,
            Check::LaterPositions => 6,
        }
    }
}

/// A check and a row where it fails.
#[derive(Clone, Copy)]
pub(crate) struct Failure {
    pub(crate) check: Check,
    pub(crate) row: usize,
}
