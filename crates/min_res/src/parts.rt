//! The parts of a stage that comes from outside.

use fp_rows::RowRef;

/// The parts of a stage as a file has them: the positions of the boundary's rows, the rows of the kernel, and
/// the section of each row of the list before. No call takes memory.
pub trait StageParts {
    ghost use Rattle.std.specs.Prelude.{◌≡◌, ◌<◌, ℕ, length, slice_index};
    ghost use Rattle.linear_algebra.specs.Rows.{row};
    ghost use Rattle.fp_rows.specs.Refs.{entries_of, modulus_of};
    ghost use Rattle.resolution_stages.specs.Checks.{StageParts};

    /// The lists that it is seen as.
    ghost parts: { Self → StageParts };

    /// The number of its prime.
    ghost modulus: { Self → ℕ };

    /// The number of rows of the boundary.
    fn rank(&self) -> usize
        ensures { result ≡ length (parts self.now).positions };

    /// The position, from 0, of row i of the boundary in the list before.
    fn position(&self, i: usize) -> u32
        requires { i < length (parts self.now).positions }
        ensures { result ≡ slice_index (parts self.now).positions i };

    /// Row i of the kernel.
    fn kernel_row(&self, i: usize) -> RowRef<'_>
        requires { i < length (parts self.now).kernel }
        ensures entries { entries_of result ≡ row (parts self.now).kernel i }
        ensures modulus { modulus_of result ≡ modulus self.now };

    /// The section of row i of the list before.
    fn section_row(&self, i: usize) -> RowRef<'_>
        requires { i < length (parts self.now).sections }
        ensures entries { entries_of result ≡ row (parts self.now).sections i }
        ensures modulus { modulus_of result ≡ modulus self.now };
}
