//! A record of a stage file as views of its bytes.

ghost use Rattle.std.specs.Prelude.{◌≡◌, ◌<◌, ◌≤◌, ◌+◌, ◌*◌, ◌^◌, ℕ, length, slice_index, take, drop};
ghost use Rattle.fp_rows.specs.Refs.{entries_of, modulus_of};
ghost use Rattle.group_table.specs.Prime.{prime_value};
ghost use Rattle.linear_algebra.specs.Rows.{entry, row};
ghost use Rattle.stage_file.specs.Sizes.{AreViews};

use crate::bytes::{number_at, part};
use fp_rows::RowRef;
use group_table::Prime;
use min_res::StageParts;

/// The parts of a stage, each row a part of the bytes of the record.
#[derive(Clone, Copy)]
pub struct StageRef<'a> {
    pub(crate) prime: Prime,
    pub(crate) rank: usize,
    pub(crate) previous: usize,
    pub(crate) width: usize,
    pub(crate) positions: &'a [u8],
    pub(crate) kernel: &'a [u8],
    pub(crate) sections: &'a [u8],
    pub ghost are_views: { AreViews (prime_value prime) rank previous width positions.now kernel.now
        sections.now },
}

// Row i of rows of this width.
fn row_of(prime: Prime, width: usize, rows: &[u8], i: usize) -> RowRef<'_>
    requires inside { i * width + width ≤ length rows.now }
    requires small { length rows.now ≤ 2 ^ 32 }
    requires below { (j : ℕ) → j < length rows.now → entry rows.now j < prime_value prime }
    ensures entries { entries_of result ≡ take width (drop (i * width) rows.now) }
    ensures modulus { modulus_of result ≡ prime_value prime }
{
    RowRef::of_bytes(prime, part(rows, i * width, width))
}

impl<'a> StageParts for StageRef<'a> {
    ghost use Rattle.stage_file.specs.Views.{parts_of_ref, modulus_of_ref};

    ghost parts = { parts_of_ref };

    ghost modulus = { modulus_of_ref };

    fn rank(&self) -> usize {
        self.rank
    }

    fn position(&self, i: usize) -> u32 {
        let number = number_at(self.positions, i);
        u32::from(number) - 1
    }

    fn kernel_row(&self, i: usize) -> RowRef<'_> {
        row_of(self.prime, self.width, self.kernel, i)
    }

    fn section_row(&self, i: usize) -> RowRef<'_> {
        row_of(self.prime, self.width, self.sections, i)
    }
}
