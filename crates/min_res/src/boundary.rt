//! The boundary map of a stage, with its section.

ghost use Rattle.fp_rows.specs.Refs.{entries_of, modulus_of};
ghost use Rattle.linear_algebra.specs.Choices.{rows_at};
ghost use Rattle.linear_algebra.specs.Rows.{entry, row, combination_row};
ghost use Rattle.min_res.specs.Shapes.{HasBoundaryShape};
ghost use Rattle.resolution_stages.specs.Chain.{section_row};
ghost use Rattle.std.specs.Prelude.{◌≡◌, ◌<◌, length, slice_index};

use crate::sections::write_section;
use fp_rows::{Echelon, Matrix, Positions, Row, RowRef};
use std::marker::Model;
use std::rc::Rc;

/// A boundary map by the places of its rows in the list of the kernel before, and its section by the values
/// at the rows of that list.
#[derive(Drop)]
pub(crate) struct Boundary {
    pub(crate) source: Rc<Echelon>,
    pub(crate) positions: Positions,
    pub(crate) matrix: Matrix,
    pub(crate) sections: Matrix,
}

impl Model for Boundary {
    ghost use Rattle.min_res.specs.Values.{BoundaryValue};
    ghost use Rattle.min_res.specs.Shapes.{HasBoundaryShape};

    ghost Value = { BoundaryValue };

    ghost view = { λ b. record {
      source = b.source.value;
      positions = b.positions;
      matrix = b.matrix;
      sections = b.sections;
    } };

    ghost invariant = { λ b. HasBoundaryShape (record {
      source = b.source.value;
      positions = b.positions;
      matrix = b.matrix;
      sections = b.sections;
    }) };
}

impl Boundary {
    pub(crate) fn source(&self) -> &Rc<Echelon>
        ensures { result.now.value ≡ self.now.source }
    {
        &self.source
    }

    pub(crate) fn position(&self, i: usize) -> u32
        requires { i < length self.now.positions }
        ensures { result ≡ slice_index self.now.positions i }
    {
        self.positions.get(i)
    }

    pub(crate) fn positions(&self) -> &Positions
        ensures { result.now ≡ self.now.positions }
    {
        &self.positions
    }

    pub(crate) fn image(&self, i: usize) -> RowRef<'_>
        requires { i < length self.now.positions }
        ensures entries { entries_of result ≡ row (rows_at self.now.source.rows self.now.positions) i }
        ensures modulus { modulus_of result ≡ self.now.source.p }
    {
        self.source.row(self.positions.get(i) as usize)
    }

    pub(crate) fn section_row(&self, i: usize) -> RowRef<'_>
        requires { i < length self.now.source.rows }
        ensures entries { entries_of result ≡ row self.now.sections.rows i }
        ensures modulus { modulus_of result ≡ self.now.source.p }
    {
        self.sections.row(i)
    }

    pub(crate) fn write_value(&self, u: RowRef<'_>, out: &mut Row)
        requires argument { length (entries_of u) ≡ length self.now.matrix.rows }
        requires argument_prime { modulus_of u ≡ self.now.source.p }
        requires out_length { length out.old.entries ≡ self.now.source.width }
        requires out_prime { out.old.p ≡ self.now.source.p }
        ensures prime { out.new.p ≡ out.old.p }
        ensures value { out.new.entries
            ≡ combination_row self.now.source.p self.now.source.width (entry (entries_of u.entry))
            self.now.matrix.rows }
    {
        self.matrix.combine(u, out);
    }

    pub(crate) fn write_section(&self, v: RowRef<'_>, out: &mut Row)
        requires argument { length (entries_of v) ≡ self.now.source.width }
        requires argument_prime { modulus_of v ≡ self.now.source.p }
        requires out_length { length out.old.entries ≡ length self.now.matrix.rows }
        requires out_prime { out.old.p ≡ self.now.source.p }
        ensures prime { out.new.p ≡ out.old.p }
        ensures value { out.new.entries
            ≡ section_row self.now.source.p (length self.now.matrix.rows) self.now.source.rows
            self.now.sections.rows (entries_of v.entry) }
    {
        write_section(v, &self.source, &self.sections, out);
    }
}
