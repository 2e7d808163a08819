//! Stages of a minimal resolution.

ghost use Rattle.fp_rows.specs.Refs.{entries_of, modulus_of};
ghost use Rattle.linear_algebra.specs.Choices.{rows_at};
ghost use Rattle.linear_algebra.specs.Rows.{entry, row, combination_row};
ghost use Rattle.min_res.specs.Shapes.{AgreesWith};
ghost use Rattle.min_res.specs.Values.{boundary_of};
ghost use Rattle.resolution_stages.specs.Chain.{section_row};
ghost use Rattle.std.specs.Prelude.{◌≡◌, ◌<◌, ◌↔◌, length, slice_index, IsNone, IfSome};

use crate::boundary::Boundary;
use fp_rows::{Echelon, Row, RowRef};
use std::marker::Model;
use std::rc::Rc;

/// A stage of a minimal resolution P_0, P_1, ..: the free module P_d of degree d by its rank, the boundary
/// map from it by its matrix in layer coordinates, the reduced echelon list of its kernel K_d, and the
/// section of the boundary (Brown, "Cohomology of Groups", I.2; Carlson, "Modules and Group Algebras").
///
/// It shares the list of K_(d-1) with the stage before, and holds no other stage. In degree 0, where P_0 is
/// the group algebra and K_0 the augmentation ideal, it has no boundary.
#[derive(Drop)]
pub struct Stage {
    pub(crate) degree: u32,
    pub(crate) rank: usize,
    pub(crate) kernel: Rc<Echelon>,
    pub(crate) boundary: Option<Boundary>,
}

impl Model for Stage {
    ghost use Rattle.min_res.specs.Values.{StageValue};
    ghost use Rattle.min_res.specs.Shapes.{HasStageShape};

    ghost Value = { StageValue };

    ghost view = { λ s. record {
      degree = s.degree;
      rank = s.rank;
      kernel = s.kernel.value;
      boundary = s.boundary;
    } };

    ghost invariant = { λ s. HasStageShape (record {
      degree = s.degree;
      rank = s.rank;
      kernel = s.kernel.value;
      boundary = s.boundary;
    }) };
}

impl Stage {
    /// The degree d.
    pub fn degree(&self) -> u32
        ensures { result ≡ self.now.degree }
    {
        self.degree
    }

    /// The rank b_d of P_d, which is the dimension of the cohomology in degree d.
    pub fn rank(&self) -> usize
        ensures { result ≡ self.now.rank }
    {
        self.rank
    }

    /// The list of K_d.
    pub fn kernel(&self) -> &Echelon
        ensures { result.now ≡ self.now.kernel }
    {
        &self.kernel
    }

    // The list of K_d, to share.
    pub(crate) fn list(&self) -> &Rc<Echelon>
        ensures { result.now.value ≡ self.now.kernel }
    {
        &self.kernel
    }

    /// The list of K_(d-1), and `None` in degree 0.
    pub fn source(&self) -> Option<&Rc<Echelon>>
        ensures none { IsNone result ↔ (self.now.degree ≡ 0) }
        ensures source { IfSome result (λ list. list.now.value ≡ (boundary_of self.now).source) }
    {
        match &self.boundary {
            Some(boundary) => Some(boundary.source()),
            None => None,
        }
    }

    // The boundary, in a degree above 0.
    fn map(&self) -> &Boundary
        requires { 0 < self.now.degree }
        ensures value { result.now ≡ boundary_of self.now }
        ensures agrees { AgreesWith self.now (boundary_of self.now) }
    {
        match &self.boundary {
            Some(boundary) => boundary,
            None => unreachable!(),
        }
    }

    /// The place, from 0, of row i of the boundary in the list of K_(d-1). For d above 0, and i below the
    /// rank.
    pub fn position(&self, i: usize) -> u32
        requires above_zero { 0 < self.now.degree }
        requires inside { i < self.now.rank }
        ensures { result ≡ slice_index (boundary_of self.now).positions i }
    {
        self.map().position(i)
    }

    /// Row i of the boundary: the value at basis element i. For d above 0, and i below the rank.
    pub fn image(&self, i: usize) -> RowRef<'_>
        requires above_zero { 0 < self.now.degree }
        requires inside { i < self.now.rank }
        ensures entries { entries_of result
            ≡ row (rows_at (boundary_of self.now).source.rows (boundary_of self.now).positions) i }
        ensures modulus { modulus_of result ≡ self.now.kernel.p }
    {
        self.map().image(i)
    }

    /// The section of row i of the list of K_(d-1). For d above 0.
    pub fn section_row(&self, i: usize) -> RowRef<'_>
        requires above_zero { 0 < self.now.degree }
        requires inside { i < length (boundary_of self.now).source.rows }
        ensures entries { entries_of result ≡ row (boundary_of self.now).sections.rows i }
        ensures modulus { modulus_of result ≡ self.now.kernel.p }
    {
        self.map().section_row(i)
    }

    /// Writes the boundary of u, which has the width of the list of K_d. For d above 0.
    pub fn boundary(&self, u: RowRef<'_>, out: &mut Row)
        requires above_zero { 0 < self.now.degree }
        requires argument { length (entries_of u) ≡ self.now.kernel.width }
        requires argument_prime { modulus_of u ≡ self.now.kernel.p }
        requires out_length { length out.old.entries ≡ (boundary_of self.now).source.width }
        requires out_prime { out.old.p ≡ self.now.kernel.p }
        ensures prime { out.new.p ≡ out.old.p }
        ensures value { out.new.entries
            ≡ combination_row self.now.kernel.p (boundary_of self.now).source.width
            (entry (entries_of u.entry)) (boundary_of self.now).matrix.rows }
    {
        self.map().write_value(u, out);
    }

    /// Writes the section of v, a member of K_(d-1): the one u with the boundary v that is 0 at each pivot of
    /// the list of K_d. For d above 0.
    pub fn section(&self, v: RowRef<'_>, out: &mut Row)
        requires above_zero { 0 < self.now.degree }
        requires argument { length (entries_of v) ≡ (boundary_of self.now).source.width }
        requires argument_prime { modulus_of v ≡ self.now.kernel.p }
        requires out_length { length out.old.entries ≡ self.now.kernel.width }
        requires out_prime { out.old.p ≡ self.now.kernel.p }
        ensures prime { out.new.p ≡ out.old.p }
        ensures value { out.new.entries
            ≡ section_row self.now.kernel.p self.now.kernel.width (boundary_of self.now).source.rows
            (boundary_of self.now).sections.rows (entries_of v.entry) }
    {
        self.map().write_section(v, out);
    }
}
