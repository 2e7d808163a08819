ghost use Rattle.std.specs.Prelude.{◌≡◌, ◌↔◌, ℕ, ◌*◌, ◌^◌, ◌<◌, ◌≤◌, List, length, map, IfOk, IsTrue};
ghost use Rattle.linear_algebra.specs.Rows.{entry, row, pivot, IsRow, IsInSpan, IsReduced, IsEchelonOf};
ghost use Rattle.fp_rows.specs.Refs.{entries_of, modulus_of};
ghost use Rattle.neg_basis.specs.Bases.{IsBasis};
ghost use Rattle.neg_basis.specs.Images.{AreImages};
ghost use Rattle.neg_basis.specs.Origins.{origin_at, chosen_rows};
ghost use Rattle.neg_basis.specs.Results.{IsNegBasisOf};
ghost use Rattle.neg_basis.specs.Turns.{HaveOrigins};

use crate::found::{Found, no_vectors};
use crate::images::take_images;
use crate::ops::Ops;
use crate::origin::Origin;
use crate::steps::{insert, load, reduce_by};
use crate::work::take;
use fp_rows::{Echelon, Matrix, Positions, Row, RowRef, echelon};
use group_table::Memory;
use std::alloc::Global;
use std::marker::Model;

/// Vectors with different heads, each with its origin. The head of a vector is its first place that is not 0;
/// the entry there is 1, and each later vector is 0 there.
#[derive(Drop)]
pub struct NegBasis {
    vectors: Matrix,
    heads: Vec<usize>,
    origins: Vec<Origin>,
    reduced: Echelon,
}

impl Model for NegBasis {
    ghost use Rattle.neg_basis.specs.Results.{BasisValue, IsStore};

    ghost Value = { BasisValue };

    ghost view = { λ a. record {
      p = a.vectors.p;
      width = a.vectors.width;
      vectors = a.vectors.rows;
      origins = a.origins.items;
    } };

    ghost invariant = { λ a. IsStore a.vectors.p a.vectors.width a.vectors.rows a.heads.items a.origins.items
        a.reduced };
}

impl NegBasis {
    // The basis of the vectors that are found.
    fn of_found(alloc: Global, found: Found) -> Result<NegBasis, Memory>
        requires basis { IsBasis found.vectors.p found.vectors.width found.vectors.rows }
        requires heads_are { found.heads.items ≡ map pivot found.vectors.rows }
        requires origins { HaveOrigins found.vectors.rows found.origins.items }
        ensures { IfOk result (λ b. b ≡ record {
          p = found.vectors.p;
          width = found.vectors.width;
          vectors = found.vectors.rows;
          origins = found.origins.items;
        }) }
    {
        let reduced = echelon(alloc, &found.vectors)?;
        Ok(NegBasis {
            vectors: found.vectors,
            heads: found.heads,
            origins: found.origins,
            reduced,
        })
    }

    /// The negative standard basis of the submodule that the rows of `gens` generate under the maps
    /// (Green, LNM 1828). A row is chosen exactly where it is not in the submodule that the rows before it
    /// generate. There are at most 2^32 maps, rows and places of a row.
    pub fn from_generators<T: Ops>(
        alloc: Global,
        ops: &T,
        gens: &Matrix,
    ) -> Result<NegBasis, Memory>
        requires same_field { gens.now.p ≡ T.modulus ops.now }
        requires same_width { gens.now.width ≡ T.width ops.now }
        requires maps_fit { T.maps ops.now ≤ 2 ^ 32 }
        requires width_fits { gens.now.width ≤ 2 ^ 32 }
        requires rows_fit { length gens.now.rows ≤ 2 ^ 32 }
        ensures same_field { IfOk result (λ b. b.p ≡ gens.now.p) }
        ensures same_width { IfOk result (λ b. b.width ≡ gens.now.width) }
        ensures basis { IfOk result (λ b. IsNegBasisOf gens.now.p gens.now.width (T.maps ops.now)
            (T.image ops.now) gens.now.rows b.vectors b.origins) }
    {
        let mut found = no_vectors(alloc, gens.prime(), gens.width());
        let mut v = Row::zero(alloc, gens.prime(), gens.width())?;
        for r in 0..gens.rows() {
            load(&mut v, gens.row(r));
            take(ops, &mut found, r as u32, &mut v)?;
        }
        NegBasis::of_found(alloc, found)
    }

    /// The negative standard basis of the submodule that the images of the rows of the list generate under
    /// the maps. Origins count the images of row 0 first, then those of row 1 and so on. No map is applied to
    /// a row that lies in the span of the vectors and of the rows before it. There are at most 2^32 maps,
    /// images and places of a row.
    pub fn of_images<T: Ops>(alloc: Global, ops: &T, list: &Echelon) -> Result<NegBasis, Memory>
        requires same_field { list.now.p ≡ T.modulus ops.now }
        requires same_width { list.now.width ≡ T.width ops.now }
        requires maps_fit { T.maps ops.now ≤ 2 ^ 32 }
        requires width_fits { list.now.width ≤ 2 ^ 32 }
        requires images_fit { length list.now.rows * T.maps ops.now ≤ 2 ^ 32 }
        ensures same_field { IfOk result (λ b. b.p ≡ list.now.p) }
        ensures same_width { IfOk result (λ b. b.width ≡ list.now.width) }
        ensures basis { IfOk result (λ b. (images : List (List ℕ))
            → AreImages list.now.p (T.maps ops.now) (T.image ops.now) list.now.rows images
            → IsNegBasisOf list.now.p list.now.width (T.maps ops.now) (T.image ops.now) images b.vectors
            b.origins) }
    {
        let mut found = no_vectors(alloc, list.prime(), list.width());
        // What the rows leave that are not in the span of the vectors.
        let mut rest = no_vectors(alloc, list.prime(), list.width());
        let mut v = Row::zero(alloc, list.prime(), list.width())?;
        for r in 0..list.rows() {
            load(&mut v, list.row(r));
            reduce_by(&found.vectors, &found.heads, &mut v);
            let before = rest.vectors.rows();
            insert(&mut rest, &mut v, Origin::Chosen(r as u32))?;
            if rest.vectors.rows() > before {
                take_images(ops, &mut found, r, list.row(r), &mut v)?;
            }
        }
        NegBasis::of_found(alloc, found)
    }

    /// How many vectors there are: the dimension of the span.
    pub fn len(&self) -> usize
        ensures count { result ≡ length self.now.vectors }
        ensures basis { IsBasis self.now.p self.now.width self.now.vectors }
        ensures origins_count { length self.now.origins ≡ length self.now.vectors }
    {
        self.origins.len()
    }

    /// Vector i, which is below the number of vectors.
    pub fn vector(&self, i: usize) -> RowRef<'_>
        requires { i < length self.now.vectors }
        ensures entries { entries_of result ≡ row self.now.vectors i }
        ensures modulus { modulus_of result ≡ self.now.p }
        ensures is_row { IsRow self.now.p self.now.width (row self.now.vectors i) }
    {
        self.vectors.row(i)
    }

    /// The first place of vector i that is not 0.
    pub fn head(&self, i: usize) -> usize
        requires { i < length self.now.vectors }
        ensures { result ≡ pivot (row self.now.vectors i) }
    {
        self.heads[i]
    }

    /// The origin of vector i.
    pub fn origin(&self, i: usize) -> Origin
        requires { i < length self.now.vectors }
        ensures { result ≡ origin_at self.now.origins i }
    {
        self.origins[i]
    }

    /// Subtracts from v, which has the width, the one member of the span that makes it 0 at every head.
    pub fn reduce(&self, v: &mut Row)
        requires same_prime { v.old.p ≡ self.now.p }
        requires same_width { length v.old.entries ≡ self.now.width }
        ensures prime { v.new.p ≡ v.old.p }
        ensures row { IsRow self.now.p self.now.width v.new.entries }
        ensures reduced { IsReduced self.now.p self.now.vectors v.old.entries v.new.entries }
        ensures only { (w : List ℕ) → IsRow self.now.p self.now.width w
            → IsReduced self.now.p self.now.vectors v.old.entries w → w ≡ v.new.entries }
    {
        reduce_by(&self.vectors, &self.heads, v);
    }

    /// Whether v, which has the width, is in the span of the vectors.
    pub fn contains(&self, v: RowRef<'_>) -> bool
        requires same_prime { modulus_of v ≡ self.now.p }
        requires same_width { length (entries_of v) ≡ self.now.width }
        ensures { IsTrue result ↔ IsInSpan self.now.p self.now.vectors (entry (entries_of v.entry)) }
    {
        self.reduced.contains(v)
    }

    /// The reduced row echelon basis of the span of the vectors, which it keeps.
    pub fn reduced(&self) -> &Echelon
        ensures same_field { result.now.p ≡ self.now.p }
        ensures same_width { result.now.width ≡ self.now.width }
        ensures rows { IsEchelonOf self.now.p self.now.width self.now.vectors result.now.rows }
    {
        &self.reduced
    }

    /// The chosen rows of the generators, in the order of the vectors.
    pub fn generators(&self, alloc: Global) -> Result<Positions, Memory>
        ensures { IfOk result (λ v. v ≡ chosen_rows self.now.origins) }
    {
        let mut rows = Positions::new(alloc);
        for origin in &self.origins {
            match *origin {
                Origin::Chosen(r) => rows.push(r)?,
                Origin::Step { .. } => {}
            }
        }
        Ok(rows)
    }

    /// The reduced row echelon basis of the span of the vectors.
    pub fn echelon(&self, alloc: Global) -> Result<Echelon, Memory>
        ensures same_field { IfOk result (λ e. e.p ≡ self.now.p) }
        ensures same_width { IfOk result (λ e. e.width ≡ self.now.width) }
        ensures rows { IfOk result (λ e. IsEchelonOf self.now.p self.now.width self.now.vectors e.rows) }
    {
        echelon(alloc, &self.vectors)
    }
}
