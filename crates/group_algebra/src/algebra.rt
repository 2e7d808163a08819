//! The group algebra of a p-group.

ghost use Rattle.std.specs.Prelude.{◌≡◌, ◌*◌, ◌^◌, ◌<◌, ℕ, List, length, slice_index, IfOk};
ghost use Rattle.group_modules.specs.Tables.{block-sum};
ghost use Rattle.linear_algebra.specs.Kernels.{unit_row};
ghost use Rattle.linear_algebra.specs.Rows.{entry};
ghost use Rattle.radical_layers.specs.Placing.{place_of};
ghost use Rattle.fp_rows.specs.Refs.{entries_of, modulus_of};
ghost use Rattle.p_groups.specs.PGroups.{largest_residue, group as group_of, order_of, prime_of};
ghost use Rattle.group_algebra.specs.Coordinates.{free_module, layers, sizes, row_of, table_of, product_with};
ghost use Rattle.group_algebra.specs.Coordinates.{AreCoefficients, member};
ghost use Rattle.group_algebra.specs.RowMaps.{map_row, IsBlock};

use crate::combinations::{Images, add_image, is_zero_block};
use crate::layers::layer_basis;
use crate::p_group::PGroup;
use crate::places::Places;
use crate::tables::{element_rows, member_rows, product_rows, translate_rows, unit_preimages};
use fp_rows::{Matrix, Row, RowRef};
use group_table::{Group, Memory};
use std::alloc::Global;
use std::marker::Model;

/// The group algebra kG of a p-group G over the field of p elements, seen as G.
/// Its elements and those of the free modules kG^rank are rows in layer coordinates: the coefficients in the
/// layer basis, at the places given by `place`.
#[derive(Drop)]
pub struct Algebra {
    group: PGroup,
    places: Places,
    // The coefficients of the members of the layer basis, and the layer coordinates of the elements of the
    // group.
    members: Matrix,
    elements: Matrix,
    // The layer coordinates of g times member k at the position k n + g, and of member k times member l at k
    // n + l.
    translates: Matrix,
    products: Matrix,
}

/// One of the blocks of a row of a free module, as a member of kG.
#[derive(Clone, Copy)]
struct Block<'a> {
    row: RowRef<'a>,
    count: usize,
    index: usize,
}

impl Model for Algebra {
    ghost use Rattle.p_groups.specs.PGroups.{PGroup};
    ghost use Rattle.group_algebra.specs.Coded.{coded_p_group};
    ghost use Rattle.group_algebra.specs.Stores.{IsStore};

    ghost Value = { PGroup };

    ghost coded = { coded_p_group };

    ghost view = { λ a. a.group };

    ghost invariant = { λ a. IsStore a.group a.places a.members a.elements a.translates a.products };
}

impl Algebra {
    /// The algebra of a group, with its layer basis.
    pub fn build(alloc: Global, g: &Group) -> Result<Algebra, Memory>
        ensures { IfOk result (λ a. a.table ≡ g.now) }
    {
        let group = PGroup::new(g.try_clone(alloc)?);
        let basis = layer_basis(alloc, &group)?;
        let units = unit_preimages(alloc, &group, &basis.rows)?;
        let members = member_rows(alloc, &group, &basis.rows)?;
        let elements = element_rows(alloc, &group, &units)?;
        let translates = translate_rows(alloc, &group, &members, &elements)?;
        let products = product_rows(alloc, &group, &members, &translates)?;
        let places = Places::new(alloc, basis.sizes, group.order() as usize)?;
        Ok(Algebra {
            group,
            places,
            members,
            elements,
            translates,
            products,
        })
    }

    /// The group.
    pub fn group(&self) -> &PGroup
        ensures { result.now ≡ self.now }
    {
        &self.group
    }

    /// How many radical layers there are: the least number of factors of the augmentation ideal with the
    /// product 0.
    pub fn layers(&self) -> usize
        ensures { result ≡ (layers self.now).count }
    {
        self.places.layers()
    }

    /// The dimension of layer i.
    pub fn layer_dim(&self, i: usize) -> usize
        requires { i < (layers self.now).count }
        ensures { result ≡ length ((layers self.now).positions i) }
    {
        self.places.size(i)
    }

    /// The place of a member of the layer basis in a block of kG^rank: layer by layer, in a layer block by
    /// block, in a block by position. Blocks and members count from 0.
    pub fn place(&self, rank: usize, block: usize, member: usize) -> usize
        requires block { block < rank }
        requires member { member < order_of self.now }
        requires small { order_of self.now * rank < 2 ^ 64 }
        ensures value { result ≡ place_of (sizes self.now) rank block member }
        ensures inside { result < order_of self.now * rank }
    {
        self.places.place(rank, block, member)
    }

    /// The sum of the coefficients of a block, which is its entry in layer 0.
    pub fn aug(&self, rank: usize, block: usize, v: RowRef<'_>) -> u8
        requires block { block < rank }
        requires modulus { modulus_of v ≡ prime_of self.now }
        requires length { length (entries_of v) ≡ order_of self.now * rank }
        ensures value { (b : block < rank)
            → result
            ≡ (block-sum (largest_residue self.now) (group_of self.now) rank
            (table_of self.now rank (entries_of v.entry)) (block, b)).0 }
        ensures below { result < prime_of self.now }
    {
        v.get(block)
    }

    /// Writes the layer coordinates of the member of kG with the coefficients a, by element number.
    pub fn to_layers(&self, a: RowRef<'_>, out: &mut Row)
        requires modulus { modulus_of a ≡ prime_of self.now }
        requires prime { out.old.p ≡ prime_of self.now }
        requires length { length (entries_of a) ≡ order_of self.now }
        requires out_length { length out.old.entries ≡ order_of self.now }
        ensures prime { out.new.p ≡ out.old.p }
        ensures layers { (v : (free_module self.now 1).of) → AreCoefficients self.now (entries_of a.entry) v
            → out.new.entries ≡ row_of self.now 1 v }
    {
        self.elements.combine(a, out);
    }

    /// Writes the coefficients, by element number, of the member of kG with the layer coordinates v.
    pub fn from_layers(&self, v: RowRef<'_>, out: &mut Row)
        requires modulus { modulus_of v ≡ prime_of self.now }
        requires prime { out.old.p ≡ prime_of self.now }
        requires length { length (entries_of v) ≡ order_of self.now }
        requires out_length { length out.old.entries ≡ order_of self.now }
        ensures prime { out.new.p ≡ out.old.p }
        ensures coefficients { AreCoefficients self.now out.new.entries
            (table_of self.now 1 (entries_of v.entry)) }
    {
        self.members.combine(v, out);
    }

    /// Writes g v: the left action of an element of the group on a member of kG^rank.
    pub fn act(&self, rank: usize, g: u16, v: RowRef<'_>, out: &mut Row)
        requires element { g < order_of self.now }
        requires modulus { modulus_of v ≡ prime_of self.now }
        requires prime { out.old.p ≡ prime_of self.now }
        requires length { length (entries_of v) ≡ order_of self.now * rank }
        requires out_length { length out.old.entries ≡ order_of self.now * rank }
        ensures prime { out.new.p ≡ out.old.p }
        ensures moved { (b : g < order_of self.now)
            → out.new.entries
            ≡ row_of self.now rank ((free_module self.now rank).act (g, b)
            (table_of self.now rank (entries_of v.entry))) }
    {
        let images = Images {
            rows: &self.translates,
            first: g as usize,
            step: self.group.order() as usize,
            factors: &[],
        };
        out.clear();
        add_image(&self.places, images, rank, 1, v, out);
    }

    /// Writes the product of member k of the layer basis, counted from 0, and a member v of kG^rank.
    pub fn multiply_by_member(&self, rank: usize, k: usize, v: RowRef<'_>, out: &mut Row)
        requires member { k < order_of self.now }
        requires modulus { modulus_of v ≡ prime_of self.now }
        requires prime { out.old.p ≡ prime_of self.now }
        requires length { length (entries_of v) ≡ order_of self.now * rank }
        requires out_length { length out.old.entries ≡ order_of self.now * rank }
        ensures prime { out.new.p ≡ out.old.p }
        ensures product { out.new.entries
            ≡ row_of self.now rank (product_with self.now rank (member self.now k)
            (table_of self.now rank (entries_of v.entry))) }
    {
        let images = Images {
            rows: &self.products,
            first: k,
            step: self.group.order() as usize,
            factors: &[],
        };
        out.clear();
        add_image(&self.places, images, rank, 1, v, out);
    }

    /// Adds a v: the product of a member of kG and one of kG^rank.
    pub fn scale_add(&self, rank: usize, a: RowRef<'_>, v: RowRef<'_>, out: &mut Row)
        requires moduli { (modulus_of a ≡ prime_of self.now) × (modulus_of v ≡ prime_of self.now) }
        requires prime { out.old.p ≡ prime_of self.now }
        requires factor_length { length (entries_of a) ≡ order_of self.now }
        requires length { length (entries_of v) ≡ order_of self.now * rank }
        requires out_length { length out.old.entries ≡ order_of self.now * rank }
        ensures prime { out.new.p ≡ out.old.p }
        ensures gained { out.new.entries
            ≡ row_of self.now rank
            ((free_module self.now rank).add (table_of self.now rank out.old.entries)
            (product_with self.now rank (table_of self.now 1 (entries_of a.entry))
            (table_of self.now rank (entries_of v.entry)))) }
    {
        self.add_product(
            rank,
            Block {
                row: a,
                count: 1,
                index: 0,
            },
            v,
            out,
        );
    }

    /// Writes the value at v of the linear map to kG^rank that takes basis element k to row k, from the free
    /// module with one basis element for each row.
    pub fn apply(&self, rank: usize, rows: &Matrix, v: RowRef<'_>, out: &mut Row)
        requires rows_prime { rows.now.p ≡ prime_of self.now }
        requires primes { (modulus_of v ≡ prime_of self.now) × (out.old.p ≡ prime_of self.now) }
        requires rows_width { rows.now.width ≡ order_of self.now * rank }
        requires fits { order_of self.now * length rows.now.rows < 2 ^ 64 }
        requires argument { length (entries_of v) ≡ order_of self.now * length rows.now.rows }
        requires out_length { length out.old.entries ≡ order_of self.now * rank }
        ensures prime { out.new.p ≡ out.old.p }
        ensures value { out.new.entries ≡ map_row self.now rank rows.now.rows (entries_of v.entry) }
    {
        let count = rows.rows();
        out.clear();
        for (index, row) in rows.iter().enumerate() {
            let block = Block {
                row: v,
                count,
                index,
            };
            self.add_product(rank, block, row.view(), out);
        }
    }

    /// Writes the value at the unit row of place j of the linear map to kG^rank that takes basis element k to
    /// row k, from the free module with one basis element for each row.
    pub fn apply_to_unit(&self, rank: usize, rows: &Matrix, j: usize, out: &mut Row)
        requires rows_prime { rows.now.p ≡ prime_of self.now }
        requires prime { out.old.p ≡ prime_of self.now }
        requires rows_width { rows.now.width ≡ order_of self.now * rank }
        requires fits { order_of self.now * length rows.now.rows < 2 ^ 64 }
        requires place { j < order_of self.now * length rows.now.rows }
        requires out_length { length out.old.entries ≡ order_of self.now * rank }
        ensures prime { out.new.p ≡ out.old.p }
        ensures value { out.new.entries
            ≡ map_row self.now rank rows.now.rows (unit_row (order_of self.now * length rows.now.rows) j) }
    {
        let location = self.places.location(rows.rows(), j);
        self.multiply_by_member(rank, location.member, rows.row(location.block), out);
    }

    // The entries of a block, and 0 after them.
    fn factors_of(&self, a: Block<'_>) -> [u8; 256]
        requires inside { a.index < a.count }
        requires fits { order_of self.now * a.count < 2 ^ 64 }
        requires modulus { modulus_of a.row ≡ prime_of self.now }
        requires length { length (entries_of a.row) ≡ order_of self.now * a.count }
        ensures count { length result ≡ 256 }
        ensures entries { (k : ℕ) → k < order_of self.now
            → entry result k ≡ entry (entries_of a.entry.row) (place_of (sizes self.now) a.entry.count
            a.entry.index k) }
        ensures below { (k : ℕ) → k < order_of self.now → entry result k < prime_of self.now }
    {
        let mut factors = [0; 256];
        for k in 0..self.group.order() as usize {
            factors[k] = a.row.get(self.place(a.count, a.index, k));
        }
        factors
    }

    // Adds the product of a block of a row, read in place as a member of kG, and a member v of kG^rank.
    fn add_product(&self, rank: usize, a: Block<'_>, v: RowRef<'_>, out: &mut Row)
        requires inside { a.index < a.count }
        requires moduli { (modulus_of a.row ≡ prime_of self.now) × (modulus_of v ≡ prime_of self.now) }
        requires prime { out.old.p ≡ prime_of self.now }
        requires factor_length { length (entries_of a.row) ≡ order_of self.now * a.count }
        requires length { length (entries_of v) ≡ order_of self.now * rank }
        requires out_length { length out.old.entries ≡ order_of self.now * rank }
        ensures prime { out.new.p ≡ out.old.p }
        ensures gained { (b : List ℕ)
            → IsBlock self.now a.entry.count a.entry.index (entries_of a.entry.row) b
            → out.new.entries
            ≡ row_of self.now rank
            ((free_module self.now rank).add (table_of self.now rank out.old.entries)
            (product_with self.now rank (table_of self.now 1 b)
            (table_of self.now rank (entries_of v.entry)))) }
    {
        prove!(out.len() == v.len());
        prove!(a.index < a.row.len());
        let n = self.group.order() as usize;
        if is_zero_block(&self.places, a.count, a.index, a.row) {
            return;
        }
        let factors = self.factors_of(a);
        let images = Images {
            rows: &self.products,
            first: 0,
            step: n,
            factors: &factors[..n],
        };
        add_image(&self.places, images, rank, 1, v, out);
    }
}
