//! The images of the blocks of a row.

ghost use Rattle.std.specs.Prelude.{◌≡◌, ◌↔◌, ◌+◌, ◌*◌, ◌^◌, ◌<◌, ◌≤◌, ℕ, length, IsTrue};
ghost use Rattle.linear_algebra.specs.Modular.{IsCongruent, sum_below};
ghost use Rattle.linear_algebra.specs.Rows.{entry, row, IsRow};
ghost use Rattle.radical_layers.specs.Placing.{size_of, place_of};
ghost use Rattle.fp_rows.specs.Refs.{entries_of, modulus_of};
ghost use Rattle.group_algebra.specs.Gains.{BlockGains, image_at, image_entry, reach, stepped, BeginsAt};
ghost use Rattle.group_algebra.specs.Gains.{GainsImage, IsZeroBlock};
ghost use Rattle.group_algebra.specs.Images.{AreOver};

use crate::places::Places;
use fp_rows::{Matrix, Row, RowRef, ShortRow, add_product};

/// Adds c times the row r of the group algebra to one block, a layer at a time.
fn add_to_block(places: &Places, rank: usize, block: usize, c: u8, r: RowRef<'_>, out: &mut Row)
    requires prime { modulus_of r ≡ out.old.p }
    requires block { block < rank }
    requires factor { c < out.old.p }
    requires row_length { length (entries_of r) ≡ size_of places.now }
    requires length { length out.old.entries ≡ size_of places.now * rank }
    requires small { size_of places.now * rank < 2 ^ 64 }
    ensures prime { out.new.p ≡ out.old.p }
    ensures gains { BlockGains out.old.p places.now rank block
        (λ j. c * entry (entries_of r.entry) j) out.old.entries out.new.entries }
{
    prove!(r.len() <= out.len());
    let first = r.next_place(0);
    let mut start = 0;
    for i in 0..places.layers() {
        let size = places.size(i);
        if first < start + size {
            let at = places.layer_place(rank, block, i, start);
            out.add_part(at, c, r.part(start, size));
        }
        start += size;
    }
}

/// Whether each entry of a block of v is 0.
pub(crate) fn is_zero_block(places: &Places, rank: usize, block: usize, v: RowRef<'_>) -> bool
    requires block { block < rank }
    requires length { length (entries_of v) ≡ size_of places.now * rank }
    requires small { size_of places.now * rank < 2 ^ 64 }
    ensures { IsTrue result ↔ IsZeroBlock places.now rank block (entries_of v.entry) }
{
    let mut start = 0;
    for i in 0..places.layers() {
        let size = places.size(i);
        let at = places.layer_place(rank, block, i, start);
        if !v.part(at, size).is_zero() {
            return false;
        }
        start += size;
    }
    true
}

/// Where a linear map of the group algebra takes the members of the layer basis: to every step-th row, from
/// the first on; with factors, to the sum of as many rows from there on, each times its factor.
#[derive(Clone, Copy)]
pub(crate) struct Images<'a> {
    pub(crate) rows: &'a Matrix,
    pub(crate) first: usize,
    pub(crate) step: usize,
    pub(crate) factors: &'a [u8],
}

impl<'a> Images<'a> {
    // The image of member k without factors.
    fn image(&self, k: usize) -> RowRef<'a>
        requires inside { self.now.first + k * self.now.step < length self.now.rows.now.rows }
        requires few { length self.now.rows.now.rows ≤ 65536 }
        ensures entries { entries_of result ≡ stepped self.now.rows.now.rows self.now.first self.now.step k }
        ensures modulus { modulus_of result ≡ self.now.rows.now.p }
        ensures is_row { IsRow self.now.rows.now.p self.now.rows.now.width (entries_of result) }
    {
        self.rows.row(self.first + k * self.step)
    }

    // Adds x times the sum of the rows of member k, each times its factor.
    fn add_combination(&self, x: u8, k: usize, sum: &mut ShortRow)
        requires factor { x < sum.old.p }
        requires images { AreOver self.now sum.old.p (length sum.old.entries) }
        requires inside { self.now.first + k * self.now.step + length self.now.factors.now
            ≤ length self.now.rows.now.rows }
        ensures prime { sum.new.p ≡ sum.old.p }
        ensures same_length { length sum.new.entries ≡ length sum.old.entries }
        ensures sums { (j : ℕ) → j < length sum.old.entries
            → IsCongruent sum.old.p (entry sum.new.entries j)
            (entry sum.old.entries j + x * sum_below (length self.now.factors.now)
            (λ i. entry self.now.factors.now i
            * entry (row self.now.rows.now.rows (self.now.first + k * self.now.step + i)) j)) }
    {
        for i in 0..self.factors.len() {
            let c = self.factors[i];
            if c != 0 {
                let y = add_product(self.rows.prime(), 0, x, c);
                sum.add(y, self.rows.row(self.first + k * self.step + i));
            }
        }
    }

    // Adds x times the image of member k.
    fn add(&self, x: u8, k: usize, sum: &mut ShortRow)
        requires factor { x < sum.old.p }
        requires images { AreOver self.now sum.old.p (length sum.old.entries) }
        requires inside { self.now.first + k * self.now.step + reach self.now.factors.now
            ≤ length self.now.rows.now.rows }
        ensures prime { sum.new.p ≡ sum.old.p }
        ensures same_length { length sum.new.entries ≡ length sum.old.entries }
        ensures sums { (j : ℕ) → j < length sum.old.entries
            → IsCongruent sum.old.p (entry sum.new.entries j)
            (entry sum.old.entries j + x * image_at self.now.rows.now.rows self.now.first self.now.step
            self.now.factors.now k j) }
    {
        if self.factors.is_empty() {
            sum.add(x, self.image(k));
        } else {
            self.add_combination(x, k, sum);
        }
    }
}

// Adds the images of the members from number `start` on with these coefficients.
fn add_images(images: Images<'_>, start: usize, coefficients: RowRef<'_>, sum: &mut ShortRow)
    requires prime { modulus_of coefficients ≡ sum.old.p }
    requires images { AreOver images sum.old.p (length sum.old.entries) }
    requires inside { (k : ℕ) → k < length (entries_of coefficients)
        → images.first + (start + k) * images.step + reach images.factors.now
        ≤ length images.rows.now.rows }
    requires short { start + length (entries_of coefficients) ≤ 256 }
    ensures prime { sum.new.p ≡ sum.old.p }
    ensures same_length { length sum.new.entries ≡ length sum.old.entries }
    ensures sums { (j : ℕ) → j < length sum.old.entries
        → IsCongruent sum.old.p (entry sum.new.entries j)
        (entry sum.old.entries j + sum_below (length (entries_of coefficients.entry))
        (λ k. entry (entries_of coefficients.entry) k
        * image_at images.entry.rows.now.rows images.entry.first images.entry.step
        images.entry.factors.now (start + k) j)) }
{
    let mut k = coefficients.next_place(0);
    while k < coefficients.len() {
        images.add(coefficients.get(k), start + k, sum);
        k = coefficients.next_place(k + 1);
    }
}

/// A row with the first layer at which it is not 0, and the number of members before that layer.
#[derive(Clone, Copy)]
struct Tail<'a> {
    row: RowRef<'a>,
    layer: usize,
    start: usize,
}

// Where a row begins.
fn tail_of<'a>(places: &Places, rank: usize, v: RowRef<'a>) -> Tail<'a>
    requires length { length (entries_of v) ≡ size_of places.now * rank }
    requires small { size_of places.now * rank < 2 ^ 64 }
    requires short { size_of places.now ≤ 256 }
    ensures entries { entries_of result.row ≡ entries_of v.entry }
    ensures modulus { modulus_of result.row ≡ modulus_of v.entry }
    ensures begins { BeginsAt places.now rank result.layer result.start (entries_of v.entry) }
{
    let first = v.next_place(0);
    let mut start = 0;
    for layer in 0..places.layers() {
        let next = start + places.size(layer);
        if first < rank * next {
            return Tail {
                row: v,
                layer,
                start,
            };
        }
        start = next;
    }
    Tail {
        row: v,
        layer: places.layers(),
        start,
    }
}

// The image of one block of v.
fn block_image(
    places: &Places,
    images: Images<'_>,
    rank: usize,
    block: usize,
    v: Tail<'_>,
) -> ShortRow
    requires images { AreOver images (modulus_of v.row) (size_of places.now) }
    requires block { block < rank }
    requires length { length (entries_of v.row) ≡ size_of places.now * rank }
    requires begins { BeginsAt places.now rank v.layer v.start (entries_of v.row) }
    requires small { size_of places.now * rank < 2 ^ 64 }
    requires short { size_of places.now ≤ 256 }
    requires inside { (k : ℕ) → k < size_of places.now
        → images.first + k * images.step + reach images.factors.now ≤ length images.rows.now.rows }
    ensures prime { result.p ≡ modulus_of v.entry.row }
    ensures length { length result.entries ≡ size_of places.now }
    ensures image { (j : ℕ) → j < size_of places.now → IsCongruent result.p (entry result.entries j)
        (sum_below (size_of places.now) (λ k. entry (entries_of v.entry.row)
        (place_of places.now rank block k)
        * image_at images.entry.rows.now.rows images.entry.first images.entry.step
        images.entry.factors.now k j)) }
{
    let mut sum = ShortRow::zero(images.rows.prime(), images.rows.width());
    let mut start = v.start;
    for i in v.layer..places.layers() {
        let size = places.size(i);
        let at = places.layer_place(rank, block, i, start);
        add_images(images, start, v.row.part(at, size), &mut sum);
        start += size;
    }
    sum
}

/// Adds c times the image of one block of v to that block.
fn add_block_image(
    places: &Places,
    images: Images<'_>,
    rank: usize,
    block: usize,
    c: u8,
    v: Tail<'_>,
    out: &mut Row,
)
    requires prime { modulus_of v.row ≡ out.old.p }
    requires images { AreOver images out.old.p (size_of places.now) }
    requires block { block < rank }
    requires factor { c < out.old.p }
    requires lengths { (length (entries_of v.row) ≡ size_of places.now * rank)
        × (length out.old.entries ≡ size_of places.now * rank) }
    requires begins { BeginsAt places.now rank v.layer v.start (entries_of v.row) }
    requires small { size_of places.now * rank < 2 ^ 64 }
    requires inside { (k : ℕ) → k < size_of places.now
        → images.first + k * images.step + reach images.factors.now ≤ length images.rows.now.rows }
    requires short { size_of places.now ≤ 256 }
    ensures prime { out.new.p ≡ out.old.p }
    ensures gains { BlockGains out.old.p places.now rank block
        (image_entry places.now rank (image_at images.entry.rows.now.rows images.entry.first
        images.entry.step images.entry.factors.now) c (entries_of v.entry.row) block)
        out.old.entries out.new.entries }
{
    prove!(out.len() == v.row.len());
    let sum = block_image(places, images, rank, block, v);
    add_to_block(places, rank, block, c, sum.view(), out);
}

/// Adds c times the image of each block of v to that block.
pub(crate) fn add_image(
    places: &Places,
    images: Images<'_>,
    rank: usize,
    c: u8,
    v: RowRef<'_>,
    out: &mut Row,
)
    requires prime { modulus_of v ≡ out.old.p }
    requires images { AreOver images out.old.p (size_of places.now) }
    requires factor { c < out.old.p }
    requires lengths { (length (entries_of v) ≡ size_of places.now * rank)
        × (length out.old.entries ≡ size_of places.now * rank) }
    requires inside { (k : ℕ) → k < size_of places.now
        → images.first + k * images.step + reach images.factors.now ≤ length images.rows.now.rows }
    requires short { size_of places.now ≤ 256 }
    ensures prime { out.new.p ≡ out.old.p }
    ensures gains { GainsImage out.old.p places.now rank
        (image_at images.entry.rows.now.rows images.entry.first images.entry.step images.entry.factors.now)
        c (entries_of v.entry)
        out.old.entries out.new.entries }
{
    prove!(out.len() == v.len());
    if c == 0 {
        return;
    }
    let tail = tail_of(places, rank, v);
    for block in 0..rank {
        add_block_image(places, images, rank, block, c, tail, out);
    }
}
