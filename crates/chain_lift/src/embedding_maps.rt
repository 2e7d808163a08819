//! The rows of the maps of an embedding.

ghost use Rattle.chain_lift.specs.EmbeddingRows.{AreImages, AreScratchRows, FitAlong, listed, translates};
ghost use Rattle.chain_lift.specs.EmbeddingRows.{value_along};
ghost use Rattle.chain_lift.specs.RowMaps.{image_row, section_of};
ghost use Rattle.fp_rows.specs.Refs.{entries_of, modulus_of};
ghost use Rattle.group_algebra.specs.Coordinates.{free_module, table_of};
ghost use Rattle.group_algebra.specs.RowMaps.{IsBlock};
ghost use Rattle.linear_algebra.specs.Rows.{row, IsRow};
ghost use Rattle.p_groups.specs.PGroups.{order_of, prime_of};
ghost use Rattle.std.specs.Prelude.{◌≡◌, ◌≤◌, ◌<◌, ◌*◌, ◌^◌, ℕ, IfOk, length, slice_index};

use fp_rows::{Matrix, Row, RowRef};
use group_algebra::Algebra;
use group_table::Memory;
use min_res::Stage;
use std::alloc::Global;
use subgroup_list::ElemAb;

// Rows to write into: a block of a row over a subgroup, its coefficients by element number, and a translate
// over the group.
#[derive(Drop)]
struct Scratch {
    block: Row,
    coefficients: Row,
    moved: Row,
}

impl Scratch {
    fn new(alloc: Global, e: &Algebra, g: &Algebra, width: usize) -> Result<Scratch, Memory>
        ensures block_prime { IfOk result (λ s. s.block.p ≡ prime_of e.now) }
        ensures block_length { IfOk result (λ s. length s.block.entries ≡ order_of e.now) }
        ensures coefficients_prime { IfOk result (λ s. s.coefficients.p ≡ prime_of e.now) }
        ensures coefficients_length { IfOk result (λ s. length s.coefficients.entries ≡ order_of e.now) }
        ensures moved_prime { IfOk result (λ s. s.moved.p ≡ prime_of g.now) }
        ensures moved_length { IfOk result (λ s. length s.moved.entries ≡ width) }
    {
        let order = e.group().order() as usize;
        Ok(Scratch {
            block: Row::zero(alloc, e.group().prime(), order)?,
            coefficients: Row::zero(alloc, e.group().prime(), order)?,
            moved: Row::zero(alloc, g.group().prime(), width)?,
        })
    }
}

// Writes block k of the row x of `rank` blocks.
fn write_block(algebra: &Algebra, rank: usize, k: usize, x: RowRef<'_>, block: &mut Row)
    requires below { k < rank }
    requires fits { order_of algebra.now * rank < 2 ^ 64 }
    requires argument { length (entries_of x) ≡ order_of algebra.now * rank }
    requires argument_prime { modulus_of x ≡ block.old.p }
    requires block_length { length block.old.entries ≡ order_of algebra.now }
    ensures prime { block.new.p ≡ block.old.p }
    ensures length { length block.new.entries ≡ length block.old.entries }
    ensures block { IsBlock algebra.now rank k (entries_of x.entry) block.new.entries }
{
    for m in 0..block.len() {
        block.set(m, x.get(algebra.place(rank, k, m)));
    }
}

// Adds c_e times the translate of v by the element e of the subgroup, for each e.
fn add_translates(
    g: &Algebra,
    subgroup: &ElemAb,
    rank: usize,
    coefficients: RowRef<'_>,
    v: RowRef<'_>,
    moved: &mut Row,
    out: &mut Row,
)
    requires few { length (entries_of coefficients) ≤ 256 }
    requires count { length (entries_of coefficients) ≡ length subgroup.now.images }
    requires inside { (e : ℕ) → e < length subgroup.now.images
        → slice_index subgroup.now.images e < order_of g.now }
    requires moduli { (modulus_of coefficients ≡ prime_of g.now) × (modulus_of v ≡ prime_of g.now) }
    requires length { length (entries_of v) ≡ order_of g.now * rank }
    requires moved_prime { moved.old.p ≡ prime_of g.now }
    requires moved_length { length moved.old.entries ≡ order_of g.now * rank }
    requires out_prime { out.old.p ≡ prime_of g.now }
    requires out_length { length out.old.entries ≡ order_of g.now * rank }
    ensures moved_prime { moved.new.p ≡ moved.old.p }
    ensures moved_length { length moved.new.entries ≡ length moved.old.entries }
    ensures prime { out.new.p ≡ out.old.p }
    ensures length { length out.new.entries ≡ length out.old.entries }
    ensures gained { table_of g.now rank out.new.entries
        ≡ (free_module g.now rank).add (table_of g.now rank out.old.entries)
        (translates g.now rank subgroup.now.images (entries_of coefficients.entry) (entries_of v.entry)) }
{
    let _width = out.len();
    for e in 0..coefficients.len() {
        let c = coefficients.get(e);
        if c != 0 {
            g.act(rank, subgroup.embed(e as u16), v, moved);
            out.add(c, moved.view());
        }
    }
}

// Writes the value at x of the map to a free module of this rank, linear along the embedding, that takes
// basis element k to row k.
fn write_value(
    e: &Algebra,
    g: &Algebra,
    subgroup: &ElemAb,
    rank: usize,
    rows: &Matrix,
    x: RowRef<'_>,
    scratch: &mut Scratch,
    out: &mut Row,
)
    requires images { AreImages e.now g.now subgroup.now.images }
    requires rows_prime { rows.now.p ≡ prime_of g.now }
    requires rows_width { rows.now.width ≡ order_of g.now * rank }
    requires fits { order_of e.now * length rows.now.rows < 2 ^ 64 }
    requires argument { IsRow (prime_of e.now) (order_of e.now * length rows.now.rows) (entries_of x) }
    requires argument_prime { modulus_of x ≡ prime_of e.now }
    requires scratch { AreScratchRows e.now g.now rank scratch.old.block scratch.old.coefficients
        scratch.old.moved }
    requires out_prime { out.old.p ≡ prime_of g.now }
    requires out_length { length out.old.entries ≡ order_of g.now * rank }
    ensures scratch { AreScratchRows e.now g.now rank scratch.new.block scratch.new.coefficients
        scratch.new.moved }
    ensures prime { out.new.p ≡ out.old.p }
    ensures value { out.new.entries
        ≡ value_along e.now g.now (listed e.now g.now subgroup.now.images) rank rows.now.rows
        (entries_of x.entry) }
{
    let _order = e.group().order();
    out.clear();
    for k in 0..rows.rows() {
        write_block(e, rows.rows(), k, x, &mut scratch.block);
        e.from_layers(scratch.block.view(), &mut scratch.coefficients);
        add_translates(
            g,
            subgroup,
            rank,
            scratch.coefficients.view(),
            rows.row(k),
            &mut scratch.moved,
            out,
        );
    }
    let _row = out.len();
}

/// The rows of the next map along an embedding, from the rows of the map before, which goes to a free
/// module of this rank over the group: the section, in `target`, of the value of the map before at each row
/// of the boundary of `source`.
pub(crate) fn next_rows_along(
    alloc: Global,
    e: &Algebra,
    g: &Algebra,
    subgroup: &ElemAb,
    rank: usize,
    before: &Matrix,
    source: &Stage,
    target: &Stage,
) -> Result<Matrix, Memory>
    requires images { AreImages e.now g.now subgroup.now.images }
    requires fit { FitAlong e.now g.now rank before.now source.now target.now }
    ensures prime { IfOk result (λ m. m.p ≡ prime_of g.now) }
    ensures width { IfOk result (λ m. m.width ≡ target.now.kernel.width) }
    ensures count { IfOk result (λ m. length m.rows ≡ source.now.rank) }
    ensures rows { IfOk result (λ m. (i : ℕ) → i < source.now.rank
        → row m.rows i
        ≡ section_of target.now
        (value_along e.now g.now (listed e.now g.now subgroup.now.images) rank before.now.rows
        (image_row source.now i))) }
{
    let prime = before.prime();
    let mut scratch = Scratch::new(alloc, e, g, before.width())?;
    let mut value = Row::zero(alloc, prime, before.width())?;
    let mut lifted = Row::zero(alloc, prime, target.kernel().width())?;
    let mut rows = Matrix::new(alloc, prime, target.kernel().width());
    for i in 0..source.rank() {
        write_value(
            e,
            g,
            subgroup,
            rank,
            before,
            source.image(i),
            &mut scratch,
            &mut value,
        );
        target.section(value.view(), &mut lifted);
        rows.push(lifted.view())?;
    }
    Ok(rows)
}
