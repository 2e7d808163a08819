//! The monomials of a degree that are a generator times a standard monomial.

ghost use Rattle.std.specs.Prelude.{◌≡◌, ℕ, ◌<◌, ◌≤◌, [], List, length, All, IfOk, IfErr, OnOk};
ghost use Rattle.std.specs.Prelude.{slice_index_or};
ghost use Rattle.limits.specs.declared.TheConstants.{GREATEST_DEGREE};
ghost use Rattle.graded_polynomials.specs.Monomials.{IsGreater};
ghost use Rattle.gc_poly.specs.Generators.{greatest};
ghost use Rattle.gc_poly.specs.Lists.{IsDescending};
ghost use Rattle.ring_completion.specs.Candidates.{AreSome};
ghost use Rattle.ring_degree.specs.Products.{Gains, IsProductWith, AreProductsIn};
ghost use Rattle.ring_degree.specs.Tables.{AreTables};

use crate::factors::times;
use crate::table::Table;
use gc_poly::{Gens, Mono, Monos};
use group_table::Memory;
use std::alloc::Global;

// The place of m in a descending list, or else the place at which it would stand.
fn find(list: &[Mono], m: &Mono) -> Result<usize, usize>
    ensures found { IfOk result (λ i. (i < length list.now) × (slice_index_or list.now i [] ≡ m.now)) }
    ensures within { IfErr result (λ i. i ≤ length list.now) }
    ensures above { IfErr result (λ i. (k : ℕ) → k < i → IsGreater (slice_index_or list.now k []) m.now) }
    ensures here { IfErr result (λ i. i < length list.now → IsGreater m.now (slice_index_or list.now i [])) }
{
    let _length = m.len();
    for (i, n) in list.iter().enumerate() {
        let _length = n.len();
        if n == m {
            return Ok(i);
        }
        if !n.is_greater(m) {
            return Err(i);
        }
    }
    Err(list.len())
}

// Puts a monomial into a descending list, where it is not there.
fn insert(list: &mut Vec<Mono>, m: Mono) -> Result<(), Memory>
    requires { IsDescending list.old.items }
    ensures descending { OnOk result (IsDescending list.new.items) }
    ensures members { OnOk result (Gains (λ n. n ≡ m) list.old.items list.new.items) }
{
    if let Err(i) = find(list, &m) {
        list.insert(i, m)?;
    }
    Ok(())
}

// Puts the products of generator i with these monomials of degree e into a descending list.
fn insert_products(
    alloc: Global,
    gens: &Gens,
    i: usize,
    monomials: &Monos,
    list: &mut Vec<Mono>,
) -> Result<(), Memory>
    requires within { i < length gens.now.degrees }
    requires monomials { (e : ℕ) × (e ≤ GREATEST_DEGREE)
        × AreSome (greatest gens.now) gens.now.degrees e monomials.now }
    requires order { IsDescending list.old.items }
    ensures descending { OnOk result (IsDescending list.new.items) }
    ensures members { OnOk result (Gains (IsProductWith (greatest gens.now) gens.now.degrees i monomials.now)
        list.old.items list.new.items) }
{
    let _count = gens.len();
    for k in 0..monomials.len() {
        match times(alloc, gens, i, monomials.get(k))? {
            Some(m) => insert(list, m)?,
            None => {}
        }
    }
    Ok(())
}

// A descending list, numbered.
fn numbered(alloc: Global, list: Vec<Mono>) -> Result<Monos, Memory>
    requires { IsDescending list.items }
    ensures { IfOk result (λ ms. ms ≡ list.items) }
{
    let mut monomials = Monos::new(alloc);
    for m in list {
        monomials.push(m)?;
    }
    Ok(monomials)
}

/// The monomials of the next degree that are a generator times a standard monomial.
pub(crate) fn reached(alloc: Global, gens: &Gens, tables: &[Table]) -> Result<Monos, Memory>
    requires small { length tables.now ≤ GREATEST_DEGREE }
    requires below { All (λ e. e < length tables.now) gens.now.degrees }
    requires tables { AreTables gens.now tables.now }
    ensures { IfOk result (AreProductsIn (greatest gens.now) gens.now.degrees tables.now
        (length tables.now)) }
{
    let mut list = Vec::new(alloc);
    for i in 0..gens.len() {
        let low = &tables[tables.len() - gens.degree(i) as usize];
        insert_products(alloc, gens, i, &low.standard, &mut list)?;
    }
    let monomials = numbered(alloc, list)?;
    Ok(monomials)
}
