//! The direct product of the groups of two presentations.

ghost use Rattle.std.specs.Prelude.{◌≡◌, ◌+◌, ◌-◌, ◌≤◌, ◌<◌, ◌++◌, IfOk, OnOk};
ghost use Rattle.power_commutator.specs.Presentations.{IsPresentation, commutator_word, identity, power_word};
ghost use Rattle.sample_groups.specs.Products.{Agrees, direct_product};

use group_table::Memory;
use limits::MOST_GENERATORS;
use pc_group::{Presentation, Word};
use smallvec::SmallVec;
use std::alloc::Global;

// The word of the identity.
fn identity(alloc: Global, gens: u32) -> Result<Word, Memory>
    ensures { IfOk result (λ w. w.items ≡ identity gens) }
{
    Ok(SmallVec::from_elem(alloc, 0, gens as usize)?)
}

// The word after the identity of the generators before it, and followed by that of the generators after it.
fn placed(alloc: Global, before: u32, w: &Word, after: u32) -> Result<Word, Memory>
    ensures { IfOk result (λ p. p.items ≡ (identity before ++ w.now.items) ++ identity after) }
{
    let mut placed = identity(alloc, before)?;
    placed.extend_from_slice(w)?;
    placed.extend_from_slice(&identity(alloc, after)?)?;
    Ok(placed)
}

// The word of g_i^p in the product.
fn power_in_product(
    alloc: Global,
    p: &Presentation,
    q: &Presentation,
    i: u32,
) -> Result<Word, Memory>
    requires first { 0 < i }
    requires last { i ≤ p.now.gens + q.now.gens }
    ensures { IfOk result (λ w. w.items ≡ power_word (direct_product p.now q.now) i) }
{
    if i <= p.gens() {
        placed(alloc, 0, p.power_word(i), q.gens())
    } else {
        placed(alloc, p.gens(), q.power_word(i - p.gens()), 0)
    }
}

// The word of [g_j, g_i] in the product.
fn commutator_in_product(
    alloc: Global,
    p: &Presentation,
    q: &Presentation,
    j: u32,
    i: u32,
) -> Result<Word, Memory>
    requires first { 0 < i }
    requires order { i < j }
    requires last { j ≤ p.now.gens + q.now.gens }
    ensures { IfOk result (λ w. w.items ≡ commutator_word (direct_product p.now q.now) j i) }
{
    let (n, m) = (p.gens(), q.gens());
    if j <= n {
        placed(alloc, 0, p.commutator(j, i), m)
    } else if i <= n {
        identity(alloc, n + m)
    } else {
        placed(alloc, n, q.commutator(j - n, i - n), 0)
    }
}

// Sets the words of all g_i^p.
fn set_powers(
    alloc: Global,
    made: &mut Presentation,
    p: &Presentation,
    q: &Presentation,
) -> Result<(), Memory>
    requires valid { IsPresentation (direct_product p.now q.now) }
    requires begun { Agrees (direct_product p.now q.now) 0 0 made.old }
    ensures { OnOk result (Agrees (direct_product p.now q.now) (p.now.gens + q.now.gens) 0 made.new) }
{
    let n = made.gens();
    for i in 1..n + 1 {
        made.set_power(i, power_in_product(alloc, p, q, i)?);
    }
    Ok(())
}

// Sets the words of all [g_j, g_i] for one j.
fn set_row(
    alloc: Global,
    made: &mut Presentation,
    p: &Presentation,
    q: &Presentation,
    j: u32,
) -> Result<(), Memory>
    requires valid { IsPresentation (direct_product p.now q.now) }
    requires first { 0 < j }
    requires last { j ≤ p.now.gens + q.now.gens }
    requires begun { Agrees (direct_product p.now q.now) (p.now.gens + q.now.gens) (j - 1) made.old }
    ensures { OnOk result (Agrees (direct_product p.now q.now) (p.now.gens + q.now.gens) j made.new) }
{
    for i in 1..j {
        made.set_commutator(j, i, commutator_in_product(alloc, p, q, j, i)?);
    }
    Ok(())
}

/// The presentation of the direct product: the generators of the second factor come after those of the first.
/// Both are over one prime, and the product has at most `MOST_GENERATORS` generators.
pub fn direct_product(
    alloc: Global,
    p: &Presentation,
    q: &Presentation,
) -> Result<Presentation, Memory>
    requires prime { p.now.prime ≡ q.now.prime }
    requires few { p.now.gens + q.now.gens ≤ MOST_GENERATORS }
    ensures { IfOk result (λ made. made ≡ direct_product p.now q.now) }
{
    let n = p.gens() + q.gens();
    let mut made = Presentation::new(alloc, p.prime(), n)?;
    set_powers(alloc, &mut made, p, q)?;
    for j in 1..n + 1 {
        set_row(alloc, &mut made, p, q, j)?;
    }
    Ok(made)
}
