//! One step down the layers: the tests of a layer, and the product of the layer with one generator more.

ghost use Rattle.std.specs.Prelude.{◌≡◌, ◌<◌, ◌≤◌, ◌-◌, ◌^◌, ℕ, suc, IfOk};
ghost use Rattle.power_commutator.specs.Presentations.{Presentation as Presented, IsPresentation};
ghost use Rattle.pc_group.specs.Layers.{IsLayerOf};
ghost use Rattle.pc_group.specs.Squares.{IsTableOf};
ghost use Rattle.pc_group.specs.WordNumbers.{AreWordNumbers, IsStepOf, IsOutcomeOf};

use crate::layer::Layer;
use crate::presentation::Presentation;
use crate::square::Square;
use crate::word_numbers::WordNumbers;
use group_table::Memory;
use power_commutator::TestName;
use std::alloc::Global;

// The first false test of a layer after g_i, or its product with g_i.
fn layer_step(alloc: Global, layer: &Layer) -> Result<Result<Square, TestName>, Memory>
    ensures { (P : Presented) (m : ℕ) → IsLayerOf P m layer.now →
        IfOk result (IsStepOf P layer.now.index m) }
{
    match layer.fault() {
        Some(name) => Ok(Err(name)),
        None => Ok(Ok(layer.product(alloc)?)),
    }
}

// The first false test of layer i, or its product, from the product of the layer after g_i.
fn round(
    alloc: Global,
    p: &Presentation,
    words: &WordNumbers,
    i: usize,
    table: Square,
) -> Result<Result<Square, TestName>, Memory>
    requires few { p.now.prime ^ p.now.gens ≤ 256 }
    requires first { 0 < i }
    requires last { i ≤ p.now.gens }
    requires words { AreWordNumbers p.now words.now }
    requires table { IsTableOf p.now (suc i) (p.now.gens - i) table }
    ensures { IfOk result (IsStepOf p.now i (p.now.gens - i)) }
{
    let layer = Layer::new(alloc, p, words, i, table)?;
    layer_step(alloc, &layer)
}

/// The first false test of a presentation, or the product of its layer 1.
pub(crate) fn first_layer(
    alloc: Global,
    p: &Presentation,
) -> Result<Result<Square, TestName>, Memory>
    requires { p.now.prime ^ p.now.gens ≤ 256 }
    ensures outcome { IfOk result (IsOutcomeOf p.now) }
    ensures prime { 1 < p.now.prime }
    ensures valid { IsPresentation p.now }
{
    let n = p.gens() as usize;
    let words = WordNumbers::new(alloc, p)?;
    let mut table = Square::trivial(alloc)?;
    for m in 0..n {
        match round(alloc, p, &words, n - m, table)? {
            Ok(next) => table = next,
            Err(name) => return Ok(Err(name)),
        }
    }
    Ok(Ok(table))
}
