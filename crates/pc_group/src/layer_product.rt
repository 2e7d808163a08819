//! The product of a layer with one generator more.

ghost use Rattle.std.specs.Prelude.{◌<◌, ◌≡◌, ◌*◌, ℕ, suc, IfOk};
ghost use Rattle.power_commutator.specs.Presentations.{Presentation as Presented};
ghost use Rattle.pc_group.specs.Layers.{IsLayerOf, product_of};
ghost use Rattle.pc_group.specs.Squares.{IsTableOf};

use crate::layer::Layer;
use crate::square::Square;
use group_table::Memory;
use std::alloc::Global;

impl Layer {
    /// The product with g_i of a and b.
    pub fn product_entry(&self, a: usize, b: usize) -> usize
        requires row { a < self.now.prime * self.now.table.width }
        requires column { b < self.now.prime * self.now.table.width }
        ensures value { result ≡ product_of self.now a b }
        ensures inside { result < self.now.prime * self.now.table.width }
    {
        let prime = self.prime;
        let first = a % prime + b % prime;
        let moved = self.iterated(b % prime, a / prime);
        let rest = self.table.entry(moved, b / prime);
        if first < prime {
            first + prime * rest
        } else {
            let w = self.power_word(self.index);
            let carried = self.table.entry(w, rest);
            (first - prime) + prime * carried
        }
    }

    /// The product of the layer with g_i.
    pub fn product(&self, alloc: Global) -> Result<Square, Memory>
        ensures { (P : Presented) (m : ℕ) → IsLayerOf P m self.now →
            IfOk result (IsTableOf P self.now.index (suc m)) }
    {
        let width = self.prime * self.table.width;
        let mut entries = Vec::new(alloc);
        for k in 0..width * width {
            let x = self.product_entry(k / width, k % width);
            entries.push(x as u16)?;
        }
        Ok(Square { width, entries })
    }
}
