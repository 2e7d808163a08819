//! Products on the numbers below a width, by their tables.

ghost use Rattle.std.specs.Prelude.{◌≡◌, ◌<◌, ◌≤◌, ◌-◌, [], ◌∷◌, length, IfOk};
ghost use Rattle.power_commutator.specs.Presentations.{ascending, word_of, pow};
ghost use Rattle.pc_group.specs.Tables.{at, IsSquare, AreBelow};

use group_table::Memory;
use std::alloc::Global;

/// A product on the numbers below the width, by the rows of its table.
#[derive(Drop)]
pub(crate) struct Square {
    pub width: usize,
    pub entries: Vec<u16>,
    ghost some: { 0 < width },
    ghost small: { width ≤ 256 },
    ghost square: { IsSquare width entries.items },
}

impl Square {
    ghost use Rattle.pc_group.specs.Squares.{times};

    /// The product on the number 0 alone.
    pub fn trivial(alloc: Global) -> Result<Square, Memory>
        ensures width { IfOk result (λ made. made.width ≡ 1) }
        ensures entries { IfOk result (λ made. made.entries.items ≡ 0 ∷ []) }
    {
        let mut entries = Vec::new(alloc);
        entries.push(0)?;
        Ok(Square { width: 1, entries })
    }

    /// The product of a and b.
    pub fn entry(&self, a: usize, b: usize) -> usize
        requires row { a < self.now.width }
        requires column { b < self.now.width }
        ensures value { result ≡ times self.now a b }
        ensures inside { result < self.now.width }
    {
        self.entries[a * self.width + b] as usize
    }

    /// x to the power e.
    pub fn power(&self, x: usize, e: usize) -> usize
        requires { x < self.now.width }
        ensures value { result ≡ pow (times self.now) 0 x e }
        ensures inside { result < self.now.width }
    {
        let mut y = 0;
        for k in 0..e {
            y = self.entry(x, y);
        }
        y
    }

    /// The ascending product of the powers of the elements from place j on, the digits of k being the
    /// exponents.
    pub fn digits_product(&self, prime: usize, elements: &[u16], j: usize, k: usize) -> usize
        requires prime { 0 < prime }
        requires elements { AreBelow self.now.width elements.now }
        requires place { j ≤ length elements.now }
        ensures value { result ≡
            ascending (times self.now) 0 (at elements.now) j (word_of prime (length elements.now - j) k) }
        ensures inside { result < self.now.width }
    {
        if j < elements.len() {
            let rest = self.digits_product(prime, elements, j + 1, k / prime);
            let first = self.power(elements[j] as usize, k % prime);
            self.entry(first, rest)
        } else {
            0
        }
    }
}
