//! The consistency tests of a layer, each decided by numbers.

ghost use Rattle.std.specs.Prelude.{◌≡◌, ◌<◌, ◌≤◌, ◌+◌, ℕ, suc};
ghost use Rattle.power_commutator.specs.Presentations.{Presentation as Presented, equations, first_false};
ghost use Rattle.power_commutator.specs.Presentations.{product, swap_test};
ghost use Rattle.power_commutator.specs.Order.{row};
ghost use Rattle.pc_group.specs.Layers.{IsLayerOf, power_tests, swap_tests, fixed_tests, twist_tests};

use crate::layer::Layer;
use power_commutator::TestName;

impl Layer {
    /// The first false power test.
    pub fn power_fault(&self) -> Option<TestName>
        ensures { (P : Presented) (m : ℕ) → IsLayerOf P m self.now →
            result ≡ first_false (power_tests P self.now.index m) }
    {
        for j in self.index + 1..self.gens + 1 {
            let image = self.image(self.generator(j));
            let left = self.table.power(image, self.prime);
            let right = self.image(self.power_word(j));
            if left != right {
                return Some(TestName::Power {
                    i: self.index as u32,
                    j: j as u32,
                });
            }
        }
        None
    }

    /// The first false swap test with this j.
    pub fn swap_row(&self, j: usize) -> Option<TestName>
        requires above { self.now.index < j }
        requires inside { j ≤ self.now.gens }
        ensures { (P : Presented) (m : ℕ) → IsLayerOf P m self.now → let i = self.now.index in
            result ≡ first_false (row (swap_test P (product P (suc i) m) i m) (self.now.gens + 1) j) }
    {
        let a = self.image(self.generator(j));
        for k in j + 1..self.gens + 1 {
            let b = self.image(self.generator(k));
            let c = self.image(self.commutator_word(k, j));
            let left = self.table.entry(b, a);
            let right = self.table.entry(self.table.entry(a, b), c);
            if left != right {
                return Some(TestName::Swap {
                    i: self.index as u32,
                    j: j as u32,
                    k: k as u32,
                });
            }
        }
        None
    }

    /// The first false swap test.
    pub fn swap_fault(&self) -> Option<TestName>
        ensures { (P : Presented) (m : ℕ) → IsLayerOf P m self.now →
            result ≡ first_false (swap_tests P self.now.index m) }
    {
        for j in self.index + 1..self.gens + 1 {
            if let Some(name) = self.swap_row(j) {
                return Some(name);
            }
        }
        None
    }

    /// The fixed test, if it is false.
    pub fn fixed_fault(&self) -> Option<TestName>
        ensures { (P : Presented) (m : ℕ) → IsLayerOf P m self.now →
            result ≡ first_false (fixed_tests P self.now.index m) }
    {
        let w = self.power_word(self.index);
        if self.image(w) != w {
            Some(TestName::Fixed {
                i: self.index as u32,
            })
        } else {
            None
        }
    }

    /// The first false twist test.
    pub fn twist_fault(&self) -> Option<TestName>
        ensures { (P : Presented) (m : ℕ) → IsLayerOf P m self.now →
            result ≡ first_false (twist_tests P self.now.index m) }
    {
        let w = self.power_word(self.index);
        for j in self.index + 1..self.gens + 1 {
            let g = self.generator(j);
            let left = self.table.entry(w, self.iterated(self.prime, g));
            let right = self.table.entry(g, w);
            if left != right {
                return Some(TestName::Twist {
                    i: self.index as u32,
                    j: j as u32,
                });
            }
        }
        None
    }

    /// The first false test.
    pub fn fault(&self) -> Option<TestName>
        ensures { (P : Presented) (m : ℕ) → IsLayerOf P m self.now → let i = self.now.index in
            result ≡ first_false (equations P (product P (suc i) m) i m) }
    {
        if let Some(name) = self.power_fault() {
            return Some(name);
        }
        if let Some(name) = self.swap_fault() {
            return Some(name);
        }
        if let Some(name) = self.fixed_fault() {
            return Some(name);
        }
        self.twist_fault()
    }
}
