ghost use Rattle.std.specs.Prelude.{◌≡◌, ◌<◌, ◌^◌, ◌++◌, ◌∷◌, [], ℕ, length, OnOk, OnErr, slice_index};
ghost use Rattle.std.specs.Iterator.Runs.{EveryRun, ItemsMapTo};
ghost use Rattle.std.specs.Slice.Iter.{iter_rest, iter_steps};

use group_table::Memory;
use std::alloc::Global;
use std::marker::Model;
use std::slice;

/// A list of positions, which count from 0.
#[derive(Drop)]
pub struct Positions {
    items: Vec<u32>,
}

impl Model for Positions {
    ghost use Rattle.std.specs.Prelude.{ℕ, List};

    ghost Value = { List ℕ };

    ghost view = { λ a. a.items.items };
}

impl Positions {
    /// The empty list.
    pub fn new(alloc: Global) -> Positions
        ensures { result ≡ [] }
    {
        Positions {
            items: Vec::new(alloc),
        }
    }

    /// One more position at the end. After an error the list is as before.
    pub fn push(&mut self, v: u32) -> Result<(), Memory>
        ensures pushed { OnOk result (self.new ≡ self.old ++ v ∷ []) }
        ensures kept { OnErr result (self.new ≡ self.old) }
    {
        self.items.push(v)?;
        Ok(())
    }

    /// How many there are.
    pub fn len(&self) -> usize
        ensures { result ≡ length self.now }
    {
        self.items.len()
    }

    /// The position at place i of the list, which is below its length.
    pub fn get(&self, i: usize) -> u32
        requires { i < length self.now }
        ensures { result ≡ slice_index self.now i }
    {
        self.items[i]
    }

    /// The positions, one after the other.
    pub fn iter(&self) -> slice::Iter<'_, u32>
        ensures rest { iter_rest result ≡ self.now }
        ensures runs { EveryRun (iter_steps {A = ℕ}) (λ p. ItemsMapTo p (λ x. x.now) (iter_rest p.from)) }
        ensures fits { length (iter_rest result) < 2 ^ 64 }
    {
        self.items.iter()
    }
}

impl<'a> IntoIterator for &'a Positions {
    type Item = &'a u32;

    type IntoIter = slice::Iter<'a, u32>;

    ghost into_iter_gives = { λ v it. (iter_rest it ≡ v.now) × (length (iter_rest it) < 2 ^ 64)
        × EveryRun (iter_steps {A = ℕ}) (λ p. ItemsMapTo p (λ x. x.now) (iter_rest p.from)) };

    fn into_iter(self) -> slice::Iter<'a, u32> {
        self.iter()
    }
}
