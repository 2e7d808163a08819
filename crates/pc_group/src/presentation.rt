//! Presentations, made a word at a time.

ghost use Rattle.std.specs.Prelude.{◌≡◌, ◌+◌, ◌<◌, ◌≤◌, IfOk, map, replicate};
ghost use Rattle.group_table.specs.Prime.{prime_value};
ghost use Rattle.power_commutator.specs.Presentations.{IsPresentation, IsWord, identity, power_word};
ghost use Rattle.power_commutator.specs.Presentations.{commutator_word, range};
ghost use Rattle.pc_group.specs.Parts.{elementary_abelian, with_power, with_commutator, exponents};

use group_table::{Memory, Prime};
use limits::MOST_GENERATORS;
use smallvec::SmallVec;
use std::alloc::Global;
use std::marker::Model;

/// The exponents of g_1 to g_n.
pub type Word = SmallVec<u8, 8, Global>;

/// A prime p, a number n of generators, the words of g_i^p, and the words of [g_j, g_i] for i < j.
/// Contracts see the finite record of these.
#[derive(Debug, Drop)]
pub struct Presentation {
    prime: Prime,
    gens: u32,
    powers: Vec<Word>,
    commutators: Vec<Vec<Word>>,
}

impl Model for Presentation {
    ghost use Rattle.power_commutator.specs.Presentations.{Presentation as Presented};

    ghost Value = { Presented };

    ghost use Rattle.std.specs.Prelude.{map};
    ghost use Rattle.pc_group.specs.Shown.{shown, IsShown};

    ghost view = { shown };

    ghost invariant = { IsShown };
}

impl Presentation {
    /// The presentation in which all words are empty, that of the elementary abelian group.
    /// n is at most `MOST_GENERATORS`.
    pub fn new(alloc: Global, p: Prime, n: u32) -> Result<Presentation, Memory>
        requires { n ≤ MOST_GENERATORS }
        ensures { IfOk result (λ made. made ≡ elementary_abelian (prime_value p) n) }
    {
        Ok(Presentation {
            prime: p,
            gens: n,
            powers: empty_words(alloc, n, n)?,
            commutators: empty_rows(alloc, n)?,
        })
    }

    /// The prime p.
    pub fn prime(&self) -> Prime
        ensures value { prime_value result ≡ self.now.prime }
        ensures prime { 1 < self.now.prime }
    {
        self.prime
    }

    /// The number n of generators.
    pub fn gens(&self) -> u32
        ensures value { result ≡ self.now.gens }
        ensures bound { result ≤ MOST_GENERATORS }
        ensures prime { 1 < self.now.prime }
        ensures valid { IsPresentation self.now }
    {
        self.gens
    }

    /// The word of g_i^p, for i from 1 to n.
    pub fn power_word(&self, i: u32) -> &Word
        requires first { 0 < i }
        requires last { i ≤ self.now.gens }
        ensures value { result.now.items ≡ power_word self.now i }
        ensures word { IsWord self.now.prime self.now.gens i result.now.items }
    {
        &self.powers[(i - 1) as usize]
    }

    /// The word of [g_j, g_i], for i from 1 to j - 1 and j to n.
    pub fn commutator(&self, j: u32, i: u32) -> &Word
        requires first { 0 < i }
        requires order { i < j }
        requires last { j ≤ self.now.gens }
        ensures value { result.now.items ≡ commutator_word self.now j i }
        ensures word { IsWord self.now.prime self.now.gens j result.now.items }
    {
        &self.commutators[(j - 1) as usize][(i - 1) as usize]
    }

    // The allocator of its lists.
    pub(crate) fn allocator(&self) -> Global {
        *self.powers.allocator()
    }

    /// Sets the word of g_i^p, for i from 1 to n.
    /// The word has n exponents below p, and those of g_1 to g_i are 0.
    pub fn set_power(&mut self, i: u32, w: Word)
        requires first { 0 < i }
        requires last { i ≤ self.old.gens }
        requires word { IsWord self.old.prime self.old.gens i w.items }
        ensures { self.new ≡ with_power self.old i w.items }
    {
        self.powers[(i - 1) as usize] = w;
    }

    /// Sets the word of [g_j, g_i], for i from 1 to j - 1 and j to n.
    /// The word has n exponents below p, and those of g_1 to g_j are 0.
    pub fn set_commutator(&mut self, j: u32, i: u32, w: Word)
        requires first { 0 < i }
        requires order { i < j }
        requires last { j ≤ self.old.gens }
        requires word { IsWord self.old.prime self.old.gens j w.items }
        ensures { self.new ≡ with_commutator self.old j i w.items }
    {
        let row = &mut self.commutators[(j - 1) as usize];
        row[(i - 1) as usize] = w;
    }
}

// `count` words without a generator.
fn empty_words(alloc: Global, gens: u32, count: u32) -> Result<Vec<Word>, Memory>
    ensures { IfOk result (λ words. exponents words.items ≡ replicate count (identity gens)) }
{
    let mut words = Vec::new(alloc);
    for i in 0..count {
        words.push(SmallVec::from_elem(alloc, 0, gens as usize)?)?;
    }
    Ok(words)
}

// Row j, counted from 0, has j words without a generator.
fn empty_rows(alloc: Global, gens: u32) -> Result<Vec<Vec<Word>>, Memory>
    ensures { IfOk result (λ rows. map (λ row. exponents row.items) rows.items
        ≡ map (λ i. replicate i (identity gens)) (range 0 gens)) }
{
    let mut rows = Vec::new(alloc);
    for i in 0..gens {
        rows.push(empty_words(alloc, gens, i)?)?;
    }
    Ok(rows)
}
