//! The numbers of words, and those of all words of a presentation.

ghost use Rattle.std.specs.Prelude.{◌≡◌, ◌<◌, ◌≤◌, ◌+◌, ◌*◌, ◌^◌, All, length, IfOk};
ghost use Rattle.power_commutator.specs.Presentations.{number, power_word, commutator_word};
ghost use Rattle.pc_group.specs.Tables.{Each};
ghost use Rattle.pc_group.specs.WordNumbers.{IsPowerNumber, IsCommutatorNumber, AreWordNumbers};

use crate::presentation::Presentation;
use group_table::Memory;
use std::alloc::Global;

/// The numbers of the words of a presentation: that of g_j^p at j, and that of [g_k, g_j] at k (n + 1) + j.
#[derive(Drop)]
pub(crate) struct WordNumbers {
    pub powers: Vec<u16>,
    pub commutators: Vec<u16>,
}

impl WordNumbers {
    /// The numbers of all words of a presentation.
    pub fn new(alloc: Global, p: &Presentation) -> Result<WordNumbers, Memory>
        requires { p.now.prime ^ p.now.gens ≤ 256 }
        ensures { IfOk result (AreWordNumbers p.now) }
    {
        Ok(WordNumbers {
            powers: power_numbers(alloc, p)?,
            commutators: commutator_numbers(alloc, p)?,
        })
    }
}

/// The number of the element with these exponents: e_1 + e_2 p + e_3 p^2 and so on.
pub(crate) fn word_number(prime: usize, word: &[u8]) -> usize
    requires prime { 1 < prime }
    requires small { All (λ e. e < prime) word.now }
    requires few { prime ^ length word.now ≤ 256 }
    ensures value { result ≡ number prime word.now }
    ensures below { result < prime ^ length word.now }
{
    let count = word.len();
    let mut x = 0;
    for s in 0..count {
        x = word[count - 1 - s] as usize + prime * x;
    }
    x
}

// The number of the word of g_j^p, or 0 for j = 0.
fn power_number(p: &Presentation, j: u32) -> usize
    requires few { p.now.prime ^ p.now.gens ≤ 256 }
    requires last { j ≤ p.now.gens }
    ensures value { 0 < j → result ≡ number p.now.prime (power_word p.now j) }
    ensures below { result < p.now.prime ^ p.now.gens }
{
    let prime = p.prime().value() as usize;
    if 0 < j {
        word_number(prime, p.power_word(j).as_slice())
    } else {
        0
    }
}

// The number of the word of [g_k, g_j], or 0 where it is not the case that 0 < j < k.
fn commutator_number(p: &Presentation, k: u32, j: u32) -> usize
    requires few { p.now.prime ^ p.now.gens ≤ 256 }
    requires last { k ≤ p.now.gens }
    ensures value { 0 < j → j < k → result ≡ number p.now.prime (commutator_word p.now k j) }
    ensures below { result < p.now.prime ^ p.now.gens }
{
    let prime = p.prime().value() as usize;
    if 0 < j && j < k {
        word_number(prime, p.commutator(k, j).as_slice())
    } else {
        0
    }
}

// The numbers of the words of g_j^p, each at its j.
fn power_numbers(alloc: Global, p: &Presentation) -> Result<Vec<u16>, Memory>
    requires { p.now.prime ^ p.now.gens ≤ 256 }
    ensures { IfOk result (λ v. Each (IsPowerNumber p.now) (p.now.gens + 1) v.items) }
{
    let n = p.gens();
    let mut out = Vec::new(alloc);
    for j in 0..n + 1 {
        out.push(power_number(p, j) as u16)?;
    }
    Ok(out)
}

// The numbers of the words of [g_k, g_j], each at k (n + 1) + j.
fn commutator_numbers(alloc: Global, p: &Presentation) -> Result<Vec<u16>, Memory>
    requires { p.now.prime ^ p.now.gens ≤ 256 }
    ensures { let count = p.now.gens + 1 in
        IfOk result (λ v. Each (IsCommutatorNumber p.now) (count * count) v.items) }
{
    let count = p.gens() + 1;
    let mut out = Vec::new(alloc);
    for c in 0..count * count {
        out.push(commutator_number(p, c / count, c % count) as u16)?;
    }
    Ok(out)
}
