//! Collection from the left, to the normal form of a product of generators.
//! See Vaughan-Lee, "Collection from the left", Journal of Symbolic Computation 9 (1990).

ghost use Rattle.std.specs.Prelude.{◌≡◌, ◌+◌, ◌<◌, ◌≤◌, ◌∷◌, [], ◌++◌, All, IfOk, OnOk, length, take};
ghost use Rattle.power_commutator.specs.Presentations.{IsWord, multiply, generator};
ghost use Rattle.power_commutator.specs.Collect.{product_of, copies, spell, AreGenerators};
ghost use Rattle.pc_group.specs.Collection.{passed};

use crate::consistency::Consistent;
use crate::presentation::{Presentation, Word};
use group_table::Memory;
use smallvec::SmallVec;
use std::alloc::Global;

/// The normal form of the product of the generators with these numbers, each from 1 to n.
pub fn collect(alloc: Global, c: &Consistent, gens: &[u8]) -> Result<Word, Memory>
    requires { AreGenerators c.now gens.now }
    ensures product { IfOk result (λ word. word.items ≡ product_of c.now gens.now) }
    ensures word { IfOk result (λ word. IsWord c.now.prime c.now.gens 0 word.items) }
{
    let mut word: Word = SmallVec::from_elem(alloc, 0, c.presentation().gens() as usize)?;
    for k in gens {
        collect_generator(alloc, c, &mut word, *k)?;
    }
    Ok(word)
}

// Multiplies a collected word by g_k. What stands right of g_k's place is collected after it, as it is once
// g_k has passed it.
fn collect_generator(alloc: Global, c: &Consistent, word: &mut [u8], k: u8) -> Result<(), Memory>
    requires first { 0 < k }
    requires last { k ≤ c.now.gens }
    requires word { IsWord c.now.prime c.now.gens 0 word.old }
    ensures { OnOk result (word.new ≡ multiply c.now word.old (generator 1 c.now.gens k)) }
{
    let presentation = c.presentation();
    let mut right = Vec::new(alloc);
    push_factors(&mut right, k + 1, &word[k as usize..])?;
    let uncollected = passed_by(alloc, presentation, k, &right)?;
    put_generator(c, word, k);
    for j in &uncollected {
        collect_generator(alloc, c, word, *j)?;
    }
    Ok(())
}

// Puts g_k after the powers of g_1 to g_k in a collected word, in place of what stands there.
fn put_generator(c: &Consistent, word: &mut [u8], k: u8)
    requires first { 0 < k }
    requires last { k ≤ c.now.gens }
    requires word { IsWord c.now.prime c.now.gens 0 word.old }
    ensures { word.new ≡ product_of c.now (spell 1 (take k word.old) ++ k ∷ []) }
{
    let presentation = c.presentation();
    let prime = presentation.prime().value();
    let place = k as usize - 1;
    if word[place] + 1 < prime {
        word[place] += 1;
        word[place + 1..].fill(0);
    } else {
        let power = presentation.power_word(k as u32).as_slice();
        word[place..].copy_from_slice(&power[place..]);
    }
}

// What generators after g_k become where g_k passes them from the right.
fn passed_by(
    alloc: Global,
    presentation: &Presentation,
    k: u8,
    right: &[u8],
) -> Result<Vec<u8>, Memory>
    requires first { 0 < k }
    requires count { presentation.now.gens ≤ 8 }
    requires after { All (λ j. (k < j) × (j ≤ presentation.now.gens)) right.now }
    ensures { IfOk result (λ v. v.items ≡ passed presentation.now k right.now) }
{
    let mut uncollected = Vec::new(alloc);
    for j in right {
        uncollected.push(*j)?;
        push_factors(
            &mut uncollected,
            1,
            presentation.commutator(*j as u32, k as u32),
        )?;
    }
    Ok(uncollected)
}

// Appends the factors of the product of powers of g_i, g_(i+1), .. with these exponents.
fn push_factors(factors: &mut Vec<u8>, first: u8, exponents: &[u8]) -> Result<(), Memory>
    requires { first + length exponents.now ≤ 256 }
    ensures { OnOk result (factors.new.items ≡ factors.old.items ++ spell first exponents.now) }
{
    for (i, e) in exponents.iter().enumerate() {
        push_power(factors, first + i as u8, *e)?;
    }
    Ok(())
}

// Appends g_i, e times.
fn push_power(factors: &mut Vec<u8>, i: u8, e: u8) -> Result<(), Memory>
    ensures { OnOk result (factors.new.items ≡ factors.old.items ++ copies e i) }
{
    for _k in 0..e {
        factors.push(i)?;
    }
    Ok(())
}
