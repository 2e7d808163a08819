//! The monomials of a degree: their number and their list.

ghost use Rattle.std.specs.Prelude.{◌≡◌, ℕ, ◌<◌, ◌≤◌, min, List, ◌++◌, map, drop, length, IfOk, OnOk};
ghost use Rattle.limits.specs.declared.TheConstants.{GREATEST_COUNT};
ghost use Rattle.graded_polynomials.specs.Monomials.{is_exterior, IsTrimmed, IsMonomials};
ghost use Rattle.graded_polynomials.specs.AllMonomials.{all_monomials};
ghost use Rattle.gc_poly.specs.Counts.{AreSums};
ghost use Rattle.gc_poly.specs.Generators.{greatest, AreOrdered};

use crate::{Gens, Mono, Monos};
use group_table::Memory;
use limits::GREATEST_DEGREE;
use std::alloc::Global;

// The number of degrees, 0 among them.
const DEGREES: usize = GREATEST_DEGREE as usize + 1;

// Counts with a further generator of this degree and all its powers.
fn count_powers(counts: &mut [u64], degree: usize)
    requires { 0 < degree }
    ensures { AreSums degree counts.old counts.new counts.new }
{
    for j in degree..counts.len() {
        counts[j] = counts[j].saturating_add(counts[j - degree]);
    }
}

// Counts with a further generator of this degree whose square is 0.
fn count_once(counts: &mut [u64], degree: usize)
    requires { 0 < degree }
    ensures { AreSums degree counts.old counts.old counts.new }
{
    for j in (degree..counts.len()).rev() {
        counts[j] = counts[j].saturating_add(counts[j - degree]);
    }
}

/// The number of monomials of degree d ≤ `GREATEST_DEGREE`, or `GREATEST_COUNT` where it is more.
pub fn count_monomials(gens: &Gens, d: u32) -> u64
    requires { d ≤ GREATEST_DEGREE }
    ensures { (ms : List (List ℕ)) → IsMonomials (greatest gens.now) gens.now.degrees d ms
        → result ≡ min (length ms) GREATEST_COUNT }
{
    let mut counts = [0; DEGREES];
    counts[0] = 1;
    for i in (0..gens.len()).rev() {
        let degree = gens.degree(i) as usize;
        if gens.is_exterior(i) {
            count_once(&mut counts, degree);
        } else {
            count_powers(&mut counts, degree);
        }
    }
    counts[d as usize]
}

// Adds to the found the monomials of degree `rest` in the generators from i on, each behind the exponents
// that are chosen for those before.
fn find_monomials(
    alloc: Global,
    gens: &Gens,
    i: usize,
    rest: u32,
    chosen: &mut Vec<u8>,
    found: &mut Vec<Mono>,
) -> Result<(), Memory>
    requires within { i ≤ length gens.now.degrees }
    requires small { rest ≤ 255 }
    requires trimmed { rest ≡ 0 → IsTrimmed chosen.old.items }
    ensures found { OnOk result (found.new.items
        ≡ found.old.items ++ map (λ m. chosen.old.items ++ m)
        (all_monomials (greatest gens.now) (drop i gens.now.degrees) rest)) }
    ensures chosen { OnOk result (chosen.new.items ≡ chosen.old.items) }
    ensures ordered { AreOrdered gens.now.degrees }
{
    let count = gens.len();
    if rest == 0 {
        found.push(Mono::of(alloc, chosen)?)?;
        return Ok(());
    }
    if i == count {
        return Ok(());
    }
    let degree = gens.degree(i);
    let most = if gens.is_exterior(i) { 1 } else { rest };
    for exponent in (0..most + 1).rev() {
        if exponent * degree <= rest {
            chosen.push(exponent as u8)?;
            find_monomials(alloc, gens, i + 1, rest - exponent * degree, chosen, found)?;
            chosen.pop();
        }
    }
    Ok(())
}

/// All monomials of degree d ≤ 255, in descending order.
pub fn monomials(alloc: Global, gens: &Gens, d: u32) -> Result<Monos, Memory>
    requires { d ≤ 255 }
    ensures { IfOk result (IsMonomials (greatest gens.now) gens.now.degrees d) }
{
    let mut found = Vec::new(alloc);
    find_monomials(alloc, gens, 0, d, &mut Vec::new(alloc), &mut found)?;
    let mut list = Monos::new(alloc);
    for m in found {
        list.push(m)?;
    }
    Ok(list)
}
