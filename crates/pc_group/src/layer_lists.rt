//! The numbers of generators, words and images in a layer.

ghost use Rattle.std.specs.Prelude.{◌≡◌, ◌<◌, ◌≤◌, ◌*◌, ◌/◌, ◌+◌, ◌-◌, ◌^◌, suc, length, get_or, IfOk};
ghost use Rattle.power_commutator.specs.Presentations.{ascending, word_of};
ghost use Rattle.pc_group.specs.Tables.{at, AreNumbers, AreBelow, Each};
ghost use Rattle.pc_group.specs.Squares.{times};

use crate::square::Square;
use group_table::Memory;
use limits::MOST_GENERATORS;
use std::alloc::Global;

/// A power that is at most 256.
pub(crate) fn small_power(prime: usize, e: usize) -> usize
    requires some { 1 < prime }
    requires small { prime ^ e ≤ 256 }
    ensures value { result ≡ prime ^ e }
    ensures some { 0 < result }
    ensures small { result ≤ 256 }
{
    let mut y = 1;
    for k in 0..e {
        y = y * prime;
    }
    y
}

/// The number of g_j in the layer after g_i, or 0 for the generators that it lacks.
pub(crate) fn generator_number(prime: usize, i: usize, n: usize, j: usize) -> usize
    requires some { 1 < prime }
    requires small { prime ^ (n - i) ≤ 256 }
    requires inside { j ≤ n }
    ensures value { i < j → result ≡ prime ^ (j - suc i) }
    ensures below { result < prime ^ (n - i) }
{
    if i < j {
        small_power(prime, j - i - 1)
    } else {
        0
    }
}

/// The numbers of the generators in the layer after g_i.
pub(crate) fn generator_list(
    alloc: Global,
    prime: usize,
    i: usize,
    n: usize,
) -> Result<Vec<u16>, Memory>
    requires some { 1 < prime }
    requires small { prime ^ (n - i) ≤ 256 }
    requires count { n ≤ MOST_GENERATORS }
    ensures { IfOk result (λ v.
        Each (λ j x. (i < j → x ≡ prime ^ (j - suc i)) × x < prime ^ (n - i)) (n + 1) v.items) }
{
    let mut out = Vec::new(alloc);
    for j in 0..n + 1 {
        let x = generator_number(prime, i, n, j);
        out.push(x as u16)?;
    }
    Ok(out)
}

/// Each number over the divisor.
pub(crate) fn scaled(alloc: Global, numbers: &[u16], divisor: usize) -> Result<Vec<u16>, Memory>
    requires { 0 < divisor }
    ensures { IfOk result (λ v.
        Each (λ k x. x ≡ get_or numbers.now k 0 / divisor) (length numbers.now) v.items) }
{
    let mut out = Vec::new(alloc);
    for k in 0..numbers.len() {
        let x = numbers[k] as usize / divisor;
        out.push(x as u16)?;
    }
    Ok(out)
}

/// g_j c_{j,i} in the layer after g_i, or 0 for the generators that it lacks.
pub(crate) fn element(
    table: &Square,
    generators: &[u16],
    commutators: &[u16],
    i: usize,
    n: usize,
    j: usize,
) -> usize
    requires count { n ≤ MOST_GENERATORS }
    requires inside { j ≤ n }
    requires before { i ≤ n }
    requires generators { AreNumbers (n + 1) table.now.width generators.now }
    requires commutators { AreNumbers ((n + 1) * (n + 1)) table.now.width commutators.now }
    ensures value { i < j → result ≡
        times table.now (at generators.now j) (at commutators.now (j * (n + 1) + i)) }
    ensures below { result < table.now.width }
{
    if i < j {
        let commutator = commutators[j * (n + 1) + i];
        table.entry(generators[j] as usize, commutator as usize)
    } else {
        0
    }
}

/// The elements g_j c_{j,i}.
pub(crate) fn element_list(
    alloc: Global,
    table: &Square,
    generators: &[u16],
    commutators: &[u16],
    i: usize,
    n: usize,
) -> Result<Vec<u16>, Memory>
    requires count { n ≤ MOST_GENERATORS }
    requires before { i ≤ n }
    requires generators { AreNumbers (n + 1) table.now.width generators.now }
    requires commutators { AreNumbers ((n + 1) * (n + 1)) table.now.width commutators.now }
    ensures { IfOk result (λ v. Each (λ j x. (i < j → x ≡
        times table.now (at generators.now j) (at commutators.now (j * (n + 1) + i)))
        × x < table.now.width) (n + 1) v.items) }
{
    let mut out = Vec::new(alloc);
    for j in 0..n + 1 {
        let x = element(table, generators, commutators, i, n, j);
        out.push(x as u16)?;
    }
    Ok(out)
}

/// The table of the twist of layer i.
pub(crate) fn image_list(
    alloc: Global,
    prime: usize,
    table: &Square,
    elements: &[u16],
    i: usize,
) -> Result<Vec<u16>, Memory>
    requires prime { 0 < prime }
    requires elements { AreBelow table.now.width elements.now }
    requires place { i < length elements.now }
    ensures { IfOk result (λ v. Each (λ k x. (x ≡
        ascending (times table.now) 0 (at elements.now) (i + 1)
        (word_of prime (length elements.now - (i + 1)) k))
        × x < table.now.width) table.now.width v.items) }
{
    let mut out = Vec::new(alloc);
    for k in 0..table.width {
        let x = table.digits_product(prime, elements, i + 1, k);
        out.push(x as u16)?;
    }
    Ok(out)
}
