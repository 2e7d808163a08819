//! Products of small groups, which the decimal digits of a number name.

ghost use Rattle.std.specs.Prelude.{◌≡◌, ◌+◌, ◌-◌, ◌≤◌, ◌%◌, IfOk};
ghost use Rattle.sample_groups.specs.Samples.{IsSmall, factor_of, sample, with_factor};

use crate::products::direct_product;
use coho_words::GREATEST_SAMPLE;
use group_table::{Memory, Prime};
use pc_group::{Presentation, Word};
use smallvec::SmallVec;
use std::alloc::Global;

// The greatest order of a product.
const GREATEST_PRODUCT: u64 = 64;

// The word with these exponents.
fn word(alloc: Global, exponents: &[u8]) -> Result<Word, Memory>
    ensures { IfOk result (λ w. w.items ≡ exponents.now) }
{
    Ok(SmallVec::from_slice(alloc, exponents)?)
}

fn four(alloc: Global) -> Result<Presentation, Memory>
    ensures { IfOk result (λ p. p ≡ factor_of 1) }
{
    let mut made = Presentation::new(alloc, Prime::P2, 2)?;
    made.set_power(1, word(alloc, &[0, 1])?);
    Ok(made)
}

fn eight(alloc: Global) -> Result<Presentation, Memory>
    ensures { IfOk result (λ p. p ≡ factor_of 2) }
{
    let mut made = Presentation::new(alloc, Prime::P2, 3)?;
    made.set_power(1, word(alloc, &[0, 1, 0])?);
    made.set_power(2, word(alloc, &[0, 0, 1])?);
    Ok(made)
}

fn dihedral(alloc: Global) -> Result<Presentation, Memory>
    ensures { IfOk result (λ p. p ≡ factor_of 3) }
{
    let mut made = Presentation::new(alloc, Prime::P2, 3)?;
    made.set_commutator(2, 1, word(alloc, &[0, 0, 1])?);
    Ok(made)
}

fn quaternion(alloc: Global) -> Result<Presentation, Memory>
    ensures { IfOk result (λ p. p ≡ factor_of 4) }
{
    let mut made = dihedral(alloc)?;
    made.set_power(1, word(alloc, &[0, 0, 1])?);
    made.set_power(2, word(alloc, &[0, 0, 1])?);
    Ok(made)
}

// The factor that a digit names.
fn factor(alloc: Global, digit: u8) -> Result<Presentation, Memory>
    ensures { IfOk result (λ p. p ≡ factor_of (digit % 5)) }
{
    match digit % 5 {
        0 => Presentation::new(alloc, Prime::P2, 1),
        1 => four(alloc),
        2 => eight(alloc),
        3 => dihedral(alloc),
        _ => quaternion(alloc),
    }
}

// The presentation with one more factor, which is left out where the order would be above 64.
fn with_factor(
    alloc: Global,
    p: Presentation,
    factor: &Presentation,
) -> Result<Presentation, Memory>
    requires small { IsSmall 6 p }
    requires factor { IsSmall 3 factor.now }
    ensures { IfOk result (λ made. made ≡ with_factor p factor.now) }
{
    match 2u64.checked_pow(p.gens() + factor.gens()) {
        Some(order) if order <= GREATEST_PRODUCT => direct_product(alloc, &p, factor),
        _ => Ok(p),
    }
}

/// The presentation of the direct product that the decimal digits of k name, from the left and each modulo 5:
/// 0 is the cyclic group of order 2, 1 that of order 4, 2 that of order 8, 3 the dihedral and 4 the
/// quaternion group of order 8. A factor that would bring the order above 64 is left out. k is at most
/// `GREATEST_SAMPLE`.
pub fn sample_presentation(alloc: Global, k: u32) -> Result<Presentation, Memory>
    requires { k ≤ GREATEST_SAMPLE }
    ensures { IfOk result (λ p. p ≡ sample k) }
{
    let digits = format!(in alloc; "{k}")?;
    let mut made = Presentation::new(alloc, Prime::P2, 0)?;
    for digit in digits.as_bytes() {
        let factor = factor(alloc, digit.saturating_sub(b'0'))?;
        made = with_factor(alloc, made, &factor)?;
    }
    Ok(made)
}
