//! Names of generators, and factors.

ghost use Rattle.std.specs.Prelude.{◌≡◌, ◌≤◌, ◌<◌, IfSome};
ghost use Rattle.pc_text.specs.Words.{is_g_name, g_generator, factor, above};
ghost use Rattle.pc_text.specs.Views.{names_of};

use crate::cuts::cut;
use crate::generators::Generators;
use crate::numerals::{is_digits, numeral};
use limits::MOST_GENERATORS;

/// Whether the bytes are `g` and digits.
pub fn is_name(bytes: &[u8]) -> bool
    ensures { result ≡ is_g_name bytes.now }
{
    match bytes {
        [b'g', digits @ ..] => is_digits(digits),
        _ => false,
    }
}

/// The generator of a name from `g1` to `gn`.
pub fn generator(gens: u32, bytes: &[u8]) -> Option<u32>
    requires { gens ≤ MOST_GENERATORS }
    ensures generator { result ≡ g_generator gens bytes.now }
    ensures range { IfSome result (λ k. (0 < k) × (k ≤ gens)) }
{
    match bytes {
        [b'g', digits @ ..] => numeral(1, gens, digits),
        _ => None,
    }
}

/// A factor: a generator and its exponent.
fn factor(generators: Generators, piece: &[u8]) -> Option<(u32, u32)>
    ensures factor { result ≡ factor (names_of generators) piece.now }
    ensures range { IfSome result (λ f. (0 < f.0) × (f.0 ≤ generators.gens) × (f.1 < 100)) }
{
    match cut(piece, b'^') {
        Some((name, digits)) => {
            let k = generator(generators.gens, name)?;
            let e = numeral(2, generators.p() - 1, digits)?;
            Some((k, e))
        }
        None => Some((generator(generators.gens, piece)?, 1)),
    }
}

/// A factor whose generator comes after this one.
pub fn factor_above(generators: Generators, least: u32, piece: &[u8]) -> Option<(u32, u32)>
    ensures factor { result ≡ above least (factor (names_of generators) piece.now) }
    ensures range { IfSome result (λ f. (0 < f.0) × (f.0 ≤ generators.gens) × (f.1 < 100)) }
{
    match factor(generators, piece) {
        Some((k, e)) if least < k => Some((k, e)),
        _ => None,
    }
}
