//! Words: the exponents of factors joined by `*`.

ghost use Rattle.std.specs.Prelude.{◌≡◌, ◌≤◌, ◌+◌, ◌^◌, length, IfErr};
ghost use Rattle.pc_text.specs.Words.{word};
ghost use Rattle.pc_text.specs.Views.{names_of, LineGives, HasSmallColumn};

use crate::cuts::first_part;
use crate::fault::{Kind, LineFault, LineStop};
use crate::generators::Generators;
use crate::names::factor_above;
use std::alloc::Global;

/// The exponents of the word at this column, whose generators come after least.
pub fn word(
    alloc: Global,
    generators: Generators,
    least: u32,
    column: usize,
    bytes: &[u8],
) -> Result<Vec<u8>, LineStop>
    requires { column + length bytes.now ≤ 2 ^ 20 }
    ensures gives { LineGives (λ w. w.items) result (word (names_of generators) least column bytes.now) }
    ensures column { IfErr result HasSmallColumn }
{
    let mut exponents = vec![in alloc; 0u8; generators.gens as usize]?;
    if bytes == b"1".as_slice() {
        return Ok(exponents);
    }
    let mut last = least;
    let mut at = column;
    let mut rest = bytes;
    loop {
        let (piece, after) = first_part(rest, b'*');
        let Some((k, e)) = factor_above(generators, last, piece) else {
            return Err(LineStop::Fault(LineFault {
                kind: Kind::BadWord,
                column: at,
            }));
        };
        exponents[(k - 1) as usize] = e as u8;
        let Some(after) = after else {
            return Ok(exponents);
        };
        last = k;
        at += piece.len() + 1;
        rest = after;
    }
}
