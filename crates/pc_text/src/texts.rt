//! The presentation text.

ghost use Rattle.group_table.specs.Prime.{prime_value};
ghost use Rattle.std.specs.Prelude.{option_map, ◌≡◌, ◌≤◌, ◌<◌, ◌+◌, length, [], IfSome, IfOk, IfErr};
ghost use Rattle.pc_text.specs.Lines.{lines_from};
ghost use Rattle.pc_text.specs.Texts.{prime, prime_line, count_line, relations, content};
ghost use Rattle.pc_text.specs.Cuts.{by_cuts};
ghost use Rattle.pc_text.specs.Rules.{IsContent};
ghost use Rattle.pc_text.specs.Views.{names_of, TextGives, TextFails, shown, all_shown, GoesOn};
ghost use Rattle.pc_text.specs.Views.{HasSmallColumn, at_line, shown_content};

use crate::cuts::{cut, strip};
use crate::fault::{Kind, LineStop, TextFault};
use crate::generators::Generators;
use crate::numerals::numeral;
use crate::relations::{Relation, read_relation};
use group_table::Prime;
use limits::{LONGEST_TEXT, MOST_GENERATORS};
use std::alloc::Global;

/// What a text says: the prime and the number of generators, and the relations in order.
#[derive(Debug, Drop)]
pub struct Content {
    pub generators: Generators,
    pub relations: Vec<Relation>,
}

// The prime with this number.
#[tactic(auto, using(crate::proofs::PrimeLemmas::prime_found))]
fn listed_prime(number: u32) -> Option<Prime>
    ensures { option_map prime_value result ≡ prime number }
{
    Prime::of(number)
}

// The prime of line 2.
fn prime_of(bytes: &[u8]) -> Option<Prime>
    ensures { option_map prime_value result ≡ prime_line bytes.now }
{
    listed_prime(numeral(0, 9, strip(b"prime ", bytes)?)?)
}

/// The number of generators of line 3.
fn count_of(bytes: &[u8]) -> Option<u32>
    ensures line { result ≡ count_line bytes.now }
    ensures few { IfSome result (λ n. n ≤ MOST_GENERATORS) }
{
    numeral(0, MOST_GENERATORS, strip(b"gens ", bytes)?)
}

fn in_line(line: u32, stop: LineStop) -> TextFault
    requires { HasSmallColumn stop }
    ensures { result ≡ at_line line stop }
{
    match stop {
        LineStop::Fault(bad) => TextFault::At {
            kind: bad.kind,
            line,
            column: bad.column as u32,
        },
        LineStop::Memory => TextFault::Memory,
    }
}

/// The relation of the first line, and the text after it.
fn next_relation<'a>(
    alloc: Global,
    generators: Generators,
    found: &[Relation],
    number: u32,
    text: &'a [u8],
) -> Result<(Relation, &'a [u8]), TextFault>
    requires few { length text.now ≤ LONGEST_TEXT }
    requires more { 0 < length text.now }
    ensures ok { IfOk result (λ x. GoesOn (names_of generators) (all_shown found.now)
        (shown x.0) number text.now x.1.now) }
    ensures err { IfErr result (λ e. TextFails e
        (relations (names_of generators) (all_shown found.now) (lines_from number text.now))) }
{
    let Some((bytes, next)) = cut(text, b'\n') else {
        return Err(at(Kind::BadLine, number));
    };
    match read_relation(alloc, generators, found, bytes) {
        Ok(relation) => Ok((relation, next)),
        Err(stop) => Err(in_line(number, stop)),
    }
}

/// The relations of the lines from line 4 on.
fn relations_of(
    alloc: Global,
    generators: Generators,
    text: &[u8],
) -> Result<Vec<Relation>, TextFault>
    requires { length text.now ≤ LONGEST_TEXT }
    ensures { TextGives (λ v. all_shown v.items) result
        (relations (names_of generators) [] (lines_from 4 text.now)) }
{
    let mut found: Vec<Relation> = Vec::new(alloc);
    let mut rest = text;
    let mut number: u32 = 4;
    while !rest.is_empty() {
        match next_relation(alloc, generators, &found, number, rest) {
            Ok((relation, next)) => {
                if found.push(relation).is_err() {
                    return Err(TextFault::Memory);
                }
                rest = next;
                number += 1;
            }
            Err(fault) => return Err(fault),
        }
    }
    Ok(found)
}

fn at(kind: Kind, line: u32) -> TextFault
    ensures { result ≡ TextFault.At kind line 1 }
{
    TextFault::At {
        kind,
        line,
        column: 1,
    }
}

#[tactic(auto, unfolding(crate::specs::Cuts::by_cuts))]
fn content_by_cuts(alloc: Global, text: &[u8]) -> Result<Content, TextFault>
    requires { length text.now ≤ LONGEST_TEXT }
    ensures { TextGives shown_content result (by_cuts text.now) }
{
    let Some((first, rest)) = cut(text, b'\n') else {
        return Err(at(Kind::BadHeader, 1));
    };
    if first != b"pgroup 1".as_slice() {
        return Err(at(Kind::BadHeader, 1));
    }
    let Some((second, rest)) = cut(rest, b'\n') else {
        return Err(at(Kind::BadPrime, 2));
    };
    let Some(prime) = prime_of(second) else {
        return Err(at(Kind::BadPrime, 2));
    };
    let Some((third, rest)) = cut(rest, b'\n') else {
        return Err(at(Kind::BadCount, 3));
    };
    let Some(gens) = count_of(third) else {
        return Err(at(Kind::BadCount, 3));
    };
    let generators = Generators { prime, gens };
    let relations = relations_of(alloc, generators, rest)?;
    Ok(Content {
        generators,
        relations,
    })
}

/// What a text says, or its first fault.
pub fn content_of(alloc: Global, text: &[u8]) -> Result<Content, TextFault>
    requires { length text.now ≤ LONGEST_TEXT }
    ensures gives { TextGives shown_content result (content text.now) }
    ensures kept { IfOk result (λ c. IsContent (shown_content c)) }
{
    content_by_cuts(alloc, text)
}
