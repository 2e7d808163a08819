//! A line with a relation.

ghost use Rattle.std.specs.Prelude.{◌≡◌, ◌≤◌, ◌<◌, ◌+◌, ◌^◌, length, map, option_map, IfSome, IfErr, true};
ghost use Rattle.std.specs.List.{list_any};
ghost use Rattle.pc_text.specs.Relations.{power_shape, commutator_shape, left_shape, shape, left_side, least};
ghost use Rattle.pc_text.specs.Relations.{same_place, relation};
ghost use Rattle.pc_text.specs.Views.{names_of, LineGives, shown_left, shown_shape, shown, name_len};
ghost use Rattle.pc_text.specs.Views.{HasSmallColumn};

use crate::cuts::{cut, strip};
use crate::fault::{Kind, LineFault, LineStop};
use crate::generators::Generators;
use crate::names::{generator, is_name};
use crate::numerals::{is_digits, numeral};
use crate::place::Place;
use crate::words::word;
use std::alloc::Global;

/// The parts of a left side.
#[derive(Clone, Copy)]
pub enum Left<'a> {
    Power(&'a [u8], &'a [u8]),
    Commutator(&'a [u8], &'a [u8]),
}

/// The parts of a line, and the column of its right side.
#[derive(Clone, Copy)]
pub struct Shape<'a> {
    pub left: Left<'a>,
    pub right: &'a [u8],
    pub column: usize,
}

/// A left side and its word.
#[derive(Debug, Drop)]
pub struct Relation {
    pub place: Place,
    pub word: Vec<u8>,
}

fn power_shape(generators: Generators, bytes: &[u8]) -> Option<Left<'_>>
    ensures shape { option_map shown_left result ≡ power_shape (names_of generators) bytes.now }
    ensures len { IfSome result (λ s. name_len s ≤ length bytes.now) }
{
    let (name, digits) = cut(bytes, b'^')?;
    if is_name(name) && is_digits(digits) {
        Some(Left::Power(name, digits))
    } else {
        None
    }
}

fn commutator_shape(generators: Generators, bytes: &[u8]) -> Option<Left<'_>>
    ensures shape { option_map shown_left result ≡ commutator_shape (names_of generators) bytes.now }
    ensures len { IfSome result (λ s. name_len s ≤ length bytes.now) }
{
    let (second, rest) = cut(bytes, b',')?;
    let (first, end) = cut(rest, b']')?;
    if is_name(second) && is_name(first) && end.is_empty() {
        Some(Left::Commutator(second, first))
    } else {
        None
    }
}

fn left_shape(generators: Generators, bytes: &[u8]) -> Option<Left<'_>>
    ensures shape { option_map shown_left result ≡ left_shape (names_of generators) bytes.now }
    ensures len { IfSome result (λ s. name_len s ≤ length bytes.now) }
{
    match bytes {
        [b'[', names @ ..] => commutator_shape(generators, names),
        _ => power_shape(generators, bytes),
    }
}

/// The parts of a line.
fn line_shape(generators: Generators, bytes: &[u8]) -> Option<Shape<'_>>
    ensures shape { option_map shown_shape result ≡ shape (names_of generators) bytes.now }
    ensures len { IfSome result (λ s. s.column + length s.right.now ≤ length bytes.now + 1) }
    ensures name_len { IfSome result (λ s. name_len s.left ≤ length bytes.now) }
{
    let (left, rest) = cut(bytes, b' ')?;
    let parts = left_shape(generators, left)?;
    let right = strip(b"= ", rest)?;
    if right.is_empty() {
        return None;
    }
    Some(Shape {
        left: parts,
        right,
        column: left.len() + 4,
    })
}

fn bad(kind: Kind, column: usize) -> LineFault
    ensures { result ≡ record { kind = kind; column = column } }
{
    LineFault { kind, column }
}

/// The left side of the parts.
fn left_side(generators: Generators, left: Left<'_>) -> Result<Place, LineFault>
    requires { name_len left ≤ 2 ^ 16 }
    ensures side { result ≡ left_side (names_of generators) (shown_left left.entry) }
    ensures column { IfErr result (λ bad. bad.column ≤ 2 ^ 20) }
{
    match left {
        Left::Power(name, digits) => {
            let Some(i) = generator(generators.gens, name) else {
                return Err(bad(Kind::BadGenerator, 1));
            };
            if numeral(generators.p(), generators.p(), digits).is_none() {
                return Err(bad(Kind::BadPower, name.len() + 2));
            }
            Ok(Place::Power(i))
        }
        Left::Commutator(second, first) => {
            let Some(j) = generator(generators.gens, second) else {
                return Err(bad(Kind::BadGenerator, 2));
            };
            let Some(i) = generator(generators.gens, first) else {
                return Err(bad(Kind::BadGenerator, second.len() + 3));
            };
            if i < j {
                Ok(Place::Commutator(j, i))
            } else {
                Err(bad(Kind::BadOrder, 1))
            }
        }
    }
}

fn least(place: Place) -> u32
    ensures { result ≡ least place }
{
    match place {
        Place::Power(i) => i,
        Place::Commutator(j, _) => j,
    }
}

fn same_place(a: Place, b: Place) -> bool
    ensures { result ≡ same_place a b }
{
    match (a, b) {
        (Place::Power(i), Place::Power(k)) => i == k,
        (Place::Commutator(j, i), Place::Commutator(m, k)) => j == m && i == k,
        (Place::Power(_), Place::Commutator(_, _)) => false,
        (Place::Commutator(_, _), Place::Power(_)) => false,
    }
}

fn stands(place: Place, earlier: &[Relation]) -> bool
    ensures { result ≡ list_any (λ r. same_place place r.place) earlier.now }
{
    earlier.iter().any(|r| same_place(place, r.place))
}

/// The relation of a line that has its LF, after these.
#[tactic(auto, using(crate::proofs::LineLemmas::stands_shown))]
pub fn read_relation(
    alloc: Global,
    generators: Generators,
    earlier: &[Relation],
    bytes: &[u8],
) -> Result<Relation, LineStop>
    requires { length bytes.now ≤ 2 ^ 16 }
    ensures gives { LineGives shown result
        (relation (names_of generators) (map shown earlier.now) bytes.now true) }
    ensures column { IfErr result HasSmallColumn }
{
    let Some(parts) = line_shape(generators, bytes) else {
        return Err(LineStop::Fault(bad(Kind::BadLine, 1)));
    };
    let place = match left_side(generators, parts.left) {
        Ok(place) => place,
        Err(fault) => return Err(LineStop::Fault(fault)),
    };
    let word = word(alloc, generators, least(place), parts.column, parts.right)?;
    if stands(place, earlier) {
        return Err(LineStop::Fault(bad(Kind::Repeated, 1)));
    }
    Ok(Relation { place, word })
}
