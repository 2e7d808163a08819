//! The writer of the canonical text.

ghost use Rattle.std.specs.Prelude.{◌≡◌, ◌≤◌, ◌<◌, ◌-◌, ◌∷◌, [], ◌++◌, Ok, codes, map, OnOk, IfOk, not, ◌==◌};
ghost use Rattle.std.specs.Prelude.{if◌then◌else◌};
ghost use Rattle.std.specs.List.{join_with_byte, list_any};
ghost use Rattle.group_table.specs.Prime.{prime_value};
ghost use Rattle.pc_text.specs.Bytes.{star};
ghost use Rattle.pc_text.specs.Texts.{read};
ghost use Rattle.pc_text.specs.Grammar.{header_text, factor_text, factor_texts, left_text};
ghost use Rattle.pc_text.specs.Canonical.{power_places, row_places, commutator_places, relation_line};
ghost use Rattle.pc_text.specs.Canonical.{place_lines, canonical};

use crate::place::Place;
use group_table::{Memory, Prime};
use pc_group::Presentation;
use std::alloc::Global;

/// The canonical text of a presentation: the three header lines, then the power relations that are
/// not empty by ascending index, then the commutator relations that are not empty.
pub fn write_presentation(alloc: Global, p: &Presentation) -> Result<Vec<u8>, Memory>
    ensures text { IfOk result (λ text. text.items ≡ canonical p.now) }
    ensures read { IfOk result (λ text. read text.items ≡ Ok p.now) }
{
    let mut text = head(alloc, p.prime(), p.gens())?;
    push_powers(alloc, &mut text, p)?;
    push_commutators(alloc, &mut text, p)?;
    Ok(text)
}

// The header lines.
fn head(alloc: Global, prime: Prime, gens: u32) -> Result<Vec<u8>, Memory>
    ensures { IfOk result (λ text. text.items ≡ header_text (prime_value prime) gens) }
{
    let p = prime.value();
    let head = format!(in alloc; "pgroup 1\nprime {p}\ngens {gens}\n")?;
    Ok(head.into_bytes())
}

// The power relations that are not empty.
fn push_powers(alloc: Global, text: &mut Vec<u8>, p: &Presentation) -> Result<(), Memory>
    ensures { OnOk result (text.new.items ≡ text.old.items
        ++ place_lines p.now (power_places p.now.gens)) }
{
    for i in 0..p.gens() {
        let word = p.power_word(i + 1);
        push_relation(
            alloc,
            text,
            p.prime().value(),
            Place::Power(i + 1),
            word.as_slice(),
        )?;
    }
    Ok(())
}

// The commutator relations that are not empty.
fn push_commutators(alloc: Global, text: &mut Vec<u8>, p: &Presentation) -> Result<(), Memory>
    ensures { OnOk result (text.new.items ≡ text.old.items
        ++ place_lines p.now (commutator_places p.now.gens)) }
{
    for j in 0..p.gens() {
        push_row(alloc, text, p, j + 1)?;
    }
    Ok(())
}

// The relations of the commutators of g_j and those before it that are not empty.
fn push_row(alloc: Global, text: &mut Vec<u8>, p: &Presentation, j: u32) -> Result<(), Memory>
    requires first { 0 < j }
    requires last { j ≤ p.now.gens }
    ensures { OnOk result (text.new.items ≡ text.old.items
        ++ place_lines p.now (row_places j)) }
{
    for i in 0..j - 1 {
        let word = p.commutator(j, i + 1);
        push_relation(
            alloc,
            text,
            p.prime().value(),
            Place::Commutator(j, i + 1),
            word.as_slice(),
        )?;
    }
    Ok(())
}

// The line of a relation, where its word is not empty.
fn push_relation(
    alloc: Global,
    text: &mut Vec<u8>,
    p: u8,
    place: Place,
    word: &[u8],
) -> Result<(), Memory>
    ensures { OnOk result (text.new.items ≡ text.old.items
        ++ relation_line p (record { place = place; word = word.now })) }
{
    if !has_factor(word) {
        return Ok(());
    }
    push_left(alloc, text, p, place)?;
    push_factors(alloc, text, word)?;
    text.push(b'\n')?;
    Ok(())
}

fn has_factor(word: &[u8]) -> bool
    ensures { result ≡ list_any (λ e. not (e == 0)) word.now }
{
    word.iter().any(|e| *e != 0)
}

// The left side and ` = `.
fn push_left(alloc: Global, text: &mut Vec<u8>, p: u8, place: Place) -> Result<(), Memory>
    ensures { OnOk result (text.new.items ≡ text.old.items ++ (left_text p place ++ codes " = ")) }
{
    let left = match place {
        Place::Power(i) => format!(in alloc; "g{i}^{p} = ")?,
        Place::Commutator(j, i) => format!(in alloc; "[g{j},g{i}] = ")?,
    };
    text.extend_from_slice(left.as_bytes())?;
    Ok(())
}

// The factors of a word, joined by `*`.
fn push_factors(alloc: Global, text: &mut Vec<u8>, word: &[u8]) -> Result<(), Memory>
    ensures { OnOk result (text.new.items ≡ text.old.items
        ++ join_with_byte star (factor_texts 1 word.now)) }
{
    let mut joined = false;
    for (k, e) in word.iter().enumerate() {
        if *e == 0 {
            continue;
        }
        push_piece(alloc, text, joined, k + 1, *e)?;
        joined = true;
    }
    Ok(())
}

// A factor, behind a `*` where others stand before it.
fn push_piece(
    alloc: Global,
    text: &mut Vec<u8>,
    joined: bool,
    k: usize,
    e: u8,
) -> Result<(), Memory>
    ensures { OnOk result (text.new.items ≡ text.old.items
        ++ (if joined then star ∷ factor_text k e else factor_text k e)) }
{
    if joined {
        text.push(b'*')?;
    }
    let factor = if e == 1 {
        format!(in alloc; "g{k}")?
    } else {
        format!(in alloc; "g{k}^{e}")?
    };
    text.extend_from_slice(factor.as_bytes())?;
    Ok(())
}
