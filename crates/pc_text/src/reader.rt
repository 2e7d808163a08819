//! The reader of a presentation text.

ghost use Rattle.std.specs.Prelude.{◌≡◌, ◌≤◌, Ok, length, IfOk, IfErr, OnOk};
ghost use Rattle.pc_text.specs.Laws.{StandsFor, IsOutside};
ghost use Rattle.pc_text.specs.Texts.{read, presentation_of};
ghost use Rattle.pc_text.specs.Rules.{IsRelation, IsContent};
ghost use Rattle.pc_text.specs.Views.{TextFails, shown, shown_content, with_relation};

use crate::fault::TextFault;
use crate::place::Place;
use crate::relations::Relation;
use crate::texts::{Content, content_of};
use group_table::Memory;
use limits::LONGEST_TEXT;
use pc_group::Presentation;
use smallvec::SmallVec;
use std::alloc::Global;

/// The presentation that a text stands for, or the text's first fault: its kind, its line and its
/// column, both counted from 1, columns in bytes. The text has at most `LONGEST_TEXT` bytes.
pub fn read_presentation(alloc: Global, text: &[u8]) -> Result<Presentation, TextFault>
    requires { length text.now ≤ LONGEST_TEXT }
    ensures presentation { IfOk result (λ p. read text.now ≡ Ok p) }
    ensures grammar { IfOk result (λ p. StandsFor text.now p) }
    ensures fault { IfErr result (λ e. TextFails e (read text.now)) }
    ensures outside { IfErr result (λ e. IsOutside e text.now) }
{
    let content = content_of(alloc, text)?;
    match presentation(alloc, &content) {
        Ok(made) => Ok(made),
        Err(Memory) => Err(TextFault::Memory),
    }
}

// The presentation that relations give: at first all words are empty.
fn presentation(alloc: Global, content: &Content) -> Result<Presentation, Memory>
    requires { IsContent (shown_content content.now) }
    ensures { IfOk result (λ p. p ≡ presentation_of (shown_content content.now)) }
{
    let mut made = Presentation::new(alloc, content.generators.prime, content.generators.gens)?;
    for relation in &content.relations {
        set_word(alloc, &mut made, relation)?;
    }
    Ok(made)
}

// Sets the word of a left side.
fn set_word(alloc: Global, made: &mut Presentation, relation: &Relation) -> Result<(), Memory>
    requires { IsRelation made.old.prime made.old.gens (shown relation.now) }
    ensures { OnOk result (made.new ≡ with_relation made.old (shown relation.now)) }
{
    let word = SmallVec::from_slice(alloc, relation.word.as_slice())?;
    match relation.place {
        Place::Power(i) => made.set_power(i, word),
        Place::Commutator(j, i) => made.set_commutator(j, i, word),
    }
    Ok(())
}
