//! Laws of presentation texts.

ghost use Rattle.pc_text.specs.Laws.{CanonicalIsRead, TableIsGrammar};

/// The table of faults and the grammar agree on every text.
pub fn table_is_grammar()
    ensures { TableIsGrammar }
{}

/// The canonical text of a presentation is read as that presentation.
pub fn canonical_is_read()
    ensures { CanonicalIsRead }
{}
