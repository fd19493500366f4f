//! Laws about the grammar.

ghost use Rattle.c_grammar.specs.Sentences.{Sentences};

/// Some sentences are in the grammar, and one isn't.
pub fn law_sentences()
    ensures { Sentences }
{}
