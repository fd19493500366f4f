//! Laws about the function.

ghost use Rattle.parse_spec.specs.Sentences.{ReadSentences};
ghost use Rattle.parse_spec.specs.ScopeLaws.{ScopesEnd};

/// Some sentences have these trees by the function, and some have none.
pub fn law_read_sentences()
    ensures { ReadSentences }
{}

/// What is read leaves the tokens and only adds declarations, so a block leaves those that stood before it.
pub fn law_scopes_end()
    ensures { ScopesEnd }
{}
