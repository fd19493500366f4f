//! Laws of the lexer's definitions: its function on lists, and the relation between a text and its tokens (ISO/IEC
//! 9899:2011, 6.4).
#![tactic(auto)]

ghost use Rattle.lex_laws.specs.Laws.{HasNotBoth, HasOneFault, HasOneList, IsFailed, IsLexed};

/// The tokens of a text are those that spell it from left to right, and its fault is that of its first piece that is none.
pub fn law_lexes()
    ensures lexed { IsLexed }
    ensures failed { IsFailed }
{}

/// A text has one list of tokens or one failing piece, and never both.
pub fn law_one_reading()
    ensures list { HasOneList }
    ensures fault { HasOneFault }
    ensures one { HasNotBoth }
{}
