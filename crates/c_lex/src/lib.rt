//! The tokens of a preprocessed C text (ISO/IEC 9899:2011, 6.4).
#![tactic(auto)]

mod bytes;
mod directive;
mod integer;
mod laws;
mod lexer;
mod marks;
mod piece;
mod runs;
mod token;
mod token_list;
mod words;

pub use integer::{IntegerParts, Suffix, digit_value, integer_of, is_digit, radix_len};
pub use laws::law_literals_close;
pub use lexer::lex;
pub use token::{LexFault, Mark, Token, TokenKind, Word};
pub use token_list::Tokens;
