// Tokens whose lines are their numbers.
ghost use Rattle.std.specs.Prelude.{◌≡◌, ◌++◌, ◌∷◌, [], OnOk};

use c_lex::Tokens;
use std::alloc::Global;
use ub_base::{Bytes, NoMemory};

// Adds a token and the end of its line.
fn add_line(text: &mut Bytes, token: &[u8]) -> Result<(), NoMemory>
    ensures { OnOk result (text.new ≡ (text.old ++ token.now) ++ 10 ∷ []) }
{
    text.append(token)?;
    text.push(b'\n')
}

/// The tokens of a text, each in a line of its own: there the line of a token is its number and one more, and so is each
/// line that the parser and the typing copy from a token.
pub fn one_a_line(alloc: Global, tokens: &Tokens<'_>) -> Result<Bytes, NoMemory> {
    let mut text = Bytes::from_vec(Vec::new(alloc));
    for at in 0..tokens.len() {
        add_line(&mut text, tokens.text(at))?;
    }
    Ok(text)
}

/// The token that stands in this line of such a text.
pub fn token_of(line: u32) -> u32 {
    line.saturating_sub(1)
}
