//! Which tokens have the same text.

ghost use Rattle.std.specs.Prelude.{◌≡◌, ℕ, List, Some, cond, unwrap_or, IfOk};
ghost use Rattle.std.specs.Str.{bytes_eq};
ghost use Rattle.std.specs.HashMap.{get_by};
ghost use Rattle.c_spelling.specs.Spelling.{IsSpelling};

use c_lex::Tokens;
use std::alloc::Global;
use std::collections::HashMap;
use ub_base::NoMemory;

/// The number that stands for this text: the one that does already, or else the given one.
fn number_of<'a>(
    numbers: &mut HashMap<&'a [u8], u32>,
    text: &'a [u8],
    at: u32,
) -> Result<u32, NoMemory>
    ensures number { IfOk result (λ n. n ≡ unwrap_or (get_by (λ k. bytes_eq text.entry.now k.now) numbers.old) at) }
    ensures known { IfOk result (λ n. (other : List ℕ) → get_by (λ k. bytes_eq other k.now) numbers.new ≡ cond (bytes_eq text.entry.now other) (Some n)
        (get_by (λ k. bytes_eq other k.now) numbers.old)) }
{
    match numbers.get(text) {
        Some(number) => Ok(*number),
        None => {
            numbers.insert(text, at)?;
            Ok(at)
        }
    }
}

/// For each token, the number of the first token with its text.
pub fn spelled_by(alloc: Global, tokens: &Tokens<'_>) -> Result<Vec<u32>, NoMemory>
    ensures ok { IfOk result (λ v. IsSpelling tokens.now v.items) }
{
    let mut spelled = Vec::new(alloc);
    let mut numbers = HashMap::new(alloc);
    for at in 0..tokens.len() {
        spelled.push(number_of(&mut numbers, tokens.text(at), at)?)?;
    }
    Ok(spelled)
}
