//! Trees that are let go where what stands behind them is refused. A function that lets one go for itself is dear to prove,
//! since each kind of node is a case there.

ghost use Rattle.std.specs.Prelude.{◌≡◌, ◌++◌, ◌∷◌, [], Err, IfOk, IfErr};
ghost use Rattle.parse_cursor.specs.Reads.{Reads};
ghost use Rattle.parse_nodes.specs.Behind.{paired, held, followed};

use c_lex::Mark;
use parse_cursor::{Cursor, Refusal};
use ub_base::Items;

/// The value, and what was read behind it.
pub fn with<A: Drop, B>(value: A, behind: Result<B, Refusal>) -> Result<(A, B), Refusal>
    ensures { result ≡ paired value behind }
{
    let behind = behind?;
    Ok((value, behind))
}

/// The value, where nothing is refused behind it.
pub fn kept<A: Drop>(value: A, behind: Result<(), Refusal>) -> Result<A, Refusal>
    ensures { result ≡ held value behind }
{
    behind?;
    Ok(value)
}

/// What was read, where this punctuator stands behind it.
pub fn before<A: Drop>(
    tokens: &mut Cursor<'_>,
    found: Result<A, Refusal>,
    end: Mark,
) -> Result<A, Refusal>
    ensures ok { IfOk found (λ a. Reads (followed end a tokens.old) result tokens.new) }
    ensures err { IfErr found (λ e. result ≡ Err e) }
{
    let value = found?;
    tokens.expect(end)?;
    Ok(value)
}

/// One element more, where it isn't refused.
pub fn pushed<A: Drop>(mut found: Items<A>, one: Result<A, Refusal>) -> Result<Items<A>, Refusal>
    ensures ok { IfOk one (λ a. IfOk result (λ all. all ≡ found ++ a ∷ [])) }
    ensures memory { IfOk one (λ a. IfErr result (λ e. e ≡ Refusal.NoMemory)) }
    ensures err { IfErr one (λ e. result ≡ Err e) }
{
    found.push(one?)?;
    Ok(found)
}
