// What the words ask for.
ghost use Rattle.std.specs.Prelude.{map, string_bytes, IfOk, IsErrOf};
ghost use Rattle.audit_top.specs.Words.{Asks, IsBounded, TakesWords};

use command::{Request, WordFault, read_words};
use std::alloc::Global;

/// What the words ask for.
#[tactic(auto, unfolding(crate::specs::Words::Asks))]
pub fn asked<'a>(alloc: Global, words: &'a [String]) -> Result<Request<'a>, WordFault>
    ensures asked { IfOk result (Asks (map string_bytes words.now)) }
    ensures bounded { IfOk result IsBounded }
    ensures usage { IsErrOf result WordFault.Usage → ¬ TakesWords (map string_bytes words.now) }
{
    read_words(alloc, words)
}
