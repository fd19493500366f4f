// What the words ask for.
ghost use Rattle.std.specs.Prelude.{map, string_bytes, IfOk, IsErrOf};
ghost use Rattle.person_command.specs.PersonAsked.{IsPersonTaken};
ghost use Rattle.person_top.specs.Person.{Asks, IsBounded};

use command::WordFault;
use person_command::{PersonRequest, read_person_words};
use std::alloc::Global;

/// What the words ask for.
#[tactic(auto, unfolding(crate::specs::Person::Asks))]
pub fn asked<'a>(alloc: Global, words: &'a [String]) -> Result<PersonRequest<'a>, WordFault>
    ensures asked { IfOk result (Asks (map string_bytes words.now)) }
    ensures bounds { IfOk result IsBounded }
    ensures usage { IsErrOf result WordFault.Usage → ¬ IsPersonTaken (map string_bytes words.now) }
{
    read_person_words(alloc, words)
}
