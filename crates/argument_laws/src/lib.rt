//! A frame that begins has an argument for each parameter of its function, which the parameter's object can take: laws over the definitions of c_model.
//!
//! A law function takes nothing and answers nothing: its contract is a law about the definitions.
#![tactic(auto)]

ghost use Rattle.argument_laws.specs.Arguments.{StartsWithArguments, StepsKeepArguments, OrdersKeepArguments, CanonicalKeepsArguments};
ghost use Rattle.argument_laws.specs.Arguments.{ArgumentsAreThere, ArgumentsAreTaken};

use frame_laws::law_scoped;
use program_view::law_view;
use static_laws::{law_lawful_sizes, law_whole_programs};
use value_laws::law_sizes_are_kept;

/// In each state of a run of a lawful program, whatever picks led there: before the block of a function's body is entered, its frame has as many arguments as
/// the function has parameters (6.5.2.2p2), those of `main` too (5.1.2.2.1p2); and as it is entered, each is a value that the object of its parameter takes
/// (6.5.2.2p4, 6.9.1p10), where the rows of objects lie apart.
pub fn law_arguments()
    ensures starts { StartsWithArguments }
    ensures keeps { StepsKeepArguments }
    ensures orders { OrdersKeepArguments }
    ensures canonical { CanonicalKeepsArguments }
    ensures count { ArgumentsAreThere }
    ensures taken { ArgumentsAreTaken }
{
    law_lawful_sizes();
    law_scoped();
    law_sizes_are_kept();
    law_view();
    law_whole_programs();
}
