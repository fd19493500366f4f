//! A run begins as the definitions do: the machine that is prepared of a lawful program is going before its first pick.
//!
//! A law function takes nothing and answers nothing: its contract is a law about the definitions.
#![tactic(auto)]

ghost use Rattle.start_laws.specs.Bytes.{LawfulHasBytes};
ghost use Rattle.start_laws.specs.Starts.{StartsGoing, StartsOver};

use code_view::law_code;
use frame_laws::{law_ordered, law_reached, law_scoped};
use run_standing::law_standing;
use value_facts::law_within;

/// Before the first pick of a run of a lawful program (5.1.2.2.1): where the objects that stand before it count no more bytes than the limit, the definitions
/// start from a state that the machine stands for, and the machine is going, after no pick (`goes`); where they count more, the definitions pass the limit
/// on created bytes by that number (`over`).
pub fn law_start()
    ensures goes { StartsGoing }
    ensures over { StartsOver }
{
    law_standing();
    law_code();
    law_scoped();
    law_ordered();
    law_reached();
    law_within();
}

/// The constants and the literals of a lawful program are bytes; so all that a run of it begins with is small, where its arguments are bytes (6.4.5, 6.7.9).
pub fn law_bytes()
    ensures { LawfulHasBytes }
{}
