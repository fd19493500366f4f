//! What control steps ask of the machine of a run holds along its canonical order: laws that join those of frames, of code and of the machine.
//!
//! A law function takes nothing and answers nothing: its contract is a law about the definitions.
#![tactic(auto)]

ghost use Rattle.control_laws.specs.Control.{ControlGoesOn, OpenStandsSo};
ghost use Rattle.control_laws.specs.Asked.{ArgumentsAreAsked};

use argument_laws::law_arguments;
use code_view::{law_blocks, law_labels, law_named, law_views};
use program_view::law_view;
use run_laws::law_asked;

/// Where the control step is the canonical pick of a machine that is going, the machine can take it: the jump, the declaration, the enter or the leave of a
/// block, the begin of a full expression (6.8p4), or the use of its value; and a frame that ends with it can be ended.
pub fn law_control()
    ensures { ControlGoesOn }
{
    law_view();
    law_blocks();
    law_labels();
    law_named();
    law_views();
    law_asked();
}

/// A full expression that is open in the top frame of such a machine is open as picks ask it.
pub fn law_open_frame()
    ensures { OpenStandsSo }
{
    law_view();
    law_blocks();
    law_labels();
    law_named();
    law_views();
    law_asked();
}

/// What is asked where a block is entered next (`AsksOfEnter`) holds in each state of a run of a lawful program: the frame has an argument for each parameter,
/// and each is one that its object takes (6.5.2.2p2, 6.5.2.2p4, 6.9.1p10).
pub fn law_entered_arguments()
    ensures { ArgumentsAreAsked }
{
    law_arguments();
}
