//! The numbers that a list of the frames of a run gives to paths.
//!
//! A law function takes nothing and answers nothing: its contract is a law about the definitions.
#![tactic(auto)]

ghost use Rattle.frame_numbers.specs.Numbers.{NumbersStay, StartedIsNumbered, NumbersAreWithin, ListNumbersFrames, PathIsNumbered};

use c_model::law_numbering;

/// A list of frames gives each path a number of its own, to those of its frames their places in it: so a frame that a body starts has the number of its row,
/// and numbers stay as the list grows.
pub fn law_numbers()
    ensures stay { NumbersStay }
    ensures started { StartedIsNumbered }
    ensures within { NumbersAreWithin }
    ensures frames { ListNumbersFrames }
    ensures paths { PathIsNumbered }
{
    law_numbering();
}
