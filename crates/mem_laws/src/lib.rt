//! Laws of the acts of memory and of the library, over their definitions alone.
#![tactic(auto)]

ghost use Rattle.mem_laws.specs.Frame.{ActFrame, ActChanges};
ghost use Rattle.mem_laws.specs.MoreCalls.{CallsSame};
ghost use Rattle.mem_laws.specs.MoreFormats.{FormatsSameUnderMore};
ghost use Rattle.mem_laws.specs.MoreRows.{ApartExtend, SameUnderMore, AccessesSame, ActsSameUnderMore};

/// An act gives the same value and items, or ends the run with the same status and items, and changes the same parts in the
/// same way, in a store that differs by what doesn't conflict with its items; and it changes only what its items name (own).
pub fn law_act_frame<V>()
    ensures frame { ActFrame V }
    ensures changes { ActChanges V }
{}

/// Rows that stand apart are extended by more rows that stand apart, in this sense: an address finds an object of the fewer among the more where it
/// finds it among the fewer, and nowhere else (own).
pub fn law_apart_extend()
    ensures { ApartExtend }
{}

/// Under more rows, among which addresses find the objects of the fewer where these do, a script that creates only objects with
/// rows among the fewer does the same where each object of the store has one. An access through a pointer whose candidates have
/// rows is the same act, and the loads, stores and moves of a memory do the same (own).
pub fn law_more_rows<V>()
    ensures scripts { SameUnderMore V }
    ensures accesses { AccessesSame }
    ensures acts { ActsSameUnderMore }
{}

/// A call of a function of the library does the same under more rows, where the candidates of its pointers have rows among the fewer, and so has the
/// object that it allocates: of one that takes no format, and of one with a format (own).
pub fn law_more_calls()
    ensures plain { CallsSame }
    ensures formatted { FormatsSameUnderMore }
{}
