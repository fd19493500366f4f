// Laws of the definitions.
ghost use Rattle.mem_objects.specs.Room.{BeginsPacked, StaysPacked, HasRoomWithin};
ghost use Rattle.mem_objects.specs.Sound.{ObjectsHaveRows, CandidatesHaveRows};

/// Objects that a mode places stand so close that each has a place as long as the sum of what was created is within 2^40:
/// the free address is at most 2^24 and three times that sum (own).
pub fn law_room()
    ensures begins { BeginsPacked }
    ensures stays { StaysPacked }
    ensures room { HasRoomWithin }
{}

/// In a sound memory each object of its store has a row, and so has each candidate of a provenance that was made (own).
pub fn law_rows()
    ensures objects { ObjectsHaveRows }
    ensures candidates { CandidatesHaveRows }
{}
