//! Footprints, and c_model's definitions of items, their order and the least conflicting pair: one and the same.
#![tactic(auto)]

ghost use Rattle.finding_laws.specs.AtEnd.{AnyIsAsked, AnyIsHad, AnyIsHadBesides, OnlyEndsMeet, RacesAsBefore};
ghost use Rattle.finding_laws.specs.ItemOrder.{ItemsByKeys, PairsByKeys};
ghost use Rattle.finding_laws.specs.Footprints.{EmptyIsNone, AddIsMore, UnionIsBoth};
ghost use Rattle.finding_laws.specs.Conflicts.{ConflictsAreTold, RacesAreTold};
ghost use Rattle.finding_laws.specs.Forgotten.{ForgottenTellNothing, LeastBesides};
ghost use Rattle.finding_laws.specs.LeastPairs.{LeastAccesses, LeastIsTold, LeastOfItems};
ghost use Rattle.finding_laws.specs.FirstPairs.{EventsByPlaces, FirstIsFound, FirstPairIsTaken, NoPairIsTaken};

/// The order of items and of pairs in which a footprint's least pair is sought is that of the definition's keys, where the frames of their
/// names are known.
pub fn law_item_order()
    ensures items { ItemsByKeys }
    ensures pairs { PairsByKeys }
{}

/// A footprint to which each item of a list was added has just the items of the list, a byte at a time.
pub fn law_footprints()
    ensures empty { EmptyIsNone }
    ensures more { AddIsMore }
    ensures both { UnionIsBoth }
{}

/// The least conflicting pair of two footprints is the definition's least pair of the items that they have.
pub fn law_least_items()
    ensures { LeastIsTold }
{}

/// The accesses of an object with which the other of two evaluations has nothing to do make no conflict more, and no lesser pair of items.
pub fn law_forgotten_items()
    ensures { ForgottenTellNothing }
{}

/// Two footprints conflict, or race, exactly where the items that they have do so by the definition.
pub fn law_conflicts_told()
    ensures any { ConflictsAreTold }
    ensures races { RacesAreTold }
{}

/// The pair of due events that passes a test, such that no lesser one does, is the pair that the definition takes, and what it finds in a full
/// expression is the first race, or else the first quarrel. Events of one full expression stand as their places do.
pub fn law_first_pair()
    ensures taken { FirstPairIsTaken }
    ensures none { NoPairIsTaken }
    ensures found { FirstIsFound }
    ensures events { EventsByPlaces }
{}

/// The least pair of items that conflict, of two evaluations that have the items of two lists, is the definition's; so are the least accesses of a race. It is
/// so too where they have forgotten accesses of objects that the other doesn't access.
pub fn law_least_of_items()
    ensures any { LeastOfItems }
    ensures races { LeastAccesses }
    ensures besides { LeastBesides }
{}

/// Where the run ends each event that is due has `any` besides its items. Two events then conflict where their items do, or where one of them ends the run;
/// and they race where their items do.
pub fn law_items_at_end()
    ensures had { AnyIsHad }
    ensures besides { AnyIsHadBesides }
    ensures asked { AnyIsAsked }
    ensures meet { OnlyEndsMeet }
    ensures races { RacesAsBefore }
{}
