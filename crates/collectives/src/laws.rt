//! Laws of the two calls.

ghost use Rattle.collectives.specs.Clause.{ClauseHolds};
ghost use Rattle.collectives.specs.Underway.{AllGatherAtRest, CollectivesGoOn, GathersAll};
ghost use Rattle.collectives.specs.Weights.{ArrivalsGetLighter};

/// A law: what an arrival sends weighs less than what arrived, so that arrivals come to an end.
pub fn arrivals_get_lighter()
    ensures { ArrivalsGetLighter }
{}

/// A law: all collectives of all communicators are under way at the start, and stay so when a member joins one, when any
/// message arrives, and when a call ends. Where a message arrives, none of the same key is held.
pub fn collectives_go_on()
    ensures { CollectivesGoOn }
{}

/// A law: what a rank has gathered is exactly the list of all members' arguments, and all have joined.
pub fn all_are_gathered()
    ensures { GathersAll }
{}

/// A law: with no message left, each member of a collective that all have joined has gathered.
pub fn all_gather_at_rest()
    ensures { AllGatherAtRest }
{}

/// A law: what is so of a collective at each moment, in words of who has gathered and which messages there are.
pub fn clause_holds()
    ensures { ClauseHolds }
{}
