//! What follows from the definitions alone. Each function is empty, and its clause is the law.

ghost use Rattle.rht_model.specs.Laws.{ListsOnce, ListsBoundPorts, KeepsOneOwner};
ghost use Rattle.rht_model.specs.Laws.{AnswersOnce, TellsRefusalsApart, RefusesWithoutChange, ChangesByThreeReplies};
ghost use Rattle.rht_model.specs.Laws.{ExtendsByOne, HasLegalPrefixes, GoesOnAlike, SwapsPortsApart, AddsWhatChangesNothing};

/// Bindings have at most one listing.
pub fn listed_once()
    ensures { ListsOnce }
{}

/// Bindings of which all bound ports are given have the listing of these ports.
pub fn listed()
    ensures { ListsBoundPorts }
{}

/// In a table of one owner each, no port ever has two.
pub fn one_owner()
    ensures { KeepsOneOwner }
{}

/// A call has one answer on the same bindings.
pub fn answered_once()
    ensures { AnswersOnce }
{}

/// An answer is no refusal that the call may give.
pub fn answered_or_refused()
    ensures { TellsRefusalsApart }
{}

/// A refusal changes nothing.
pub fn refused_without_change()
    ensures { RefusesWithoutChange }
{}

/// A legal entry changes bindings only if its reply is that something was bound, released or rebound.
pub fn changed_by_three_replies()
    ensures { ChangesByThreeReplies }
{}

/// One entry more is looked at on what the others leave.
pub fn extended_by_one()
    ensures { ExtendsByOne }
{}

/// The beginning of a legal history is legal.
pub fn legal_from_the_start()
    ensures { HasLegalPrefixes }
{}

/// Histories that leave the same bindings go on alike.
pub fn gone_on_alike()
    ensures { GoesOnAlike }
{}

/// Entries of different ports may change places.
pub fn swapped()
    ensures { SwapsPortsApart }
{}

/// An entry that changes nothing may be put in, or taken out, where it is legal.
pub fn added_or_taken_out()
    ensures { AddsWhatChangesNothing }
{}
