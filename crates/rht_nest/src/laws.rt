//! What the machines that read a table or make one rely on. Each function is empty, and its clause is
//! the law.

ghost use Rattle.rht_nest.specs.Laws.{BucketsStandInARow, BucketsNeverMeet};
ghost use Rattle.rht_nest.specs.PlaceLaws.{FindsPlaceOfWords, AbsentWhereNoPage, PlaceOrMissing};
ghost use Rattle.rht_nest.specs.GrowLaws.{GrownPageIsThere, NoneWherePagesTaken};
ghost use Rattle.rht_nest.specs.MakeLaws.{MadeOfWhatWasFree, NoneWhereSlotsOrRunsTaken, GivesTableBack};

/// A flat table's buckets stand in a row from its first page on. It says nothing of nested tables.
pub fn buckets_stand_in_a_row()
    ensures { BucketsStandInARow }
{}

/// No two buckets of flat tables have one place, be they of one table or of two that lie apart. It says
/// nothing of nested ones, whose buckets are wherever their entries lead.
pub fn buckets_never_meet()
    ensures { BucketsNeverMeet }
{}

/// Where each entry on the way was found as it is among some words, be it at one moment or not, a bucket
/// is said to be at a place exactly where that is its place by those words: the low bits of its number
/// pick an entry of the top page, and each further six bits a word of the page that is found. In a flat
/// table no word is looked at.
pub fn finds_place_of_words()
    ensures { FindsPlaceOfWords }
{}

/// A bucket is said to be absent, at an entry, exactly where an operation that loaded this entry found
/// that it leads to no page.
pub fn absent_where_no_page()
    ensures { AbsentWhereNoPage }
{}

/// By any words of the pages the way to a bucket of a nested table leads to the place of its word, or
/// ends at the entry that leads to no page, and never both.
pub fn place_or_missing()
    ensures { PlaceOrMissing }
{}

/// A page that is answered by the growing of a nested table was free until an operation of the machine's
/// own took it, and then entered by an exchange that found no page; or it is the one to which the entry
/// led that the exchange found, and then the page that was taken is given back at once.
pub fn grown_page_is_there()
    ensures { GrownPageIsThere }
{}

/// A growing that has ended answers none exactly where each page was seen taken in its turn: by an
/// operation of its own, in rising order.
pub fn none_where_pages_taken()
    ensures { NoneWherePagesTaken }
{}

/// The slot of a table that is answered was free until the exchange that took it, and so was each of its
/// pages, or the top page where it is nested; its serial is the one that the machine found; and the
/// shape, the seed with the serial, no future and the serial were stored in the slot. A flat table lies
/// within the pages. A nested one is answered only where it is allowed, the size is at least 128, and
/// each run of as many pages as a flat one takes was seen taken in its turn.
pub fn made_of_what_was_free()
    ensures { MadeOfWhatWasFree }
{}

/// A making that has ended answers none exactly where each slot was found not to be free, or each run
/// of as many pages as a flat table takes was seen taken in its turn and, where a nested one is allowed
/// and the size is at least 128, each page in its turn after that.
pub fn none_where_slots_or_runs_taken()
    ensures { NoneWhereSlotsOrRunsTaken }
{}

/// A giving back that has ended set the bit of each page of the table, or of the top page of a nested
/// one, and stored last that the slot is free.
pub fn gives_table_back()
    ensures { GivesTableBack }
{}
