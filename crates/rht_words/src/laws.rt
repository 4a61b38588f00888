//! What follows from the definitions alone. Each function is empty, and its clause is the law.

ghost use Rattle.rht_words.specs.Laws.{PortsComeBack, RoundsToNext, TablesStartWithin, PlacesNeverMeet, OperationsChangeOneWord, LinksTellApart, HeadsComeBack, EntriesComeBack, ShapesComeBack, WordsOpen, TablesOpenFlat, MapsOpenFree, MasksChangeOneBit, CallersBeginWithin};

/// A port comes back from its key word, and from its net and its number; key words keep the order of ports.
pub fn ports_come_back()
    ensures { PortsComeBack }
{}

/// Rounding gives the power of two that lies next.
pub fn rounds_to_next()
    ensures { RoundsToNext }
{}

/// The first table of a settled config has a size that tables may have.
pub fn tables_start_within()
    ensures { TablesStartWithin }
{}

/// The places of different things are different, and all are below the number of words.
pub fn places_never_meet()
    ensures { PlacesNeverMeet }
{}

/// An operation changes one word alone.
pub fn operations_change_one_word()
    ensures { OperationsChangeOneWord }
{}

/// A link names its node and a marker its place, and neither is taken for the other.
pub fn links_tell_apart()
    ensures { LinksTellApart }
{}

/// The word of a bucket and the first link of its chain come back from one another.
pub fn heads_come_back()
    ensures { HeadsComeBack }
{}

/// Future words and entries name a slot or a page.
pub fn entries_come_back()
    ensures { EntriesComeBack }
{}

/// A shape comes back from its word.
pub fn shapes_come_back()
    ensures { ShapesComeBack }
{}

/// The words of a table that has just been opened stand in their places.
pub fn words_open()
    ensures { WordsOpen }
{}

/// The first table is flat, and the pages that it takes hold it.
pub fn tables_open_flat()
    ensures { TablesOpenFlat }
{}

/// At opening all nodes are free, and all pages but those of the first table.
pub fn maps_open_free()
    ensures { MapsOpenFree }
{}

/// To set or to clear a bit of a map's word changes no other bit.
pub fn masks_change_one_bit()
    ensures { MasksChangeOneBit }
{}

/// A caller looks for a free node from a word of the map on that there is: in the plain ways from the
/// first, whichever it is given.
pub fn callers_begin_within()
    ensures { CallersBeginWithin }
{}
