//! What those rely on who wait for read sections, and who tidy. Each function is empty, and its clause
//! is the law.

ghost use Rattle.rht_grace.specs.Laws.{TurnSections};
ghost use Rattle.rht_grace.specs.TidyLaws.{TidiesRightly, TidiesSoon, TidiesWithin};

/// Entering makes an even section word odd, and leaving makes an odd one even, and each changes the
/// word: also where the word begins again after 2^64 - 1.
pub fn turn_sections()
    ensures { TurnSections }
{}

/// Whatever words it finds, a tidying gives back the waiting nodes, or the fresh ones where none waits,
/// each once, and nothing else, where it answers `Clear` with their number. It has found before that
/// each caller was in no section, or has left the one that it was in, when the nodes began to wait. Where
/// it answers `Pending` it gives back none, and has found the odd word that is kept of that caller.
pub fn tidies_rightly()
    ensures { TidiesRightly }
{}

/// A tidying ends within two operations for each caller, one for each node, and one.
pub fn tidies_soon()
    ensures { TidiesSoon }
{}

/// Each operation of a tidying loads a caller's section word or gives back a node, and is on one of the
/// table's words.
pub fn tidies_within()
    ensures { TidiesWithin }
{}
