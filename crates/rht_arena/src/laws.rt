//! What the machines that take and give back nodes and runs of pages rely on. Each function is empty,
//! and its clause is the law.

ghost use Rattle.rht_arena.specs.Laws.{TakenWasFree, AnswersSayWhatWasDone, NoneOnlyWhereTaken, NoneWhereTakenInTurn, WordsInOrder, GivingSetsOneBit};
ghost use Rattle.rht_arena.specs.LookingOnce.{LooksOnce};
ghost use Rattle.rht_arena.specs.RunLaws.{TakenRunWasFree, NoneOnlyWhereRunsTaken, NoneWhereRunsTakenInTurn, HoldsWhatItTook, GivingRunSetsItsBits};

/// A node that is answered was free until the operation after which it is answered, which took it.
pub fn taken_was_free()
    ensures { TakenWasFree }
{}

/// Where none is answered no word was changed. Where a node is, the last operation took it, and those
/// before it changed no word.
pub fn answers_say_what_was_done()
    ensures { AnswersSayWhatWasDone }
{}

/// None is answered only where each node was seen taken: some operation of the machine's own found its
/// bit clear. It doesn't say that all were taken at one moment, and it isn't so the other way round:
/// each may be seen taken at some moment, and one of them is answered.
pub fn none_only_where_taken()
    ensures { NoneOnlyWhereTaken }
{}

/// No node is answered exactly where each was seen taken in order: by rising numbers from the first node
/// of the search's first word up to the last node, and then from node 0 on. Each operation sees some of
/// the next ones taken, or none, none sees nodes of both stretches, and together they see all. So a node
/// that was seen taken before its turn doesn't count, and once the operations have seen all in order the
/// search has ended.
pub fn none_where_taken_in_turn()
    ensures { NoneWhereTakenInTurn }
{}

/// A search loads the words of the map in order, from its first one up to the last and then from word 0
/// on, each at most once. Where it finds no node it has loaded all of them.
pub fn looks_once()
    ensures { LooksOnce }
{}

/// A search that began with word 0 goes from each word to the next, and ends after the last one: it
/// never wraps.
pub fn words_in_order()
    ensures { WordsInOrder }
{}

/// Giving a node back sets its bit and no other.
pub fn giving_sets_one_bit()
    ensures { GivingSetsOneBit }
{}

/// A run that is answered begins at a multiple of its length, and each of its pages was taken by an
/// operation that found it free. So each `and` of the run found all of its bits set.
pub fn taken_run_was_free()
    ensures { TakenRunWasFree }
{}

/// None is answered only where of each run that begins at a multiple of its length a page was seen
/// taken, by some operation. It doesn't say that this was so at one moment, nor that a run whose page
/// was once seen taken isn't answered: each run is looked at anew when it is come to.
pub fn none_only_where_runs_taken()
    ensures { NoneOnlyWhereRunsTaken }
{}

/// A machine that has ended answers none exactly where each run was seen taken in its turn: by an
/// operation of its own, in rising order.
pub fn none_where_runs_taken_in_turn()
    ensures { NoneWhereRunsTakenInTurn }
{}

/// Each operation of the taking of a run changes what the machine holds as it changes the bits: an
/// `and` takes the pages whose bits it clears, and an `or` gives back those whose bits it sets. So where
/// none is answered nothing is held any more, and where a run is, just its pages.
pub fn holds_what_it_took()
    ensures { HoldsWhatItTook }
{}

/// Giving a run back sets the bit of each of its pages, and changes no other page's bit.
pub fn giving_run_sets_its_bits()
    ensures { GivingRunSetsItsBits }
{}
