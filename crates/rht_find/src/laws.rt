//! What a look-up does and how long it takes, whatever it finds. Each function is empty, and its clause
//! is the law.

ghost use Rattle.rht_find.specs.FindBound.{LoadsOnly, LeavesTable};

/// In each state whatsoever a look-up loads a word, or turns the section word of its caller.
pub fn loads_only()
    ensures { LoadsOnly }
{}

/// A look-up that comes to a table is on the way to a bucket there, or in its chain, for at most so many
/// operations: four on the way, and for each walk one load of the bucket's word and two for each node that
/// there is.
pub fn leaves_table()
    ensures { LeavesTable }
{}
