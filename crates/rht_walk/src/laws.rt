//! What a walk does and how long it takes, whatever it finds. Each function is empty, and its clause is
//! the law.

ghost use Rattle.rht_walk.specs.WalkLaws.{LoadsOnly, WalksWithin, WalksSoon, WalksRightly};

/// In each state whatsoever a walk loads a word, or turns the section word of its caller.
pub fn loads_only()
    ensures { LoadsOnly }
{}

/// Each operation of a walk is on one of the table's words, and not on that of the enrolled callers.
pub fn walks_within()
    ensures { WalksWithin }
{}

/// A walk ends within six operations, and for each bucket of the table two entries, its word, three
/// operations for each node that there is, and one load of the table's future.
pub fn walks_soon()
    ensures { WalksSoon }
{}

/// Whatever words it finds, a walk opens its caller's section, loads which table is the current one, and
/// that table's serial and shape. Then it looks at bucket after bucket, and closes the section last. At a
/// bucket it goes the way there, loads its word, and of each node along the chain the key, the owner and
/// the link. Where it answers `Walked` the pairs are the keys and owners that were loaded, in order, as
/// many as there is room for, and no table was found behind; with a cursor, that is of the walked table,
/// at a later bucket, and enough pairs were kept; without one all buckets were walked, and the table's
/// future was loaded as none behind the last one. Where it answers `Again` there are no pairs, and the
/// walked table's future was loaded and leads there, or the cursor doesn't fit the current table.
pub fn walks_rightly()
    ensures { WalksRightly }
{}
