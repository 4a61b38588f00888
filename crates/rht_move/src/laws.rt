//! What the machines that run beside a worker rely on. Each function is empty, and its clause is the
//! law.

ghost use Rattle.rht_move.specs.Laws.{TablesDueHaveSizes, HoldsWhatWasMade};

/// A table that is due has one of the sizes of tables, where the last table has: a power of two from 4
/// to 131,072.
pub fn tables_due_have_sizes()
    ensures { TablesDueHaveSizes }
{}

/// Of a table that was made and is not attached a worker holds the pages of the run that was taken for
/// it.
pub fn holds_what_was_made()
    ensures { HoldsWhatWasMade }
{}
