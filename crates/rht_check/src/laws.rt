//! What follows from the definitions alone. Each function is empty, and its clause is the law.

ghost use Rattle.rht_check.specs.Laws.{AcceptsWholeHistories, HasOneVerdict, JudgesHistories, StaysWrong};

/// A history is accepted exactly where its claims are a legal history that has each worker's
/// commands in their order, all of them.
pub fn whole_histories_accepted()
    ensures { AcceptsWholeHistories }
{}

/// Claims behind a wrong one leave it wrong, at the same place.
pub fn wrong_for_good()
    ensures { StaysWrong }
{}

/// Where all commands have claims, the verdict is what `is_legal` says of the entries.
pub fn judged_as_histories()
    ensures { JudgesHistories }
{}

/// Claims have one verdict: of two verdicts on them the kind, the number and the bindings are the
/// same.
pub fn one_verdict()
    ensures { HasOneVerdict }
{}
