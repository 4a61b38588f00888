//! What follows for what C is told. The function is empty, and its clauses are the law.

ghost use Rattle.rht_session.specs.Told.{TellsApart, TellsWholeApart};

/// What C is told of a call on a handle tells its answer: by the code and the numbers, no two answers look the same.
/// So C loses nothing of a reply, and none is taken for a refusal or for a call in progress.
pub fn told_apart()
    ensures calls { TellsApart }
    ensures whole { TellsWholeApart }
{}
