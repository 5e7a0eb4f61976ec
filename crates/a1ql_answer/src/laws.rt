//! What is proved of each way to find an answer, for whatever an engine looks up.
ghost use Rattle.a1ql_answer.specs.Laws.{MatchLaw, HopLaw, RootLaw, StartLaw, StepLaw};

/// A match may walk the edges of its vertex.
pub fn matches_by_edges()
    ensures { MatchLaw }
{}

/// A hop may go by what arrives along the edges of a set, at whichever end the comparisons are tested.
pub fn hops_by_arrivals()
    ensures { HopLaw }
{}

/// A first set may come from whatever leaves out no vertex of it: a key, an index or a walk.
pub fn first_sets_by_narrowing()
    ensures { RootLaw }
{}

/// A chain may stop at the first set that is too large.
pub fn sets_one_by_one()
    ensures start { StartLaw }
    ensures step { StepLaw }
{}
