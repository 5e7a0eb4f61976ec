//! What is proved of all trees.
ghost use Rattle.a1ql_reader.specs.Pattern.{PatternLaw};

/// A tree of the right shape in which each `_type` is a name has a pattern: what it says lacks no part.
#[tactic(auto, using(crate::proofs::ShapedLemmas::has_pattern))]
pub fn patterns_of_shapes()
    ensures { PatternLaw }
{}
