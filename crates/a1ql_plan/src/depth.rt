//! How many edge patterns stand on a path of a pattern.
ghost use Rattle.std.specs.Prelude.{◌≡◌, nat_le, map, option_map};
ghost use Rattle.a1ql_plan.specs.Depth.{depth, hop_depth, deepest, next_depth};

use a1ql_reader::{Hop, VertexPattern};
use sqlite_items::Boxed;

/// Whether each path from the root of the pattern has at most this many edge patterns.
#[cycle(depth)]
#[tactic(auto, using(crate::proofs::DepthLemmas::within))]
pub fn is_within(pattern: &VertexPattern, left: usize) -> bool
    ensures { result ≡ nat_le (depth pattern.now) left }
{
    are_within(pattern.matches.as_slice(), left) && is_next_within(&pattern.hop, left)
}

#[cycle(depth)]
#[tactic(auto, using(crate::proofs::DepthLemmas::both_within))]
fn are_within(hops: &[Hop], left: usize) -> bool
    ensures { result ≡ nat_le (deepest (map hop_depth hops.now)) left }
{
    for hop in hops {
        if !is_hop_within(hop, left) {
            return false;
        }
    }
    true
}

#[cycle(depth)]
fn is_next_within(hop: &Option<Boxed<Hop>>, left: usize) -> bool
    ensures { result ≡ nat_le (next_depth (option_map hop_depth hop.now)) left }
{
    match hop {
        Some(hop) => is_hop_within(hop.get(), left),
        None => true,
    }
}

#[cycle(depth)]
fn is_hop_within(hop: &Hop, left: usize) -> bool
    ensures { result ≡ nat_le (hop_depth hop.now) left }
{
    left > 0 && is_within(hop.to.get(), left - 1)
}
