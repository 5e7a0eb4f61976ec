//! Reading a tree as a pattern.
ghost use Rattle.a1ql_reader.specs.Pattern.{pattern_of, Reads};

use crate::naming::has_names;
use crate::saying::vertex;
use crate::shapes::has_shape;
use crate::{PatternFault, VertexPattern};
use a1_json::Json;
use std::alloc::Global;

/// Reads a tree as a pattern. `Shape` comes exactly where some value in the tree does not have the form of its place,
/// and `Name` where all have, and some `_type` is no name.
#[tactic(auto, unfolding(crate::specs::Pattern::pattern_of, type_schema::specs::Refusals::unless))]
pub fn pattern(alloc: Global, json: &Json) -> Result<VertexPattern, PatternFault>
    ensures { Reads result (pattern_of json.now) }
{
    if !has_shape(json) {
        return Err(PatternFault::Shape);
    }
    if !has_names(json) {
        return Err(PatternFault::Name);
    }
    vertex(alloc, json)
}
