//! Comparisons, with the attributes' names resolved.
ghost use Rattle.std.specs.Prelude.{◌≡◌};
ghost use Rattle.type_schema.specs.Refusals.{Gives};
ghost use Rattle.a1ql_plan.specs.Plan.{place_in, predicate_of, predicates_of};

use crate::Predicate;
use a1_base::Txt;
use a1ql_reader::Test;
use sqlite_items::Items;
use std::alloc::Global;
use type_schema::{Attr, GraphFault, Kind, Word, refuse, refuse_at, value_in};

/// The place of the attribute of this name, and its kind.
pub fn place_in(attrs: &[Attr], name: &Txt) -> Option<(usize, Kind)>
    ensures { result ≡ place_in attrs.now name.now }
{
    for place in 0..attrs.len() {
        let attr = &attrs[place];
        if attr.name.as_bytes() == name.as_bytes() {
            return Some((place, attr.kind));
        }
    }
    None
}

#[tactic(auto, unfolding(crate::specs::Plan::predicate_of, type_schema::specs::Refusals::need))]
fn predicate(alloc: Global, attrs: &[Attr], test: &Test) -> Result<Predicate, GraphFault>
    ensures { Gives result (predicate_of attrs.now test.now) }
{
    let Some((place, kind)) = place_in(attrs, &test.attr) else {
        return refuse(Word::NoAttr);
    };
    let op = test.op;
    match value_in(alloc, kind, &test.value)? {
        Some(value) => Ok(Predicate { place, op, value }),
        None => refuse_at(alloc, Word::Kind, &test.attr),
    }
}

/// The comparisons, each with the place of its attribute and a value of the attribute's kind. The first that has none
/// is told: `NoAttr`, or `Kind` with the attribute.
#[tactic(auto, using(crate::proofs::EachLemmas::each))]
pub fn predicates(
    alloc: Global,
    attrs: &[Attr],
    tests: &[Test],
) -> Result<Items<Predicate>, GraphFault>
    ensures { Gives result (predicates_of attrs.now tests.now) }
{
    let mut predicates = Items::new(alloc);
    for test in tests {
        predicates.push(predicate(alloc, attrs, test)?)?;
    }
    Ok(predicates)
}
