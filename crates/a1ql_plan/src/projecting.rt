//! What is selected, with the attributes' names resolved.
ghost use Rattle.std.specs.Prelude.{◌≡◌, IfOk};
ghost use Rattle.type_schema.specs.Refusals.{Gives};
ghost use Rattle.a1ql_plan.specs.Plan.{column_of, columns_of, columns_from, projection_of};

use crate::predicates::place_in;
use crate::{Column, Projection};
use a1_base::{Memory, Txt};
use a1ql_reader::Select;
use sqlite_items::Items;
use std::alloc::Global;
use type_schema::{Attr, GraphFault, Word, refuse};

#[tactic(auto, unfolding(crate::specs::Plan::column_of, type_schema::specs::Refusals::need))]
fn column(alloc: Global, attrs: &[Attr], name: &Txt) -> Result<Column, GraphFault>
    ensures { Gives result (column_of attrs.now name.now) }
{
    let Some((place, _)) = place_in(attrs, name) else {
        return refuse(Word::NoAttr);
    };
    let name = name.copy(alloc)?;
    Ok(Column { name, place })
}

#[tactic(auto, using(crate::proofs::EachLemmas::each))]
fn columns(alloc: Global, attrs: &[Attr], names: &[Txt]) -> Result<Items<Column>, GraphFault>
    ensures { Gives result (columns_of attrs.now names.now) }
{
    let mut columns = Items::new(alloc);
    for name in names {
        columns.push(column(alloc, attrs, name)?)?;
    }
    Ok(columns)
}

fn all_columns(alloc: Global, attrs: &[Attr]) -> Result<Items<Column>, Memory>
    ensures { IfOk result (λ columns. columns ≡ columns_from 0 attrs.now) }
{
    let mut columns = Items::new(alloc);
    for place in 0..attrs.len() {
        let name = attrs[place].name.copy(alloc)?;
        columns.push(Column { name, place })?;
    }
    Ok(columns)
}

/// What is selected. `NoAttr` comes where the type lacks a selected attribute.
#[tactic(auto, unfolding(type_schema::specs::Refusals::passing))]
pub fn projection(alloc: Global, attrs: &[Attr], select: &Select) -> Result<Projection, GraphFault>
    ensures { Gives result (projection_of attrs.now select.now) }
{
    match select {
        Select::All => Ok(Projection::Columns(all_columns(alloc, attrs)?)),
        Select::Count => Ok(Projection::Count),
        Select::Names(names) => Ok(Projection::Columns(columns(alloc, attrs, names.as_slice())?)),
    }
}
