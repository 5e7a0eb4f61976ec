//! Rows of answers.
ghost use Rattle.std.specs.Prelude.{◌≡◌, [], ◌++◌, map, slice_get, IfOk, OnOk};
ghost use Rattle.std.specs.Map.Iter.{deref_pair};
ghost use Rattle.a1ql_plan.specs.Answer.{member_before, row_of, answered};

use a1_base::{Memory, Txt};
use a1_value::Value;
use a1ql_plan::{Column, Projection};
use a1ql_reader::{Answer, Row};
use sqlite_items::{Items, at};
use std::alloc::Global;
use type_schema::{Record, VertexName};

// Adds the column's name and value, where the values have its place.
fn push_member(
    alloc: Global,
    column: &Column,
    values: &[Value],
    members: &mut Items<(Txt, Value)>,
) -> Result<(), Memory>
    ensures { OnOk result (members.new
        ≡ members.old ++ member_before column.now.name (slice_get values.now column.now.place) []) }
{
    if let Some(value) = at(values, column.place) {
        let name = column.name.copy(alloc)?;
        let value = value.copy(alloc)?;
        members.push((name, value))?;
    }
    Ok(())
}

#[tactic(auto, using(crate::proofs::RowLemmas::one_member))]
fn row(alloc: Global, columns: &[Column], values: &[Value]) -> Result<Row, Memory>
    ensures { IfOk result (λ row. row ≡ row_of columns.now values.now) }
{
    let mut members = Items::new(alloc);
    for column in columns {
        push_member(alloc, column, values, &mut members)?;
    }
    Ok(Row { members })
}

fn rows(
    alloc: Global,
    columns: &[Column],
    set: &[(&VertexName, &Record)],
) -> Result<Items<Row>, Memory>
    ensures { IfOk result (λ rows. rows ≡ map (λ v. row_of columns.now v.1) (map deref_pair set.now)) }
{
    let mut rows = Items::new(alloc);
    for (_, values) in set {
        rows.push(row(alloc, columns, &values.values)?)?;
    }
    Ok(rows)
}

/// How many vertices the set has, or of each what is selected.
pub fn answered(
    alloc: Global,
    select: &Projection,
    set: &[(&VertexName, &Record)],
) -> Result<Answer, Memory>
    ensures { IfOk result (λ answer. answer ≡ answered select.now (map deref_pair set.now)) }
{
    match select {
        Projection::Count => Ok(Answer::Count(set.len() as u64)),
        Projection::Columns(columns) => Ok(Answer::Rows(rows(alloc, columns.as_slice(), set)?)),
    }
}
