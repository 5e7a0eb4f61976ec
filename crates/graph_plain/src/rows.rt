//! The rows of the graph.
ghost use Rattle.std.specs.Prelude.{◌≡◌, ◌++◌, map, IfOk, OnOk};
ghost use Rattle.type_schema.specs.declared.rows.StoreKey.TheVariants as key;
ghost use Rattle.type_schema.specs.declared.rows.StoreValue.TheVariants as value;
ghost use Rattle.type_schema.specs.Rows.{put_at, all_rows, sorted_rows, rows_as_changes};
ghost use Rattle.graph_plain.specs.Draft.{now_of};

use crate::draft::Draft;
use a1_base::Memory;
use std::alloc::Global;
use std::collections::BTreeMap;
use type_schema::{RowChange, StoreKey, StoreValue};

fn push_tenants(
    alloc: Global,
    draft: &Draft,
    rows: &mut Vec<(StoreKey, StoreValue)>,
) -> Result<(), Memory>
    ensures { OnOk result (rows.new.items ≡ rows.old.items ++ map (λ e. (key.Tenant e.0, value.Nothing)) draft.now.tenants.now) }
{
    let entries = draft.tenants.entries(alloc)?;
    for (name, _) in &entries {
        let key = StoreKey::Tenant(name.copy(alloc)?);
        rows.push((key, StoreValue::Nothing))?;
    }
    Ok(())
}

fn push_graphs(
    alloc: Global,
    draft: &Draft,
    rows: &mut Vec<(StoreKey, StoreValue)>,
) -> Result<(), Memory>
    ensures { OnOk result (rows.new.items ≡ rows.old.items ++ map (λ e. (key.Graph e.0, value.Number e.1)) draft.now.graphs.now) }
{
    let entries = draft.graphs.entries(alloc)?;
    for (name, number) in &entries {
        let key = StoreKey::Graph(name.copy(alloc)?);
        rows.push((key, StoreValue::Number(**number)))?;
    }
    Ok(())
}

fn push_types(
    alloc: Global,
    draft: &Draft,
    rows: &mut Vec<(StoreKey, StoreValue)>,
) -> Result<(), Memory>
    ensures { OnOk result (rows.new.items ≡ rows.old.items ++ map (λ e. (key.TypeKey e.0, value.Schema e.1)) draft.now.types.now) }
{
    let entries = draft.types.entries(alloc)?;
    for (name, schema) in &entries {
        let key = StoreKey::TypeKey(name.copy(alloc)?);
        rows.push((key, StoreValue::Schema(schema.copy(alloc)?)))?;
    }
    Ok(())
}

fn push_vertices(
    alloc: Global,
    draft: &Draft,
    rows: &mut Vec<(StoreKey, StoreValue)>,
) -> Result<(), Memory>
    ensures { OnOk result (rows.new.items ≡ rows.old.items ++ map (λ e. (key.Vertex e.0, value.Record e.1)) draft.now.vertices.now) }
{
    let entries = draft.vertices.entries(alloc)?;
    for (name, values) in &entries {
        let key = StoreKey::Vertex(name.copy(alloc)?);
        rows.push((key, StoreValue::Record(values.copy(alloc)?)))?;
    }
    Ok(())
}

fn push_edges(
    alloc: Global,
    draft: &Draft,
    rows: &mut Vec<(StoreKey, StoreValue)>,
) -> Result<(), Memory>
    ensures { OnOk result (rows.new.items ≡ rows.old.items ++ map (λ e. (key.Edge e.0, value.Record e.1)) draft.now.edges.now) }
{
    let entries = draft.edges.entries(alloc)?;
    for (name, values) in &entries {
        let key = StoreKey::Edge(name.copy(alloc)?);
        rows.push((key, StoreValue::Record(values.copy(alloc)?)))?;
    }
    Ok(())
}

#[tactic(auto, using(crate::proofs::RowLemmas::regrouped))]
fn all_rows(alloc: Global, draft: &Draft) -> Result<Vec<(StoreKey, StoreValue)>, Memory>
    ensures { IfOk result (λ rows. rows.items ≡ all_rows (now_of draft.now)) }
{
    let mut rows = Vec::new(alloc);
    rows.push((StoreKey::Counter, StoreValue::Number(draft.next)))?;
    push_tenants(alloc, draft, &mut rows)?;
    push_graphs(alloc, draft, &mut rows)?;
    push_types(alloc, draft, &mut rows)?;
    push_vertices(alloc, draft, &mut rows)?;
    push_edges(alloc, draft, &mut rows)?;
    Ok(rows)
}

// Puts each row at the place of its key.
#[tactic(auto, using(crate::proofs::RowLemmas::one_less, crate::proofs::RowLemmas::none_found))]
fn sorted(
    alloc: Global,
    mut rows: Vec<(StoreKey, StoreValue)>,
) -> Result<BTreeMap<StoreKey, StoreValue>, Memory>
    ensures { IfOk result (λ found. found.entries ≡ sorted_rows rows.items) }
{
    let mut found = BTreeMap::new(alloc);
    while let Some((key, value)) = rows.pop() {
        found.insert(key, value)?;
    }
    Ok(found)
}

fn as_changes(
    alloc: Global,
    found: BTreeMap<StoreKey, StoreValue>,
) -> Result<Vec<RowChange>, Memory>
    ensures { IfOk result (λ rows. rows.items ≡ map (λ r. put_at r.0 r.1) found.entries) }
{
    let mut rows = Vec::new(alloc);
    for (key, value) in found {
        rows.push(RowChange {
            key,
            value: Some(value),
        })?;
    }
    Ok(rows)
}

/// The counter and every tenant, graph, type, vertex and edge as rows, in the order of their keys. `Memory` comes for
/// want of memory alone.
#[tactic(auto, unfolding(type_schema::specs::Rows::rows))]
pub fn rows_of(alloc: Global, draft: &Draft) -> Result<Vec<RowChange>, Memory>
    ensures { IfOk result (λ rows. rows.items ≡ rows_as_changes (now_of draft.now)) }
{
    let rows = all_rows(alloc, draft)?;
    as_changes(alloc, sorted(alloc, rows)?)
}
