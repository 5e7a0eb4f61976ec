//! The rows that an action changes.
ghost use Rattle.std.specs.Prelude.{◌≡◌, ◌∷◌, [], map, IfOk};
ghost use Rattle.type_schema.specs.declared.rows.StoreKey.TheVariants as key;
ghost use Rattle.type_schema.specs.Rows.{put_at, gone_at, in_key_order};
ghost use Rattle.request_reader.specs.declared.operation.Action.TheVariants as act;
ghost use Rattle.request_reader.specs.Operations.{changes};
ghost use Rattle.graph_plain.specs.Draft.{now_of, IsDue};

use crate::draft::Draft;
use a1_base::Memory;
use request_reader::Action;
use std::alloc::Global;
use std::collections::BTreeSet;
use type_schema::{EdgeName, GraphName, RowChange, StoreKey, StoreValue, VertexName};

// The row that gets this value, alone.
fn put(alloc: Global, key: StoreKey, value: StoreValue) -> Result<Vec<RowChange>, Memory>
    ensures { IfOk result (λ rows. rows.items ≡ put_at key value ∷ []) }
{
    let mut rows = Vec::new(alloc);
    rows.push(RowChange {
        key,
        value: Some(value),
    })?;
    Ok(rows)
}

// The row that goes, alone.
fn gone(alloc: Global, key: StoreKey) -> Result<Vec<RowChange>, Memory>
    ensures { IfOk result (λ rows. rows.items ≡ gone_at key ∷ []) }
{
    let mut rows = Vec::new(alloc);
    rows.push(RowChange { key, value: None })?;
    Ok(rows)
}

// The keys of the edges, in the order of whole keys.
#[tactic(auto, using(crate::proofs::ChangingLemmas::one_more))]
fn in_key_order(alloc: Global, names: Vec<EdgeName>) -> Result<BTreeSet<StoreKey>, Memory>
    ensures { IfOk result (λ found. found.keys ≡ in_key_order (map (λ name. key.Edge name) names.items)) }
{
    let mut found = BTreeSet::new(alloc);
    for name in names {
        found.insert(StoreKey::Edge(name))?;
    }
    Ok(found)
}

// The rows that go.
fn all_gone(alloc: Global, found: BTreeSet<StoreKey>) -> Result<Vec<RowChange>, Memory>
    ensures { IfOk result (λ rows. rows.items ≡ map gone_at found.keys) }
{
    let mut rows = Vec::new(alloc);
    for key in found {
        rows.push(RowChange { key, value: None })?;
    }
    Ok(rows)
}

#[tactic(auto, unfolding(request_reader::specs::Operations::changes))]
fn add_graph(
    alloc: Global,
    draft: &Draft,
    name: &GraphName,
    number: u64,
) -> Result<Vec<RowChange>, Memory>
    requires { IsDue (act.AddGraph name.now number) }
    ensures { IfOk result (λ rows. rows.items ≡ changes (now_of draft.now) (act.AddGraph name.now number)) }
{
    let mut rows = put(
        alloc,
        StoreKey::Graph(name.copy(alloc)?),
        StoreValue::Number(number),
    )?;
    rows.push(RowChange {
        key: StoreKey::Counter,
        value: Some(StoreValue::Number(number + 1)),
    })?;
    Ok(rows)
}

#[tactic(auto, unfolding(request_reader::specs::Operations::changes), using(crate::proofs::ChangingLemmas::keys_of_names))]
fn drop_vertex(alloc: Global, draft: &Draft, name: &VertexName) -> Result<Vec<RowChange>, Memory>
    ensures { IfOk result (λ rows. rows.items ≡ changes (now_of draft.now) (act.DropVertex name.now)) }
{
    let edges = draft.edges.at_vertex(alloc, name)?;
    let found = in_key_order(alloc, edges)?;
    let mut rows = all_gone(alloc, found)?;
    rows.push(RowChange {
        key: StoreKey::Vertex(name.copy(alloc)?),
        value: None,
    })?;
    Ok(rows)
}

/// The rows that the action changes, with copies of what it holds. `Memory` comes for want of memory alone.
#[tactic(auto, unfolding(request_reader::specs::Operations::changes))]
pub fn changes_of(alloc: Global, draft: &Draft, action: &Action) -> Result<Vec<RowChange>, Memory>
    requires { IsDue action.now }
    ensures { IfOk result (λ rows. rows.items ≡ changes (now_of draft.now) action.now) }
{
    match action {
        Action::AddTenant(name) => {
            let key = StoreKey::Tenant(name.copy(alloc)?);
            put(alloc, key, StoreValue::Nothing)
        }
        Action::AddGraph { name, number } => add_graph(alloc, draft, name, *number),
        Action::DropGraph { name, .. } => gone(alloc, StoreKey::Graph(name.copy(alloc)?)),
        Action::AddType { name, schema } => {
            let key = StoreKey::TypeKey(name.copy(alloc)?);
            put(alloc, key, StoreValue::Schema(schema.copy(alloc)?))
        }
        Action::WriteVertex { name, values } => {
            let key = StoreKey::Vertex(name.copy(alloc)?);
            put(alloc, key, StoreValue::Record(values.copy(alloc)?))
        }
        Action::DropVertex(name) => drop_vertex(alloc, draft, name),
        Action::AddEdge { name, values } => {
            let key = StoreKey::Edge(name.copy(alloc)?);
            put(alloc, key, StoreValue::Record(values.copy(alloc)?))
        }
        Action::DropEdge(name) => gone(alloc, StoreKey::Edge(name.copy(alloc)?)),
    }
}
