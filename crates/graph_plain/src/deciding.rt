//! What stands against an operation, or what it does.
ghost use Rattle.std.specs.Prelude.{◌≡◌, Ok, is_some, IfOk};
ghost use Rattle.type_schema.specs.declared.refusal.Word.TheVariants as word;
ghost use Rattle.type_schema.specs.Refusals.{refused, unless, need, Gives};
ghost use Rattle.type_schema.specs.Graph.{edge_at};
ghost use Rattle.request_reader.specs.declared.operation.Action.TheVariants as act;
ghost use Rattle.request_reader.specs.declared.operation.Op.TheVariants as op;
ghost use Rattle.request_reader.specs.Operations.{is_system, new_vertex, new_type, decided};
ghost use Rattle.graph_plain.specs.Draft.{now_of, IsDue};

use crate::draft::Draft;
use crate::looking::{between, found, graph_number, vertex_schema};
use a1_base::{GRAPH_NUMBER_LIMIT, Txt};
use a1_value::Given;
use request_reader::{Action, End, Op};
use std::alloc::Global;
use type_schema::{
    EdgeName, GraphFault, GraphName, Record, SYSTEM_TENANT, TypeName, TypeSchema, VertexName, Word,
    add, check, key_of, merge, refuse,
};

// Whether the graph belongs to the tenant `sys`.
fn is_system(name: &GraphName) -> bool
    ensures { result ≡ is_system name.now }
{
    name.tenant.as_text() == SYSTEM_TENANT
}

// ---- graphs and types

#[tactic(auto, unfolding(request_reader::specs::Operations::decided, type_schema::specs::Refusals::unless))]
fn create_tenant(alloc: Global, draft: &Draft, tenant: &Txt) -> Result<Action, GraphFault>
    ensures exact { Gives result (decided (now_of draft.now) (op.CreateTenant tenant.now)) }
    ensures due { IfOk result IsDue }
{
    if draft.tenants.get(tenant).is_some() {
        return refuse(Word::TenantTaken);
    }
    Ok(Action::AddTenant(tenant.copy(alloc)?))
}

#[tactic(auto, unfolding(request_reader::specs::Operations::decided, type_schema::specs::Refusals::unless, type_schema::specs::Refusals::need))]
fn create_graph(alloc: Global, draft: &Draft, name: &GraphName) -> Result<Action, GraphFault>
    ensures exact { Gives result (decided (now_of draft.now) (op.CreateGraph name.now)) }
    ensures due { IfOk result IsDue }
{
    if is_system(name) {
        return refuse(Word::System);
    }
    if draft.tenants.get(&name.tenant).is_none() {
        return refuse(Word::NoTenant);
    }
    if draft.graphs.get(name).is_some() {
        return refuse(Word::GraphTaken);
    }
    let number = draft.next;
    if number >= GRAPH_NUMBER_LIMIT {
        return refuse(Word::GraphsFull);
    }
    Ok(Action::AddGraph {
        name: name.copy(alloc)?,
        number,
    })
}

#[tactic(auto, unfolding(request_reader::specs::Operations::decided, type_schema::specs::Refusals::unless, type_schema::specs::Refusals::passing))]
fn drop_graph(alloc: Global, draft: &Draft, name: &GraphName) -> Result<Action, GraphFault>
    ensures exact { Gives result (decided (now_of draft.now) (op.DropGraph name.now)) }
    ensures due { IfOk result IsDue }
{
    if is_system(name) {
        return refuse(Word::System);
    }
    let number = graph_number(draft, name)?;
    Ok(Action::DropGraph {
        name: name.copy(alloc)?,
        number,
    })
}

// The new type of this name, or `TypeTaken`.
#[tactic(auto, unfolding(type_schema::specs::Refusals::unless))]
fn new_type(
    alloc: Global,
    draft: &Draft,
    name: TypeName,
    schema: &TypeSchema,
) -> Result<Action, GraphFault>
    ensures exact { Gives result (new_type (now_of draft.now) name.graph name.name schema.now) }
    ensures due { IfOk result IsDue }
{
    if draft.types.get(&name).is_some() {
        return refuse(Word::TypeTaken);
    }
    let schema = schema.copy(alloc)?;
    Ok(Action::AddType { name, schema })
}

#[tactic(auto, unfolding(request_reader::specs::Operations::decided, type_schema::specs::Refusals::unless, type_schema::specs::Refusals::passing))]
fn create_type(
    alloc: Global,
    draft: &Draft,
    graph: &GraphName,
    name: &Txt,
    schema: &TypeSchema,
) -> Result<Action, GraphFault>
    ensures exact { Gives result (decided (now_of draft.now) (op.CreateType graph.now name.now schema.now)) }
    ensures due { IfOk result IsDue }
{
    if is_system(graph) {
        return refuse(Word::System);
    }
    let name = TypeName {
        graph: graph_number(draft, graph)?,
        name: name.copy(alloc)?,
    };
    new_type(alloc, draft, name, schema)
}

// ---- vertices

// The vertex of this type and record, which is new, or `KeyTaken`.
#[tactic(auto, unfolding(type_schema::specs::Refusals::unless))]
fn new_vertex(
    alloc: Global,
    draft: &Draft,
    number: u64,
    kind: &Txt,
    values: Record,
) -> Result<Action, GraphFault>
    ensures exact { Gives result (new_vertex (now_of draft.now) number kind.now values) }
    ensures due { IfOk result IsDue }
{
    let name = VertexName {
        graph: number,
        kind: kind.copy(alloc)?,
        key: key_of(alloc, &values)?,
    };
    if draft.vertices.get(&name).is_some() {
        return refuse(Word::KeyTaken);
    }
    Ok(Action::WriteVertex { name, values })
}

#[tactic(auto, unfolding(request_reader::specs::Operations::decided, type_schema::specs::Refusals::passing))]
fn put(
    alloc: Global,
    draft: &Draft,
    graph: &GraphName,
    kind: &Txt,
    members: &[(Txt, Given)],
) -> Result<Action, GraphFault>
    ensures exact { Gives result (decided (now_of draft.now) (op.Put graph.now kind.now members.now)) }
    ensures due { IfOk result IsDue }
{
    let number = graph_number(draft, graph)?;
    let schema = vertex_schema(alloc, draft, number, kind)?;
    let values = check(alloc, schema, members)?;
    new_vertex(alloc, draft, number, kind, values)
}

#[tactic(auto, unfolding(request_reader::specs::Operations::decided, type_schema::specs::Refusals::passing))]
fn set(
    alloc: Global,
    draft: &Draft,
    graph: &GraphName,
    kind: &Txt,
    id: &Given,
    members: &[(Txt, Given)],
) -> Result<Action, GraphFault>
    ensures exact { Gives result (decided (now_of draft.now) (op.Set graph.now kind.now id.now members.now)) }
    ensures due { IfOk result IsDue }
{
    let vertex = found(alloc, draft, graph, kind, id)?;
    let values = merge(alloc, vertex.schema, vertex.values, members)?;
    Ok(Action::WriteVertex {
        name: vertex.name,
        values,
    })
}

#[tactic(auto, unfolding(request_reader::specs::Operations::decided, type_schema::specs::Refusals::passing))]
fn add_to(
    alloc: Global,
    draft: &Draft,
    graph: &GraphName,
    kind: &Txt,
    id: &Given,
    attr: &Txt,
    by: i64,
) -> Result<Action, GraphFault>
    ensures exact { Gives result (decided (now_of draft.now) (op.Add graph.now kind.now id.now attr.now by)) }
    ensures due { IfOk result IsDue }
{
    let vertex = found(alloc, draft, graph, kind, id)?;
    let values = add(alloc, vertex.schema, vertex.values, attr, by)?;
    Ok(Action::WriteVertex {
        name: vertex.name,
        values,
    })
}

#[tactic(auto, unfolding(request_reader::specs::Operations::decided, type_schema::specs::Refusals::passing))]
fn drop_vertex(
    alloc: Global,
    draft: &Draft,
    graph: &GraphName,
    kind: &Txt,
    id: &Given,
) -> Result<Action, GraphFault>
    ensures exact { Gives result (decided (now_of draft.now) (op.Drop graph.now kind.now id.now)) }
    ensures due { IfOk result IsDue }
{
    let vertex = found(alloc, draft, graph, kind, id)?;
    Ok(Action::DropVertex(vertex.name))
}

// ---- edges

// The edge of this name and record, which is new, or `EdgeTaken`.
#[tactic(auto, unfolding(type_schema::specs::Refusals::unless))]
fn new_edge(draft: &Draft, name: EdgeName, values: Record) -> Result<Action, GraphFault>
    ensures exact { Gives result (unless (is_some (edge_at (now_of draft.now) name)) (refused word.EdgeTaken)
        (Ok (act.AddEdge name values))) }
    ensures due { IfOk result IsDue }
{
    if draft.edges.get(&name).is_some() {
        return refuse(Word::EdgeTaken);
    }
    Ok(Action::AddEdge { name, values })
}

#[tactic(auto, unfolding(request_reader::specs::Operations::decided, type_schema::specs::Refusals::passing))]
fn link(
    alloc: Global,
    draft: &Draft,
    graph: &GraphName,
    kind: &Txt,
    from: &End,
    to: &End,
    members: &[(Txt, Given)],
) -> Result<Action, GraphFault>
    ensures exact { Gives result (decided (now_of draft.now) (op.Link graph.now kind.now from.now to.now members.now)) }
    ensures due { IfOk result IsDue }
{
    let edge = between(alloc, draft, graph, kind, from, to)?;
    let values = check(alloc, edge.schema, members)?;
    new_edge(draft, edge.name, values)
}

// The edge of this name, which goes, or `NoEdge`.
#[tactic(auto, unfolding(type_schema::specs::Refusals::need))]
fn old_edge(draft: &Draft, name: EdgeName) -> Result<Action, GraphFault>
    ensures exact { Gives result (need (edge_at (now_of draft.now) name) (refused word.NoEdge)
        (λ old. Ok (act.DropEdge name))) }
    ensures due { IfOk result IsDue }
{
    if draft.edges.get(&name).is_none() {
        return refuse(Word::NoEdge);
    }
    Ok(Action::DropEdge(name))
}

#[tactic(auto, unfolding(request_reader::specs::Operations::decided, type_schema::specs::Refusals::passing))]
fn unlink(
    alloc: Global,
    draft: &Draft,
    graph: &GraphName,
    kind: &Txt,
    from: &End,
    to: &End,
) -> Result<Action, GraphFault>
    ensures exact { Gives result (decided (now_of draft.now) (op.Unlink graph.now kind.now from.now to.now)) }
    ensures due { IfOk result IsDue }
{
    let edge = between(alloc, draft, graph, kind, from, to)?;
    old_edge(draft, edge.name)
}

/// What an operation does to the graph, or the first of the refusals that stand against it, in the order of the
/// operation's table.
pub fn decide(alloc: Global, draft: &Draft, op: &Op) -> Result<Action, GraphFault>
    ensures exact { Gives result (decided (now_of draft.now) op.now) }
    ensures due { IfOk result IsDue }
{
    match op {
        Op::CreateTenant(tenant) => create_tenant(alloc, draft, tenant),
        Op::CreateGraph(name) => create_graph(alloc, draft, name),
        Op::DropGraph(name) => drop_graph(alloc, draft, name),
        Op::CreateType {
            graph,
            name,
            schema,
        } => create_type(alloc, draft, graph, name, schema),
        Op::Put { graph, kind, v } => put(alloc, draft, graph, kind, v.as_slice()),
        Op::Set { graph, kind, id, v } => set(alloc, draft, graph, kind, id, v.as_slice()),
        Op::Add {
            graph,
            kind,
            id,
            attr,
            by,
        } => add_to(alloc, draft, graph, kind, id, attr, *by),
        Op::Drop { graph, kind, id } => drop_vertex(alloc, draft, graph, kind, id),
        Op::Link {
            graph,
            kind,
            from,
            to,
            v,
        } => link(alloc, draft, graph, kind, from, to, v.as_slice()),
        Op::Unlink {
            graph,
            kind,
            from,
            to,
        } => unlink(alloc, draft, graph, kind, from, to),
    }
}
