//! The graph while a request is tried out.
ghost use Rattle.std.specs.Prelude.{◌≡◌, [], IfOk};
ghost use Rattle.type_schema.specs.declared.opening.TheConstants.{FIRST_NUMBER};
ghost use Rattle.type_schema.specs.Graph.{names_graph, names_type, names_schema, opening};
ghost use Rattle.graph_plain.specs.Draft.{now_of, was_of};

use a1_base::{Memory, Txt};
use graph_maps::{Edges, Places, Vertices};
use std::alloc::Global;
use type_schema::{
    Attr, FIRST_NUMBER, GraphName, Kind, NAME_TYPE, NAMES, NAMES_NUMBER, SYSTEM_TENANT, Schema,
    TypeName, TypeSchema,
};

/// The graph, which can go back to what it was before a request.
#[derive(Drop)]
pub struct Draft {
    /// Each tenant.
    pub tenants: Places<Txt, ()>,
    /// Each graph's number.
    pub graphs: Places<GraphName, u64>,
    pub types: Places<TypeName, TypeSchema>,
    pub vertices: Vertices,
    pub edges: Edges,
    /// The number that the next graph gets.
    pub next: u64,
    /// What that number was.
    pub was_next: u64,
}

// The one type of the graph of names.
fn names_schema(alloc: Global) -> Result<TypeSchema, Memory>
    ensures { IfOk result (λ schema. schema ≡ names_schema) }
{
    let mut attrs = Vec::new(alloc);
    attrs.push(Attr {
        name: Txt::from_text(alloc, "id")?,
        kind: Kind::Text,
        index: false,
    })?;
    Ok(TypeSchema::OfVertices(Schema { attrs }))
}

fn names_graph(alloc: Global) -> Result<GraphName, Memory>
    ensures { IfOk result (λ name. name ≡ names_graph) }
{
    Ok(GraphName {
        tenant: Txt::from_text(alloc, SYSTEM_TENANT)?,
        name: Txt::from_text(alloc, NAMES)?,
    })
}

fn names_type(alloc: Global) -> Result<TypeName, Memory>
    ensures { IfOk result (λ name. name ≡ names_type) }
{
    Ok(TypeName {
        graph: NAMES_NUMBER,
        name: Txt::from_text(alloc, NAME_TYPE)?,
    })
}

impl Draft {
    // A graph with nothing in it.
    fn empty(alloc: Global) -> Draft
        ensures { now_of result ≡ (record { tenants = []; graphs = []; types = []; vertices = []; edges = []; next = FIRST_NUMBER }) }
    {
        Draft {
            tenants: Places::new(alloc),
            graphs: Places::new(alloc),
            types: Places::new(alloc),
            vertices: Vertices::new(alloc),
            edges: Edges::new(alloc),
            next: FIRST_NUMBER,
            was_next: FIRST_NUMBER,
        }
    }

    /// The graph that a database begins with. `Memory` comes for want of memory alone.
    pub fn opening(alloc: Global) -> Result<Draft, Memory>
        ensures { IfOk result (λ draft. now_of draft ≡ opening) }
    {
        let mut draft = Draft::empty(alloc);
        let system = Txt::from_text(alloc, SYSTEM_TENANT)?;
        draft.tenants.put(system.copy(alloc)?, system, ())?;
        draft
            .graphs
            .put(names_graph(alloc)?, names_graph(alloc)?, NAMES_NUMBER)?;
        draft.types.put(names_type(alloc)?, names_type(alloc)?, names_schema(alloc)?)?;
        Ok(draft)
    }

    /// The graph stays as it is now.
    pub fn keep(&mut self)
        ensures now { now_of self.new ≡ now_of self.old }
        ensures was { was_of self.new ≡ now_of self.old }
    {
        self.tenants.keep();
        self.graphs.keep();
        self.types.keep();
        self.vertices.keep();
        self.edges.keep();
        self.was_next = self.next;
    }

    /// The graph is again what it was.
    pub fn back(&mut self)
        ensures now { now_of self.new ≡ was_of self.old }
        ensures was { was_of self.new ≡ was_of self.old }
    {
        self.tenants.back();
        self.graphs.back();
        self.types.back();
        self.vertices.back();
        self.edges.back();
        self.next = self.was_next;
    }
}
