//! The forms of a request's objects: which members each has, which of them must be there, and what stands in each.

/// What stands in a place of a request.
#[derive(Clone, Copy, Debug, PartialEq, Eq)]
pub enum Place {
    /// A name.
    Name,
    /// A graph: the tenant's name, `/` and its own name.
    Graph,
    /// Any text.
    Text,
    /// A number or a text.
    Key,
    /// A number.
    Number,
    /// `true` or `false`.
    Flag,
    /// An object of numbers and texts.
    Values,
    /// An object of the form `END`.
    End,
    /// A list of objects of the form `ATTRIBUTE`.
    Attributes,
}

/// An operation, by its name in a request.
#[derive(Clone, Copy, Debug, PartialEq, Eq)]
pub enum Verb {
    CreateTenant,
    CreateGraph,
    DropGraph,
    CreateVertexType,
    CreateEdgeType,
    Put,
    Set,
    Add,
    Drop,
    Link,
    Unlink,
}

/// A member of an object: its name, what stands there, and whether it must be there.
pub type Member = (&'static str, Place, bool);

/// The operations.
pub const VERBS: &[(&str, Verb)] = &[
    ("create_tenant", Verb::CreateTenant),
    ("create_graph", Verb::CreateGraph),
    ("drop_graph", Verb::DropGraph),
    ("create_vertex_type", Verb::CreateVertexType),
    ("create_edge_type", Verb::CreateEdgeType),
    ("put", Verb::Put),
    ("set", Verb::Set),
    ("add", Verb::Add),
    ("drop", Verb::Drop),
    ("link", Verb::Link),
    ("unlink", Verb::Unlink),
];

/// A new type.
pub const TYPE: &[Member] = &[
    ("graph", Place::Graph, true),
    ("type", Place::Name, true),
    ("attrs", Place::Attributes, true),
];

/// A new vertex.
pub const PUT: &[Member] = &[
    ("graph", Place::Graph, true),
    ("type", Place::Name, true),
    ("v", Place::Values, true),
];

/// New values of a vertex.
pub const SET: &[Member] = &[
    ("graph", Place::Graph, true),
    ("type", Place::Name, true),
    ("id", Place::Key, true),
    ("v", Place::Values, true),
];

/// An addition to a value of a vertex.
pub const ADD: &[Member] = &[
    ("graph", Place::Graph, true),
    ("type", Place::Name, true),
    ("id", Place::Key, true),
    ("attr", Place::Name, true),
    ("by", Place::Number, true),
];

/// A vertex that goes.
pub const DROP: &[Member] = &[
    ("graph", Place::Graph, true),
    ("type", Place::Name, true),
    ("id", Place::Key, true),
];

/// A new edge.
pub const LINK: &[Member] = &[
    ("graph", Place::Graph, true),
    ("type", Place::Name, true),
    ("from", Place::End, true),
    ("to", Place::End, true),
    ("v", Place::Values, false),
];

/// An edge that goes.
pub const UNLINK: &[Member] = &[
    ("graph", Place::Graph, true),
    ("type", Place::Name, true),
    ("from", Place::End, true),
    ("to", Place::End, true),
];

/// An end of an edge.
pub const END: &[Member] = &[("type", Place::Name, true), ("id", Place::Key, true)];

/// An attribute of a type.
pub const ATTRIBUTE: &[Member] = &[
    ("name", Place::Name, true),
    ("kind", Place::Text, true),
    ("index", Place::Flag, false),
];
