//! The order of the bytes of whole keys.
ghost use Rattle.std.specs.Prelude.{◌≡◌, ◌∷◌, ◌++◌, length, Some, refl};
ghost use Rattle.std.specs.List.{slice_get};
ghost use Rattle.std.specs.Ordering.{is_eq, ordering_then};
ghost use Rattle.std.specs.Cmp.{eq_by_cmp_equiv, partial_equiv_from_equiv, po};
ghost use Rattle.a1_value.specs.Order.{byte_order, value_order};
ghost use Rattle.type_schema.specs.Rows.{short_first, key_order};
ghost use Rattle.type_schema.specs.KeyLaws.{key_order_total};

use crate::{EdgeName, GraphName, StoreKey, TypeName, VertexName};
use a1_base::Txt;
use a1_value::Value;
use std::cmp::Ordering;

fn compare_names(a: &Txt, b: &Txt) -> Ordering
    ensures { result ≡ short_first a.now b.now }
{
    match a.as_bytes().len().cmp(&b.as_bytes().len()) {
        Ordering::Equal => a.cmp(b),
        order => order,
    }
}

// The bytes of a tenant, `/` and a name.
fn path_size(graph: &GraphName) -> usize
    ensures { result ≡ length (graph.now.tenant ++ 47 ∷ graph.now.name) }
{
    graph.tenant.as_bytes().len() + 1 + graph.name.as_bytes().len()
}

// One of these bytes.
fn path_byte(graph: &GraphName, at: usize) -> Option<u8>
    ensures { result ≡ slice_get (graph.now.tenant ++ 47 ∷ graph.now.name) at }
{
    let tenant = graph.tenant.as_bytes();
    if at < tenant.len() {
        tenant.get(at).copied()
    } else if at == tenant.len() {
        Some(b'/')
    } else {
        graph.name.as_bytes().get(at - tenant.len() - 1).copied()
    }
}

// Compares two graphs by these bytes.
#[tactic(auto, using(crate::proofs::KeyOrderLemmas::in_step))]
fn compare_paths(a: &GraphName, b: &GraphName) -> Ordering
    ensures { result ≡ byte_order (a.now.tenant ++ 47 ∷ a.now.name) (b.now.tenant ++ 47 ∷ b.now.name) }
{
    for at in 0..path_size(a).max(path_size(b)) {
        match path_byte(a, at).cmp(&path_byte(b, at)) {
            Ordering::Equal => {}
            order => return order,
        }
    }
    Ordering::Equal
}

#[tactic(auto, using(crate::proofs::KeyOrderLemmas::graphs))]
fn compare_graphs(a: &GraphName, b: &GraphName) -> Ordering
    ensures { result ≡ key_order (StoreKey.Graph a.now) (StoreKey.Graph b.now) }
{
    match compare_paths(a, b) {
        Ordering::Equal => {}
        order => return order,
    }
    match a.tenant.cmp(&b.tenant) {
        Ordering::Equal => compare_names(&a.name, &b.name),
        order => order,
    }
}

#[tactic(auto, using(crate::proofs::KeyOrderLemmas::types))]
fn compare_types(a: &TypeName, b: &TypeName) -> Ordering
    ensures { result ≡ key_order (StoreKey.TypeKey a.now) (StoreKey.TypeKey b.now) }
{
    match a.graph.cmp(&b.graph) {
        Ordering::Equal => compare_names(&a.name, &b.name),
        order => order,
    }
}

#[tactic(auto, using(crate::proofs::KeyOrderLemmas::vertices))]
fn compare_vertices(a: &VertexName, b: &VertexName) -> Ordering
    ensures { result ≡ key_order (StoreKey.Vertex a.now) (StoreKey.Vertex b.now) }
{
    match a.graph.cmp(&b.graph) {
        Ordering::Equal => compare_ends(&a.kind, &a.key, &b.kind, &b.key),
        order => order,
    }
}

// Compares two types of vertices and, where they are the same, two keys.
fn compare_ends(a_kind: &Txt, a_key: &Value, b_kind: &Txt, b_key: &Value) -> Ordering
    ensures { result ≡ ordering_then (short_first a_kind.now b_kind.now) (value_order a_key.now b_key.now) }
{
    match compare_names(a_kind, b_kind) {
        Ordering::Equal => a_key.cmp(b_key),
        order => order,
    }
}

#[tactic(auto, unfolding(crate::specs::Rows::key_order))]
fn compare_edges(a: &EdgeName, b: &EdgeName) -> Ordering
    ensures { result ≡ key_order (StoreKey.Edge a.now) (StoreKey.Edge b.now) }
{
    match a.graph.cmp(&b.graph) {
        Ordering::Equal => {}
        order => return order,
    }
    match compare_names(&a.kind, &b.kind) {
        Ordering::Equal => {}
        order => return order,
    }
    match compare_names(&a.from_kind, &b.from_kind) {
        Ordering::Equal => {}
        order => return order,
    }
    match a.from.cmp(&b.from) {
        Ordering::Equal => compare_ends(&a.to_kind, &a.to, &b.to_kind, &b.to),
        order => order,
    }
}

// Compares two keys as their bytes in a store are compared.
#[tactic(auto, unfolding(crate::specs::Rows::key_order), using(crate::proofs::KeyOrderLemmas::tenants))]
fn compare(a: &StoreKey, b: &StoreKey) -> Ordering
    ensures { result ≡ key_order a.now b.now }
{
    match (a, b) {
        (StoreKey::Counter, StoreKey::Counter) => Ordering::Equal,
        (StoreKey::Tenant(a), StoreKey::Tenant(b)) => a.cmp(b),
        (StoreKey::Graph(a), StoreKey::Graph(b)) => compare_graphs(a, b),
        (StoreKey::TypeKey(a), StoreKey::TypeKey(b)) => compare_types(a, b),
        (StoreKey::Vertex(a), StoreKey::Vertex(b)) => compare_vertices(a, b),
        (StoreKey::Edge(a), StoreKey::Edge(b)) => compare_edges(a, b),
        (StoreKey::Counter, _) => Ordering::Less,
        (_, StoreKey::Counter) => Ordering::Greater,
        (StoreKey::Tenant(_), _) => Ordering::Less,
        (_, StoreKey::Tenant(_)) => Ordering::Greater,
        (StoreKey::Graph(_), _) => Ordering::Less,
        (_, StoreKey::Graph(_)) => Ordering::Greater,
        (StoreKey::TypeKey(_), _) => Ordering::Less,
        (_, StoreKey::TypeKey(_)) => Ordering::Greater,
        (StoreKey::Vertex(_), StoreKey::Edge(_)) => Ordering::Less,
        (StoreKey::Edge(_), StoreKey::Vertex(_)) => Ordering::Greater,
    }
}

impl PartialEq for StoreKey {
    ghost eq = { λ a b. is_eq (key_order a b) };

    ghost laws = { partial_equiv_from_equiv (eq_by_cmp_equiv key_order_total) };

    fn eq(&self, other: &StoreKey) -> bool {
        compare(self, other).is_eq()
    }
}

impl Eq for StoreKey {
    ghost laws = { eq_by_cmp_equiv key_order_total };
}

impl PartialOrd for StoreKey {
    ghost partial_cmp = { λ a b. Some (key_order a b) };

    ghost laws = { po key_order_total (λ a b. refl) };

    fn partial_cmp(&self, other: &StoreKey) -> Option<Ordering> {
        Some(compare(self, other))
    }
}

impl Ord for StoreKey {
    ghost cmp = { key_order };

    ghost total = { key_order_total };

    ghost matches_partial_cmp = { λ a b. refl };

    ghost matches_eq = { λ a b. refl };

    fn cmp(&self, other: &StoreKey) -> Ordering {
        compare(self, other)
    }
}
