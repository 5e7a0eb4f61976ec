//! Edges as the vertices at their ends see them.
ghost use Rattle.std.specs.Prelude.{◌≡◌, Some, refl};
ghost use Rattle.std.specs.Ordering.{is_eq};
ghost use Rattle.std.specs.Cmp.{eq_by_cmp_equiv, partial_equiv_from_equiv, po};
ghost use Rattle.type_schema.specs.Graph.{vertex_order, near, far};
ghost use Rattle.graph_maps.specs.Halves.{front_order, half_order};
ghost use Rattle.graph_maps.specs.KeyOrders.{half_total};

use a1_base::Txt;
use a1_value::Value;
use std::cmp::Ordering;
use type_schema::EdgeName;

/// An edge as a vertex at its end sees it.
#[derive(Drop)]
pub struct Half {
    /// Whether the edge leads from this vertex; else it leads to it.
    pub out: bool,
    pub edge: EdgeName,
}

impl Half {
    // The vertex that sees the edge, by its graph, type and key.
    fn near(&self) -> (u64, &Txt, &Value)
        ensures { (record { graph = result.0; kind = result.1.now; key = result.2.now })
            ≡ near self.now.out self.now.edge }
    {
        let edge = &self.edge;
        if self.out {
            (edge.graph, &edge.from_kind, &edge.from)
        } else {
            (edge.graph, &edge.to_kind, &edge.to)
        }
    }

    // The vertex at the other end.
    fn far(&self) -> (u64, &Txt, &Value)
        ensures { (record { graph = result.0; kind = result.1.now; key = result.2.now })
            ≡ far self.now.out self.now.edge }
    {
        let edge = &self.edge;
        if self.out {
            (edge.graph, &edge.to_kind, &edge.to)
        } else {
            (edge.graph, &edge.from_kind, &edge.from)
        }
    }
}

// Compares two vertices.
fn compare_ends(a: (u64, &Txt, &Value), b: (u64, &Txt, &Value)) -> Ordering
    ensures { result ≡ vertex_order (record { graph = a.entry.0; kind = a.entry.1.now; key = a.entry.2.now })
        (record { graph = b.entry.0; kind = b.entry.1.now; key = b.entry.2.now }) }
{
    match a.0.cmp(&b.0) {
        Ordering::Equal => {}
        order => return order,
    }
    match a.1.cmp(b.1) {
        Ordering::Equal => a.2.cmp(b.2),
        order => order,
    }
}

/// Compares the vertices that see two edges.
pub fn compare_near(a: &Half, b: &Half) -> Ordering
    ensures { result ≡ vertex_order (near a.now.out a.now.edge) (near b.now.out b.now.edge) }
{
    compare_ends(a.near(), b.near())
}

/// Compares two edges by all but their other ends.
pub fn compare_fronts(a: &Half, b: &Half) -> Ordering
    ensures { result ≡ front_order a.now b.now }
{
    match compare_near(a, b) {
        Ordering::Equal => {}
        order => return order,
    }
    match a.out.cmp(&b.out) {
        Ordering::Equal => a.edge.kind.cmp(&b.edge.kind),
        order => order,
    }
}

fn compare(a: &Half, b: &Half) -> Ordering
    ensures { result ≡ half_order a.now b.now }
{
    match compare_near(a, b) {
        Ordering::Equal => {}
        order => return order,
    }
    match a.out.cmp(&b.out) {
        Ordering::Equal => {}
        order => return order,
    }
    match a.edge.kind.cmp(&b.edge.kind) {
        Ordering::Equal => compare_ends(a.far(), b.far()),
        order => order,
    }
}

impl PartialEq for Half {
    ghost eq = { λ a b. is_eq (half_order a b) };

    ghost laws = { partial_equiv_from_equiv (eq_by_cmp_equiv half_total) };

    fn eq(&self, other: &Half) -> bool {
        compare(self, other).is_eq()
    }
}

impl Eq for Half {
    ghost laws = { eq_by_cmp_equiv half_total };
}

impl PartialOrd for Half {
    ghost partial_cmp = { λ a b. Some (half_order a b) };

    ghost laws = { po half_total (λ a b. refl) };

    fn partial_cmp(&self, other: &Half) -> Option<Ordering> {
        Some(compare(self, other))
    }
}

impl Ord for Half {
    ghost cmp = { half_order };

    ghost total = { half_total };

    ghost matches_partial_cmp = { λ a b. refl };

    ghost matches_eq = { λ a b. refl };

    fn cmp(&self, other: &Half) -> Ordering {
        compare(self, other)
    }
}
