//! A vertex, by the address of its header.
ghost use Rattle.std.specs.Prelude.{◌≡◌, ◌<◌, ◌%◌, true, [], Some, OnErr, OnOk};
ghost use Rattle.a1_base.specs.declared.place.Addr.{Addr};
ghost use Rattle.object_view.specs.Agreement.{Heap, Agrees, stood, is_made};
ghost use Rattle.object_view.specs.Calls.{written_at};
ghost use Rattle.object_view.specs.Parts.{Onward, Moves, Tells, Gives};
ghost use Rattle.type_schema.specs.declared.objects.Header.{Header};
ghost use Rattle.type_schema.specs.Formed.{IsRecord};
ghost use Rattle.type_schema.specs.Objects.{body_bytes};
ghost use Rattle.type_schema.specs.Schemas.{Record};
ghost use Rattle.type_schema.specs.Structures.{IsVertex, IsBody};
ghost use Rattle.vertex_store.specs.Changes.{IsBare, Creates, Sets, objects_of};

use crate::parts::{body_at, fields_at, fits, make_parts, rewrite, take_at, take_empty};
use a1_base::Addr;
use object_view::{PartFault, View, look, make, store, take};
use std::alloc::Global;
use std::sync::Wait;
use type_schema::{GraphRef, Header, Record, VERTEX_BODY, body_bytes, header_bytes};

/// A new vertex of a type's number with a record, and without half-edges, on a node that the view serves: its header,
/// its record and two empty lists. Answers the address of the header. It may wait. `Spent` comes where all places of
/// the node are taken, `Memory` for want of memory alone; after either part may be made.
pub fn create<V: View, R: Wait>(
    rt: &R,
    alloc: Global,
    view: &mut V,
    node: u32,
    graph: &GraphRef,
    kind: u32,
    values: &Record,
) -> Result<Addr, PartFault>
    requires node { node < V.count view.old }
    requires served { V.reaches view.old node ≡ true }
    requires values { IsRecord values.now }
    ensures tells { (h : Heap) → Agrees h (V.trace view.new) (V.overlay view.new)
        → Tells result (Creates (V.count view.old) node (stood h (V.overlay view.old))
        (stood h (V.overlay view.new)) graph.now.at kind values.now) }
    ensures onward { Onward V.trace V.overlay V.reaches V.count V.kept view.old view.new }
{
    let unknown = Header {
        kind,
        body: graph.at,
        out: graph.at,
        into: graph.at,
    };
    let first = header_bytes(alloc, graph.at, &unknown)?;
    let at = make(rt, alloc, view, node, first.as_slice())?;
    fits(graph.at);
    fits(at);
    let fields = make_parts(rt, alloc, view, node, kind, at, values)?;
    let bytes = header_bytes(alloc, graph.at, &fields)?;
    store(alloc, view, at, bytes.as_slice())?;
    Ok(at)
}

/// The record of a vertex, by the address of its header. It may wait. `Torn` comes only where no heap that agrees has
/// the header and the record sound, `Memory` for want of memory alone.
pub fn record_of<V: View, R: Wait>(
    rt: &R,
    alloc: Global,
    view: &mut V,
    header: Addr,
) -> Result<Record, PartFault>
    requires served { V.reaches view.old (header.region % V.count view.old) ≡ true }
    ensures tells { (h : Heap) (graph : Addr) (fields : Header) (values : Record)
        → Agrees h (V.trace view.new) (V.overlay view.new)
        → IsVertex (V.count view.old) (stood h (V.overlay view.old)) header graph fields
        → IsBody (stood h (V.overlay view.old)) 8 fields.body header values
        → Gives result values }
    ensures overlay { V.overlay view.new ≡ V.overlay view.old }
    ensures onward { Onward V.trace V.overlay V.reaches V.count V.kept view.old view.new }
{
    let fields = fields_at(rt, alloc, view, header)?;
    body_at(rt, alloc, view, fields.body, header)
}

/// Gives a vertex another record: its object is written, even where the record stays the same, and no other. It may
/// wait. The faults are those of `record_of`; after them nothing is written.
pub fn set<V: View, R: Wait>(
    rt: &R,
    alloc: Global,
    view: &mut V,
    header: Addr,
    values: &Record,
) -> Result<(), PartFault>
    requires served { V.reaches view.old (header.region % V.count view.old) ≡ true }
    requires values { IsRecord values.now }
    ensures tells { (h : Heap) (graph : Addr) (fields : Header) (old : Record)
        → Agrees h (V.trace view.new) (V.overlay view.new)
        → IsVertex (V.count view.old) (stood h (V.overlay view.old)) header graph fields
        → IsBody (stood h (V.overlay view.old)) 8 fields.body header old
        → Tells result (λ _. Sets (V.count view.old) (stood h (V.overlay view.old)) (stood h (V.overlay view.new))
        header graph fields values.now) }
    ensures written { (h : Heap) (graph : Addr) (fields : Header)
        → Agrees h (V.trace view.new) (V.overlay view.new)
        → IsVertex (V.count view.old) (stood h (V.overlay view.old)) header graph fields
        → OnOk result (V.overlay view.new ≡ written_at fields.body (is_made (V.overlay view.old fields.body))
        (Some (body_bytes 8 header values.now)) (V.overlay view.old)) }
    ensures err { OnErr result (V.overlay view.new ≡ V.overlay view.old) }
    ensures onward { Onward V.trace V.overlay V.reaches V.count V.kept view.old view.new }
{
    let fields = fields_at(rt, alloc, view, header)?;
    look(rt, alloc, view, fields.body)?;
    let bytes = body_bytes(alloc, VERTEX_BODY, header, values)?;
    rewrite(alloc, view, fields.body, bytes.as_slice())
}

/// Takes a vertex away that has no half-edges: its header, its record and its two lists, and nothing else. It may wait.
/// `Torn` comes only where no heap that agrees has these four sound and the lists empty, `Memory` for want of memory
/// alone; after either part may be taken away.
pub fn destroy<V: View, R: Wait>(
    rt: &R,
    alloc: Global,
    view: &mut V,
    header: Addr,
) -> Result<(), PartFault>
    requires served { V.reaches view.old (header.region % V.count view.old) ≡ true }
    ensures tells { (h : Heap) (graph : Addr) (fields : Header) (values : Record)
        → Agrees h (V.trace view.new) (V.overlay view.new)
        → IsBare (V.count view.old) (stood h (V.overlay view.old)) header graph fields values
        → Tells result (λ _. Moves (stood h (V.overlay view.old)) (stood h (V.overlay view.new))
        (objects_of header fields) []) }
    ensures onward { Onward V.trace V.overlay V.reaches V.count V.kept view.old view.new }
{
    let fields = fields_at(rt, alloc, view, header)?;
    take(alloc, view, header)?;
    take_at(rt, alloc, view, fields.body)?;
    take_empty(rt, alloc, view, fields.out, header)?;
    take_empty(rt, alloc, view, fields.into, header)
}
