//! The objects of a vertex: read, made, written and taken away.
ghost use Rattle.std.specs.Prelude.{◌≡◌, ◌<◌, ◌%◌, true, [], Some, None, IfErr, OnErr, OnOk};
ghost use Rattle.object_view.specs.Agreement.{Heap, Agrees, stood, is_made};
ghost use Rattle.object_view.specs.Calls.{StandsIn, IsObject, written_at};
ghost use Rattle.object_view.specs.Parts.{Onward, Gives, Tells, with_bytes};
ghost use Rattle.object_view.specs.declared.parts.PartFault.TheVariants as fault;
ghost use Rattle.a1_base.specs.declared.place.Addr.{Addr};
ghost use Rattle.type_schema.specs.declared.objects.Header.{Header};
ghost use Rattle.type_schema.specs.Formed.{IsRecord};
ghost use Rattle.type_schema.specs.Objects.{IsAddr, short_bytes};
ghost use Rattle.type_schema.specs.Schemas.{Record};
ghost use Rattle.type_schema.specs.Structures.{IsVertex, IsBody};
ghost use Rattle.vertex_store.specs.Steps.{MakesParts};

use a1_base::{Addr, ReadFault};
use object_view::{PartFault, View, look, make, take};
use std::alloc::Global;
use std::sync::Wait;
use type_schema::{
    Header, Record, VERTEX_BODY, body_bytes, body_of, header_of, list_of, short_bytes,
};

/// That the region and the offset of an address have 32 bits each: a law, for the proofs of those who call it.
pub fn fits(at: Addr)
    ensures { IsAddr at }
{}

/// The fields of a header.
pub fn fields_at<V: View, R: Wait>(
    rt: &R,
    alloc: Global,
    view: &mut V,
    at: Addr,
) -> Result<Header, PartFault>
    requires served { V.reaches view.old (at.region % V.count view.old) ≡ true }
    ensures tells { (h : Heap) (graph : Addr) (fields : Header)
        → Agrees h (V.trace view.new) (V.overlay view.new)
        → IsVertex (V.count view.old) (stood h (V.overlay view.old)) at graph fields → Gives result fields }
    ensures stands { OnOk result (StandsIn (V.trace view.new) (V.overlay view.new) at) }
    ensures overlay { V.overlay view.new ≡ V.overlay view.old }
    ensures onward { Onward V.trace V.overlay V.reaches V.count V.kept view.old view.new }
{
    let bytes = look(rt, alloc, view, at)?;
    let Some((_, fields)) = header_of(bytes.as_slice()) else {
        return Err(PartFault::Torn { at });
    };
    Ok(fields)
}

/// The record of a vertex in its object.
pub fn body_at<V: View, R: Wait>(
    rt: &R,
    alloc: Global,
    view: &mut V,
    at: Addr,
    owner: Addr,
) -> Result<Record, PartFault>
    ensures tells { (h : Heap) (values : Record) → Agrees h (V.trace view.new) (V.overlay view.new)
        → V.reaches view.old (at.region % V.count view.old) ≡ true
        → IsBody (stood h (V.overlay view.old)) 8 at owner values → Gives result values }
    ensures overlay { V.overlay view.new ≡ V.overlay view.old }
    ensures onward { Onward V.trace V.overlay V.reaches V.count V.kept view.old view.new }
{
    let bytes = look(rt, alloc, view, at)?;
    match body_of(alloc, VERTEX_BODY, bytes.as_slice()) {
        Ok((found, values)) => {
            if found != owner {
                return Err(PartFault::Torn { at });
            }
            Ok(values)
        }
        Err(ReadFault::Memory) => Err(PartFault::Memory),
        Err(ReadFault::Malformed) => Err(PartFault::Torn { at }),
    }
}

/// Makes the record and the two empty lists of a vertex, whose header stands at `owner`, and answers what the header
/// is to name.
pub fn make_parts<V: View, R: Wait>(
    rt: &R,
    alloc: Global,
    view: &mut V,
    node: u32,
    kind: u32,
    owner: Addr,
    values: &Record,
) -> Result<Header, PartFault>
    requires node { node < V.count view.old }
    requires served { V.reaches view.old node ≡ true }
    requires values { IsRecord values.now }
    ensures tells { (h : Heap) → Agrees h (V.trace view.new) (V.overlay view.new)
        → Tells result (MakesParts (V.count view.old) node (stood h (V.overlay view.old))
        (stood h (V.overlay view.new)) kind owner values.now) }
    ensures onward { Onward V.trace V.overlay V.reaches V.count V.kept view.old view.new }
{
    let bytes = body_bytes(alloc, VERTEX_BODY, owner, values)?;
    let body = make(rt, alloc, view, node, bytes.as_slice())?;
    let list = short_bytes(alloc, owner, &[])?;
    let out = make(rt, alloc, view, node, list.as_slice())?;
    let into = make(rt, alloc, view, node, list.as_slice())?;
    fits(body);
    fits(out);
    fits(into);
    Ok(Header {
        kind,
        body,
        out,
        into,
    })
}

/// Puts bytes in the place of an object, as `View::write` does.
#[tactic(auto, using(object_view::proofs::Writing::write_rules))]
pub fn rewrite<V: View>(
    alloc: Global,
    view: &mut V,
    at: Addr,
    bytes: &[u8],
) -> Result<(), PartFault>
    requires served { V.reaches view.old (at.region % V.count view.old) ≡ true }
    requires stands { StandsIn (V.trace view.old) (V.overlay view.old) at }
    requires size { IsObject bytes.now }
    ensures written { OnOk result
        (V.overlay view.new ≡ written_at at (is_made (V.overlay view.old at)) (Some bytes.now) (V.overlay view.old)) }
    ensures err { OnErr result (V.overlay view.new ≡ V.overlay view.old) }
    ensures fault { IfErr result (λ f. f ≡ fault.Memory) }
    ensures onward { Onward V.trace V.overlay V.reaches V.count V.kept view.old view.new }
{
    match view.write(alloc, at, bytes) {
        Ok(()) => Ok(()),
        Err(_) => Err(PartFault::Memory),
    }
}

/// Takes the object at an address away.
pub fn take_at<V: View, R: Wait>(
    rt: &R,
    alloc: Global,
    view: &mut V,
    at: Addr,
) -> Result<(), PartFault>
    ensures tells { (h : Heap) → Agrees h (V.trace view.new) (V.overlay view.new)
        → V.reaches view.old (at.region % V.count view.old) ≡ true
        → (stood h (V.overlay view.old) at ≡ None → ⊥)
        → Tells result (λ _. stood h (V.overlay view.new) ≡ with_bytes at None (stood h (V.overlay view.old))) }
    ensures onward { Onward V.trace V.overlay V.reaches V.count V.kept view.old view.new }
{
    look(rt, alloc, view, at)?;
    take(alloc, view, at)
}

/// Takes an empty list of a vertex away.
pub fn take_empty<V: View, R: Wait>(
    rt: &R,
    alloc: Global,
    view: &mut V,
    at: Addr,
    owner: Addr,
) -> Result<(), PartFault>
    ensures tells { (h : Heap) → Agrees h (V.trace view.new) (V.overlay view.new)
        → V.reaches view.old (at.region % V.count view.old) ≡ true
        → IsAddr owner → stood h (V.overlay view.old) at ≡ Some (short_bytes owner [])
        → Tells result (λ _. stood h (V.overlay view.new) ≡ with_bytes at None (stood h (V.overlay view.old))) }
    ensures onward { Onward V.trace V.overlay V.reaches V.count V.kept view.old view.new }
{
    let bytes = look(rt, alloc, view, at)?;
    let Some((found, form, rest)) = list_of(bytes.as_slice()) else {
        return Err(PartFault::Torn { at });
    };
    if found != owner || form != 0 || rest.len() != 0 {
        return Err(PartFault::Torn { at });
    }
    take(alloc, view, at)
}
