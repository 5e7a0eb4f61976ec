//! One half-edge, by kind and far header.
ghost use Rattle.std.specs.Prelude.{◌≡◌, ◌%◌, true, List, map};
ghost use Rattle.std.specs.List.{AllByRecursion};
ghost use Rattle.a1_base.specs.declared.place.Addr.{Addr};
ghost use Rattle.object_view.specs.Agreement.{Heap, Agrees, stood};
ghost use Rattle.object_view.specs.Keys.{lookup};
ghost use Rattle.object_view.specs.Layout.{Entry, IsEntry, entries};
ghost use Rattle.object_view.specs.Parts.{Onward, Gives};
ghost use Rattle.type_schema.specs.declared.objects.Header.{Header};
ghost use Rattle.type_schema.specs.declared.objects.Half.{Half};
ghost use Rattle.type_schema.specs.Objects.{half_entry};
ghost use Rattle.type_schema.specs.Structures.{IsVertex, IsList, IsLong, list_at, half_at};

use crate::lists::{Form, form_of, half_with, list_at};
use a1_base::Addr;
use object_btree::{Tree, place_in};
use object_view::{PartFault, View, look};
use std::alloc::Global;
use std::sync::Wait;
use type_schema::{Half, half_key};

/// The half-edge of a kind and a far header in a vertex's list of outgoing (`out`) or incoming half-edges. It may wait.
/// `Torn` comes only where no heap that agrees has the header and the list sound, `Memory` for want of memory alone.
pub fn find<V: View, R: Wait>(
    rt: &R,
    alloc: Global,
    view: &mut V,
    header: Addr,
    out: bool,
    kind: u32,
    far: Addr,
) -> Result<Option<Half>, PartFault>
    requires served { V.reaches view.old (header.region % V.count view.old) ≡ true }
    ensures tells { (h : Heap) (graph : Addr) (fields : Header) (halves : List Half) (places : List Addr)
        → Agrees h (V.trace view.new) (V.overlay view.new)
        → IsVertex (V.count view.old) (stood h (V.overlay view.old)) header graph fields
        → IsList (V.count view.old) (stood h (V.overlay view.old)) (list_at out fields) header halves places
        → Gives result (half_at kind far halves) }
    ensures overlay { V.overlay view.new ≡ V.overlay view.old }
    ensures onward { Onward V.trace V.overlay V.reaches V.count V.kept view.old view.new }
{
    let at = list_at(rt, alloc, view, header, out)?;
    let key = half_key(alloc, kind, far)?;
    let word = word_at(rt, alloc, view, header, at, key.as_slice())?;
    Ok(half_with(kind, far, word))
}

// The word of a key in a list.
fn word_at<V: View, R: Wait>(
    rt: &R,
    alloc: Global,
    view: &mut V,
    owner: Addr,
    at: Addr,
    key: &[u8],
) -> Result<Option<u64>, PartFault>
    requires served { V.reaches view.old (owner.region % V.count view.old) ≡ true }
    ensures tells { (h : Heap) (halves : List Half) (places : List Addr)
        → Agrees h (V.trace view.new) (V.overlay view.new)
        → IsList (V.count view.old) (stood h (V.overlay view.old)) at owner halves places
        → Gives result (lookup key.now (map half_entry halves)) }
    ensures overlay { V.overlay view.new ≡ V.overlay view.old }
    ensures onward { Onward V.trace V.overlay V.reaches V.count V.kept view.old view.new }
{
    let bytes = look(rt, alloc, view, at)?;
    match form_of(bytes.as_slice(), owner) {
        None => Err(PartFault::Torn { at }),
        Some(Form::Short(body)) => word_in(at, body, key),
        Some(Form::Long { anchor, .. }) => word_below(rt, alloc, view, at, anchor, key),
    }
}

// The word of a key in the one object.
fn word_in(at: Addr, body: &[u8], key: &[u8]) -> Result<Option<u64>, PartFault>
    ensures { (es : List Entry) → AllByRecursion IsEntry es → body.now ≡ entries es
        → Gives result (lookup key.now es) }
{
    match place_in(body, key) {
        None => Err(PartFault::Torn { at }),
        Some((_, _, word)) => Ok(word),
    }
}

// The word of a key in the tree.
fn word_below<V: View, R: Wait>(
    rt: &R,
    alloc: Global,
    view: &mut V,
    at: Addr,
    anchor: Addr,
    key: &[u8],
) -> Result<Option<u64>, PartFault>
    requires served { V.reaches view.old (at.region % V.count view.old) ≡ true }
    ensures tells { (h : Heap) (owner : Addr) (halves : List Half) (places : List Addr)
        → Agrees h (V.trace view.new) (V.overlay view.new)
        → (long : IsLong (V.count view.old) (stood h (V.overlay view.old)) at owner halves places)
        → long.anchor ≡ anchor → Gives result (lookup key.now (map half_entry halves)) }
    ensures overlay { V.overlay view.new ≡ V.overlay view.old }
    ensures onward { Onward V.trace V.overlay V.reaches V.count V.kept view.old view.new }
{
    if !view.serves(anchor) {
        return Err(PartFault::Torn { at });
    }
    Tree { anchor }.get(rt, alloc, view, key)
}
