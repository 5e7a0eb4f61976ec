//! The object of a list, with other bytes or other entries.
ghost use Rattle.std.specs.Prelude.{◌≡◌, ◌≤◌, ◌%◌, true, List, [], ◌∷◌, length, map, None, Some};
ghost use Rattle.object_view.specs.Agreement.{Heap, Agrees, stood};
ghost use Rattle.object_view.specs.Calls.{IsObject};
ghost use Rattle.object_view.specs.Layout.{entries};
ghost use Rattle.object_view.specs.Parts.{Onward, with_bytes, Tells};
ghost use Rattle.type_schema.specs.declared.objects.Half.{Half};
ghost use Rattle.type_schema.specs.Objects.{half_entry};
ghost use Rattle.type_schema.specs.Structures.{ListBecomes};
ghost use Rattle.half_edge_lists.specs.Steps.{Formed};

use a1_base::{Addr, SHORT_LIST_LIMIT};
use object_view::{PartFault, View, look, store};
use std::alloc::Global;
use std::sync::Wait;
use type_schema::short_bytes;

/// The most bytes of the entries of one object: 22 for each half-edge.
pub const ENTRIES_LIMIT: usize = 22 * SHORT_LIST_LIMIT;

/// Puts bytes in the place of the object at an address.
pub fn rewrite<V: View, R: Wait>(
    rt: &R,
    alloc: Global,
    view: &mut V,
    at: Addr,
    bytes: &[u8],
) -> Result<(), PartFault>
    requires size { IsObject bytes.now }
    ensures tells { (h : Heap) → Agrees h (V.trace view.new) (V.overlay view.new)
        → V.reaches view.old (at.region % V.count view.old) ≡ true
        → (stood h (V.overlay view.old) at ≡ None → ⊥)
        → Tells result (λ _. stood h (V.overlay view.new)
        ≡ with_bytes at (Some bytes.now) (stood h (V.overlay view.old))) }
    ensures onward { Onward V.trace V.overlay V.reaches V.count V.kept view.old view.new }
{
    look(rt, alloc, view, at)?;
    store(alloc, view, at, bytes)
}

/// Puts these entries in the place of the one object of a list. They are at most `SHORT_LIST_LIMIT`, else `Torn` comes.
pub fn put_entries<V: View, R: Wait>(
    rt: &R,
    alloc: Global,
    view: &mut V,
    owner: Addr,
    at: Addr,
    body: &[u8],
) -> Result<(), PartFault>
    requires served { V.reaches view.old (at.region % V.count view.old) ≡ true }
    ensures tells { (h : Heap) (halves : List Half) → Agrees h (V.trace view.new) (V.overlay view.new)
        → Formed (V.count view.old) at owner halves → (stood h (V.overlay view.old) at ≡ None → ⊥)
        → length halves ≤ 1000 → body.now ≡ entries (map half_entry halves)
        → Tells result (λ _. ListBecomes (V.count view.old) (stood h (V.overlay view.old))
        (stood h (V.overlay view.new)) at owner (at ∷ []) halves) }
    ensures onward { Onward V.trace V.overlay V.reaches V.count V.kept view.old view.new }
{
    if body.len() > ENTRIES_LIMIT {
        return Err(PartFault::Torn { at });
    }
    let bytes = short_bytes(alloc, owner, body)?;
    rewrite(rt, alloc, view, at, bytes.as_slice())
}
