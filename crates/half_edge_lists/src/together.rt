//! Two structures changed in turn in one overlay, with what both calls say put together.
ghost use Rattle.std.specs.Prelude.{◌≡◌, ◌≤◌, ◌%◌, true, List, length, IfOk};
ghost use Rattle.a1_base.specs.declared.place.Addr.{Addr};
ghost use Rattle.object_view.specs.Agreement.{Heap, Agrees, stood};
ghost use Rattle.object_view.specs.Keys.{inserted};
ghost use Rattle.object_view.specs.Layout.{Entry};
ghost use Rattle.object_view.specs.Parts.{Onward};
ghost use Rattle.object_view.specs.Trees.{IsTree};
ghost use Rattle.type_schema.specs.declared.objects.Header.{Header};
ghost use Rattle.type_schema.specs.declared.objects.Half.{Half};
ghost use Rattle.type_schema.specs.Objects.{IsAddr};
ghost use Rattle.type_schema.specs.Structures.{IsVertex, IsList, list_at, with_half};
ghost use Rattle.half_edge_lists.specs.Together.{BothBecome};

use crate::tests::{GRAPH, HEADER, begin, half};
use crate::{add, find};
use a1_base::Addr;
use object_btree::Tree;
use object_view::{MemView, PartFault, View};
use std::alloc::Global;
use std::sync::Wait;
use std::test::Fail;
use type_schema::Half;

// A half-edge more in a list, and a pair more in a tree of another owner than the list.
fn add_both<V: View, R: Wait>(
    rt: &R,
    alloc: Global,
    view: &mut V,
    header: Addr,
    new: &Half,
    tree: &Tree,
    key: &[u8],
    word: u64,
) -> Result<bool, PartFault>
    requires served { V.reaches view.old (header.region % V.count view.old) ≡ true }
    requires tree { V.reaches view.old (tree.now.anchor.region % V.count view.old) ≡ true }
    requires some { 1 ≤ length key.now }
    requires key { length key.now ≤ 1100 }
    ensures tells { (h : Heap) (graph : Addr) (fields : Header) (halves : List Half) (places : List Addr)
        (owner : Addr) (pairs : List Entry) (below : List Addr)
        → Agrees h (V.trace view.new) (V.overlay view.new)
        → IsVertex (V.count view.old) (stood h (V.overlay view.old)) header graph fields
        → IsList (V.count view.old) (stood h (V.overlay view.old)) fields.out header halves places
        → IsTree (V.count view.old) (stood h (V.overlay view.old)) tree.now.anchor owner pairs below
        → IsAddr tree.now.anchor → IsAddr owner → (fields.out ≡ owner → ⊥)
        → IfOk result (λ is_new. is_new ≡ true → BothBecome (V.count view.old) (stood h (V.overlay view.old))
        (stood h (V.overlay view.new)) fields.out header (with_half new.now halves) places tree.now.anchor owner
        (inserted key.now word pairs) below) }
    ensures onward { Onward V.trace V.overlay V.reaches V.count V.kept view.old view.new }
{
    let is_new = add(rt, alloc, view, header, true, new)?;
    tree.insert(rt, alloc, view, key, word)?;
    Ok(is_new)
}

#[test]
fn a_list_and_a_tree_change_in_one_overlay(rt: HostRuntime) -> Result<(), Fail> {
    let alloc = rt.alloc();
    let mut view = MemView::new(alloc, 2)?;
    assert_eq!(rt; begin(&rt, alloc, &mut view), Ok(true));
    let tree = Tree::create(&rt, alloc, &mut view, 0, GRAPH)?;
    let new = half(5);
    let added = add_both(&rt, alloc, &mut view, HEADER, &new, &tree, &[7], 9);
    assert_eq!(rt; added, Ok(true));
    let there = find(&rt, alloc, &mut view, HEADER, true, new.kind, new.far);
    assert_eq!(rt; there, Ok(Some(new)));
    assert_eq!(rt; tree.get(&rt, alloc, &mut view, &[7]), Ok(Some(9)));
    Ok(())
}
