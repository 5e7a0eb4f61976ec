//! The number of a key.
ghost use Rattle.std.specs.Prelude.{◌≡◌, ◌≤◌, ◌%◌, true, Bool, ℕ, List, Some, None};
ghost use Rattle.std.specs.List.{AllByRecursion};
ghost use Rattle.a1_base.specs.declared.place.Addr.{Addr};
ghost use Rattle.object_view.specs.Agreement.{Heap, Agrees, stood};
ghost use Rattle.object_view.specs.Keys.{Bound, UpTo, Below, lookup};
ghost use Rattle.object_view.specs.Layout.{Entry, IsEntry, entries, addr_of};
ghost use Rattle.object_view.specs.Parts.{Onward, Gives};
ghost use Rattle.object_view.specs.Trees.{Branch, Item, Sub, contents, is_on};

use crate::bytes::node_of;
use crate::nodes::Site;
use crate::scan::{place_in, route_in};
use a1_base::Addr;
use object_view::{PartFault, View, addr_of, look};
use std::alloc::Global;
use std::sync::Wait;

/// The number of a key in a leaf.
fn find_in(at: Addr, body: &[u8], key: &[u8]) -> Result<Option<u64>, PartFault>
    ensures { (es : List Entry) → AllByRecursion IsEntry es → body.now ≡ entries es
        → Gives result (lookup key.now es) }
{
    match place_in(body, key) {
        None => Err(PartFault::Torn { at }),
        Some((_, _, old)) => Ok(old),
    }
}

/// The number of a key below a node.
pub fn get_at<V: View, R: Wait>(
    rt: &R,
    alloc: Global,
    view: &mut V,
    site: Site,
    at: Addr,
    height: u8,
    key: &[u8],
) -> Result<Option<u64>, PartFault>
    requires served { V.reaches view.old site.node ≡ true }
    ensures tells { (h : Heap) (b : Branch (Item height)) (least : ℕ) (lo hi : Bound)
        → Agrees h (V.trace view.new) (V.overlay view.new)
        → Sub (is_on (V.count view.old) site.node) (stood h (V.overlay view.old)) site.owner least height lo b hi
        → addr_of b.word ≡ at → (1 ≤ height → 1 ≤ least) → UpTo lo (Some key.now) → Below key.now hi
        → Gives result (lookup key.now (contents height b.items)) }
    ensures overlay { V.overlay view.new ≡ V.overlay view.old }
    ensures onward { Onward V.trace V.overlay V.reaches V.count V.kept view.old view.new }
{
    let bytes = look(rt, alloc, view, at)?;
    let Some(body) = node_of(bytes.as_slice(), site.owner) else {
        return Err(PartFault::Torn { at });
    };
    if height == 0 {
        return find_in(at, body, key);
    }
    let Some((_, word, _)) = route_in(body, key) else {
        return Err(PartFault::Torn { at });
    };
    get_at(rt, alloc, view, site, addr_of(word), height - 1, key)
}
