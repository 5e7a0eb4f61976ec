//! A tree, by the address of its anchor.
ghost use Rattle.std.specs.Prelude.{◌≡◌, ◌<◌, ◌≤◌, ◌%◌, true, ℕ, List, length, take, IfOk};
ghost use Rattle.a1_base.specs.declared.place.Addr.{Addr};
ghost use Rattle.object_view.specs.Agreement.{Heap, Agrees, stood};
ghost use Rattle.object_view.specs.Calls.{IsPlace};
ghost use Rattle.object_view.specs.Keys.{lookup};
ghost use Rattle.object_view.specs.Layout.{Entry};
ghost use Rattle.object_view.specs.Parts.{Onward, ReadsOnly, Tells, Gives};
ghost use Rattle.object_view.specs.Trees.{IsTree};
ghost use Rattle.object_btree.specs.Changes.{InsertTells, RemoveTells, CreateTells};
ghost use Rattle.object_btree.specs.Intervals.{between};
ghost use Rattle.object_btree.specs.Levels.{RangeReads};
ghost use Rattle.object_btree.specs.Remains.{IsRest, Destroys};

use crate::bytes::{anchor_of, anchored, node_of, with_entry};
use crate::destruction::{destroy_in, free_at, seek};
use crate::insertion::{Put, insert_at, new_root};
use crate::interval::range_in;
use crate::lookup::get_at;
use crate::nodes::{Site, make_node};
use crate::removal::{lower, remove_at};
use a1_base::{Addr, Bin};
use object_view::{PartFault, View, addr_of, look, make, store, word_of};
use std::alloc::Global;
use std::sync::Wait;

/// The most levels of a tree are this and one.
const TOP: u8 = 15;

/// A tree, by the address of its anchor: an ordered map from keys of 1 to 1,100 bytes to numbers (a B-tree with 16 to
/// 32 entries in each node but the root; Bayer and McCreight, 1972). All its objects lie on the node of its anchor.
#[derive(Clone, Copy, Debug, PartialEq, Eq)]
pub struct Tree {
    pub anchor: Addr,
}

impl Tree {
    /// A new tree without keys on a node that the view serves, for an owner. It may wait. `Spent` comes where all
    /// places of the node are taken, `Memory` for want of memory alone.
    pub fn create<V: View, R: Wait>(
        rt: &R,
        alloc: Global,
        view: &mut V,
        node: u32,
        owner: Addr,
    ) -> Result<Tree, PartFault>
        requires node { node < V.count view.old }
        requires served { V.reaches view.old node ≡ true }
        ensures tells { (h : Heap) → Agrees h (V.trace view.new) (V.overlay view.new)
            → Tells result (λ tree. CreateTells (V.count view.old) (stood h (V.overlay view.old))
            (stood h (V.overlay view.new)) tree.anchor owner) }
        ensures place { IfOk result (λ tree. IsPlace (V.count view.old) node tree.anchor) }
        ensures onward { Onward V.trace V.overlay V.reaches V.count V.kept view.old view.new }
    {
        let owner = word_of(owner);
        let first = anchored(alloc, owner, 0, 0)?;
        let anchor = make(rt, alloc, view, node, first.as_slice())?;
        let site = Site {
            node,
            owner: word_of(anchor),
        };
        let root = make_node(rt, alloc, view, site, &[])?;
        let bytes = anchored(alloc, owner, word_of(root), 0)?;
        store(alloc, view, anchor, bytes.as_slice())?;
        Ok(Tree { anchor })
    }

    /// The number of a key. It may wait. `Torn` comes only where no heap that agrees has the tree sound, `Memory` for
    /// want of memory alone.
    pub fn get<V: View, R: Wait>(
        &self,
        rt: &R,
        alloc: Global,
        view: &mut V,
        key: &[u8],
    ) -> Result<Option<u64>, PartFault>
        requires served { V.reaches view.old (self.now.anchor.region % V.count view.old) ≡ true }
        ensures tells { (h : Heap) (owner : Addr) (pairs : List Entry) (at : List Addr)
            → Agrees h (V.trace view.new) (V.overlay view.new)
            → IsTree (V.count view.old) (stood h (V.overlay view.old)) self.now.anchor owner pairs at
            → Gives result (lookup key.now pairs) }
        ensures overlay { V.overlay view.new ≡ V.overlay view.old }
        ensures onward { Onward V.trace V.overlay V.reaches V.count V.kept view.old view.new }
    {
        let anchor = self.anchor;
        let site = Site {
            node: anchor.region % view.nodes(),
            owner: word_of(anchor),
        };
        let bytes = look(rt, alloc, view, anchor)?;
        let Some((_, root, height)) = anchor_of(bytes.as_slice()) else {
            return Err(PartFault::Torn { at: anchor });
        };
        get_at(rt, alloc, view, site, addr_of(root), height, key)
    }

    /// Gives a key of 1 to 1,100 bytes a number, and answers its old one. It may wait. `Torn` comes only where no heap
    /// that agrees has the tree sound, `Tall` exactly where a 17th level would be needed
    /// (16 levels stand, each node on the key's way has 32 entries, and the key is new), `Spent` where all places of
    /// the anchor's node are taken, `Memory` for want of memory alone; after any of them part may be written.
    pub fn insert<V: View, R: Wait>(
        &self,
        rt: &R,
        alloc: Global,
        view: &mut V,
        key: &[u8],
        value: u64,
    ) -> Result<Option<u64>, PartFault>
        requires served { V.reaches view.old (self.now.anchor.region % V.count view.old) ≡ true }
        requires some { 1 ≤ length key.now }
        requires key { length key.now ≤ 1100 }
        ensures tells { (h : Heap) (owner : Addr) (pairs : List Entry) (at : List Addr)
            → Agrees h (V.trace view.new) (V.overlay view.new)
            → IsTree (V.count view.old) (stood h (V.overlay view.old)) self.now.anchor owner pairs at
            → InsertTells (V.count view.old) (stood h (V.overlay view.old)) (stood h (V.overlay view.new))
            self.now.anchor owner pairs at key.now value result }
        ensures onward { Onward V.trace V.overlay V.reaches V.count V.kept view.old view.new }
    {
        let anchor = self.anchor;
        let site = Site {
            node: anchor.region % view.nodes(),
            owner: word_of(anchor),
        };
        let bytes = look(rt, alloc, view, anchor)?;
        let Some((owner, root, height)) = anchor_of(bytes.as_slice()) else {
            return Err(PartFault::Torn { at: anchor });
        };
        let put = insert_at(rt, alloc, view, site, addr_of(root), height, key, value)?;
        let Put { old, more } = put;
        let Some(split) = more else {
            return Ok(old);
        };
        if height >= TOP {
            return Err(PartFault::Tall);
        }
        new_root(rt, alloc, view, site, anchor, owner, root, height, &split)?;
        Ok(old)
    }

    /// Takes a key out, and answers its number. It may wait. The faults are those of `get`; after any of them part may
    /// be written.
    pub fn remove<V: View, R: Wait>(
        &self,
        rt: &R,
        alloc: Global,
        view: &mut V,
        key: &[u8],
    ) -> Result<Option<u64>, PartFault>
        requires served { V.reaches view.old (self.now.anchor.region % V.count view.old) ≡ true }
        ensures tells { (h : Heap) (owner : Addr) (pairs : List Entry) (at : List Addr)
            → Agrees h (V.trace view.new) (V.overlay view.new)
            → IsTree (V.count view.old) (stood h (V.overlay view.old)) self.now.anchor owner pairs at
            → Tells result (λ old. RemoveTells (V.count view.old) (stood h (V.overlay view.old))
            (stood h (V.overlay view.new)) self.now.anchor owner pairs at key.now old) }
        ensures onward { Onward V.trace V.overlay V.reaches V.count V.kept view.old view.new }
    {
        let anchor = self.anchor;
        let site = Site {
            node: anchor.region % view.nodes(),
            owner: word_of(anchor),
        };
        let bytes = look(rt, alloc, view, anchor)?;
        let Some((owner, root, height)) = anchor_of(bytes.as_slice()) else {
            return Err(PartFault::Torn { at: anchor });
        };
        let taken = remove_at(rt, alloc, view, site, addr_of(root), height, key)?;
        if taken.thin && height > 0 {
            lower(rt, alloc, view, site, anchor, addr_of(root), owner, height)?;
        }
        Ok(taken.old)
    }

    /// The first `limit` pairs, by rising key, of the keys from `from` on and below `to`. It may wait, and reads no more
    /// than these pairs need. The faults are those of `get`.
    pub fn range<V: View, R: Wait>(
        &self,
        rt: &R,
        alloc: Global,
        view: &mut V,
        from: &[u8],
        to: &[u8],
        limit: u32,
    ) -> Result<Vec<(Bin, u64)>, PartFault>
        requires served { V.reaches view.old (self.now.anchor.region % V.count view.old) ≡ true }
        ensures tells { (h : Heap) (owner : Addr) (pairs : List Entry) (at : List Addr)
            → Agrees h (V.trace view.new) (V.overlay view.new)
            → IsTree (V.count view.old) (stood h (V.overlay view.old)) self.now.anchor owner pairs at
            → Tells result (λ found. found.items ≡ take limit (between from.now to.now pairs)) }
        ensures reads { (h : Heap) (owner : Addr) (pairs : List Entry) (at : List Addr)
            → Agrees h (V.trace view.new) (V.overlay view.new)
            → (tree : IsTree (V.count view.old) (stood h (V.overlay view.old)) self.now.anchor owner pairs at)
            → ReadsOnly (RangeReads self.now.anchor tree.height tree.root from.now to.now limit)
            (V.trace view.old) (V.trace view.new) }
        ensures overlay { V.overlay view.new ≡ V.overlay view.old }
        ensures onward { Onward V.trace V.overlay V.reaches V.count V.kept view.old view.new }
    {
        let anchor = self.anchor;
        let site = Site {
            node: anchor.region % view.nodes(),
            owner: word_of(anchor),
        };
        let bytes = look(rt, alloc, view, anchor)?;
        let Some((_, root, height)) = anchor_of(bytes.as_slice()) else {
            return Err(PartFault::Torn { at: anchor });
        };
        let at = addr_of(root);
        let node = look(rt, alloc, view, at)?;
        let Some(body) = node_of(node.as_slice(), site.owner) else {
            return Err(PartFault::Torn { at });
        };
        range_in(
            rt,
            alloc,
            view,
            site,
            height,
            at,
            body,
            from,
            to,
            limit as usize,
            Vec::new(alloc),
        )
    }

    /// Frees at most `n` objects of a tree that may be half destroyed, and answers whether none is left. Each that is
    /// left is reached from the anchor and owned by it; where one was freed there may be nothing, or an object of another
    /// owner. It may wait. The faults are those of `get`; after any of them part may be freed.
    pub fn destroy_some<V: View, R: Wait>(
        &self,
        rt: &R,
        alloc: Global,
        view: &mut V,
        n: u32,
    ) -> Result<bool, PartFault>
        requires served { V.reaches view.old (self.now.anchor.region % V.count view.old) ≡ true }
        ensures tells { (h : Heap) (at : List Addr) → Agrees h (V.trace view.new) (V.overlay view.new)
            → IsRest (V.count view.old) (stood h (V.overlay view.old)) self.now.anchor at
            → Tells result (λ done. Destroys (V.count view.old) (stood h (V.overlay view.old))
            (stood h (V.overlay view.new)) self.now.anchor at n done) }
        ensures onward { Onward V.trace V.overlay V.reaches V.count V.kept view.old view.new }
    {
        let anchor = self.anchor;
        let site = Site {
            node: anchor.region % view.nodes(),
            owner: word_of(anchor),
        };
        let Some(bytes) = seek(rt, alloc, view, anchor)? else {
            return Ok(true);
        };
        let Some((_, root, height)) = anchor_of(bytes.as_slice()) else {
            return Err(PartFault::Torn { at: anchor });
        };
        if height > TOP {
            return Err(PartFault::Torn { at: anchor });
        }
        let only = with_entry(alloc, &[], &[], root, &[])?;
        let freed = destroy_in(
            rt,
            alloc,
            view,
            site,
            height + 1,
            anchor,
            only.as_slice(),
            n,
        )?;
        if freed == n {
            return Ok(false);
        }
        free_at(rt, alloc, view, anchor)?;
        Ok(true)
    }
}
