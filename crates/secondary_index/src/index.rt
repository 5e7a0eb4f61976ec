//! Rows that enter and leave an index.
ghost use Rattle.std.specs.Prelude.{◌≡◌, ◌≤◌, ◌%◌, true, List, length, IfOk};
ghost use Rattle.a1_base.specs.declared.place.Addr.{Addr};
ghost use Rattle.a1_value.specs.Encoding.{IsKey};
ghost use Rattle.object_view.specs.Agreement.{Heap, Agrees, stood};
ghost use Rattle.object_view.specs.Layout.{word_of};
ghost use Rattle.object_view.specs.Parts.{Onward, Tells};
ghost use Rattle.type_schema.specs.Objects.{IndexRow, IsAddr, index_key};
ghost use Rattle.type_schema.specs.Structures.{IsIndex};
ghost use Rattle.secondary_index.specs.Changes.{EnterTells, LeaveTells};

use a1_base::{Addr, Bin, Memory};
use a1_value::Value;
use object_btree::Tree;
use object_view::{PartFault, View, word_of};
use std::alloc::Global;
use std::sync::Wait;
use type_schema::index_key;

/// Puts the vertex of a key, by its header, under a value into an index; a row of this value and key that is there gets
/// the header. Value and key have at most 256 bytes. It may wait. `Torn` comes only where no heap that agrees has the
/// index sound, `Spent` where all places of its node are taken, `Tall` where its tree would need a 17th level, which a
/// node's 2^32 places never let come about, `Memory` for want of memory alone; after any of them part may be written.
pub fn enter<V: View, R: Wait>(
    rt: &R,
    alloc: Global,
    view: &mut V,
    tree: &Tree,
    value: &Value,
    key: &Value,
    header: Addr,
) -> Result<(), PartFault>
    requires served { V.reaches view.old (tree.now.anchor.region % V.count view.old) ≡ true }
    requires value { IsKey value.now }
    requires key { IsKey key.now }
    ensures tells { (h : Heap) (owner : Addr) (rows : List IndexRow) (places : List Addr)
        → Agrees h (V.trace view.new) (V.overlay view.new)
        → IsIndex (V.count view.old) (stood h (V.overlay view.old)) tree.now.anchor owner rows places
        → EnterTells (V.count view.old) (stood h (V.overlay view.old)) (stood h (V.overlay view.new))
        tree.now.anchor owner rows places (record { value = value.now; key = key.now; header = header }) result }
    ensures onward { Onward V.trace V.overlay V.reaches V.count V.kept view.old view.new }
{
    let entry = row_key(alloc, value, key)?;
    tree.insert(rt, alloc, view, entry.as_slice(), word_in(header))?;
    Ok(())
}

/// Takes the row of a value and a key out of an index, and answers whether there was one. It may wait. `Torn` and
/// `Memory` come as for `enter`; after them part may be written.
pub fn leave<V: View, R: Wait>(
    rt: &R,
    alloc: Global,
    view: &mut V,
    tree: &Tree,
    value: &Value,
    key: &Value,
) -> Result<bool, PartFault>
    requires served { V.reaches view.old (tree.now.anchor.region % V.count view.old) ≡ true }
    requires value { IsKey value.now }
    requires key { IsKey key.now }
    ensures tells { (h : Heap) (owner : Addr) (rows : List IndexRow) (places : List Addr)
        → Agrees h (V.trace view.new) (V.overlay view.new)
        → IsIndex (V.count view.old) (stood h (V.overlay view.old)) tree.now.anchor owner rows places
        → Tells result (LeaveTells (V.count view.old) (stood h (V.overlay view.old)) (stood h (V.overlay view.new))
        tree.now.anchor owner rows places value.now key.now) }
    ensures onward { Onward V.trace V.overlay V.reaches V.count V.kept view.old view.new }
{
    let row = index_key(alloc, value, key)?;
    let old = tree.remove(rt, alloc, view, row.as_slice())?;
    Ok(old.is_some())
}

// A row's key, which is as long as a tree takes.
#[tactic(auto, using(crate::proofs::Rows::row_some, crate::proofs::Rows::row_short))]
fn row_key(alloc: Global, value: &Value, key: &Value) -> Result<Bin, Memory>
    requires value { IsKey value.now }
    requires key { IsKey key.now }
    ensures exact { IfOk result (λ bytes. bytes ≡ index_key value.now key.now) }
    ensures fits { IfOk result (λ bytes. (1 ≤ length bytes) × (length bytes ≤ 1100)) }
{
    index_key(alloc, value, key)
}

// An address as a word.
fn word_in(at: Addr) -> u64
    ensures word { result ≡ word_of at }
    ensures fits { IsAddr at }
{
    let Addr { region, offset } = at;
    word_of(Addr { region, offset })
}
