//! Where a list of a vertex stands, and in which form.
ghost use Rattle.std.specs.Prelude.{◌≡◌, ◌%◌, true, ℕ, List, Some, None, option_map};
ghost use Rattle.a1_base.specs.declared.place.Addr.{Addr};
ghost use Rattle.object_view.specs.Agreement.{Heap, State, Agrees, stood};
ghost use Rattle.object_view.specs.Parts.{Onward, ReadsOnly, Gives};
ghost use Rattle.type_schema.specs.declared.objects.Header.{Header};
ghost use Rattle.type_schema.specs.declared.objects.Half.{Half};
ghost use Rattle.type_schema.specs.Structures.{IsVertex, IsList, list_at, half_of};
ghost use Rattle.half_edge_lists.specs.Forms.{FormTells};

use a1_base::Addr;
use object_view::{PartFault, View, addr_of, look};
use std::alloc::Global;
use std::sync::Wait;
use type_schema::{Half, header_of, list_of, long_of};

/// How a list has its half-edges.
#[derive(Debug, Drop)]
pub enum Form<'a> {
    /// As these entries of one object.
    Short(&'a [u8]),
    /// So many, in the tree of this anchor.
    Long { count: u64, anchor: Addr },
}

/// The address of a vertex's list of outgoing (`out`) or incoming half-edges.
pub fn list_at<V: View, R: Wait>(
    rt: &R,
    alloc: Global,
    view: &mut V,
    header: Addr,
    out: bool,
) -> Result<Addr, PartFault>
    requires served { V.reaches view.old (header.region % V.count view.old) ≡ true }
    ensures tells { (h : Heap) (graph : Addr) (fields : Header) → Agrees h (V.trace view.new) (V.overlay view.new)
        → IsVertex (V.count view.old) (stood h (V.overlay view.old)) header graph fields
        → Gives result (list_at out fields) }
    ensures reads { ReadsOnly (λ b. b ≡ header) (V.trace view.old) (V.trace view.new) }
    ensures overlay { V.overlay view.new ≡ V.overlay view.old }
    ensures onward { Onward V.trace V.overlay V.reaches V.count V.kept view.old view.new }
{
    let bytes = look(rt, alloc, view, header)?;
    let Some((_, fields)) = header_of(bytes.as_slice()) else {
        return Err(PartFault::Torn { at: header });
    };
    Ok(if out { fields.out } else { fields.into })
}

/// The form of a list of this owner: none only where the bytes are none of a list that stands.
pub fn form_of(bytes: &[u8], owner: Addr) -> Option<Form>
    ensures { (nodes : ℕ) (s : State) (at : Addr) (halves : List Half) (places : List Addr) → s at ≡ Some bytes.now
        → IsList nodes s at owner halves places → FormTells nodes s at owner halves places result }
{
    let (found, form, rest) = list_of(bytes)?;
    if found != owner {
        return None;
    }
    if form == 0 {
        return Some(Form::Short(rest));
    }
    let (count, anchor) = long_of(rest)?;
    Some(Form::Long { count, anchor })
}

/// The half-edge of a kind and a far header that a list has with this word, if it has one.
pub fn half_with(kind: u32, far: Addr, word: Option<u64>) -> Option<Half>
    ensures { result ≡ option_map (half_of kind far) word }
{
    match word {
        None => None,
        Some(word) => Some(Half {
            kind,
            far,
            body: addr_of(word),
        }),
    }
}
