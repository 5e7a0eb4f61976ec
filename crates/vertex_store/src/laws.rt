//! What is proved of the places of headers and records.
ghost use Rattle.std.specs.Prelude.{◌≡◌, ◌<◌, ℕ, List};
ghost use Rattle.a1_base.specs.Lists.{IsAmong};
ghost use Rattle.a1_base.specs.declared.place.Addr.{Addr};
ghost use Rattle.object_view.specs.Agreement.{State};
ghost use Rattle.object_view.specs.Layout.{Entry};
ghost use Rattle.object_view.specs.Trees.{IsTree};
ghost use Rattle.type_schema.specs.declared.objects.Half.{Half};
ghost use Rattle.type_schema.specs.declared.objects.Header.{Header};
ghost use Rattle.type_schema.specs.Schemas.{Record};
ghost use Rattle.type_schema.specs.Structures.{IsVertex, IsBody, IsList};
ghost use Rattle.vertex_store.specs.Changes.{IsRecordKind};

/// A vertex's header is on no place of a list or a tree, nor is the record of a vertex or an edge, and none is both; a
/// header has one graph and the same fields, and a record one owner.
pub fn vertices_apart()
    ensures header_off_list { (nodes : ℕ) (s : State) (at graph : Addr) (fields : Header) (list owner : Addr)
        (halves : List Half) (places : List Addr) → IsVertex nodes s at graph fields
        → IsList nodes s list owner halves places → IsAmong at places → ⊥ }
    ensures header_off_tree { (nodes : ℕ) (s : State) (at graph : Addr) (fields : Header) (anchor owner : Addr)
        (pairs : List Entry) (places : List Addr) → IsVertex nodes s at graph fields
        → IsTree nodes s anchor owner pairs places → IsAmong at places → ⊥ }
    ensures body_off_list { (nodes : ℕ) (s : State) (kind : ℕ) (at of : Addr) (values : Record) (list owner : Addr)
        (halves : List Half) (places : List Addr) → IsRecordKind kind → IsBody s kind at of values
        → IsList nodes s list owner halves places → IsAmong at places → ⊥ }
    ensures body_off_tree { (nodes : ℕ) (s : State) (kind : ℕ) (at of : Addr) (values : Record) (anchor owner : Addr)
        (pairs : List Entry) (places : List Addr) → IsRecordKind kind → IsBody s kind at of values
        → IsTree nodes s anchor owner pairs places → IsAmong at places → ⊥ }
    ensures no_header { (nodes : ℕ) (s : State) (kind : ℕ) (at graph : Addr) (fields : Header) (of : Addr)
        (values : Record) → IsRecordKind kind → IsVertex nodes s at graph fields → IsBody s kind at of values → ⊥ }
    ensures one_graph { (nodes : ℕ) (s : State) (at graph other : Addr) (fields others : Header)
        → IsVertex nodes s at graph fields → IsVertex nodes s at other others → (graph ≡ other) × (fields ≡ others) }
    ensures one_owner { (s : State) (kind : ℕ) (at owner other : Addr) (values others : Record) → kind < 256
        → IsBody s kind at owner values → IsBody s kind at other others → (owner ≡ other) × (values ≡ others) }
{}
