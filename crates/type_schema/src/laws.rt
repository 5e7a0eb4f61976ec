//! What is proved of the bytes of names, schemas and records.
ghost use Rattle.std.specs.Prelude.{◌≡◌, ◌<◌, ◌^◌, ◌++◌, ◌∷◌, [], ℕ, List, None, IsTrue};
ghost use Rattle.std.specs.Int.{w64, to_be_bytes};
ghost use Rattle.a1_base.specs.Fronts.{Exact, ExactWhole};
ghost use Rattle.a1_base.specs.Lists.{IsAmong};
ghost use Rattle.a1_base.specs.declared.place.Addr.{Addr};
ghost use Rattle.object_view.specs.Agreement.{State};
ghost use Rattle.object_view.specs.Layout.{Entry, word_of, object_bytes};
ghost use Rattle.object_view.specs.Trees.{IsTree};
ghost use Rattle.type_schema.specs.Names.{is_name};
ghost use Rattle.type_schema.specs.Layout.{name_bytes, schema_bytes, record_bytes};
ghost use Rattle.type_schema.specs.Formed.{is_list, IsRecord};
ghost use Rattle.type_schema.specs.Objects.{IsAddr, addr_bytes, IsHeader, header_bytes, header_of, body_bytes, body_of, half_key, half_key_of, list_front, long_of};
ghost use Rattle.type_schema.specs.declared.objects.Half.{Half};
ghost use Rattle.type_schema.specs.declared.objects.Header.{Header};
ghost use Rattle.type_schema.specs.Schemas.{Record};
ghost use Rattle.type_schema.specs.Objects.{IndexRow};
ghost use Rattle.type_schema.specs.Structures.{IsVertex, IsBody, IsList, IsIndex, SameOn};
ghost use Rattle.type_schema.specs.Reading.{name_front, schema_front, record_front};

/// What is read of a front as a name, a schema or a record is spelled so, and what is spelled so is read.
#[tactic(auto, using(crate::proofs::LayoutLemmas::layouts))]
pub fn layouts_read_back()
    ensures name { Exact name_front name_bytes (λ name. IsTrue (is_name name)) }
    ensures schema { Exact schema_front schema_bytes (λ schema. IsTrue (is_list schema)) }
    ensures values { Exact record_front record_bytes IsRecord }
{}

/// What is read as a header, a record's object, the key of a half-edge, or a list of half-edges is spelled so, and what
/// is spelled so is read.
pub fn objects_read_back()
    ensures header { ExactWhole header_of (λ x. header_bytes x.0 x.1) (λ x. IsAddr x.0 × IsHeader x.1) }
    ensures body { (kind : ℕ) → kind < 256
        → ExactWhole (body_of kind) (λ x. body_bytes kind x.0 x.1) (λ x. IsAddr x.0 × IsRecord x.1) }
    ensures half { ExactWhole half_key_of (λ x. half_key x.0 x.1) (λ x. (x.0 < 2 ^ 32) × IsAddr x.1) }
    ensures list { Exact list_front (λ x. object_bytes 9 (word_of x.0) (x.1 ∷ [])) (λ x. IsAddr x.0 × (x.1 < 2)) }
    ensures long { ExactWhole long_of (λ x. to_be_bytes w64 x.0 ++ addr_bytes x.1) (λ x. (x.0 < 2 ^ 64) × IsAddr x.1) }
{}

/// Equal bytes on its places keep a vertex, a record, a list or an index (`vertex`, `body`, `list`, `index`); each place
/// of a list has an object (`list_filled`), its own address is one of its places (`list_self`). No two lists share a place
/// (`lists_apart`), nor do a list and a tree of another owner than the list (`list_and_tree`), nor two trees
/// (`trees_apart`).
pub fn structures_stay()
    ensures vertex { (nodes : ℕ) (s t : State) (at graph : Addr) (fields : Header)
        → IsVertex nodes s at graph fields → t at ≡ s at → IsVertex nodes t at graph fields }
    ensures body { (s t : State) (kind : ℕ) (at owner : Addr) (values : Record)
        → IsBody s kind at owner values → t at ≡ s at → IsBody t kind at owner values }
    ensures list { (nodes : ℕ) (s t : State) (at owner : Addr) (halves : List Half) (places : List Addr)
        → IsList nodes s at owner halves places → SameOn s t places → IsList nodes t at owner halves places }
    ensures list_filled { (nodes : ℕ) (s : State) (at owner : Addr) (halves : List Half) (places : List Addr)
        → IsList nodes s at owner halves places → (a : Addr) → IsAmong a places → s a ≡ None → ⊥ }
    ensures list_self { (nodes : ℕ) (s : State) (at owner : Addr) (halves : List Half) (places : List Addr)
        → IsList nodes s at owner halves places → IsAmong at places }
    ensures lists_apart { (nodes : ℕ) (s : State) (at owner : Addr) (halves : List Half) (places : List Addr)
        (at2 owner2 : Addr) (halves2 : List Half) (places2 : List Addr) → IsList nodes s at owner halves places
        → IsList nodes s at2 owner2 halves2 places2 → (at ≡ at2 → ⊥)
        → (a : Addr) → IsAmong a places → IsAmong a places2 → ⊥ }
    ensures list_and_tree { (nodes : ℕ) (s : State) (at owner : Addr) (halves : List Half) (places : List Addr)
        (anchor owner2 : Addr) (pairs : List Entry) (below : List Addr) → IsList nodes s at owner halves places
        → IsTree nodes s anchor owner2 pairs below → IsAddr anchor → IsAddr owner2 → (at ≡ owner2 → ⊥)
        → (a : Addr) → IsAmong a places → IsAmong a below → ⊥ }
    ensures trees_apart { (nodes : ℕ) (s : State) (anchor owner : Addr) (pairs : List Entry) (at : List Addr)
        (anchor2 owner2 : Addr) (pairs2 : List Entry) (at2 : List Addr) → IsTree nodes s anchor owner pairs at
        → IsTree nodes s anchor2 owner2 pairs2 at2 → IsAddr anchor → IsAddr anchor2 → (anchor ≡ anchor2 → ⊥)
        → (a : Addr) → IsAmong a at → IsAmong a at2 → ⊥ }
    ensures index { (nodes : ℕ) (s t : State) (anchor owner : Addr) (rows : List IndexRow) (places : List Addr)
        → IsIndex nodes s anchor owner rows places → SameOn s t places → IsIndex nodes t anchor owner rows places }
{}
