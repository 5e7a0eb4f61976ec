//! What is proved of the places of indexes.
ghost use Rattle.std.specs.Prelude.{◌≡◌, ℕ, List, None};
ghost use Rattle.a1_base.specs.Lists.{IsAmong};
ghost use Rattle.a1_base.specs.declared.place.Addr.{Addr};
ghost use Rattle.object_view.specs.Agreement.{State};
ghost use Rattle.type_schema.specs.Objects.{IsAddr, IndexRow};
ghost use Rattle.type_schema.specs.Structures.{IsIndex};

/// Each place of an index has an object, and its anchor is one of them; indexes of different anchors share no place.
pub fn indexes_stand()
    ensures filled { (nodes : ℕ) (s : State) (anchor owner : Addr) (rows : List IndexRow) (places : List Addr)
        → IsIndex nodes s anchor owner rows places → (a : Addr) → IsAmong a places → s a ≡ None → ⊥ }
    ensures anchored { (nodes : ℕ) (s : State) (anchor owner : Addr) (rows : List IndexRow) (places : List Addr)
        → IsIndex nodes s anchor owner rows places → IsAmong anchor places }
    ensures apart { (nodes : ℕ) (s : State) (anchor owner : Addr) (rows : List IndexRow) (places : List Addr)
        (anchor2 owner2 : Addr) (rows2 : List IndexRow) (places2 : List Addr)
        → IsIndex nodes s anchor owner rows places → IsIndex nodes s anchor2 owner2 rows2 places2
        → IsAddr anchor → IsAddr anchor2 → (anchor ≡ anchor2 → ⊥)
        → (a : Addr) → IsAmong a places → IsAmong a places2 → ⊥ }
{}
