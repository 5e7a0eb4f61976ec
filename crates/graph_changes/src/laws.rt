//! What is proved of the bytes of rows.
ghost use Rattle.a1_base.specs.Fronts.{Exact, ExactWhole};
ghost use Rattle.type_schema.specs.declared.rows.StoreKey.{StoreKey};
ghost use Rattle.type_schema.specs.Layout.{row_key, row_value, change_bytes};
ghost use Rattle.type_schema.specs.Formed.{IsStoreKey, FitsKey, HasForm};
ghost use Rattle.graph_changes.specs.Reading.{key_whole, value_whole, change_front};

/// What is read as a key, as a value of a key, or of a front as a change is spelled so, and what is spelled so is read.
#[tactic(auto, using(crate::proofs::RowLemmas::rows))]
pub fn rows_read_back()
    ensures key { ExactWhole key_whole row_key IsStoreKey }
    ensures value { (key : StoreKey) → ExactWhole (value_whole key) row_value (FitsKey key) }
    ensures change { Exact change_front change_bytes HasForm }
{}
