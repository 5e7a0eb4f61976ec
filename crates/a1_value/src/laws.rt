//! What is proved of all values.
ghost use Rattle.a1_base.specs.Fronts.{Exact};
ghost use Rattle.a1_value.specs.Encoding.{IsStored, IsKey, value_bytes, stored_front, key_bytes, key_front, KeysInOrder};

/// Keys are in byte order as their values are in theirs.
pub fn keys_in_order()
    ensures { KeysInOrder }
{}

/// What is read of a front as a value, or as a key, is spelled so, and what is spelled so is read.
#[tactic(auto, using(crate::proofs::ValueLemmas::value_exact, crate::proofs::KeyLemmas::key_exact))]
pub fn fronts_read_back()
    ensures value { Exact stored_front value_bytes IsStored }
    ensures key { Exact key_front key_bytes IsKey }
{}
