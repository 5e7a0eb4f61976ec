//! Parts of an ordered map.
ghost use Rattle.std.specs.Prelude.{◌≡◌, Bool, true};
ghost use Rattle.std.specs.BTreeMap.Range.{IsLeBy};

use crate::places::ExactOrd;

/// Keys that hang together: what stands between two of them is one of them.
pub trait Part<K: ExactOrd> {
    ghost start: { Self → K };

    ghost has: { Self → K → Bool };

    /// A key that none of them comes before.
    fn start(&self) -> &K
        ensures { result.now ≡ start self.now };

    /// Whether the key is one of them.
    fn has(&self, key: &K) -> bool
        ensures { result ≡ has self.now key.now };

    ghost first: { (part : Self) (k : K) → K.IsSound k → has part k ≡ true → IsLeBy K.cmp (start part) k };

    ghost hangs_together: { (part : Self) (a b : K) → IsLeBy K.cmp (start part) a → IsLeBy K.cmp a b → has part b ≡ true
        → has part a ≡ true };
}
