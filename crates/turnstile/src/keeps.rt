//! What a locked value stands for, and what a caller tells of its turn.
ghost use Rattle.std.specs.Prelude.{◌≡◌, ℕ, ◌%◌, ◌^◌, List, length};

/// A value that stands for a list of entries.
pub trait Keeps {
    type Entry;

    // The entry with which the lists of a turnstile round this value begin.
    ghost first: { Self → Self.Entry };

    // Whose entry it is.
    ghost number: { Self.Entry → ℕ };

    // The value stands for that list of entries.
    ghost stands: { Self → List Self.Entry → Type 0 };

    ghost first_is: { (x : Self) → number (first x) ≡ 0 };
}

/// What a caller tells of its turn: the entries that it added.
pub trait Tells<E> {
    ghost entries: { Self → List E };

    /// How many entries were added, modulo 2^64.
    fn count(&self) -> u64
        ensures { result ≡ length (entries self.now) % 2 ^ 64 };
}
