// `value` has a file of its own: its clause names the row of `Turn`, which the file that declares `Turn` cannot import.
ghost use Rattle.std.specs.Prelude.{◌≡◌};
ghost use Rattle.std.specs.Borrow.{Lends, sem};
ghost use Rattle.turnstile.specs.contracts.lock.Turn.{the_row};
ghost use Rattle.turnstile.specs.Lent.{with_value};

use crate::keeps::Keeps;
use crate::lock::Turn;

impl<T: Keeps> Turn<T> {
    /// The value. When the borrow ends, the turn has what was written through it.
    pub fn value(&mut self) -> &mut T
        ensures* writes_back { sem 𝓛 (Lends (the_row T.row T.Entry.row T.Keeps) T.row self.entry result
            (with_value self.old)) }
        ensures value { result.now ≡ self.old.value }
    {
        &mut self.value
    }

    /// The value, to look at.
    pub fn get(&self) -> &T
        ensures { result.now ≡ self.now.value }
    {
        &self.value
    }
}
