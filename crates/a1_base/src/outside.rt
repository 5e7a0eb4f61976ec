//! Where bytes come from and go to.
ghost use Rattle.std.specs.Prelude.{◌≤◌, List, ℕ, Option, length, IfOk};
ghost use Rattle.a1_base.specs.Outside.{ReadGives, WriteTakes, HasCause, StopsWithCause};

/// A fault of the outside. The source, sink or store that answers it has counted it.
#[derive(Clone, Copy, Debug, PartialEq, Eq)]
pub struct Failed;

/// Where bytes come from.
pub trait Source {
    /// The bytes left, where the source tells them.
    ghost left: { Self → Option (List ℕ) };

    /// How often the source has failed.
    ghost faults: { Self → ℕ };

    /// Moves the next bytes into the front of `buf`, and says how many: none of a buffer with room only at the end.
    /// After `Failed` the same bytes are left as before.
    fn read(&mut self, buf: &mut [u8]) -> Result<usize, Failed>
        ensures bound { IfOk result (λ n. n ≤ length buf.new) }
        ensures bytes { ReadGives (left self.old) (left self.new) result buf.new }
        ensures cause { HasCause (faults self.old) (faults self.new) result };
}

/// Where bytes go to.
pub trait Sink {
    /// The bytes written, where the sink tells them.
    ghost written: { Self → Option (List ℕ) };

    /// How often the sink has failed, or has taken nothing of some bytes.
    ghost faults: { Self → ℕ };

    /// Takes bytes from the front of `piece`, and says how many. Where it takes none of some bytes it counts a fault.
    /// After `Failed` the same bytes are written as before.
    fn write(&mut self, piece: &[u8]) -> Result<usize, Failed>
        ensures bound { IfOk result (λ n. n ≤ length piece.now) }
        ensures bytes { WriteTakes (written self.old) (written self.new) result piece.now }
        ensures cause { HasCause (faults self.old) (faults self.new) result }
        ensures stop { StopsWithCause (faults self.old) (faults self.new) result piece.now };
}
