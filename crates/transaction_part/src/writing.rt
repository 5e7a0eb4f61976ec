//! Writing at a node, in the transaction alone.
ghost use Rattle.std.specs.Prelude.{◌≡◌, OnErr, OnOk};
ghost use Rattle.a1_base.specs.declared.place.TxnId.{TxnId};
ghost use Rattle.write_set.specs.Writes.{Overwrites};
ghost use Rattle.transaction_part.specs.Part.{IsRunning, MayWrite, written};

use crate::part::Part;
use a1_base::{Addr, Bin, Memory, TxnId};
use node_turns::Standing;
use turnstile::Turnstile;

impl Part {
    /// Writes an object of the node anew, none for an object that goes: the transaction wrote it before, or read bytes
    /// there. `Memory` comes for want of memory alone, and leaves the writes as they were.
    pub fn write(
        &mut self,
        _lock: &Turnstile<Standing>,
        _t: TxnId,
        _r: u64,
        at: Addr,
        value: Option<Bin>,
    ) -> Result<(), Memory>
        requires running { IsRunning _lock.now _t _r self.old }
        requires may { MayWrite _t _r self.old at }
        ensures running { IsRunning _lock.now _t _r self.new }
        ensures ok { OnOk result (Overwrites at value (written self.old) (written self.new)) }
        ensures err { OnErr result (written self.new ≡ written self.old) }
        ensures pass { self.new.pass ≡ self.old.pass }
    {
        self.writes.put(at, value)
    }
}
