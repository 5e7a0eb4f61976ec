//! The laws of every run of the core, as public calls: each takes nothing, does nothing, and its contract is the law.
ghost use Rattle.farm_core.specs.Decided.{OneRun};
ghost use Rattle.farm_core.specs.Serial.{InEveryRun, ReadsWhole, SerialOrder, SnapshotsKept};

/// A state and its events decide what is answered, and the state that is left.
#[tactic(auto, using(crate::proofs::Decided::one_run))]
pub fn one_run()
    ensures { OneRun }
{}

/// What a read was answered is the value at its transaction's read stamp in the whole of its node's list, and in every
/// longer lawful list. Each node's list is lawful.
#[tactic(auto, using(crate::proofs::Answered::reads_stand))]
pub fn reads_whole()
    ensures { InEveryRun ReadsWhole }
{}

/// The transactions that installed all are serial in the order of their write stamps.
#[tactic(auto, using(crate::proofs::Runs::good_run, crate::proofs::Serial::serial))]
pub fn serial_order()
    ensures { InEveryRun (λ events answers s. SerialOrder s) }
{}

/// While a transaction is open, each node keeps what its snapshot shows.
#[tactic(auto, using(crate::proofs::Runs::good_run, crate::proofs::Serial::snapshots))]
pub fn snapshots_kept()
    ensures { InEveryRun (λ events answers s. SnapshotsKept s) }
{}
