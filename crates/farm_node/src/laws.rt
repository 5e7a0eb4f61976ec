//! The laws of every lawful list, as public calls: each takes nothing, does nothing, and its contract is the law.
ghost use Rattle.farm_node.specs.Laws.{ReadsHold, PinsHold, MineDecides};
ghost use Rattle.farm_node.specs.Puts.{PutsHold};
ghost use Rattle.farm_node.specs.Locks.{LocksHold, RangesHold};
ghost use Rattle.farm_node.specs.Owned.{OwnedHold};
ghost use Rattle.farm_node.specs.Standing.{ListsGoOn};

/// What a read answered is the value at its stamp in every longer list, and where an object was made, nothing is there
/// at its transaction's read stamp.
#[tactic(auto, using(crate::proofs::ReadsStay::reads))]
pub fn reads_hold()
    ensures { ReadsHold }
{}

/// While an actor is pinned, the floor is at most its pin, and the node keeps the value at each stamp from the pin on.
#[tactic(auto, using(crate::proofs::ReadsStay::pins))]
pub fn pins_hold()
    ensures { PinsHold }
{}

/// What a transaction decided by a lock, an alloc or a check, no other changes between its two stamps; and what it puts
/// is what it last gave.
#[tactic(auto, using(crate::proofs::Decided::decides))]
pub fn mine_decides()
    ensures { MineDecides }
{}

/// The puts on an address: their stamps rise, the loaded one comes first, each is decided from its read stamp to its
/// own, and an actor's are those of its own entries.
#[tactic(auto, using(crate::proofs::PutsStay::puts))]
pub fn puts_hold()
    ensures { PutsHold }
{}

/// Locks and pins stay through entries of others, and a conflict blames an entry that is there.
#[tactic(auto, using(crate::proofs::Blames::locks))]
pub fn locks_hold()
    ensures { LocksHold }
{}

/// What an actor's own entries say of its locks and its reads, through entries of others and by its own, and what a node
/// keeps of its start.
#[tactic(auto, using(crate::proofs::Owning::owned))]
pub fn owned_hold()
    ensures { OwnedHold }
{}

/// Every stamp of a node, and every one that it answers, is below 2^62.
#[tactic(auto, using(crate::proofs::Blames::ranges))]
pub fn ranges_hold()
    ensures { RangesHold }
{}

/// Each event leads from a list that a node stands for to that list with one entry more, and loading changes the first
/// entry alone.
#[tactic(auto, using(crate::proofs::Standing::stand))]
pub fn lists_go_on()
    ensures { ListsGoOn }
{}
