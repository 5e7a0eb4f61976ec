//! The events of a node in the turns of a turnstile round it.
//!
//! An actor enters with its pass, makes one event or several, and leaves. Contracts see the node by its list of entries
//! (`farm_node`): a pass has seen a list, a turn has a longer one, and each event adds its entry behind it. The layer
//! knows nothing of transactions beyond one node.
#![tactic(auto)]

mod events;
mod standing;
mod told;
mod turns;

pub use events::{
    alloc_there, check_there, collect_there, is_held, lock_there, open_there, put_there,
    read_there, shut_there, unlock_there,
};
pub use standing::Standing;
pub use turns::{begin_turn, end_turn, next_turn};
