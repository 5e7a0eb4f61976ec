//! The nodes of a farm behind their turnstiles, and the clock.
ghost use Rattle.std.specs.Prelude.{◌≡◌, ◌<◌, ◌≤◌, length, vec_capacity, vec_len};
ghost use Rattle.a1_base.specs.declared.limits.TheConstants.{NODE_LIMIT};
ghost use Rattle.farm_commit.specs.Nodes.{AreNodes, HavePasses};

use farm_node::Node;
use node_turns::Standing;
use snapshot_stamps::Stamps;
use turnstile::Turnstile;

/// A farm: its clock, and its nodes, each behind a turnstile.
#[derive(Drop)]
pub struct Farm {
    pub(crate) stamps: Stamps,
    pub(crate) locks: Vec<Turnstile<Standing>>,
    pub(crate) nodes: u32,
    pub(crate) actors: u32,
    // Empty, with a place for each node: `close` gives the nodes in it, and takes no memory.
    pub(crate) room: Vec<Node>,
    ghost counted: { length locks.items ≡ nodes },
    ghost some_node: { 0 < nodes },
    ghost few_nodes: { nodes ≤ NODE_LIMIT },
    ghost numbered: { AreNodes locks.items nodes actors },
    ghost entered: { HavePasses locks.items actors },
    ghost roomy: { (vec_len room ≡ 0) × (nodes ≤ vec_capacity room) },
}

impl Farm {
    /// How many nodes there are, from 1 to 16.
    pub fn nodes(&self) -> u32
        ensures count { result ≡ self.now.nodes }
        ensures some { 0 < result }
        ensures few { result ≤ NODE_LIMIT }
    {
        self.nodes
    }

    /// The clock.
    pub fn stamps(&self) -> &Stamps
        ensures { result.now ≡ self.now.stamps }
    {
        &self.stamps
    }
}
