//! A node behind a turnstile, and what it began with.
ghost use Rattle.node_turns.specs.Standing.{begins_with, Stands};
ghost use Rattle.farm_node.specs.Story.{number_of};
ghost use Rattle.std.specs.Prelude.{◌≡◌, ◌<◌, ◌≤◌, [], ◌∷◌, IfOk, refl};
ghost use Rattle.a1_base.specs.declared.limits.TheConstants.{NODE_LIMIT};
ghost use Rattle.a1_base.specs.Stamps.{IsStamp};
ghost use Rattle.node_turns.specs.Standing.{CanBegin, Began};

use a1_base::{Addr, Bin, Memory};
use farm_node::{Entry, Node};
use std::alloc::Global;
use std::snapshot::Snapshot;
use turnstile::Keeps;

/// A node with what it began with. It lies behind one pointer, so that a turn moves no more than that.
#[derive(Drop)]
pub struct Standing {
    pub(crate) inner: Box<Inner>,
}

/// The node, its number among so many nodes, its actors, the stamp of the loaded objects, and these.
#[derive(Drop)]
pub struct Inner {
    pub(crate) node: Node,
    pub(crate) number: u32,
    pub(crate) nodes: u32,
    pub(crate) actors: u32,
    pub(crate) stamp: u64,
    pub(crate) loaded: Snapshot<Vec<(Addr, Bin)>>,
}

impl Keeps for Standing {
    type Entry = Entry;

    ghost first = { begins_with };

    ghost number = { number_of };

    ghost stands = { Stands };

    ghost first_is = { λ s. refl };
}

impl Standing {
    /// The node number `node` of `nodes`, for actors from 1 to `actors`, with these objects, each at the stamp `stamp`.
    /// `Memory` comes for want of memory alone.
    pub fn new(
        alloc: Global,
        objects: Vec<(Addr, Bin)>,
        node: u32,
        nodes: u32,
        actors: u32,
        stamp: u64,
    ) -> Result<Standing, Memory>
        requires nodes { nodes ≤ NODE_LIMIT }
        requires node { node < nodes }
        requires stamp { (0 < stamp) × IsStamp stamp }
        requires objects { CanBegin node nodes actors stamp objects.items }
        ensures began { IfOk result (λ s. Began s node nodes actors stamp objects.items) }
        ensures stands { IfOk result (λ s. Stands s (begins_with s ∷ [])) }
    {
        let loaded = Snapshot::of(&objects);
        let mut made = Node::new(alloc, node, nodes, actors, stamp)?;
        made.load(alloc, objects)?;
        let inner = Inner {
            node: made,
            number: node,
            nodes,
            actors,
            stamp,
            loaded,
        };
        match Box::new(alloc, inner) {
            Ok(inner) => Ok(Standing { inner }),
            Err(_) => Err(Memory),
        }
    }

    /// The node itself.
    pub fn into_node(self) -> Node
        ensures { result ≡ self.inner.value.node }
    {
        let Standing { inner } = self;
        let Inner {
            node,
            number: _,
            nodes: _,
            actors: _,
            stamp: _,
            loaded: _,
        } = Box::into_inner(inner);
        node
    }
}
