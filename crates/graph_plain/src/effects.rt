//! A request's operations, one behind the other.
ghost use Rattle.std.specs.Prelude.{◌≡◌, ◌∷◌, []};
ghost use Rattle.std.specs.Result.{result_map_both};
ghost use Rattle.request_reader.specs.Operations.{effect};
ghost use Rattle.graph_plain.specs.Draft.{now_of, was_of};
ghost use Rattle.graph_plain.specs.Trying.{Appends, Steps, Reaches};

use crate::acting::act;
use crate::changing::changes_of;
use crate::deciding::decide;
use crate::draft::Draft;
use a1_base::{CHANGE_BYTES_LIMIT, CHANGE_LIMIT};
use graph_changes::room_left;
use request_reader::Op;
use std::alloc::Global;
use std::marker::Model;
use type_schema::{GraphFault, RowChange, Word, refuse};

// The rows that a request changes so far: as many as it may, with room for more bytes of them.
#[derive(Drop)]
struct Changing {
    rows: Vec<RowChange>,
    room: usize,
}

impl Model for Changing {
    ghost use Rattle.std.specs.Prelude.{◌≡◌, ◌+◌, ◌≤◌, List, length, sum_by};
    ghost use Rattle.a1_base.specs.declared.limits.TheConstants.{CHANGE_LIMIT, CHANGE_BYTES_LIMIT};
    ghost use Rattle.type_schema.specs.declared.rows.RowChange.{RowChange};
    ghost use Rattle.type_schema.specs.Rows.{item_size};

    ghost Value = { List RowChange };

    ghost view = { λ c. c.rows.items };

    ghost invariant = { λ c. (length c.rows.items ≤ CHANGE_LIMIT)
        × (c.room + sum_by item_size c.rows.items ≡ CHANGE_BYTES_LIMIT) };
}

impl Changing {
    fn new(alloc: Global) -> Changing
        ensures { result ≡ [] }
    {
        Changing {
            rows: Vec::new(alloc),
            room: CHANGE_BYTES_LIMIT,
        }
    }

    // Takes one row more.
    #[tactic(auto, using(crate::proofs::EffectLemmas::within, crate::proofs::EffectLemmas::too_many, crate::proofs::EffectLemmas::too_big))]
    fn push(&mut self, row: RowChange) -> Result<(), GraphFault>
        ensures { Appends result self.old (row ∷ []) self.new }
    {
        if self.rows.len() == CHANGE_LIMIT {
            return refuse(Word::Large);
        }
        let Some(room) = room_left(self.room, &row) else {
            return refuse(Word::Large);
        };
        self.rows.push(row)?;
        self.room = room;
        Ok(())
    }

    // Takes rows more.
    fn append(&mut self, more: Vec<RowChange>) -> Result<(), GraphFault>
        ensures { Appends result self.old more.items self.new }
    {
        let _ = &self.rows;
        for row in more {
            self.push(row)?;
        }
        Ok(())
    }
}

// Does one operation, and takes the rows that it changes.
#[tactic(auto, using(crate::proofs::EffectLemmas::stopped, crate::proofs::EffectLemmas::overflowed, crate::proofs::EffectLemmas::went))]
fn step(
    alloc: Global,
    draft: &mut Draft,
    changing: &mut Changing,
    op: &Op,
) -> Result<(), GraphFault>
    ensures exact { Steps result (now_of draft.old) changing.old op.now (now_of draft.new) changing.new }
    ensures was { was_of draft.new ≡ was_of draft.old }
{
    let action = decide(alloc, draft, op)?;
    let rows = changes_of(alloc, draft, &action)?;
    changing.append(rows)?;
    act(alloc, draft, action)?;
    Ok(())
}

/// Does the operations, one behind the other, and gives the rows that they change. After a fault the graph is some other
/// one, and can still go back.
pub fn effect_of(alloc: Global, draft: &mut Draft, ops: &[Op]) -> Result<Vec<RowChange>, GraphFault>
    ensures exact { Reaches (result_map_both (λ rows. rows.items) (λ f. f) result) (now_of draft.new) (effect (now_of draft.old) ops.now) }
    ensures was { was_of draft.new ≡ was_of draft.old }
{
    let mut changing = Changing::new(alloc);
    for op in ops {
        step(alloc, draft, &mut changing, op)?;
    }
    Ok(changing.rows)
}
