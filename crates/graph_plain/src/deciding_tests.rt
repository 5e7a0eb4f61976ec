//! That the last number is not given to a graph. Which word each operation is refused by stands in the script that `a1`
//! is run on.
use crate::deciding::decide;
use crate::draft::Draft;
use a1_base::{GRAPH_NUMBER_LIMIT, Txt};
use request_reader::{Action, Op};
use std::alloc::Global;
use std::test::Fail;
use type_schema::{GraphFault, GraphName, Word};

fn graph_made(alloc: Global, next: u64) -> Result<Action, GraphFault> {
    let mut draft = Draft::opening(alloc)?;
    let tenant = Txt::from_text(alloc, "t")?;
    draft.tenants.put(tenant.copy(alloc)?, tenant, ())?;
    draft.next = next;
    let name = GraphName {
        tenant: Txt::from_text(alloc, "t")?,
        name: Txt::from_text(alloc, "g")?,
    };
    decide(alloc, &draft, &Op::CreateGraph(name))
}

// The number of the graph that is made: none where no number is left.
fn number_given(alloc: Global, next: u64) -> Result<Option<u64>, Fail> {
    let made = graph_made(alloc, next);
    match &made {
        Ok(Action::AddGraph { name: _, number }) => Ok(Some(*number)),
        Err(GraphFault::Refused(refusal)) if refusal.word == Word::GraphsFull => Ok(None),
        _ => Err(Fail::from("another answer")),
    }
}

#[test]
fn the_last_number_is_not_given(rt: HostRuntime) -> Result<(), Fail> {
    let alloc = rt.alloc();
    let last = GRAPH_NUMBER_LIMIT - 1;
    assert_eq!(rt; number_given(alloc, last)?, Some(last));
    assert_eq!(rt; number_given(alloc, GRAPH_NUMBER_LIMIT)?, None);
    Ok(())
}
