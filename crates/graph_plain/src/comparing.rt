//! Whether two graphs are the same.
ghost use Rattle.std.specs.Prelude.{◌≡◌, Decides};
ghost use Rattle.graph_plain.specs.Draft.{now_of};

use crate::draft::Draft;

/// Whether both are the same graph.
pub fn same_graph(ours: &Draft, theirs: &Draft) -> bool
    ensures { Decides result (now_of ours.now ≡ now_of theirs.now) }
{
    ours.next == theirs.next
        && ours.tenants.equal(&theirs.tenants)
        && ours.graphs.equal(&theirs.graphs)
        && ours.types.equal(&theirs.types)
        && ours.vertices.equal(&theirs.vertices)
        && ours.edges.equal(&theirs.edges)
}

#[cfg(test)]
mod tests {
    use super::same_graph;
    use crate::draft::Draft;
    use a1_base::Txt;
    use std::test::Fail;

    #[test]
    fn graphs_are_told_apart(rt: HostRuntime) -> Result<(), Fail> {
        let alloc = rt.alloc();
        let ours = Draft::opening(alloc)?;
        let mut theirs = Draft::opening(alloc)?;
        assert!(rt; same_graph(&ours, &theirs));
        let name = Txt::from_text(alloc, "t")?;
        theirs
            .tenants
            .put(name.copy(alloc)?, name.copy(alloc)?, ())?;
        assert!(rt; !same_graph(&ours, &theirs));
        assert!(rt; !same_graph(&theirs, &ours));
        theirs.tenants.take(name)?;
        assert!(rt; same_graph(&ours, &theirs));
        theirs.next += 1;
        assert!(rt; !same_graph(&ours, &theirs));
        Ok(())
    }
}
