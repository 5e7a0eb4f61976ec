ghost use Rattle.std.specs.Prelude.{◌≡◌, ◌≤◌};
ghost use Rattle.a1_base.specs.declared.limits.TheConstants.{NODE_LIMIT};
ghost use Rattle.object_view.specs.Calls.{IsObject};

use crate::{MemView, PartFault, View, ViewFault, look, make, store, take};
use a1_base::Addr;
use std::alloc::Global;
use std::sync::Wait;
use std::test::Fail;

fn at(region: u32, offset: u32) -> Addr
    ensures region { result.region ≡ region }
    ensures offset { result.offset ≡ offset }
{
    Addr { region, offset }
}

fn write<R: Wait>(
    rt: &R,
    alloc: Global,
    view: &mut MemView,
    at: Addr,
    bytes: &[u8],
) -> Result<(), PartFault>
    requires { IsObject bytes.now }
    ensures { view.new.nodes ≡ view.old.nodes }
{
    look(rt, alloc, view, at)?;
    store(alloc, view, at, bytes)
}

fn free<R: Wait>(rt: &R, alloc: Global, view: &mut MemView, at: Addr) -> Result<(), PartFault>
    ensures { view.new.nodes ≡ view.old.nodes }
{
    look(rt, alloc, view, at)?;
    take(alloc, view, at)
}

// Whether these bytes stand there.
fn has<R: Wait>(
    rt: &R,
    alloc: Global,
    view: &mut MemView,
    at: Addr,
    bytes: &[u8],
) -> Result<bool, PartFault>
    ensures { view.new.nodes ≡ view.old.nodes }
{
    let found = look(rt, alloc, view, at)?;
    Ok(found.as_slice() == bytes)
}

// The stamp of the object there.
fn stamp<R: Wait>(
    rt: &R,
    alloc: Global,
    view: &mut MemView,
    at: Addr,
) -> Result<Option<u64>, ViewFault>
    ensures { view.new.nodes ≡ view.old.nodes }
{
    match view.read(rt, alloc, at)? {
        Some(object) => Ok(Some(object.stamp)),
        None => Ok(None),
    }
}

#[test]
fn makes_writes_and_frees(rt: HostRuntime) -> Result<(), Fail> {
    let alloc = rt.alloc();
    let mut view = MemView::new(alloc, 3)?;
    assert_eq!(rt; view.nodes(), 3);
    assert_eq!(rt; make(&rt, alloc, &mut view, 1, b"ab"), Ok(at(1, 0)));
    assert_eq!(rt; make(&rt, alloc, &mut view, 1, b"cd"), Ok(at(1, 1)));
    assert_eq!(rt; make(&rt, alloc, &mut view, 2, b"ef"), Ok(at(2, 0)));
    assert_eq!(rt; has(&rt, alloc, &mut view, at(1, 1), b"cd"), Ok(true));
    assert_eq!(rt; write(&rt, alloc, &mut view, at(1, 1), b"gh"), Ok(()));
    assert_eq!(rt; has(&rt, alloc, &mut view, at(1, 1), b"gh"), Ok(true));
    assert_eq!(rt; stamp(&rt, alloc, &mut view, at(1, 1)), Ok(Some(0)));
    assert_eq!(rt; free(&rt, alloc, &mut view, at(1, 0)), Ok(()));
    assert_eq!(rt; stamp(&rt, alloc, &mut view, at(1, 0)), Ok(None));
    let torn = Err(PartFault::Torn { at: at(1, 0) });
    assert_eq!(rt; free(&rt, alloc, &mut view, at(1, 0)), torn);
    assert_eq!(rt;
        make(&rt, alloc, &mut view, 1, b"ij"),
        Ok(at(1, 2)),
        "a freed place counts as taken"
    );
    Ok(())
}

#[test]
fn gives_the_heap_back(rt: HostRuntime) -> Result<(), Fail> {
    let alloc = rt.alloc();
    let mut view = MemView::new(alloc, 2)?;
    make(&rt, alloc, &mut view, 1, b"ab")?;
    make(&rt, alloc, &mut view, 0, b"cd")?;
    let mut view = MemView::of(alloc, view.into_heap(alloc)?, 2)?;
    assert_eq!(rt; stamp(&rt, alloc, &mut view, at(0, 0)), Ok(Some(1)));
    assert_eq!(rt; has(&rt, alloc, &mut view, at(1, 0), b"ab"), Ok(true));
    assert_eq!(rt; make(&rt, alloc, &mut view, 1, b"ef"), Ok(at(1, 1)));
    assert_eq!(rt; free(&rt, alloc, &mut view, at(0, 0)), Ok(()));
    let heap = view.into_heap(alloc)?;
    assert_eq!(rt; heap.len(), 2);
    let mut view = MemView::of(alloc, heap, 2)?;
    assert_eq!(rt; stamp(&rt, alloc, &mut view, at(0, 0)), Ok(None));
    assert_eq!(rt; has(&rt, alloc, &mut view, at(1, 0), b"ab"), Ok(true));
    assert_eq!(rt; has(&rt, alloc, &mut view, at(1, 1), b"ef"), Ok(true));
    Ok(())
}
