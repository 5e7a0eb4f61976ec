//! A store in memory over a few calls, one of which fails.
use crate::{MemStore, Store, StoreMiss};
use std::test::Fail;

#[test]
fn a_store_in_memory(rt: HostRuntime) -> Result<(), Fail> {
    let alloc = rt.alloc();
    let mut store = MemStore::new(Vec::new(alloc), vec![in alloc; 2]?);
    assert_eq!(rt; store.put(b"C"), Ok(()));
    assert_eq!(rt; store.put(b"D"), Err(StoreMiss::Failed));
    let first = store.get(0)?.ok_or("an item")?;
    assert_eq!(rt; first.as_slice(), b"C".as_slice());
    assert!(rt; store.get(1)?.is_none());
    assert_eq!(rt; store.items().len(), 1);
    let item = store.items().first().ok_or("an item")?;
    assert_eq!(rt; item.as_slice(), b"C".as_slice());
    Ok(())
}
