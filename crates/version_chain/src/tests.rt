//! A chain's calls on their happy paths, the one that takes memory with ample memory.
use crate::Chain;
use a1_base::Bin;
use std::test::Fail;

#[test]
fn what_stands_before_and_after_a_cut(rt: HostRuntime) -> Result<(), Fail> {
    let alloc = rt.alloc();
    let mut chain = Chain::new(alloc);
    assert_eq!(rt; chain.reserve(), Ok(()));
    chain.push(3, Some(Bin::from_slice(alloc, b"old")?));
    assert_eq!(rt; chain.reserve(), Ok(()));
    chain.push(5, None);

    let old: Option<(u64, Option<&[u8]>)> = Some((3, Some(b"old")));
    let absent = Some((5, None));
    for (s, want) in [(2, None), (3, old), (4, old), (5, absent), (9, absent)] {
        assert_eq!(rt; chain.at(s), want, "at {s}");
    }
    assert_eq!(rt; (chain.cut(4), chain.cut(5)), (0, 1));
    for (s, want) in [(4, None), (5, absent)] {
        assert_eq!(rt; chain.at(s), want, "at {s}");
    }
    assert_eq!(rt;
        (chain.newest(), chain.len(), chain.is_empty()),
        (5, 1, false)
    );
    Ok(())
}
