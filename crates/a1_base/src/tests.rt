use super::*;
use std::test::Fail;

#[test]
fn numbers_are_put_and_read(rt: HostRuntime) -> Result<(), Fail> {
    let mut out = Bin::with_capacity(rt.alloc(), 12)?;
    push_u32(&mut out, 0x0102_0304)?;
    push_u64(&mut out, 7)?;
    assert_eq!(rt;
        out.as_slice(),
        [1, 2, 3, 4, 0, 0, 0, 0, 0, 0, 0, 7].as_slice()
    );
    assert_eq!(rt; u32_at(out.as_slice(), 0), Some(0x0102_0304));
    assert_eq!(rt; u64_at(out.as_slice(), 4), Some(7));
    assert_eq!(rt; u32_at(out.as_slice(), 9), None);
    assert_eq!(rt; u64_at(out.as_slice(), 13), None);
    assert_eq!(rt; text_of(b"ann"), Some("ann"));
    assert_eq!(rt; text_of(&[255]), None);
    Ok(())
}
