use crate::{Value, ValueFault, compare, decode, encode, front_key, key_bytes};
use a1_base::{Bin, ReadFault, Txt};
use std::alloc::{AllocError, Global};
use std::cmp::Ordering;
use std::test::Fail;

#[test]
fn encodes_and_decodes(rt: HostRuntime) -> Result<(), Fail> {
    let number = Value::Int(7);
    let bytes = encode(rt.alloc(), &number)?;
    assert_eq!(rt; bytes.as_slice(), b"\x01\0\0\0\0\0\0\0\x07".as_slice());
    let back = decode(rt.alloc(), bytes.as_slice())?;
    assert_eq!(rt; compare(&back, &number), Ordering::Equal);
    let text = Value::Text(Txt::from_text(rt.alloc(), "é")?);
    let bytes = encode(rt.alloc(), &text)?;
    assert_eq!(rt; bytes.as_slice(), b"\x02\0\0\0\x02\xc3\xa9".as_slice());
    let back = decode(rt.alloc(), bytes.as_slice())?;
    assert_eq!(rt; compare(&back, &text), Ordering::Equal);
    Ok(())
}

#[test]
fn names_the_first_fault(rt: HostRuntime) {
    for (bytes, want) in [
        (b"".as_slice(), ValueFault::Short),
        (b"\x09".as_slice(), ValueFault::Kind(9)),
        (b"\x01\0\0\0\0\0\0\x07".as_slice(), ValueFault::Short),
        (b"\x02".as_slice(), ValueFault::Short),
        (b"\x02\0\0\0".as_slice(), ValueFault::Short),
        (b"\x02\0\0\x10\x01".as_slice(), ValueFault::Long),
        (b"\x02\0\0\0\x02\xff".as_slice(), ValueFault::Short),
        (b"\x02\0\0\0\x01\xff\0".as_slice(), ValueFault::Utf8),
        (b"\x03\0\0\0\x01\xff\0".as_slice(), ValueFault::Spare),
    ] {
        assert_eq!(rt; decode(rt.alloc(), bytes).err(), Some(want), "at {bytes:?}");
    }
}

#[test]
fn reads_a_text_of_4096_bytes(rt: HostRuntime) -> Result<(), Fail> {
    let most = filled(rt.alloc(), b"\x02\0\0\x10\0", 4_096, b"")?;
    let value = decode(rt.alloc(), most.as_slice())?;
    let back = encode(rt.alloc(), &value)?;
    assert_eq!(rt; back.as_slice(), most.as_slice());
    let more = filled(rt.alloc(), b"\x02\0\0\x10\x01", 4_097, b"")?;
    assert_eq!(rt;
        decode(rt.alloc(), more.as_slice()).err(),
        Some(ValueFault::Long)
    );
    Ok(())
}

#[test]
fn spells_and_reads_keys(rt: HostRuntime) -> Result<(), Fail> {
    for (value, want) in [
        (
            Value::Int(-1),
            b"\x01\x7f\xff\xff\xff\xff\xff\xff\xff".as_slice(),
        ),
        (
            Value::Text(Txt::from_text(rt.alloc(), "a\0b")?),
            b"\x02a\0\xffb\0\0".as_slice(),
        ),
        (
            Value::Bytes(Bin::from_slice(rt.alloc(), &[0, 255])?),
            b"\x03\0\xff\xff\0\0".as_slice(),
        ),
    ] {
        let key = key_bytes(rt.alloc(), &value)?;
        assert_eq!(rt; key.as_slice(), want);
        let (back, rest) = front_key(rt.alloc(), want)?;
        assert_eq!(rt; compare(&back, &value), Ordering::Equal);
        assert!(rt; rest.is_empty());
    }
    Ok(())
}

#[test]
fn reads_a_key_of_256_bytes(rt: HostRuntime) -> Result<(), Fail> {
    let most = filled(rt.alloc(), b"\x02", 256, b"\0\0")?;
    let (value, rest) = front_key(rt.alloc(), most.as_slice())?;
    assert!(rt; rest.is_empty());
    let back = key_bytes(rt.alloc(), &value)?;
    assert_eq!(rt; back.as_slice(), most.as_slice());
    let more = filled(rt.alloc(), b"\x02", 257, b"\0\0")?;
    assert_eq!(rt;
        front_key(rt.alloc(), more.as_slice()).err(),
        Some(ReadFault::Malformed)
    );
    assert_eq!(rt;
        front_key(rt.alloc(), b"\x02a\0\x01\0\0").err(),
        Some(ReadFault::Malformed)
    );
    Ok(())
}

// So many letters between two parts.
fn filled(alloc: Global, front: &[u8], size: usize, end: &[u8]) -> Result<Bin, AllocError> {
    let mut bytes = Bin::from_slice(alloc, front)?;
    for _ in 0..size {
        bytes.append(b"x")?;
    }
    bytes.append(end)?;
    Ok(bytes)
}
