//! The exact bytes of the objects of vertices, edges and lists of half-edges, and what is not one.
ghost use Rattle.std.specs.Prelude.{IfOk};
ghost use Rattle.type_schema.specs.Formed.{IsRecord};

use crate::{
    EDGE_BODY, Half, Header, Record, VERTEX_BODY, body_bytes, body_of, half_key, half_of,
    header_bytes, header_of, index_key, list_of, long_bytes, long_of, short_bytes,
};
use a1_base::{Addr, Bin, ReadFault, Txt};
use a1_value::Value;
use std::alloc::{AllocError, Global};
use std::test::Fail;

const OWNER: Addr = Addr {
    region: 1,
    offset: 2,
};

const FAR: Addr = Addr {
    region: 0x0a0b,
    offset: 0xffff_ffff,
};

// The bytes without their last, and with one more behind them.
fn cut_and_grown(alloc: Global, bytes: &[u8]) -> Result<(Bin, Bin), AllocError> {
    let cut = Bin::from_slice(alloc, &bytes[..bytes.len().saturating_sub(1)])?;
    let mut grown = Bin::from_slice(alloc, bytes)?;
    grown.append(&[0])?;
    Ok((cut, grown))
}

#[test]
fn a_header_is_37_bytes(rt: HostRuntime) -> Result<(), Fail> {
    let alloc = rt.alloc();
    let fields = Header {
        kind: 3,
        body: FAR,
        out: Addr {
            region: 4,
            offset: 5,
        },
        into: Addr {
            region: 6,
            offset: 7,
        },
    };
    let bytes = header_bytes(alloc, OWNER, &fields)?;
    let wanted: &[u8] = &[
        7, 0, 0, 0, 1, 0, 0, 0, 2, 0, 0, 0, 3, 0, 0, 10, 11, 255, 255, 255, 255, 0, 0, 0, 4, 0, 0,
        0, 5, 0, 0, 0, 6, 0, 0, 0, 7,
    ];
    assert_eq!(rt; bytes.as_slice(), wanted);
    assert_eq!(rt; header_of(wanted), Some((OWNER, fields)));
    let (cut, grown) = cut_and_grown(alloc, wanted)?;
    assert!(rt; header_of(cut.as_slice()).is_none());
    assert!(rt; header_of(grown.as_slice()).is_none());
    assert!(rt; header_of(&[8]).is_none());
    Ok(())
}

fn two_numbers(alloc: Global) -> Result<Record, AllocError>
    ensures { IfOk result IsRecord }
{
    Ok(Record {
        values: vec![in alloc; Value::Int(-2), Value::Int(7)]?,
    })
}

#[test]
fn a_record_stands_behind_its_owner(rt: HostRuntime) -> Result<(), Fail> {
    let alloc = rt.alloc();
    let values = two_numbers(alloc)?;
    for kind in [VERTEX_BODY, EDGE_BODY] {
        let bytes = body_bytes(alloc, kind, OWNER, &values)?;
        let wanted: &[u8] = &[
            kind, 0, 0, 0, 1, 0, 0, 0, 2, 2, 1, 255, 255, 255, 255, 255, 255, 255, 254, 1, 0, 0, 0,
            0, 0, 0, 0, 7,
        ];
        assert_eq!(rt; bytes.as_slice(), wanted);
        let (owner, found) = body_of(alloc, kind, wanted).expect(&rt, "ample memory");
        assert!(rt; owner == OWNER && found.values.as_slice() == values.values.as_slice());
        let (cut, grown) = cut_and_grown(alloc, wanted)?;
        for (kind, bytes) in [(kind, &cut), (kind, &grown), (7, &bytes)] {
            let read = body_of(alloc, kind, bytes.as_slice());
            assert!(rt; matches!(read, Err(ReadFault::Malformed)));
        }
    }
    Ok(())
}

#[test]
fn a_half_edge_goes_by_type_and_far_header(rt: HostRuntime) -> Result<(), Fail> {
    let alloc = rt.alloc();
    let key = half_key(alloc, 258, FAR)?;
    let wanted: &[u8] = &[0, 0, 1, 2, 0, 0, 10, 11, 255, 255, 255, 255];
    assert_eq!(rt; key.as_slice(), wanted);
    let half = Half {
        kind: 258,
        far: FAR,
        body: Addr {
            region: 1,
            offset: 3,
        },
    };
    assert_eq!(rt; half_of(wanted, 0x1_0000_0003), Some(half));
    let (cut, grown) = cut_and_grown(alloc, wanted)?;
    assert!(rt; half_of(cut.as_slice(), 0).is_none());
    assert!(rt; half_of(grown.as_slice(), 0).is_none());
    Ok(())
}

#[test]
fn a_list_is_its_entries_or_a_count_and_an_anchor(rt: HostRuntime) -> Result<(), Fail> {
    let alloc = rt.alloc();
    let short = short_bytes(alloc, OWNER, &[5, 6])?;
    let wanted: &[u8] = &[9, 0, 0, 0, 1, 0, 0, 0, 2, 0, 5, 6];
    assert_eq!(rt; short.as_slice(), wanted);
    let entries: &[u8] = &[5, 6];
    assert_eq!(rt; list_of(wanted), Some((OWNER, 0, entries)));
    let long = long_bytes(alloc, OWNER, 1_001, FAR)?;
    let wanted: &[u8] = &[
        9, 0, 0, 0, 1, 0, 0, 0, 2, 1, 0, 0, 0, 0, 0, 0, 3, 233, 0, 0, 10, 11, 255, 255, 255, 255,
    ];
    assert_eq!(rt; long.as_slice(), wanted);
    let (owner, form, rest) = list_of(wanted).expect(&rt, "a list");
    assert!(rt; owner == OWNER && form == 1);
    assert_eq!(rt; long_of(rest), Some((1_001, FAR)));
    let (cut, grown) = cut_and_grown(alloc, rest)?;
    assert!(rt; long_of(cut.as_slice()).is_none());
    assert!(rt; long_of(grown.as_slice()).is_none());
    assert!(rt; list_of(&[9, 0, 0, 0, 1, 0, 0, 0, 2, 2]).is_none());
    assert!(rt; list_of(&[9, 0, 0, 0, 1, 0, 0, 0, 2]).is_none());
    assert!(rt; list_of(&[3, 0, 0, 0, 1, 0, 0, 0, 2, 0]).is_none());
    Ok(())
}

#[test]
fn an_index_goes_by_value_before_key(rt: HostRuntime) -> Result<(), Fail> {
    let alloc = rt.alloc();
    let text = Value::Text(Txt::from_text(alloc, "a")?);
    let key = index_key(alloc, &Value::Int(-1), &text)?;
    let wanted: &[u8] = &[1, 127, 255, 255, 255, 255, 255, 255, 255, 2, 97, 0, 0];
    assert_eq!(rt; key.as_slice(), wanted);
    Ok(())
}
