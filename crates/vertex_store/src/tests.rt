ghost use Rattle.std.specs.Prelude.{IfOk, ◌≡◌};
ghost use Rattle.type_schema.specs.Formed.{IsRecord};

use crate::{GraphRef, create, destroy, record_of, set};
use a1_base::{Addr, ReadFault};
use object_view::{MemView, PartFault, look, store};
use std::alloc::Global;
use std::sync::Wait;
use std::test::Fail;
use type_schema::{Record, front_record, header_of, short_bytes};

const GRAPH: GraphRef = GraphRef {
    at: Addr {
        region: 1,
        offset: 7,
    },
    number: 3,
};

// The number 7, the text `Ada` and the bytes 0 and 255, as a record is spelled.
const ADA: &[u8] = &[
    3, 1, 0, 0, 0, 0, 0, 0, 0, 7, 2, 0, 0, 0, 3, 65, 100, 97, 3, 0, 0, 0, 2, 0, 255,
];

// The number 8 alone.
const EIGHT: &[u8] = &[1, 1, 0, 0, 0, 0, 0, 0, 0, 8];

// The record that is spelled so.
fn spelled(alloc: Global, bytes: &[u8]) -> Result<Record, ReadFault>
    ensures { IfOk result IsRecord }
{
    match front_record(alloc, bytes) {
        Ok((values, _)) => Ok(values),
        Err(fault) => Err(fault),
    }
}

// The same records as they are printed.
const ADA_TEXT: &str =
    "Record { values: [Int(7), Text(Txt { text: \"Ada\" }), Bytes(Bin { bytes: [0, 255] })] }";

const EIGHT_TEXT: &str = "Record { values: [Int(8)] }";

// Whether the vertex has this record, as it is printed.
fn has<R: Wait>(
    rt: &R,
    alloc: Global,
    view: &mut MemView,
    header: Addr,
    text: &str,
) -> Result<bool, PartFault> {
    let values = record_of(rt, alloc, view, header)?;
    match format!(in alloc; "{:?}", values) {
        Ok(found) => Ok(found.as_str() == text),
        Err(_) => Err(PartFault::Memory),
    }
}

// The list of outgoing half-edges that a header names.
fn out_of<R: Wait>(
    rt: &R,
    alloc: Global,
    view: &mut MemView,
    header: Addr,
) -> Result<Addr, PartFault> {
    let bytes = look(rt, alloc, view, header)?;
    match header_of(bytes.as_slice()) {
        Some((_, fields)) => Ok(fields.out),
        None => Err(PartFault::Torn { at: header }),
    }
}

// Gives the list of outgoing half-edges one, of the type 9 and to the vertex itself.
fn lead_back<R: Wait>(
    rt: &R,
    alloc: Global,
    view: &mut MemView,
    header: Addr,
) -> Result<(), PartFault> {
    let out = out_of(rt, alloc, view, header)?;
    let half = [
        0, 12, 0, 0, 0, 9, 0, 0, 0, 1, 0, 0, 0, 0, 0, 0, 0, 1, 0, 0, 0, 1,
    ];
    let list = short_bytes(alloc, header, &half)?;
    look(rt, alloc, view, out)?;
    store(alloc, view, out, list.as_slice())
}

#[test]
fn a_vertex_comes_and_goes(rt: HostRuntime) -> Result<(), Fail> {
    let alloc = rt.alloc();
    let mut view = MemView::new(alloc, 2)?;
    let ada = spelled(alloc, ADA)?;
    let header = create(&rt, alloc, &mut view, 1, &GRAPH, 5, &ada)?;
    assert_eq!(rt; header.region % 2, 1);
    assert_eq!(rt; has(&rt, alloc, &mut view, header, ADA_TEXT), Ok(true));
    let eight = spelled(alloc, EIGHT)?;
    assert_eq!(rt; set(&rt, alloc, &mut view, header, &eight), Ok(()));
    assert_eq!(rt; has(&rt, alloc, &mut view, header, EIGHT_TEXT), Ok(true));
    assert_eq!(rt; destroy(&rt, alloc, &mut view, header), Ok(()));
    assert_eq!(rt;
        has(&rt, alloc, &mut view, header, EIGHT_TEXT),
        Err(PartFault::Torn { at: header })
    );
    assert_eq!(rt; view.into_heap(alloc)?.len(), 0);
    Ok(())
}

#[test]
fn a_vertex_with_a_half_edge_stays(rt: HostRuntime) -> Result<(), Fail> {
    let alloc = rt.alloc();
    let mut view = MemView::new(alloc, 1)?;
    let ada = spelled(alloc, ADA)?;
    let header = create(&rt, alloc, &mut view, 0, &GRAPH, 5, &ada)?;
    let out = out_of(&rt, alloc, &mut view, header)?;
    lead_back(&rt, alloc, &mut view, header)?;
    assert_eq!(rt;
        destroy(&rt, alloc, &mut view, header),
        Err(PartFault::Torn { at: out })
    );
    Ok(())
}
