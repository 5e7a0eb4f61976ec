//! Calls of the layers below with ample memory.
use super::ASK_ANN;
use crate::streams::{Input, read_all};
use a1_base::{Bin, MemSink, MemSource, Sink};
use request_reader::Request;
use std::test::Fail;

fn whole(input: Input) -> Option<Bin> {
    match input {
        Input::Whole(bytes) => Some(bytes),
        Input::TooLong => None,
    }
}

fn asks_for(request: &Request, kind: &str) -> bool {
    match request {
        Request::Ask(ask) => ask.pattern.kind.as_text() == kind,
        Request::Do(_) | Request::After { .. } => false,
    }
}

#[test]
fn bytes_are_joined(rt: HostRuntime) -> Result<(), Fail> {
    let mut bytes = Bin::from_slice(rt.alloc(), b"ab")?;
    assert!(rt; bytes.as_slice() == b"ab".as_slice());
    bytes.append(b"c")?;
    assert!(rt; bytes.as_slice() == b"abc".as_slice());
    Ok(())
}

#[test]
fn a_source_is_read_whole(rt: HostRuntime) -> Result<(), Fail> {
    let bytes = Bin::from_slice(rt.alloc(), b"abc")?;
    let mut source = MemSource::new(bytes, Vec::new(rt.alloc()));
    let input = whole(read_all(rt.alloc(), &mut source)?).ok_or("the whole input")?;
    assert!(rt; input.as_slice() == b"abc".as_slice());
    Ok(())
}

#[test]
fn a_sink_takes_a_piece(rt: HostRuntime) -> Result<(), Fail> {
    let mut sink = MemSink::new(rt.alloc(), Vec::new(rt.alloc()));
    assert_eq!(rt; sink.write(b"ab"), Ok(2));
    assert!(rt; sink.bytes() == b"ab".as_slice());
    Ok(())
}

#[test]
fn a_request_is_read(rt: HostRuntime) -> Result<(), Fail> {
    let (_, line) = ASK_ANN.as_bytes().split_at(2);
    let request = request_reader::read(rt.alloc(), line)?;
    assert!(rt; asks_for(&request, "name"));
    Ok(())
}
