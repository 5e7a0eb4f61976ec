//! Reading a source to its end, and writing a text to a sink.
ghost use Rattle.std.specs.Prelude.{◌≡◌, ◌≤◌, Some, length, IfOk, IfErr, OnOk, OnErr};
ghost use Rattle.std.specs.Io.KnownBytes.{append_known};
ghost use Rattle.a1_base.specs.Outside.{HasCause};
ghost use Rattle.a1.specs.Streams.{IsInput, ReadsWithCause, WritesFront};

use a1_base::{Bin, Failed, READ_LIMIT, SCRIPT_LIMIT, Sink, Source};
use std::alloc::{AllocError, Global};

/// What a source gave.
pub enum Input {
    /// All its bytes, no more than a script may have.
    Whole(Bin),
    /// More bytes than a script may have.
    TooLong,
}

/// Why a source was not read.
#[derive(Clone, Copy, Debug)]
pub enum ReadFault {
    /// The source failed.
    Failed,
    /// Want of memory.
    Memory,
}

// A buffer of this length.
fn buffer(alloc: Global, len: usize) -> Result<Vec<u8>, AllocError>
    ensures { IfOk result (λ v. length v.items ≡ len) }
{
    vec![in alloc; 0u8; len]
}

/// Reads to the end, or until more has come than a script may have.
#[tactic(auto, using(crate::proofs::StreamLemmas::read_more))]
pub fn read_all<R: Source>(alloc: Global, source: &mut R) -> Result<Input, ReadFault>
    ensures bytes { IfOk result (λ input. IsInput (R.left source.old) (R.left source.new) input) }
    ensures fault { IfErr result (λ fault. ReadsWithCause (R.faults source.old) (R.faults source.new) fault) }
    ensures later { R.faults source.old ≤ R.faults source.new }
{
    let Ok(mut buf) = buffer(alloc, READ_LIMIT) else {
        return Err(ReadFault::Memory);
    };
    let mut bytes = Vec::new(alloc);
    'reading: while bytes.len() <= SCRIPT_LIMIT {
        let Ok(count) = source.read(&mut buf) else {
            return Err(ReadFault::Failed);
        };
        if count == 0 {
            return Ok(Input::Whole(Bin::from_vec(bytes)));
        }
        let (front, _) = buf.split_at(count);
        if bytes.extend_from_slice(front).is_err() {
            return Err(ReadFault::Memory);
        }
    }
    Ok(Input::TooLong)
}

/// Writes all these bytes. After `Failed`, which comes where the sink failed or took nothing, some of them are written,
/// from the first on.
#[tactic(auto, using(crate::proofs::StreamLemmas::written_more))]
pub fn write_all<W: Sink>(sink: &mut W, bytes: &[u8]) -> Result<(), Failed>
    ensures ok { OnOk result (W.written sink.new ≡ append_known (W.written sink.old) bytes.now) }
    ensures err { OnErr result (WritesFront (W.written sink.old) (W.written sink.new) bytes.now) }
    ensures cause { HasCause (W.faults sink.old) (W.faults sink.new) result }
{
    let mut at = 0;
    while at < bytes.len() {
        let (_, rest) = bytes.split_at(at);
        let count = sink.write(rest)?;
        if count == 0 {
            return Err(Failed);
        }
        at += count;
    }
    Ok(())
}
