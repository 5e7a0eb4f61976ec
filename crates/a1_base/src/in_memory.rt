//! A source and a sink over memory, which fail where they are told to.
ghost use Rattle.std.specs.Prelude.{◌≡◌, ◌≤◌, min, [], Some, length, is_err, IfOk};
ghost use Rattle.a1_base.specs.Outside.{ReadGives, WriteTakes, HasCause, StopsWithCause};

use crate::{Bin, Failed, Sink, Source};
use std::alloc::Global;

/// Bytes in memory. The reads whose numbers, from 1, are in `fails` answer `Failed`; no other does.
#[derive(Drop)]
pub struct MemSource {
    bytes: Bin,
    at: usize,
    calls: u64,
    fails: Vec<u64>,
    faults: u64,
}

impl MemSource {
    ghost use Rattle.a1_base.specs.InMemory.{unread, reads_made, failing_reads, read_faults};

    pub fn new(bytes: Bin, fails: Vec<u64>) -> MemSource
        ensures unread { unread result ≡ bytes }
        ensures reads { reads_made result ≡ 0 }
        ensures fails { failing_reads result ≡ fails.items }
        ensures faults { read_faults result ≡ 0 }
    {
        MemSource {
            bytes,
            at: 0,
            calls: 0,
            fails,
            faults: 0,
        }
    }
}

impl Source for MemSource {
    ghost use Rattle.a1_base.specs.InMemory.{unread, reads_made, failing_reads, read_faults, next_number, fails_at};

    ghost left = { λ s. Some (unread s) };

    ghost faults = { λ s. read_faults s };

    #[tactic(auto, using(crate::proofs::Moved::moved))]
    fn read(&mut self, buf: &mut [u8]) -> Result<usize, Failed>
        ensures bound { IfOk result (λ n. n ≤ length buf.new) }
        ensures bytes { ReadGives (Some (unread self.old)) (Some (unread self.new)) result buf.new }
        ensures cause { HasCause (read_faults self.old) (read_faults self.new) result }

        // It gives all that fits, and fails exactly where it was told to.
        ensures count { IfOk result (λ n. n ≡ min (length (unread self.old)) (length buf.new)) }
        ensures fails { is_err result ≡ fails_at (failing_reads self.old) (next_number (reads_made self.old)) }
        ensures reads { reads_made self.new ≡ next_number (reads_made self.old) }
        ensures told { failing_reads self.new ≡ failing_reads self.old }
    {
        self.calls = self.calls.saturating_add(1);
        if self.fails.contains(&self.calls) {
            self.faults = self.faults.saturating_add(1);
            return Err(Failed);
        }
        let bytes = self.bytes.as_slice();
        if self.at >= bytes.len() {
            return Ok(0);
        }
        let (_, rest) = bytes.split_at(self.at);
        let count = rest.len().min(buf.len());
        let (front, _) = rest.split_at(count);
        buf[..count].copy_from_slice(front);
        self.at += count;
        Ok(count)
    }
}

/// Bytes that are kept in memory. The writes whose numbers, from 1, are in `fails` answer `Failed`; any other takes
/// the whole piece, unless memory is wanting, which is a fault too.
#[derive(Drop)]
pub struct MemSink {
    bytes: Bin,
    calls: u64,
    fails: Vec<u64>,
    faults: u64,
}

impl MemSink {
    ghost use Rattle.a1_base.specs.InMemory.{taken, writes_made, failing_writes, write_faults};

    pub fn new(alloc: Global, fails: Vec<u64>) -> MemSink
        ensures taken { taken result ≡ [] }
        ensures writes { writes_made result ≡ 0 }
        ensures fails { failing_writes result ≡ fails.items }
        ensures faults { write_faults result ≡ 0 }
    {
        MemSink {
            bytes: Bin::new(alloc),
            calls: 0,
            fails,
            faults: 0,
        }
    }

    /// The bytes written so far.
    pub fn bytes(&self) -> &[u8]
        ensures { result.now ≡ taken self.now }
    {
        self.bytes.as_slice()
    }
}

impl Sink for MemSink {
    ghost use Rattle.a1_base.specs.InMemory.{taken, writes_made, failing_writes, write_faults, next_number, fails_at};
    ghost use Rattle.std.specs.Prelude.{IsTrue};

    ghost written = { λ s. Some (taken s) };

    ghost faults = { λ s. write_faults s };

    fn write(&mut self, piece: &[u8]) -> Result<usize, Failed>
        ensures bound { IfOk result (λ n. n ≤ length piece.now) }
        ensures bytes { WriteTakes (Some (taken self.old)) (Some (taken self.new)) result piece.now }
        ensures cause { HasCause (write_faults self.old) (write_faults self.new) result }
        ensures stop { StopsWithCause (write_faults self.old) (write_faults self.new) result piece.now }

        // It takes whole pieces, and fails where it was told to.
        ensures count { IfOk result (λ n. n ≡ length piece.now) }
        ensures fails { IsTrue (fails_at (failing_writes self.old) (next_number (writes_made self.old)))
            → IsTrue (is_err result) }
        ensures writes { writes_made self.new ≡ next_number (writes_made self.old) }
        ensures told { failing_writes self.new ≡ failing_writes self.old }
    {
        self.calls = self.calls.saturating_add(1);
        if self.fails.contains(&self.calls) {
            self.faults = self.faults.saturating_add(1);
            return Err(Failed);
        }
        match self.bytes.append(piece) {
            Ok(()) => Ok(piece.len()),
            Err(_) => {
                self.faults = self.faults.saturating_add(1);
                Err(Failed)
            }
        }
    }
}
