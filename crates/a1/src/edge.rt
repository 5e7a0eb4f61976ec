//! The real outside: standard input and standard output. They tell no contents.
ghost use Rattle.std.specs.Prelude.{None};

use a1_base::{Failed, Sink, Source};
use std::io::{ErrorKind, Read, Write};

/// A source over a reader. A read that is interrupted is tried again (POSIX, `EINTR`).
#[derive(Drop)]
pub struct StdinSource<R: Read> {
    inner: R,
    faults: u64,
}

impl<R: Read> StdinSource<R> {
    pub fn new(inner: R) -> StdinSource<R> {
        StdinSource { inner, faults: 0 }
    }
}

impl<R: Read> Source for StdinSource<R> {
    ghost left = { λ _. None };

    ghost faults = { λ s. s.faults };

    fn read(&mut self, buf: &mut [u8]) -> Result<usize, Failed> {
        for _ in 0..u64::MAX {
            match self.inner.read(buf) {
                Ok(count) => return Ok(count),
                Err(error) => {
                    if error.kind() != ErrorKind::Interrupted {
                        break;
                    }
                }
            }
        }
        self.faults = self.faults.saturating_add(1);
        Err(Failed)
    }
}

/// A sink over a writer. A write that is interrupted is tried again (POSIX, `EINTR`).
#[derive(Drop)]
pub struct StdoutSink<W: Write> {
    inner: W,
    faults: u64,
}

impl<W: Write> StdoutSink<W> {
    pub fn new(inner: W) -> StdoutSink<W> {
        StdoutSink { inner, faults: 0 }
    }
}

impl<W: Write> Sink for StdoutSink<W> {
    ghost written = { λ _. None };

    ghost faults = { λ s. s.faults };

    fn write(&mut self, piece: &[u8]) -> Result<usize, Failed> {
        for _ in 0..u64::MAX {
            match self.inner.write(piece) {
                Ok(count) => {
                    if count == 0 {
                        self.faults = self.faults.saturating_add(1);
                    }
                    return Ok(count);
                }
                Err(error) => {
                    if error.kind() != ErrorKind::Interrupted {
                        break;
                    }
                }
            }
        }
        self.faults = self.faults.saturating_add(1);
        Err(Failed)
    }
}
