//! Sinks: writers that say how many bytes they took, and whether they have failed.

ghost use Rattle.std.specs.Prelude.{◌≡◌, ◌≤◌, ◌||◌, ◌&&◌, ℕ, List, Bool, Option, false, true, length, is_err, is_ok, IfOk, IfErr, OnOk};
ghost use Rattle.std.specs.Io.KnownBytes.{Appends, Keeps, WriteAppends};
ghost use Rattle.hh_rows.specs.Sinks.{take_fails, took_nothing, TakesFirst};

use hh_faults::WriteFault;
use hh_stream::retrying;
use std::io::Write;
use thiserror::Error;

/// A sink that could not do what it was asked.
#[derive(Clone, Copy, Debug, PartialEq, Eq, Error)]
#[error("the sink could not do what it was asked")]
pub struct SinkFault;

/// What bytes are written to.
pub trait Sink {
    // The bytes that the sink has taken, where they are known.
    ghost taken: { Self → Option (List ℕ) };

    // Whether a call has failed.
    ghost has_failed: { Self → Bool };

    // Whether all that the sink has taken is flushed.
    ghost is_flushed: { Self → Bool };

    /// Takes bytes from the front on, and gives their number. A call that fails has taken none.
    fn take(&mut self, bytes: &[u8]) -> Result<usize, SinkFault>
        ensures count { IfOk result (λ count. count ≤ length bytes.now) }
        ensures takes { WriteAppends (taken self.old) (taken self.new) result bytes.now }
        ensures fails { has_failed self.new
            ≡ (has_failed self.old || take_fails result bytes.now) }
        ensures flushed { is_flushed self.new ≡ (is_flushed self.old && took_nothing result) };

    /// Hands on what was taken. It takes no byte, whatever it answers.
    fn flush(&mut self) -> Result<(), SinkFault>
        ensures takes { Keeps (taken self.old) (taken self.new) }
        ensures fails { has_failed self.new ≡ (has_failed self.old || is_err result) }
        ensures flushed { is_flushed self.new ≡ (is_flushed self.old || is_ok result) };

    /// Whether a call has failed, or took nothing of a nonempty slice.
    fn failed(&self) -> bool
        ensures { result ≡ has_failed self.now };
}

/// A sink over a writer, which passes each call on, and again where a signal interrupts it.
#[derive(Drop)]
pub struct Out<W> {
    inner: W,
    failed: bool,
    flushed: bool,
}

impl<W: Write> Out<W> {
    /// A sink that has not failed, and has taken nothing yet.
    pub fn new(inner: W) -> Out<W>
        ensures fresh { ⟦<Out<W> as Sink>⟧.has_failed result ≡ false }
        ensures flushed { ⟦<Out<W> as Sink>⟧.is_flushed result ≡ true }
        ensures taken { ⟦<Out<W> as Sink>⟧.taken result ≡ W.contents inner }
    {
        Out {
            inner,
            failed: false,
            flushed: true,
        }
    }
}

impl<W: Write> Sink for Out<W> {
    ghost taken = { λ out. W.contents out.inner };

    ghost has_failed = { λ out. out.failed };

    ghost is_flushed = { λ out. out.flushed };

    fn take(&mut self, bytes: &[u8]) -> Result<usize, SinkFault> {
        match retrying::write(&mut self.inner, bytes) {
            Ok(count) => {
                self.flushed = self.flushed && count == 0;
                if count == 0 && !bytes.is_empty() {
                    self.failed = true;
                }
                Ok(count)
            }
            Err(_) => {
                self.failed = true;
                Err(SinkFault)
            }
        }
    }

    fn flush(&mut self) -> Result<(), SinkFault> {
        match retrying::flush(&mut self.inner) {
            Ok(()) => {
                self.flushed = true;
                Ok(())
            }
            Err(_) => {
                self.failed = true;
                Err(SinkFault)
            }
        }
    }

    fn failed(&self) -> bool {
        self.failed
    }
}

/// Writes all the bytes, and then flushes.
///
/// Where no fault comes, all that the sink has taken is flushed, also where there are no bytes. A
/// [`WriteFault`] comes exactly where the sink has failed by the end. Where the flush fails, all
/// bytes are written.
pub fn put<S: Sink>(sink: &mut S, bytes: &[u8]) -> Result<(), WriteFault>
    requires { S.has_failed sink.old ≡ false }
    ensures all { OnOk result (Appends (S.taken sink.old) (S.taken sink.new) bytes.now) }
    ensures part { IfErr result (λ fault.
        TakesFirst (S.taken sink.old) (S.taken sink.new) bytes.now fault.written) }
    ensures flushed { OnOk result (S.is_flushed sink.new ≡ true) }
    ensures failed { is_err result ≡ S.has_failed sink.new }
{
    let mut written = 0usize;
    while written < bytes.len() {
        let rest = &bytes[written..];
        let count = sink.take(rest).unwrap_or(0);
        if count == 0 {
            return Err(WriteFault {
                written: written as u64,
            });
        }
        written += count;
    }
    match sink.flush() {
        Ok(()) => Ok(()),
        Err(_) => Err(WriteFault {
            written: bytes.len() as u64,
        }),
    }
}
