//! Readers that fail, and writers that fail or that a signal interrupts.

use std::io;
use std::io::{Error, ErrorKind, Read, Write};

/// A reader of bytes that gives at most four at a time, counts its reads, and fails at the one with
/// a number, from 1 on.
#[derive(Drop)]
pub(crate) struct FailingReader<'a> {
    bytes: &'a [u8],
    reads: &'a mut u64,
    fails_at: u64,
}

impl<'a> FailingReader<'a> {
    pub(crate) fn new(bytes: &'a [u8], reads: &'a mut u64, fails_at: u64) -> FailingReader<'a> {
        FailingReader {
            bytes,
            reads,
            fails_at,
        }
    }
}

impl Read for FailingReader<'_> {
    fn read(&mut self, buf: &mut [u8]) -> io::Result<usize> {
        *self.reads = self.reads.saturating_add(1);
        if *self.reads == self.fails_at {
            return Err(Error::from(ErrorKind::BrokenPipe));
        }
        let count = self.bytes.len().min(4).min(buf.len());
        buf[..count].copy_from_slice(&self.bytes[..count]);
        self.bytes = &self.bytes[count..];
        Ok(count)
    }
}

/// What a writer does: it takes at most `left` bytes in all, and at most `at_once` at a time, and
/// then fails or takes none. An interrupted one fails each other call.
#[derive(Clone, Copy)]
pub(crate) struct Manner {
    pub(crate) left: usize,
    pub(crate) at_once: usize,
    pub(crate) fails: bool,
    pub(crate) flushes: bool,
    pub(crate) is_interrupted: bool,
}

impl Manner {
    /// A writer that takes `left` bytes, and then fails.
    pub(crate) fn taking(left: usize) -> Manner {
        Manner {
            left,
            at_once: 99,
            fails: true,
            flushes: true,
            is_interrupted: false,
        }
    }

    /// A writer that takes `left` bytes, and then none.
    pub(crate) fn taking_no_more_than(left: usize) -> Manner {
        let mut manner = Manner::taking(left);
        manner.fails = false;
        manner
    }

    /// A writer that takes all bytes, and whose flush fails.
    pub(crate) fn without_flush() -> Manner {
        let mut manner = Manner::taking(99);
        manner.flushes = false;
        manner
    }

    /// A writer that takes all bytes, one at a time.
    pub(crate) fn slow() -> Manner {
        let mut manner = Manner::taking(99);
        manner.at_once = 1;
        manner
    }

    /// Makes the writer an interrupted one.
    pub(crate) fn interrupted(self) -> Manner {
        let mut manner = self;
        manner.is_interrupted = true;
        manner
    }

    /// Writers that are given four bytes, and how many they take before they fail, where they do.
    pub(crate) fn of_four_bytes() -> [(Manner, Option<u64>); 11] {
        [
            (Manner::taking(0), Some(0)),
            (Manner::taking(1), Some(1)),
            (Manner::taking(2), Some(2)),
            (Manner::taking(3), Some(3)),
            (Manner::taking_no_more_than(0), Some(0)),
            (Manner::taking_no_more_than(3), Some(3)),
            (Manner::without_flush(), Some(4)),
            (Manner::taking(4), None),
            (Manner::slow(), None),
            (Manner::taking(4).interrupted(), None),
            (Manner::slow().interrupted(), None),
        ]
    }
}

/// A writer.
#[derive(Drop)]
pub(crate) struct FaultyWriter<'a> {
    manner: Manner,
    interrupts: bool,
    taken: &'a mut Vec<u8>,
}

impl<'a> FaultyWriter<'a> {
    pub(crate) fn new(manner: Manner, taken: &'a mut Vec<u8>) -> FaultyWriter<'a> {
        FaultyWriter {
            manner,
            interrupts: false,
            taken,
        }
    }
}

impl FaultyWriter<'_> {
    /// Fails where this call is interrupted.
    fn interrupt(&mut self) -> io::Result<()> {
        self.interrupts = self.manner.is_interrupted && !self.interrupts;
        if self.interrupts {
            return Err(Error::from(ErrorKind::Interrupted));
        }
        Ok(())
    }
}

impl Write for FaultyWriter<'_> {
    fn write(&mut self, buf: &[u8]) -> io::Result<usize> {
        self.interrupt()?;
        let count = buf.len().min(self.manner.left).min(self.manner.at_once);
        if count == 0 && self.manner.fails {
            return Err(Error::from(ErrorKind::BrokenPipe));
        }
        self.taken.extend_from_slice(&buf[..count])?;
        self.manner.left -= count;
        Ok(count)
    }

    fn flush(&mut self) -> io::Result<()> {
        self.interrupt()?;
        if self.manner.flushes {
            Ok(())
        } else {
            Err(Error::from(ErrorKind::BrokenPipe))
        }
    }
}
