//! What the calls are made with, and what is printed of them.

ghost use Rattle.std.specs.Prelude.{◌≡◌, IfOk, length};

use crate::show::Answer;
use hh_counters::{Candidates, Summary};
use hh_stream::{Key, Stream};
use std::alloc::{AllocError, Global};
use std::fmt::{Debug, Display};
use std::hint::black_box;
use std::test::Fail;

/// A request for a block of this size marks where a call begins, and one of the other where it
/// ends.
const BEGIN: usize = 100_003;

const END: usize = 100_019;

/// How many bytes a long key has. It takes memory, and a key of one byte takes none.
const LONG: usize = 40;

/// The letters and weights of the four items.
const ITEMS: [(u8, u64); 4] = [(b'a', 5), (b'b', 3), (b'c', 2), (b'a', 1)];

/// The same, as records after their keys.
const RECORDS: [(u8, &[u8]); 4] = [
    (b'a', b",5\n"),
    (b'b', b",3\n"),
    (b'c', b",2\n"),
    (b'a', b",1\n"),
];

/// What a call answers, which is made between its marks.
macro_rules! marked {
    ($lab:expr, $call:expr) => {{
        $lab.begin();
        let made = $call;
        $lab.end();
        made
    }};
}

pub(crate) use marked;

/// Makes a call between its marks, and prints what it answered; `$memory` is its fault where memory
/// is refused.
macro_rules! told {
    ($lab:expr, $call:expr, $memory:expr) => {{
        $lab.begin();
        let made = $call;
        $lab.end();
        $lab.tell(made, $memory)
    }};
}

pub(crate) use told;

/// What a call said.
#[derive(Clone, Copy, PartialEq, Eq)]
pub enum Said {
    /// Its answer, which was printed.
    Answer,
    /// That memory was refused.
    Memory,
}

/// The fault of a command line that names no call.
pub fn no_such_call(name: &str) -> Fail {
    Fail::new(format_args!("no call {name}"))
}

/// Where calls are made.
#[derive(Drop)]
pub struct Lab<'a> {
    rt: &'a HostRuntime,
    pub alloc: Global,
    is_long: bool,
}

impl<'a> Lab<'a> {
    /// Where calls are made with keys of 1 byte or, if they are long, of 40.
    pub fn new(rt: &'a HostRuntime, is_long: bool) -> Lab<'a> {
        Lab {
            rt,
            alloc: rt.alloc(),
            is_long,
        }
    }

    // Asks for a block of this size, and gives it back.
    fn mark(&self, size: usize) {
        let block: Result<Vec<u8>, AllocError> = Vec::with_capacity(self.alloc, size);
        let _block = black_box(block);
    }

    /// Marks where a call begins.
    pub fn begin(&self) {
        self.mark(BEGIN);
    }

    /// Marks where it has ended.
    pub fn end(&self) {
        self.mark(END);
    }

    // Prints a line.
    fn say<D: Display + Drop>(&self, line: D, said: Said) -> Result<Said, Fail> {
        println!(self.rt; "{line}")?;
        Ok(said)
    }

    /// Prints what an object shows.
    pub fn show<D: Display + Drop>(&self, what: D) -> Result<(), Fail> {
        println!(self.rt; "shows {what}")?;
        Ok(())
    }

    /// Prints what a call answered.
    pub fn answer<D: Display + Drop>(&self, what: D) -> Result<Said, Fail> {
        self.say(format_args!("answer {what}"), Said::Answer)
    }

    /// Prints that a call answered Memory.
    pub fn refused(&self) -> Result<Said, Fail> {
        self.say("memory", Said::Memory)
    }

    /// Prints what a call answered, or that it answered Memory, which is its fault `memory`.
    pub fn tell<T: Answer + Drop, E: PartialEq + Debug + Drop>(
        &self,
        made: Result<T, E>,
        memory: E,
    ) -> Result<Said, Fail> {
        match made {
            Ok(answer) => answer.tell(self),
            Err(fault) if fault == memory => self.refused(),
            Err(fault) => Err(fault.into()),
        }
    }

    /// Says that memory was refused after `calls` calls of a gate.
    pub fn refused_after(&self, calls: u64) -> Result<Said, Fail> {
        self.say(format_args!("memory after {calls}"), Said::Memory)
    }

    /// The bytes of a key.
    pub fn bytes(&self, letter: u8) -> Result<Vec<u8>, AllocError> {
        let len = if self.is_long { LONG } else { 1 };
        vec![in self.alloc; letter; len]
    }

    pub fn key(&self, letter: u8) -> Result<Key, Fail> {
        Ok(Key::new(self.alloc, self.bytes(letter)?.as_slice())?)
    }

    // A key of these bytes and a number.
    fn numbered(&self, start: &[u8], number: u16) -> Result<Key, Fail> {
        let mut bytes = Vec::from_slice(self.alloc, start)?;
        bytes.extend_from_slice(&number.to_be_bytes())?;
        Ok(Key::new(self.alloc, bytes.as_slice())?)
    }

    /// As many different keys of weight 1, which begin with the bytes `start`.
    pub fn many_keys(&self, start: &[u8], count: u16) -> Result<Stream, Fail> {
        let mut stream = Stream::new(self.alloc);
        for number in 0..count {
            stream.push(self.numbered(start, number)?, 1)?;
        }
        Ok(stream)
    }

    /// Adds an item.
    pub fn push(&self, stream: &mut Stream, letter: u8, weight: u64) -> Result<(), Fail> {
        Ok(stream.push(self.key(letter)?, weight)?)
    }

    /// The four items.
    pub fn stream(&self) -> Result<Stream, Fail> {
        let mut stream = Stream::new(self.alloc);
        for (letter, weight) in &ITEMS {
            self.push(&mut stream, *letter, *weight)?;
        }
        Ok(stream)
    }

    /// The records of the items.
    pub fn records(&self) -> Result<Vec<u8>, Fail> {
        let mut text = Vec::new(self.alloc);
        for (letter, rest) in &RECORDS {
            text.extend_from_slice(self.bytes(*letter)?.as_slice())?;
            text.extend_from_slice(rest)?;
        }
        Ok(text)
    }

    /// The summary of the items for k = 2: a 4, b 1.
    pub fn summary(&self) -> Result<Summary, Fail> {
        Ok(Summary::of_items(self.alloc, 2, self.stream()?.items())?)
    }

    /// The keys of that summary.
    pub fn candidates(&self) -> Result<Candidates, Fail>
        ensures { IfOk result (λ candidates. length candidates ≡ 2) }
    {
        let candidates = Candidates::of(self.alloc, &self.summary()?)?;
        if candidates.len() != 2 {
            return Err(Fail::new("two keys have counters"));
        }
        Ok(candidates)
    }
}
