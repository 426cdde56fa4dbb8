//! The first bytes of the inputs that can't be read a second time, kept for what is printed of
//! their faults.

use std::alloc::{AllocError, Global};
use std::cell::{Cell, RefCell};

/// The most bytes that are kept of all inputs.
const MOST: usize = 65_536;

/// The first bytes of an input.
#[derive(Drop)]
pub struct FirstBytes {
    number: u64,
    pub bytes: Vec<u8>,
    /// Whether these are all bytes that came of it.
    pub is_whole: bool,
}

impl FirstBytes {
    /// Begins with none of the input `number`.
    fn new(alloc: Global, number: u64) -> FirstBytes {
        FirstBytes {
            number,
            bytes: Vec::new(alloc),
            is_whole: true,
        }
    }

    /// Keeps the next `bytes` as far as there is `room` and memory, and gives the room that is
    /// left.
    fn add(&mut self, bytes: &[u8], room: usize) -> usize {
        if !self.is_whole {
            return room;
        }
        let first = bytes.get(..room).unwrap_or(bytes);
        let are_kept = self.bytes.extend_from_slice(first).is_ok();
        self.is_whole = are_kept && first.len() == bytes.len();
        room.saturating_sub(first.len())
    }

    /// Copies them.
    fn copy(&self, alloc: Global) -> Result<FirstBytes, AllocError> {
        Ok(FirstBytes {
            number: self.number,
            bytes: Vec::from_slice(alloc, self.bytes.as_slice())?,
            is_whole: self.is_whole,
        })
    }
}

/// Pushes the input `number` after `inputs`, unless it is the last of them.
fn push_input(alloc: Global, inputs: &mut Vec<FirstBytes>, number: u64) -> Result<(), AllocError> {
    let is_last = match inputs.last() {
        Some(last) => last.number == number,
        None => false,
    };
    if !is_last {
        inputs.push(FirstBytes::new(alloc, number))?;
    }
    Ok(())
}

/// Copies what `inputs` have of the input `number`.
fn copy_of(alloc: Global, inputs: &[FirstBytes], number: u64) -> Option<FirstBytes> {
    for input in inputs {
        if input.number == number {
            return input.copy(alloc).ok();
        }
    }
    None
}

/// The first bytes of inputs, which are read one after the other: as many of all as there is room
/// for.
#[derive(Drop)]
pub struct Begin {
    alloc: Global,
    inputs: RefCell<Vec<FirstBytes>>,
    room: Cell<usize>,
}

impl Begin {
    /// Begins with no input.
    pub fn new(alloc: Global) -> Begin {
        Begin {
            alloc,
            inputs: RefCell::new(Vec::new(alloc)),
            room: Cell::new(MOST),
        }
    }

    /// Takes the next `bytes` of the input `number`. None are its end.
    pub fn add(&self, number: u64, bytes: &[u8]) {
        let Ok(mut inputs) = self.inputs.try_borrow_mut() else {
            return;
        };
        if push_input(self.alloc, &mut inputs, number).is_err() {
            return;
        }
        if let Some(input) = inputs.last_mut() {
            self.room.set(input.add(bytes, self.room.get()));
        }
    }

    /// Gives what is kept of the input `number`, if it was read.
    pub fn of(&self, number: u64) -> Option<FirstBytes> {
        match self.inputs.try_borrow() {
            Ok(inputs) => copy_of(self.alloc, &inputs, number),
            Err(_) => None,
        }
    }
}
