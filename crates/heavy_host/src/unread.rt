//! The input that can't be read, and why.

use std::io::Error;
use std::sync::atomic::{AtomicBool, AtomicI32, AtomicU64, Ordering};

/// The number of an input that can't be read, and the reason, which any thread may note.
#[derive(Drop)]
pub struct Unread {
    /// 0 is standard input, or nothing yet.
    number: AtomicU64,
    /// The system's number of the error, and 0 where the system gave none.
    code: AtomicI32,
    /// Whether the error is of the file that was to keep a pipe's bytes.
    is_unkept: AtomicBool,
}

impl Unread {
    /// Begins with none.
    pub fn new() -> Unread {
        Unread {
            number: AtomicU64::new(0),
            code: AtomicI32::new(0),
            is_unkept: AtomicBool::new(false),
        }
    }

    /// Notes an input's `number` and the `error` that it met.
    pub fn note(&self, number: u64, error: &Error) {
        self.number.store(number, Ordering::SeqCst);
        let code = error.raw_os_error().unwrap_or(0);
        self.code.store(code, Ordering::SeqCst);
    }

    /// Notes the `error` of the file that was to keep a pipe's bytes.
    pub fn note_unkept(&self, error: &Error) {
        self.note(0, error);
        self.is_unkept.store(true, Ordering::SeqCst);
    }

    /// Whether the error that was noted is of the file that was to keep a pipe's bytes.
    pub fn is_unkept(&self) -> bool {
        self.is_unkept.load(Ordering::SeqCst)
    }

    /// Gives the number that was noted.
    pub fn number(&self) -> u64 {
        self.number.load(Ordering::SeqCst)
    }

    /// Gives the error of the system that was noted, if there is one.
    pub fn error(&self) -> Option<Error> {
        match self.code.load(Ordering::SeqCst) {
            0 => None,
            code => Some(Error::from_raw_os_error(code)),
        }
    }
}
