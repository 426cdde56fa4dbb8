//! How many records failed a test and counted as a key.

use hh_records::Layout;
use std::alloc::Global;
use std::cell::RefCell;
use std::sync::Arc;
use std::sync::atomic::{AtomicU64, Ordering};

/// Gives the number that `count` has come to, where there is one.
fn number_in(count: &Option<Arc<AtomicU64, Global>>) -> u64 {
    match count {
        Some(count) => count.load(Ordering::SeqCst),
        None => 0,
    }
}

/// What counts the records that fail a test, where they count as a key.
#[derive(Drop)]
pub struct BadCount {
    count: RefCell<Option<Arc<AtomicU64, Global>>>,
}

impl BadCount {
    /// Begins with none.
    pub fn new() -> BadCount {
        BadCount {
            count: RefCell::new(None),
        }
    }

    /// Watches what counts the bad records of `layout`, if anything does.
    pub fn watch(&self, layout: &Layout) {
        let Some(bad_as) = &layout.bad_as else {
            return;
        };
        if let (Ok(theirs), Ok(mut count)) = (
            Arc::try_clone(&bad_as.count),
            self.count.try_borrow_mut(),
        ) {
            *count = Some(theirs);
        }
    }

    /// Gives how many there were in the last reading.
    pub fn count(&self) -> u64 {
        match self.count.try_borrow() {
            Ok(count) => number_in(&count),
            Err(_) => 0,
        }
    }
}
