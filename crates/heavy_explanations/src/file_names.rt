//! Which file belongs to the number of a fault.

use crate::escaped::Name;
use heavy_requests::Asked;

/// Gives what the input of this `name` and `number` is called. Standard input is `-`, or has the
/// number 0.
pub(crate) fn input_name(name: &[u8], number: u64) -> Name<'_> {
    if number == 0 || name == b"-".as_slice() {
        Name(b"standard input")
    } else {
        Name(name)
    }
}

/// The names of the files of a command line: saved ones, and after them those of records.
#[derive(Clone, Copy)]
pub(crate) struct FileNames<'a> {
    saved: &'a [Vec<u8>],
    records: &'a [Vec<u8>],
}

impl<'a> FileNames<'a> {
    /// Gives those that `asked` names.
    pub(crate) fn of(asked: &'a Asked) -> FileNames<'a> {
        FileNames {
            saved: &asked.files,
            records: &asked.records.files,
        }
    }

    /// Gives the name of the file `number`, from 1 on.
    pub(crate) fn name(self, number: u64) -> &'a [u8] {
        let place = number.saturating_sub(1) as usize;
        let name = match place.checked_sub(self.saved.len()) {
            None => self.saved.get(place),
            Some(place) => self.records.get(place),
        };
        match name {
            Some(name) => name.as_slice(),
            None => b"",
        }
    }

    /// Gives what the input `number` is called.
    pub(crate) fn input(self, number: u64) -> Name<'a> {
        input_name(self.name(number), number)
    }
}
