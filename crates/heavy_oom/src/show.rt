//! How values are printed.

use crate::lab::{Lab, Said};
use heavy::Heavy;
use hh_counters::{BucketSaving, Candidates, Monitor, Summary};
use hh_countmin::{Family, Table};
use hh_pool::{Outcome, Plan};
use hh_saved::Saved;
use hh_shared::SumSeat;
use hh_stream::{Cutting, Item, Key, Stream};
use std::fmt;
use std::test::Fail;

/// Bytes, in hexadecimal.
#[derive(Drop)]
pub struct Hex<'a>(pub &'a [u8]);

impl fmt::Display for Hex<'_> {
    fn fmt<W: fmt::Write>(&self, f: &mut fmt::Formatter<W>) -> fmt::Result {
        for byte in self.0 {
            write!(f, "{byte:02x}")?;
        }
        Ok(())
    }
}

/// Numbers.
#[derive(Drop)]
pub struct Numbers<'a>(pub &'a [u64]);

impl fmt::Display for Numbers<'_> {
    fn fmt<W: fmt::Write>(&self, f: &mut fmt::Formatter<W>) -> fmt::Result {
        for number in self.0 {
            write!(f, "{number} ")?;
        }
        Ok(())
    }
}

/// Writes a key and a number.
fn pair<W: fmt::Write>(f: &mut fmt::Formatter<W>, key: &[u8], number: u64) -> fmt::Result {
    let key = Hex(key);
    write!(f, "{key} {number} ")
}

/// A stream by all its readers.
#[derive(Drop)]
pub struct Items<'a>(pub &'a Stream);

impl fmt::Display for Items<'_> {
    fn fmt<W: fmt::Write>(&self, f: &mut fmt::Formatter<W>) -> fmt::Result {
        let (len, total) = (self.0.len(), self.0.total());
        write!(f, "len {len} total {total}: ")?;
        all_items(f, self.0.items())
    }
}

fn all_items<W: fmt::Write>(f: &mut fmt::Formatter<W>, items: &[Item]) -> fmt::Result {
    for item in items {
        pair(f, item.key().bytes(), item.weight())?;
    }
    Ok(())
}

/// A summary by all its readers.
#[derive(Drop)]
pub struct Counters<'a>(pub &'a Summary);

impl fmt::Display for Counters<'_> {
    fn fmt<W: fmt::Write>(&self, f: &mut fmt::Formatter<W>) -> fmt::Result {
        let (k, total, sum) = (self.0.k(), self.0.total(), self.0.sum());
        let slack = self.0.slack();
        write!(f, "k {k} total {total} sum {sum} slack {slack}: ")?;
        entries(f, self.0)
    }
}

// Writes each key with its counter by both readers.
fn entries<W: fmt::Write>(f: &mut fmt::Formatter<W>, summary: &Summary) -> fmt::Result {
    for i in 0..summary.len() {
        let (key, counter) = summary.entry(i);
        let (bytes, found) = (Hex(key.bytes()), summary.get(key));
        write!(f, "{bytes} {counter} {found} ")?;
    }
    Ok(())
}

/// The keys of candidates.
#[derive(Drop)]
pub struct Keys<'a>(pub &'a Candidates);

impl fmt::Display for Keys<'_> {
    fn fmt<W: fmt::Write>(&self, f: &mut fmt::Formatter<W>) -> fmt::Result {
        for i in 0..self.0.len() {
            let key = Hex(self.0.key(i).bytes());
            write!(f, "{key} ")?;
        }
        Ok(())
    }
}

/// A family of hash functions.
#[derive(Drop)]
pub struct Rows<'a>(pub &'a Family);

impl fmt::Display for Rows<'_> {
    fn fmt<W: fmt::Write>(&self, f: &mut fmt::Formatter<W>) -> fmt::Result {
        let z = self.0.z();
        write!(f, "z {z}: ")?;
        coefficients(f, self.0)
    }
}

fn coefficients<W: fmt::Write>(f: &mut fmt::Formatter<W>, family: &Family) -> fmt::Result {
    for r in 0..family.depth() {
        let (factor, addend) = family.row(r);
        write!(f, "{factor} {addend} ")?;
    }
    Ok(())
}

/// A table, by its total and its cells.
#[derive(Drop)]
pub struct Cells<'a>(pub &'a Table);

impl fmt::Display for Cells<'_> {
    fn fmt<W: fmt::Write>(&self, f: &mut fmt::Formatter<W>) -> fmt::Result {
        let (total, cells) = (self.0.total(), Numbers(self.0.cells()));
        write!(f, "total {total}: {cells}")
    }
}

/// The rows of a report.
#[derive(Drop)]
pub struct Report<'a>(pub &'a [Heavy]);

impl fmt::Display for Report<'_> {
    fn fmt<W: fmt::Write>(&self, f: &mut fmt::Formatter<W>) -> fmt::Result {
        for row in self.0 {
            pair(f, row.key.bytes(), row.weight)?;
        }
        Ok(())
    }
}

/// What a call answers.
pub trait Answer {
    /// Prints the answer.
    fn tell(&self, lab: &Lab) -> Result<Said, Fail>;
}

impl Answer for Key {
    fn tell(&self, lab: &Lab) -> Result<Said, Fail> {
        lab.answer(Hex(self.bytes()))
    }
}

impl Answer for Stream {
    fn tell(&self, lab: &Lab) -> Result<Said, Fail> {
        lab.answer(Items(self))
    }
}

impl Answer for Candidates {
    fn tell(&self, lab: &Lab) -> Result<Said, Fail> {
        lab.answer(Keys(self))
    }
}

impl Answer for Plan {
    fn tell(&self, lab: &Lab) -> Result<Said, Fail> {
        lab.answer(self.count())
    }
}

impl Answer for Cutting {
    fn tell(&self, lab: &Lab) -> Result<Said, Fail> {
        lab.answer(self.count())
    }
}

impl Answer for Summary {
    fn tell(&self, lab: &Lab) -> Result<Said, Fail> {
        lab.answer(Counters(self))
    }
}

impl Answer for &Summary {
    fn tell(&self, lab: &Lab) -> Result<Said, Fail> {
        lab.answer(Counters(self))
    }
}

impl Answer for BucketSaving {
    fn tell(&self, lab: &Lab) -> Result<Said, Fail> {
        lab.answer(self.total())
    }
}

impl Answer for Family {
    fn tell(&self, lab: &Lab) -> Result<Said, Fail> {
        lab.answer(Rows(self))
    }
}

impl Answer for Table {
    fn tell(&self, lab: &Lab) -> Result<Said, Fail> {
        lab.answer(Cells(self))
    }
}

impl Answer for Saved {
    fn tell(&self, lab: &Lab) -> Result<Said, Fail> {
        match self {
            Saved::Counters(summary) => lab.answer(Counters(summary)),
            Saved::Cells(_) => Err(Fail::new("a summary was saved")),
        }
    }
}

impl Answer for Vec<u8> {
    fn tell(&self, lab: &Lab) -> Result<Said, Fail> {
        lab.answer(Hex(self.as_slice()))
    }
}

impl Answer for Vec<u64> {
    fn tell(&self, lab: &Lab) -> Result<Said, Fail> {
        lab.answer(Numbers(self.as_slice()))
    }
}

impl Answer for Vec<Heavy> {
    fn tell(&self, lab: &Lab) -> Result<Said, Fail> {
        lab.answer(Report(self.as_slice()))
    }
}

impl Answer for Outcome {
    fn tell(&self, lab: &Lab) -> Result<Said, Fail> {
        lab.show(Counters(&self.summary))?;
        lab.show(Cells(&self.table))?;
        lab.answer(Report(self.heavy.as_slice()))
    }
}

// The first pass of one worker.
impl Answer for (SumSeat, Vec<(usize, Summary)>) {
    fn tell(&self, lab: &Lab) -> Result<Said, Fail> {
        lab.answer(self.1.len())
    }
}

// The first pass of the calling thread.
impl Answer for (Vec<Summary>, Table) {
    fn tell(&self, lab: &Lab) -> Result<Said, Fail> {
        lab.answer(format_args!("{} {}", self.0.len(), self.1.total()))
    }
}

// The second pass of the calling thread.
impl Answer for (Vec<u64>, u64) {
    fn tell(&self, lab: &Lab) -> Result<Said, Fail> {
        lab.answer(format_args!("{} {}", self.0.len(), self.1))
    }
}
