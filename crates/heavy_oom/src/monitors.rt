//! The calls of `hh_counters` on both forms of Space-Saving.

ghost use Rattle.std.specs.Prelude.{◌<◌};

use crate::lab::{Lab, Said, marked, no_such_call, told};
use crate::show::{Counters, Numbers};
use hh_counters::{BucketSaving, Monitor, SpaceSaving, SummaryFault};
use hh_stream::{Item, Key};
use std::fmt;
use std::test::Fail;

pub fn call(lab: &Lab, name: &str) -> Result<Said, Fail> {
    match name {
        "SpaceSaving::add" => added(lab, plain(lab, 2), b'd', 4),
        "SpaceSaving::add with room left" => added(lab, plain(lab, 3), b'd', 4),
        "SpaceSaving::add monitored" => added(lab, plain(lab, 2), b'b', 4),
        "SpaceSaving::into_summary" => translated(lab, plain(lab, 2)),
        "SpaceSaving readers" => readers(lab, plain(lab, 2)),
        "SpaceSaving::new" => space_saving_new(lab),
        _ => bucketed(lab, name),
    }
}

// A monitor of k + 1 counters.
fn plain(lab: &Lab, k: u64) -> Result<SpaceSaving, Fail> {
    Ok(SpaceSaving::new(lab.alloc, k)?)
}

// The calls on Space-Saving in buckets. The four items give a 6, b 3 and c 2, where a stands in the
// bucket of 5: with 3 more than c a newcomer goes into that bucket, and with 4 more into a new one.
fn bucketed(lab: &Lab, name: &str) -> Result<Said, Fail> {
    match name {
        "BucketSaving::add" => added(lab, buckets(lab, 2), b'd', 3),
        "BucketSaving::add new bucket" => added(lab, buckets(lab, 2), b'd', 4),
        "BucketSaving::add with room left" => added(lab, buckets(lab, 3), b'd', 4),
        "BucketSaving::add moving a key" => added(lab, waiting(lab), b'd', 4),
        "BucketSaving::add monitored" => added(lab, buckets(lab, 2), b'c', 4),
        "BucketSaving::into_summary" => translated(lab, buckets(lab, 2)),
        "BucketSaving readers" => readers(lab, buckets(lab, 2)),
        "BucketSaving::new" => bucket_saving_new(lab),
        _ => Err(no_such_call(name)),
    }
}

// A monitor of k + 1 counters in buckets.
fn buckets(lab: &Lab, k: u64) -> Result<BucketSaving, Fail> {
    Ok(BucketSaving::new(lab.alloc, k)?)
}

// Where c has 1 already, in the bucket of 1: before b is dropped, c moves to the bucket of 3, where
// b is.
fn waiting(lab: &Lab) -> Result<BucketSaving, Fail> {
    let mut monitor = buckets(lab, 2)?;
    add_one(lab, &mut monitor)?;
    Ok(monitor)
}

fn add_one<M: Monitor>(lab: &Lab, monitor: &mut M) -> Result<(), Fail> {
    let key = lab.key(b'c')?;
    Ok(monitor.add(&key, 1)?)
}

/// A monitor by all its readers, with the counters of some keys.
#[derive(Drop)]
struct Monitored<'a, M> {
    monitor: &'a M,
    keys: &'a [Key],
}

impl<M: Monitor> fmt::Display for Monitored<'_, M> {
    fn fmt<W: fmt::Write>(&self, f: &mut fmt::Formatter<W>) -> fmt::Result {
        let (k, total) = (self.monitor.k(), self.monitor.total());
        let (len, least) = (self.monitor.len(), self.monitor.least());
        write!(f, "k {k} total {total} len {len} least {least}: ")?;
        values(f, self.monitor, self.keys)
    }
}

fn values<W: fmt::Write, M: Monitor>(
    f: &mut fmt::Formatter<W>,
    monitor: &M,
    keys: &[Key],
) -> fmt::Result {
    for key in keys {
        let counter = monitor.get(key);
        write!(f, "{counter} ")?;
    }
    Ok(())
}

fn add_all<M: Monitor>(monitor: &mut M, items: &[Item]) -> Result<(), SummaryFault> {
    for item in items {
        monitor.add(item.key(), item.weight())?;
    }
    Ok(())
}

// The monitor, once it has seen the four items.
fn filled<M: Monitor>(lab: &Lab, made: Result<M, Fail>) -> Result<M, Fail> {
    let mut monitor = made?;
    add_all(&mut monitor, lab.stream()?.items())?;
    Ok(monitor)
}

fn keys(lab: &Lab) -> Result<Vec<Key>, Fail> {
    let mut keys = Vec::new(lab.alloc);
    for letter in b'a'..=b'd' {
        keys.push(lab.key(letter)?)?;
    }
    Ok(keys)
}

// The four items, and then one more, again where memory was refused.
fn added<M: Monitor>(
    lab: &Lab,
    made: Result<M, Fail>,
    letter: u8,
    weight: u64,
) -> Result<Said, Fail>
    requires { 0 < weight }
{
    let mut monitor = filled(lab, made)?;
    add_twice(lab, &mut monitor, &lab.key(letter)?, weight)
}

fn add_twice<M: Monitor>(lab: &Lab, monitor: &mut M, key: &Key, weight: u64) -> Result<Said, Fail>
    requires { 0 < weight }
{
    let keys = keys(lab)?;
    match added_once(lab, monitor, keys.as_slice(), key, weight)? {
        Said::Answer => Ok(Said::Answer),
        Said::Memory => added_once(lab, monitor, keys.as_slice(), key, weight),
    }
}

fn added_once<M: Monitor>(
    lab: &Lab,
    monitor: &mut M,
    keys: &[Key],
    key: &Key,
    weight: u64,
) -> Result<Said, Fail>
    requires { 0 < weight }
{
    lab.show(Monitored { monitor, keys })?;
    match marked!(lab, monitor.add(key, weight)) {
        Ok(()) => lab.answer(Monitored { monitor, keys }),
        Err(SummaryFault::Memory) => lab.refused(),
        Err(fault) => Err(fault.into()),
    }
}

// The summary of the four items, again where memory was refused.
fn translated<M: Monitor>(lab: &Lab, made: Result<M, Fail>) -> Result<Said, Fail> {
    let monitor = filled(lab, made)?;
    let keys = keys(lab)?;
    if let Some(back) = translated_once(lab, monitor, keys.as_slice())? {
        let _again = translated_once(lab, back, keys.as_slice())?;
    }
    Ok(Said::Answer)
}

// The monitor, handed back where memory was refused.
fn translated_once<M: Monitor>(lab: &Lab, monitor: M, keys: &[Key]) -> Result<Option<M>, Fail> {
    lab.show(Monitored {
        monitor: &monitor,
        keys,
    })?;
    match marked!(lab, monitor.into_summary()) {
        Ok(summary) => {
            let _said = lab.answer(Counters(&summary))?;
            Ok(None)
        }
        Err(back) => {
            let _said = lab.refused()?;
            Ok(Some(back))
        }
    }
}

fn space_saving_new(lab: &Lab) -> Result<Said, Fail> {
    let made = marked!(lab, SpaceSaving::new(lab.alloc, 2));
    lab.answer(made?.total())
}

fn bucket_saving_new(lab: &Lab) -> Result<Said, Fail> {
    told!(lab, BucketSaving::new(lab.alloc, 2), SummaryFault::Memory)
}

fn readers<M: Monitor>(lab: &Lab, made: Result<M, Fail>) -> Result<Said, Fail> {
    let monitor = filled(lab, made)?;
    read(lab, &monitor, &lab.key(b'a')?)
}

// The calls on a monitor of the four items that take no memory.
fn read<M: Monitor>(lab: &Lab, monitor: &M, a: &Key) -> Result<Said, Fail> {
    lab.begin();
    let numbers = [
        monitor.k(),
        monitor.total(),
        monitor.len() as u64,
        monitor.least(),
        monitor.get(a),
    ];
    lab.end();
    lab.answer(Numbers(&numbers))
}
