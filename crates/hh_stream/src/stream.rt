//! Weighted items, and the streams that hold them in order.

ghost use Rattle.std.specs.Prelude.{◌≡◌, ◌+◌, ◌<◌, ◌≤◌, ◌↔◌, ◌++◌, ◌∷◌, [], length, ◌==◌, OnOk, OnErr, IfErr, IsErrAnd};
ghost use Rattle.hh_stream.specs.Faults.{IsPushFault};
ghost use Rattle.hh_stream.specs.Weights.{AreItems, max_total, total_of};

use crate::fault::StreamFault;
use crate::key::Key;
use std::alloc::Global;
use std::marker::Model;

/// The largest total weight of a stream: 2^63 - 1.
pub const MAX_TOTAL: u64 = 9_223_372_036_854_775_807;

/// A key with a weight of at least 1. A contract sees the pair of the key's bytes and the weight.
#[derive(Debug, Drop)]
pub struct Item {
    key: Key,
    weight: u64,
}

impl Model for Item {
    ghost use Rattle.std.specs.Prelude.{◌<◌};
    ghost use Rattle.hh_stream.specs.Weights.{Entry};

    ghost Value = { Entry };

    ghost view = { λ item. (item.key, item.weight) };

    ghost invariant = { λ item. 0 < item.weight };
}

impl Item {
    /// The key.
    pub fn key(&self) -> &Key
        ensures { result.now ≡ self.now.0 }
    {
        &self.key
    }

    /// The weight.
    pub fn weight(&self) -> u64
        ensures weight { result ≡ self.now.1 }
        ensures positive { 0 < result }
    {
        self.weight
    }
}

/// Items in order, whose weights add up to at most [`MAX_TOTAL`]. A contract sees the list of the
/// items.
#[derive(Debug, Drop)]
pub struct Stream {
    items: Vec<Item>,
    total: u64,
}

impl Model for Stream {
    ghost use Rattle.std.specs.Prelude.{List, ◌≡◌, ◌≤◌};
    ghost use Rattle.hh_stream.specs.Faults.{IsPushFault};
    ghost use Rattle.hh_stream.specs.Weights.{AreItems, Entry, max_total, total_of};

    ghost Value = { List Entry };

    ghost view = { λ stream. stream.items.items };

    ghost invariant = { λ stream. (stream.total ≡ total_of stream.items.items)
        × (stream.total ≤ max_total) × AreItems stream.items.items };
}

/// A push that was refused, with the key handed back.
#[derive(Debug, Drop)]
pub struct PushRefused {
    pub key: Key,
    pub fault: StreamFault,
}

impl Stream {
    /// The empty stream.
    pub fn new(alloc: Global) -> Stream
        ensures { result ≡ [] }
    {
        Stream {
            items: Vec::new(alloc),
            total: 0,
        }
    }

    /// Puts an item last. The fault is the first of `ZeroWeight`, `TotalTooLarge` and `Memory` that
    /// holds; the stream is then as it was.
    pub fn push(&mut self, key: Key, weight: u64) -> Result<(), PushRefused>
        ensures pushed { OnOk result (self.new ≡ self.old ++ (key, weight) ∷ []) }
        ensures unchanged { OnErr result (self.new ≡ self.old) }
        ensures handed_back { IfErr result (λ refused. refused.key ≡ key) }

        ensures zero_weight { IsErrAnd result (λ refused. refused.fault ≡ StreamFault.ZeroWeight)
            ↔ (weight ≡ 0) }
        ensures too_large { IsErrAnd result (λ refused. refused.fault ≡ StreamFault.TotalTooLarge)
            ↔ ((0 < weight) × (max_total < total_of self.old + weight)) }
        ensures faults { IfErr result (λ refused. IsPushFault refused.fault) }
    {
        if weight == 0 {
            return Err(PushRefused {
                key,
                fault: StreamFault::ZeroWeight,
            });
        }
        if weight > MAX_TOTAL - self.total {
            return Err(PushRefused {
                key,
                fault: StreamFault::TotalTooLarge,
            });
        }
        self.push_within(key, weight).map_err(|key| PushRefused {
            key,
            fault: StreamFault::Memory,
        })
    }

    /// [`push`](Stream::push) of a weight that fits, where only memory can be refused. A refusal is
    /// the key, handed back, and the stream is as it was.
    pub fn push_within(&mut self, key: Key, weight: u64) -> Result<(), Key>
        requires positive { 0 < weight }
        requires room { total_of self.old + weight ≤ max_total }
        ensures pushed { OnOk result (self.new ≡ self.old ++ (key, weight) ∷ []) }
        ensures unchanged { OnErr result (self.new ≡ self.old) }
        ensures handed_back { IfErr result (λ back. back ≡ key) }
    {
        // It tells that the bytes are a key's.
        let _bytes = key.bytes();
        match self.items.push(Item { key, weight }) {
            Ok(()) => {
                self.total += weight;
                Ok(())
            }
            Err(failed) => {
                let Item { key, weight: _ } = failed.value;
                Err(key)
            }
        }
    }

    /// How many items there are.
    pub fn len(&self) -> usize
        ensures { result ≡ length self.now }
    {
        self.items.len()
    }

    /// Whether there is no item.
    pub fn is_empty(&self) -> bool
        ensures { result ≡ (length self.now == 0) }
    {
        self.items.is_empty()
    }

    /// The sum of all weights.
    pub fn total(&self) -> u64
        ensures total { result ≡ total_of self.now }
        ensures bounded { result ≤ max_total }
    {
        self.total
    }

    /// The items, in order.
    pub fn items(&self) -> &[Item]
        ensures items { result.now ≡ self.now }
        ensures lawful { AreItems self.now }
        ensures bounded { total_of self.now ≤ max_total }
    {
        self.items.as_slice()
    }
}
