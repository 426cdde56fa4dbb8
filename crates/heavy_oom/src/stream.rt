//! The calls of `hh_stream`.

use crate::lab::{Lab, Said, marked, no_such_call, told};
use crate::show::{Hex, Items};
use hh_stream::{Cutting, Item, Key, PushRefused, Stream, StreamFault};
use std::alloc::AllocError;
use std::hash::{BuildHasher, BuildHasherDefault, FoldHasher};
use std::test::Fail;

pub fn call(lab: &Lab, name: &str) -> Result<Said, Fail> {
    let a = lab.key(b'a')?;
    called(lab, name, &a, &mut lab.stream()?)
}

// Makes the call, with the key a and the four items.
fn called(lab: &Lab, name: &str, a: &Key, stream: &mut Stream) -> Result<Said, Fail> {
    let alloc = lab.alloc;
    match name {
        "Key::new" => told!(lab, Key::new(alloc, a.bytes()), StreamFault::Memory),
        "Key::of_bytes" => told!(lab, Key::of_bytes(alloc, a.bytes()), AllocError),
        "Key::copy" => told!(lab, a.copy(), AllocError),
        "Stream::push" => push_twice(lab, stream, lab.key(b'd')?),
        "Cutting::even" => told!(lab, Cutting::even(alloc, 10, 4), StreamFault::Memory),
        "Cutting::by_lengths" => by_lengths(lab, &[3, 0, 7]),
        "Key and Stream readers" => stream_readers(lab, stream, a),
        "Cutting readers" => cutting_readers(lab, stream),
        _ => Err(no_such_call(name)),
    }
}

fn by_lengths(lab: &Lab, lengths: &[usize]) -> Result<Said, Fail> {
    let made = marked!(lab, Cutting::by_lengths(lab.alloc, 10, lengths));
    lab.tell(made, StreamFault::Memory)
}

// The calls on keys, items and streams that take no memory.
fn stream_readers(lab: &Lab, stream: &Stream, a: &Key) -> Result<Said, Fail> {
    lab.begin();
    let none = Stream::new(lab.alloc).len();
    let (len, total) = (stream.len(), stream.total());
    let is_first = is_first(stream.items(), a);
    let is_hashed = has_hash_of_first(stream.items(), a);
    let is_one_byte = a.bytes().len() == 1;
    lab.end();
    lab.answer(format_args!("{none} {len} {total} {is_first} {is_hashed} {is_one_byte}"))
}

// Whether the first item is this key with weight 5, and the second has a greater one.
fn is_first(items: &[Item], key: &Key) -> bool {
    match items {
        [first, second, ..] => first.key() == key && first.weight() == 5 && key < second.key(),
        _ => false,
    }
}

// Whether the key has the hash of the first item's.
fn has_hash_of_first(items: &[Item], key: &Key) -> bool {
    match items.first() {
        Some(item) => hash_of(item.key()) == hash_of(key),
        None => false,
    }
}

fn hash_of(key: &Key) -> u64 {
    BuildHasherDefault::<FoldHasher>::new().hash_one(key)
}

// The calls on a cutting that take no memory.
fn cutting_readers(lab: &Lab, stream: &Stream) -> Result<Said, Fail> {
    let cutting = Cutting::even(lab.alloc, stream.len(), 3)?;
    lab.begin();
    let (count, len) = (cutting.count(), cutting.len());
    let first = cutting.piece(stream, 0).len();
    lab.end();
    lab.answer(format_args!("{count} {len} {first}"))
}

// Pushes the fifth item, for which the list grows, and again where memory was refused.
fn push_twice(lab: &Lab, stream: &mut Stream, key: Key) -> Result<Said, Fail> {
    if let Some(back) = pushed(lab, stream, key)? {
        let _again = pushed(lab, stream, back)?;
    }
    Ok(Said::Answer)
}

// Pushes the key; where memory was refused, it comes back.
fn pushed(lab: &Lab, stream: &mut Stream, key: Key) -> Result<Option<Key>, Fail> {
    lent(lab, stream, &key)?;
    match marked!(lab, stream.push(key, 4)) {
        Ok(()) => taken(lab, stream),
        Err(refused) => handed_back(lab, refused),
    }
}

fn lent(lab: &Lab, stream: &Stream, key: &Key) -> Result<(), Fail> {
    lab.show(Items(stream))?;
    lab.show(Hex(key.bytes()))
}

fn taken(lab: &Lab, stream: &Stream) -> Result<Option<Key>, Fail> {
    lab.show(Items(stream))?;
    let _said = lab.answer(stream.total())?;
    Ok(None)
}

fn handed_back(lab: &Lab, refused: PushRefused) -> Result<Option<Key>, Fail> {
    if refused.fault != StreamFault::Memory {
        return Err(Fail::new("push refused its item"));
    }
    let _said = lab.refused()?;
    Ok(Some(refused.key))
}
