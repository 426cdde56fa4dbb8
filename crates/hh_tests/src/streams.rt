//! The worked rows on keys, items, streams and cuttings.

use crate::fixtures::{assert_same, key_of};
use hh_stream::{Cutting, Item, Key, PushRefused, Stream, StreamFault};
use std::hash::{BuildHasher, BuildHasherDefault, FoldHasher};
use std::process::Abort;

// Makes `len` bytes.
fn bytes_of(rt: &(impl Abort + AllocGlobal), len: usize) -> Vec<u8> {
    let bytes = vec![in rt.alloc(); b'x'; len];
    bytes.expect(rt, "bytes")
}

// A key of these bytes that is a copy.
fn copy_of(rt: &(impl Abort + AllocGlobal), bytes: &[u8]) -> Key {
    key_of(rt, bytes).copy().expect(rt, "a copy")
}

// Whether a key of `len` bytes has a copy with the same bytes.
fn has_copy(rt: &(impl Abort + AllocGlobal), len: usize) -> bool {
    let bytes = bytes_of(rt, len);
    let copy = copy_of(rt, &bytes);
    copy == key_of(rt, &bytes) && copy.bytes() == bytes.as_slice()
}

#[test]
fn keys_have_1_to_4096_bytes(rt: HostRuntime) {
    for len in &[1, 24, 25, 255, 256, 4096] {
        assert!(rt; has_copy(&rt, *len), "length {len}");
    }
}

#[test]
fn keys_of_other_lengths_are_refused(rt: HostRuntime) {
    let alloc = rt.alloc();
    let long = bytes_of(&rt, 4097);
    assert_same(&rt, Key::new(alloc, b"").err(), Some(StreamFault::Empty));
    assert_same(
        &rt,
        Key::new(alloc, &long).err(),
        Some(StreamFault::TooLong),
    );
}

// Whether the first key is less than the second, and another.
fn is_less(key: &Key, other: &Key) -> (bool, bool) {
    (key < other, key != other)
}

const RISING: [(&[u8], &[u8]); 2] = [(b"ab", b"aba"), (b"aba", b"\xff")];

#[test]
fn keys_are_ordered_by_bytes(rt: HostRuntime) {
    for (bytes, greater) in &RISING {
        let order = is_less(&key_of(&rt, bytes), &key_of(&rt, greater));
        assert_same(&rt, order, (true, true));
    }
}

fn hash_of(key: Key) -> u64 {
    BuildHasherDefault::<FoldHasher>::new().hash_one(&key)
}

#[test]
fn same_keys_have_the_same_hash(rt: HostRuntime) {
    let hash = hash_of(key_of(&rt, b"ab"));
    assert_same(&rt, hash_of(copy_of(&rt, b"ab")), hash);
    assert!(rt; hash_of(key_of(&rt, b"aba")) != hash);
}

// Asserts that the weight of a key a was 0, and that the key comes back.
fn assert_back(rt: &impl Abort, pushed: Result<(), PushRefused>) {
    let refused = pushed.expect_err(rt, "a weight of 0 was taken");
    assert_same(rt, refused.fault, StreamFault::ZeroWeight);
    assert_same(rt, refused.key.bytes(), b"a".as_slice());
}

#[test]
fn refused_push_hands_the_key_back(rt: HostRuntime) {
    let mut stream = Stream::new(rt.alloc());
    assert_back(&rt, stream.push(key_of(&rt, b"a"), 0));
    assert!(rt; stream.is_empty());
}

// The stream of `len` items, which weigh 1, 2, 3 and so on.
fn rising_stream(rt: &(impl Abort + AllocGlobal), len: usize) -> Stream {
    let mut stream = Stream::new(rt.alloc());
    for i in 0..len {
        stream
            .push(key_of(rt, b"a"), i as u64 + 1)
            .expect(rt, "an item");
    }
    stream
}

// Writes the weights of a piece, as "1 2 | ".
fn show_piece(rt: &impl Abort, text: &mut String, piece: &[Item]) {
    for item in piece {
        write!(text, "{} ", item.weight()).expect(rt, "room");
    }
    text.push_str("| ").expect(rt, "room");
}

// The weights in the pieces of such a stream, as "1 2 | 3 | ".
fn pieces_of(rt: &(impl Abort + AllocGlobal), cutting: &Cutting) -> String {
    let stream = rising_stream(rt, cutting.len());
    assert!(rt; cutting.len() == stream.len());
    let mut text = String::new(rt.alloc());
    for i in 0..cutting.count() {
        show_piece(rt, &mut text, cutting.piece(&stream, i));
    }
    text
}

// The pieces of an even cutting.
fn even(rt: &(impl Abort + AllocGlobal), len: usize, pieces: usize) -> String {
    pieces_of(
        rt,
        &Cutting::even(rt.alloc(), len, pieces).expect(rt, "a cutting"),
    )
}

#[test]
fn even_pieces(rt: HostRuntime) {
    let text = even(&rt, 10, 4);
    assert_same(&rt, text.as_str(), "1 2 3 | 4 5 6 | 7 8 | 9 10 | ");
    let text = even(&rt, 4, 7);
    assert_same(&rt, text.as_str(), "1 | 2 | 3 | 4 | | | | ");
}

#[test]
fn even_pieces_are_1_to_1024(rt: HostRuntime) {
    let none = Cutting::even(rt.alloc(), 4, 0).err();
    assert_same(&rt, none, Some(StreamFault::NoPieces));
    let many = Cutting::even(rt.alloc(), 4, 1025).err();
    assert_same(&rt, many, Some(StreamFault::TooManyPieces));
}

// The pieces of a cutting with these lengths.
fn cut(rt: &(impl Abort + AllocGlobal), len: usize, lengths: &[usize]) -> String {
    pieces_of(
        rt,
        &Cutting::by_lengths(rt.alloc(), len, lengths).expect(rt, "a cutting"),
    )
}

#[test]
fn pieces_by_lengths(rt: HostRuntime) {
    let text = cut(&rt, 4, &[3, 1]);
    assert_same(&rt, text.as_str(), "1 2 3 | 4 | ");
    let text = cut(&rt, 0, &[0]);
    assert_same(&rt, text.as_str(), "| ");
}

// The number of items, lengths, and why these are none of a cutting.
const OTHER_LENGTHS: [(usize, &[usize], StreamFault); 6] = [
    (4, &[], StreamFault::NoPieces),
    (4, &[3, 2], StreamFault::WrongSum),
    (4, &[3], StreamFault::WrongSum),
    (4, &[usize::MAX, 5], StreamFault::WrongSum),
    (0, &[0; 1025], StreamFault::TooManyPieces),
    (1, &[0; 1025], StreamFault::TooManyPieces),
];

#[test]
fn lengths_add_up(rt: HostRuntime) {
    for (len, lengths, fault) in &OTHER_LENGTHS {
        let refused = Cutting::by_lengths(rt.alloc(), *len, lengths).err();
        assert_same(&rt, refused, Some(*fault));
    }
}
