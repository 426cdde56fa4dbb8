//! Hashes of keys, which a second program computed.

use crate::fixtures::assert_same;
use hh_stream::KeyHash;
use std::hash::{BuildHasher, Hasher};
use std::io::{self, Error, ErrorKind};
use std::process::Abort;
use std::random::RandomSource;

fn hash_of(hash: &KeyHash, text: &str) -> u64 {
    let mut hasher = hash.build_hasher();
    hasher.write(text.as_bytes());
    hasher.finish()
}

const HASHES: [(&str, u64); 8] = [
    ("a", 0x18ea_93b4_d36e_70ae),
    ("abc", 0xf34d_33d7_cb81_e398),
    ("abcd", 0x8428_9a04_6758_414b),
    ("abcdefg", 0xe55d_d7ca_990d_ce19),
    ("abcdefgh", 0xee44_fabe_eab9_1c21),
    ("abcdefghijklmnop", 0x3bbd_5075_59ac_610a),
    ("abcdefghijklmnopq", 0x0ee5_2e66_2180_ecc4),
    (
        "abcdefghijklmnopqrstuvwxyzabcdefghijklmn",
        0xd553_9112_0d2a_1d61,
    ),
];

#[test]
fn fixed_words_hash_as_computed(rt: HostRuntime) {
    for (text, hash) in &HASHES {
        assert_same(&rt, hash_of(&KeyHash::fixed(), text), *hash);
    }
}

// Two draws of 128 bits are alike once in 2^128.
#[test]
fn random_words_are_drawn_anew(rt: HostRuntime) {
    let one = KeyHash::random(&rt).expect(&rt, "words");
    let other = KeyHash::random(&rt).expect(&rt, "words");
    assert!(rt; hash_of(&one, "abcdefgh") != hash_of(&other, "abcdefgh"));
}

// What has no random numbers.
struct NoNumbers;

impl RandomSource for NoNumbers {
    fn fill_bytes(&self, _buf: &mut [u8]) -> io::Result<()> {
        Err(Error::from(ErrorKind::Unsupported))
    }
}

fn has_words(drawn: io::Result<KeyHash>) -> bool {
    drawn.is_ok()
}

#[test]
fn random_words_may_fail(rt: HostRuntime) {
    assert_same(&rt, has_words(KeyHash::random(&NoNumbers)), false);
}
