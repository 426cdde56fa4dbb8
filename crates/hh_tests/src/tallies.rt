//! Tallies with room for few keys, beside what a second program computed.

ghost use Rattle.std.specs.Prelude.{◌+◌, ◌≤◌};
ghost use Rattle.hh_tally.specs.Tallies.{IsRoom};

use crate::fixtures::{assert_same, key_of, show_counter};
use hh_stream::{Key, KeyHash, MAX_TOTAL, TakeItems};
use hh_tally::{MAX_KEYS, Room, Tally};
use std::process::Abort;

const LETTERS: &str = "ABCDEFGHIJKLMNOPQRSTUVWXYZabcdefghijklmnopqrstuvwxyz0123456789";

// Takes the item with this number. The key of three in five is A and of one in five BC, and the
// others have 53 keys in turn, of 1 to 7 bytes.
fn take_item(rt: &(impl Abort + AllocGlobal), tally: &mut Tally, number: usize)
    requires { number ≤ 6400 }
{
    let place = match number % 5 {
        0 | 1 | 2 => 0,
        3 => 1,
        _ => number * 17 % 53,
    };
    let letters = LETTERS.as_bytes().get(place..place + 1 + place % 7);
    let key = key_of(rt, letters.expect(rt, "letters"));
    let weight = 1 + number as u64 % 3;
    assert!(rt; weight <= MAX_TOTAL - tally.total());
    let taken = tally.take(rt.alloc(), key.bytes(), weight);
    taken.expect(rt, "room");
}

fn room_of(rt: &impl Abort, keys: usize, few: usize, bytes: usize) -> Room
    ensures { IsRoom result }
{
    assert!(rt; 2 <= few && few <= keys && keys <= MAX_KEYS);
    Room { keys, few, bytes }
}

// The tally of `count` items, from the item `first` on.
fn tally_of(rt: &(impl Abort + AllocGlobal), room: Room, first: usize, count: usize) -> Tally
    requires room { IsRoom room }
    requires first { first ≤ 6400 }
    requires count { first + count ≤ 6400 }
{
    let mut tally = Tally::new(rt.alloc(), room, KeyHash::fixed()).expect(rt, "room");
    for number in first..first + count {
        take_item(rt, &mut tally, number);
    }
    tally
}

// The tally of the items of both.
fn merged(rt: &(impl Abort + AllocGlobal), one: Tally, other: &Tally) -> Tally {
    assert!(rt; one.has_room_of(other) && one.total() <= MAX_TOTAL - other.total());
    one.merge(rt.alloc(), other).expect(rt, "room")
}

// The keys that can weigh more than one share of half of the room's few.
fn contenders_of(rt: &(impl Abort + AllocGlobal), tally: &Tally, room: Room) -> Vec<(Key, u64)>
    requires { IsRoom room }
{
    let same = Tally::new(rt.alloc(), room, KeyHash::fixed()).expect(rt, "room");
    assert!(rt; tally.has_room_of(&same));
    let contenders = tally.contenders(rt.alloc(), 1, room.few as u64 / 2);
    contenders.expect(rt, "room")
}

// The weights of the contenders, and 0 for those of which the tally isn't sure.
fn weights_of(
    rt: &(impl Abort + AllocGlobal),
    tally: &Tally,
    contenders: &[(Key, u64)],
) -> Vec<u64> {
    let unsure = tally.unsure(rt.alloc(), contenders).expect(rt, "room");
    let counted = vec![in rt.alloc(); 0u64; unsure.len()].expect(rt, "room");
    let weights = tally.weights(rt.alloc(), contenders, &counted);
    weights.expect(rt, "room")
}

// What was lost, how many counters there are, and these keys, each with its counter and its weight,
// or 0 where the tally isn't sure of it, as "lost 86, 2 counters: A 637 of 723 ".
fn shown(rt: &(impl Abort + AllocGlobal), tally: &Tally, contenders: &[(Key, u64)]) -> String {
    let mut text = String::new(rt.alloc());
    write!(text, "lost {}, {} counters: ", tally.lost(), tally.len()).expect(rt, "room");
    let weights = weights_of(rt, tally, contenders);
    for ((key, counter), weight) in contenders.iter().zip(&weights) {
        show_counter(rt, &mut text, key.bytes(), *counter);
        write!(text, "of {weight} ").expect(rt, "room");
    }
    text
}

// Asserts that the tally shows this text.
fn assert_tally(rt: &(impl Abort + AllocGlobal), tally: &Tally, room: Room, expected: &str)
    requires { IsRoom room }
{
    let contenders = contenders_of(rt, tally, room);
    assert_same(rt, shown(rt, tally, &contenders).as_str(), expected);
}

// How many keys, how few and how many bytes have room, and what is lost and kept of 600 items.
const LITTLE_ROOM: [(usize, usize, usize, &str); 8] = [
    (2, 2, 1000, "lost 320, 1 counters: "),
    (3, 2, 1000, "lost 245, 1 counters: "),
    (5, 4, 1000, "lost 86, 2 counters: A 637 of 723 "),
    (
        10,
        10,
        1000,
        "lost 34, 4 counters: A 689 of 723 BC 211 of 245 ",
    ),
    (16, 6, 20, "lost 61, 2 counters: A 662 of 723 "),
    (
        50,
        12,
        60,
        "lost 21, 11 counters: A 702 of 723 BC 224 of 245 ",
    ),
    (
        52,
        52,
        1000,
        "lost 4, 28 counters: A 719 of 723 BC 241 of 245 ",
    ),
    (
        53,
        53,
        1000,
        "lost 0, 53 counters: A 723 of 723 BC 245 of 245 ",
    ),
];

// The room is too small for what comes at nearly each newcomer, at times for its bytes, and in the
// end large enough.
#[test]
fn little_room_loses_as_computed(rt: HostRuntime) {
    for (keys, few, bytes, expected) in &LITTLE_ROOM {
        let room = room_of(&rt, *keys, *few, *bytes);
        assert_tally(&rt, &tally_of(&rt, room, 0, 600), room, expected);
    }
}

// The sum of the tallies of 64 workers, of 100 items each.
fn tally_of_all(rt: &(impl Abort + AllocGlobal), room: Room) -> Tally
    requires { IsRoom room }
{
    let mut all = tally_of(rt, room, 0, 100);
    for worker in 1..64 {
        all = merged(rt, all, &tally_of(rt, room, 100 * worker, 100));
    }
    all
}

// How few of 60 keys and bytes have room, and what is lost and kept of 6,400 items.
const MERGED: [(usize, &str); 2] = [
    (6, "lost 237, 9 counters: A 7491 of 7728 "),
    (12, "lost 229, 9 counters: A 7499 of 7728 BC 2379 of 2608 "),
];

// Each of the 64 is lowered for the bytes of its keys, which are never too many by themselves.
#[test]
fn merged_tallies_lose_as_computed(rt: HostRuntime) {
    for (few, expected) in &MERGED {
        let room = room_of(&rt, 60, *few, 60);
        assert_tally(&rt, &tally_of_all(&rt, room), room, expected);
    }
}

// The tally of the items with these numbers.
fn tally_of_numbers(rt: &(impl Abort + AllocGlobal), room: Room, numbers: &[usize]) -> Tally
    requires { IsRoom room }
{
    let mut tally = Tally::new(rt.alloc(), room, KeyHash::fixed()).expect(rt, "room");
    for number in numbers {
        assert!(rt; *number <= 6400);
        take_item(rt, &mut tally, *number);
    }
    tally
}

// A comes with a weight of 18 before five other keys, more than have room, or behind them. Or it
// comes with a weight of 1 before, loses its counter, and comes again.
const EARLY: &[usize] = &[0, 1, 2, 5, 6, 7, 10, 11, 12, 4, 9, 14, 19, 24];

const LATE: &[usize] = &[4, 9, 14, 19, 24, 0, 1, 2, 5, 6, 7, 10, 11, 12];

const AGAIN: &[usize] = &[0, 4, 9, 14, 19, 24, 0, 1, 2, 5, 6, 7, 10, 11, 12];

const ALONE: &[usize] = &[0, 1, 2, 5, 6, 7, 10, 11, 12];

const FEW_OTHERS: &[usize] = &[4, 9];

const OTHERS: &[usize] = &[4, 9, 14, 19, 24];

// The items of two tallies with room for four keys, and what is known of A once they are merged.
const SURE: [(&[usize], &[usize], &str); 9] = [
    (EARLY, &[], "lost 2, 3 counters: A 16 of 18 "),
    (LATE, &[], "lost 2, 2 counters: A 18 of 0 "),
    (AGAIN, &[], "lost 2, 3 counters: A 18 of 0 "),
    (EARLY, EARLY, "lost 4, 3 counters: A 32 of 36 "),
    (EARLY, LATE, "lost 4, 3 counters: A 34 of 0 "),
    (LATE, EARLY, "lost 4, 3 counters: A 34 of 0 "),
    (ALONE, LATE, "lost 2, 2 counters: A 36 of 0 "),
    (EARLY, FEW_OTHERS, "lost 3, 2 counters: A 15 of 18 "),
    (EARLY, OTHERS, "lost 4, 3 counters: A 16 of 0 "),
];

// A tally is sure of a key that has kept its counter since before anything was lost, and of no
// other.
#[test]
fn tallies_are_sure_of_early_keys(rt: HostRuntime) {
    for (one, other, expected) in &SURE {
        let room = room_of(&rt, 4, 4, 1000);
        let first = tally_of_numbers(&rt, room, one);
        let both = merged(&rt, first, &tally_of_numbers(&rt, room, other));
        assert_tally(&rt, &both, room, expected);
    }
}
