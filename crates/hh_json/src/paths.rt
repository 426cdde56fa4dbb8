//! The values that names lead to.

ghost use Rattle.std.specs.Prelude.{◌≡◌, ◌<◌, ◌∷◌, ◌↔◌, [], IsTrue, MatchOption, length};
ghost use Rattle.json.specs.Find.{BeginsWith, Finds, InMembers, get_member};
ghost use Rattle.json.specs.Json.{Json};
ghost use Rattle.json.specs.Json as spec;
ghost use Rattle.serde_json.specs.Find.{index_of, unescape};
ghost use Rattle.hh_json.specs.Paths.{follow, is_pointer, named, part_name, parts_of, step};

use fast_float::Numeral;
use json::{Element, Members};
use memchr::memchr;

/// Reads the first byte of `part`, unescaped, and gives what follows it.
fn unescaped(part: &[u8]) -> Option<(u8, &[u8])>
    ensures { MatchOption result (part.now ≡ []) (λ first. (length first.1.now < length part.now)
        × (unescape part.now ≡ first.0 ∷ unescape first.1.now)) }
{
    if part.is_empty() {
        return None;
    }
    let byte = part[0];
    if byte != b'~' || part.len() == 1 {
        return Some((byte, &part[1..]));
    }
    match part[1] {
        b'0' => Some((b'~', &part[2..])),
        b'1' => Some((b'/', &part[2..])),
        _ => Some((byte, &part[1..])),
    }
}

/// Whether `part` is `name`, escaped.
fn unescapes_to(part: &[u8], name: &[u8]) -> bool
    ensures { IsTrue result ↔ (unescape part.now ≡ name.now) }
{
    let mut part_left = part;
    let mut name_left = name;
    while let Some((byte, rest)) = unescaped(part_left) {
        let [first, others @ ..] = name_left else {
            return false;
        };
        if *first != byte {
            return false;
        }
        part_left = rest;
        name_left = others;
    }
    name_left.is_empty()
}

/// Whether `part` names a member of the name `name`. `is_escaped` says that it is escaped.
fn is_named(part: &[u8], is_escaped: bool, name: &[u8]) -> bool
    ensures { IsTrue result ↔ (part_name is_escaped part.now ≡ name.now) }
{
    if is_escaped {
        unescapes_to(part, name)
    } else {
        part == name
    }
}

/// Finds the last of `members` that `part` names.
fn member<'t, 'a>(
    members: Members<'t, 'a>,
    part: &[u8],
    is_escaped: bool,
) -> Option<Element<'t, 'a>>
    ensures { (ms : spec.Members) → InMembers members.entry ms
        → Finds result (get_member (part_name is_escaped part.now) ms) }
{
    let mut left = members;
    let mut found = None;
    while let Some((name, value)) = left.next() {
        if is_named(part, is_escaped, name.as_bytes()) {
            found = Some(value);
        }
    }
    found
}

/// Reads `part` as the number of an item, from 0 on.
fn index_of(part: &[u8]) -> Option<usize>
    ensures { result ≡ index_of part.now }
{
    let numeral = Numeral::scan(part);
    let index = numeral.to_u64()?;
    if numeral.len() != part.len() || part.len() > 1 && part[0] == b'0' {
        return None;
    }
    Some(index as usize)
}

/// Follows one part of a pointer.
fn step<'t, 'a>(from: &Element<'t, 'a>, part: &[u8]) -> Option<Element<'t, 'a>>
    ensures { (j : Json) → BeginsWith from.now j → Finds result (step part.now j) }
{
    match from.members() {
        Some(members) => member(members, part, true),
        None => from.at(index_of(part)?),
    }
}

/// Follows the parts of a pointer, which stand in `parts` with a slash between two. It calls itself
/// no deeper than the value nests.
fn follow<'t, 'a>(from: &Element<'t, 'a>, parts: &[u8]) -> Option<Element<'t, 'a>>
    ensures { (j : Json) → BeginsWith from.now j → Finds result (follow (parts_of parts.now) j) }
{
    match memchr(b'/', parts) {
        Some(end) => follow(&step(from, &parts[..end])?, &parts[end + 1..]),
        None => step(from, parts),
    }
}

/// Whether `name` is a JSON pointer: it begins with a slash.
fn is_pointer(name: &[u8]) -> bool
    ensures { result ≡ is_pointer name.now }
{
    matches!(name, [b'/', ..])
}

/// Finds the value that `name` names in an object: by a JSON pointer where it is one, and else the
/// last member of that name.
pub(crate) fn named<'t, 'a>(object: &Element<'t, 'a>, name: &[u8]) -> Option<Element<'t, 'a>>
    ensures { (j : Json) → BeginsWith object.now j → Finds result (named name.now j) }
{
    if is_pointer(name) {
        follow(object, &name[1..])
    } else {
        member(object.members()?, name, false)
    }
}
