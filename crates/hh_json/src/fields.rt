//! The members of a line as the fields of a record.

ghost use Rattle.std.specs.Prelude.{◌≡◌, ◌++◌, [], ℕ, List, IfOk, OnOk};
ghost use Rattle.std.specs.Bool.{then_some};
ghost use Rattle.std.specs.List.{flat_map};
ghost use Rattle.std.specs.Option.{option_to_list};
ghost use Rattle.std.specs.Prelude.{option_map};
ghost use Rattle.csv.specs.Records.{fields_of, partial_of};
ghost use Rattle.json.specs.Find.{BeginsWith, Finds};
ghost use Rattle.json.specs.Json.{Json};
ghost use Rattle.hh_json.specs.Fields.{fields_in, json_fields, key_of, key_text};
ghost use Rattle.hh_json.specs.Fields.{keys_of, object_in, weight_text};

use crate::paths::named;
use csv::ByteRecord;
use json::{Element, Error, Scratch, Tape};
use std::alloc::{AllocError, Global};
use std::str;

/// Reads the object that `line` is, where it is one, as the list of its tokens.
fn object_in<'a>(
    alloc: Global,
    line: &'a [u8],
    scratch: &'a mut Scratch,
) -> Result<Option<Tape<'a>>, AllocError>
    ensures { IfOk result (λ tape. Finds tape (object_in line.now)) }
{
    let Ok(text) = str::from_utf8(line) else {
        return Ok(None);
    };
    match Tape::parse(text, scratch, Vec::new(alloc)) {
        Ok(tape) => {
            if tape.root().members().is_some() {
                Ok(Some(tape))
            } else {
                Ok(None)
            }
        }
        Err(Error::Invalid) => Ok(None),
        Err(_) => Err(AllocError),
    }
}

/// Gives the text of a key's member: the characters of a string, a number or a word as it is
/// spelled. `null` is as no member.
fn key_text<'a>(value: &Element<'_, 'a>) -> Option<&'a [u8]>
    ensures { (j : Json) → BeginsWith value.now j
        → option_map (λ text. text.now) result ≡ key_text j }
{
    if let Some(text) = value.as_str() {
        return Some(text.as_bytes());
    }
    if let Some(text) = value.as_number() {
        return Some(text.as_bytes());
    }
    if value.as_bool()? {
        Some(b"true")
    } else {
        Some(b"false")
    }
}

/// Gives the text of the member of a key that `name` names.
fn key_of<'a>(object: &Element<'_, 'a>, name: &[u8]) -> Option<&'a [u8]>
    ensures { (j : Json) → BeginsWith object.now j
        → option_map (λ text. text.now) result ≡ key_of j name.now }
{
    key_text(&named(object, name)?)
}

/// Gives the text of the weight that `name` names.
fn weight_text<'a>(object: &Element<'_, 'a>, name: &[u8]) -> Option<&'a [u8]>
    ensures { (j : Json) → BeginsWith object.now j
        → option_map (λ text. text.now) result ≡ weight_text j name.now }
{
    Some(named(object, name)?.as_number()?.as_bytes())
}

/// What may name a member of an object.
pub trait MemberName {
    /// The name, in a list, or nothing.
    ghost said: { Self → List (List ℕ) };

    /// Gives the name, where this is one.
    fn name(&self) -> Option<&[u8]>
        ensures { option_to_list (option_map (λ name. name.now) result) ≡ said self.now };
}

/// Puts the members that `names` name behind `fields`, and says whether all are there.
fn push_keys<N: MemberName>(
    object: &Element<'_, '_>,
    names: &[N],
    fields: &mut ByteRecord,
) -> Result<bool, AllocError>
    requires { partial_of fields.old ≡ [] }
    ensures keys { IfOk result (λ found. (j : Json) → BeginsWith object.now j
        → then_some found (fields_of fields.new)
        ≡ option_map (λ texts. fields_of fields.old ++ texts)
        (keys_of j (flat_map N.said names.now))) }
    ensures partial { OnOk result (partial_of fields.new ≡ []) }
{
    for name in names {
        if let Some(name) = name.name() {
            match key_of(object, name) {
                Some(text) => fields.push_field(text)?,
                None => return Ok(false),
            }
        }
    }
    Ok(true)
}

/// Puts the members that `names` name, and after them the weight's, behind `fields`, and says
/// whether all are there.
fn push_members<N: MemberName>(
    object: &Element<'_, '_>,
    names: &[N],
    weight: Option<&[u8]>,
    fields: &mut ByteRecord,
) -> Result<bool, AllocError>
    requires { partial_of fields.old ≡ [] }
    ensures { IfOk result (λ found. (j : Json) → BeginsWith object.now j
        → then_some found (fields_of fields.new)
        ≡ option_map (λ texts. fields_of fields.old ++ texts) (fields_in
        (flat_map N.said names.now) (option_map (λ name. name.now) weight.entry)
        j)) }
{
    if !push_keys(object, names, fields)? {
        return Ok(false);
    }
    let Some(name) = weight else {
        return Ok(true);
    };
    match weight_text(object, name) {
        Some(text) => {
            fields.push_field(text)?;
            Ok(true)
        }
        None => Ok(false),
    }
}

/// Puts the members of the JSON object `line` that `names` name into `fields`, in their order, and
/// after them the one that `weight` names. A name that begins with a slash is a JSON pointer, and
/// of members of one name the last counts.
///
/// A key's member is a string, of which its characters count, or a number, `true` or `false`, as it
/// is spelled. The weight's is a number, as it is spelled. `fields` is left empty where one of them
/// is missing, `null` or of another kind, and where `line` isn't an object that JSON in UTF-8
/// spells, without a lone surrogate and with at most 128 levels.
///
/// `scratch` is kept from line to line, so that its memory serves them all. A line of 4 GiB is
/// answered as one for which memory is missing.
pub fn members<N: MemberName>(
    alloc: Global,
    line: &[u8],
    names: &[N],
    weight: Option<&[u8]>,
    scratch: &mut Scratch,
    fields: &mut ByteRecord,
) -> Result<(), AllocError>
    ensures { OnOk result (fields_of fields.new ≡ json_fields (flat_map N.said names.now)
        (option_map (λ name. name.now) weight.entry) line.now) }
{
    fields.clear();
    let Some(object) = object_in(alloc, line, scratch)? else {
        return Ok(());
    };
    if !push_members(&object.root(), names, weight, fields)? {
        fields.clear();
    }
    Ok(())
}
