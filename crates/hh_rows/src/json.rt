//! Records as JSON.

ghost use Rattle.std.specs.Prelude.{◌≡◌, ◌++◌, ◌<◌, IfOk, OnOk, map};
ghost use Rattle.std.specs.Char.{digit_char};
ghost use Rattle.std.specs.List.{flat_map, zip};
ghost use Rattle.std.specs.Str.{is_utf8};
ghost use Rattle.hh_rows.specs.Json.{escaped_by, hex, is_number, members_text, next_member};
ghost use Rattle.hh_rows.specs.Json.{object_text, string_byte, string_text, value_text};

use std::alloc::{AllocError, Global};
use std::str;

/// The digit that writes a number below 16.
fn hex_digit(number: u8) -> u8
    requires { number < 16 }
    ensures { result ≡ digit_char number }
{
    if number < 10 {
        b'0' + number
    } else {
        b'a' + (number - 10)
    }
}

/// Writes the two digits of `byte` in base 16.
fn push_hex(text: &mut Vec<u8>, byte: u8) -> Result<(), AllocError>
    ensures { OnOk result (text.new.items ≡ text.old.items ++ hex byte) }
{
    text.push(hex_digit(byte / 16))?;
    text.push(hex_digit(byte % 16))?;
    Ok(())
}

/// Writes the character whose number has these two bytes, as an escape.
fn push_escaped(text: &mut Vec<u8>, first: u8, second: u8) -> Result<(), AllocError>
    ensures { OnOk result (text.new.items ≡ text.old.items ++ escaped_by first second) }
{
    text.push(b'\\')?;
    text.push(b'u')?;
    push_hex(text, first)?;
    push_hex(text, second)
}

/// Writes a `byte` of a field, in a string. `is_text` says that the whole field is UTF-8.
fn push_byte(text: &mut Vec<u8>, is_text: bool, byte: u8) -> Result<(), AllocError>
    ensures { OnOk result (text.new.items ≡ text.old.items ++ string_byte is_text byte) }
{
    match byte {
        b'"' | b'\\' => {
            text.push(b'\\')?;
            text.push(byte)?;
        }
        0..32 | 127 => push_escaped(text, 0, byte)?,
        128.. if !is_text => push_escaped(text, 0xdc, byte)?,
        _ => text.push(byte)?,
    }
    Ok(())
}

/// Whether a field is UTF-8.
fn is_text(field: &[u8]) -> bool
    ensures { result ≡ is_utf8 field.now }
{
    str::from_utf8(field).is_ok()
}

/// Writes a `field` as a string.
fn push_string(text: &mut Vec<u8>, field: &[u8]) -> Result<(), AllocError>
    ensures { OnOk result (text.new.items ≡ text.old.items ++ string_text field.now) }
{
    let is_text = is_text(field);
    text.push(b'"')?;
    for byte in field {
        push_byte(text, is_text, *byte)?;
    }
    text.push(b'"')?;
    Ok(())
}

/// Whether a `field` begins with a digit, or with a minus and a digit.
fn is_number(field: &[u8]) -> bool
    ensures { result ≡ is_number field.now }
{
    match field {
        [b'-', second, ..] => second.is_ascii_digit(),
        [first, ..] => first.is_ascii_digit(),
        [] => false,
    }
}

/// Writes a `field` as it is where it begins as a number, and else as a string.
fn push_value(text: &mut Vec<u8>, field: &[u8]) -> Result<(), AllocError>
    ensures { OnOk result (text.new.items ≡ text.old.items ++ value_text field.now) }
{
    if is_number(field) {
        text.extend_from_slice(field)
    } else {
        push_string(text, field)
    }
}

/// Writes a member after others.
fn push_member(text: &mut Vec<u8>, name: &[u8], field: &[u8]) -> Result<(), AllocError>
    ensures { OnOk result (text.new.items
        ≡ text.old.items ++ next_member (name.now, field.now)) }
{
    text.push(b',')?;
    push_string(text, name)?;
    text.push(b':')?;
    push_value(text, field)
}

/// Writes the members of a record's fields after the first, by the `names` of these fields.
fn push_others(text: &mut Vec<u8>, names: &[&[u8]], fields: &[&[u8]]) -> Result<(), AllocError>
    ensures { OnOk result (text.new.items ≡ text.old.items ++ flat_map next_member
        (zip (map (λ name. name.now) names.now) (map (λ field. field.now) fields.now))) }
{
    for (name, field) in names.iter().zip(fields) {
        push_member(text, name, field)?;
    }
    Ok(())
}

/// Writes the members of a record, by the `names` of its fields.
fn push_members(text: &mut Vec<u8>, names: &[&[u8]], fields: &[&[u8]]) -> Result<(), AllocError>
    ensures { OnOk result (text.new.items ≡ text.old.items ++ members_text
        (zip (map (λ name. name.now) names.now) (map (λ field. field.now) fields.now))) }
{
    let Some((name, names)) = names.split_first() else {
        return Ok(());
    };
    let Some((field, fields)) = fields.split_first() else {
        return Ok(());
    };
    push_string(text, name)?;
    text.push(b':')?;
    push_string(text, field)?;
    push_others(text, names, fields)
}

/// Gives a record as an object, by the `names` of its fields.
pub(crate) fn object_of(
    alloc: Global,
    names: &[&[u8]],
    fields: &[&[u8]],
) -> Result<Vec<u8>, AllocError>
    ensures { IfOk result (λ text. text.items ≡ object_text
        (map (λ name. name.now) names.now) (map (λ field. field.now) fields.now)) }
{
    let mut text = Vec::new(alloc);
    text.push(b'{')?;
    push_members(&mut text, names, fields)?;
    text.push(b'}')?;
    Ok(text)
}
