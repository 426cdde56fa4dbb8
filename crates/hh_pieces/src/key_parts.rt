//! The part of a field that is the key, of the key of a line.

ghost use Rattle.std.specs.Prelude.{◌≡◌, option_map, true};
ghost use Rattle.std.specs.Bool.{OnTrue};
ghost use Rattle.hh_records.specs.Formats.{is_whole_field, part_said};
ghost use Rattle.hh_pieces.specs.Lines as spec;

use hh_records::KeyPart;

/// Gives the key and the weight's field of a line, with a `part` of the key in its place. The part
/// is the whole key where it `is_whole`.
#[inline(always)]
pub(crate) fn key_parts<'t>(
    parts: Option<(&'t [u8], Option<&'t [u8]>)>,
    part: &KeyPart,
    is_whole: bool,
) -> Option<(&'t [u8], Option<&'t [u8]>)>
    requires whole { OnTrue is_whole (is_whole_field (part_said part.now) ≡ true) }
    ensures { option_map (λ parts. (parts.0.now, option_map (λ field. field.now) parts.1)) result
        ≡ spec.key_parts (part_said part.now)
        (option_map (λ parts. (parts.0.now, option_map (λ field. field.now) parts.1))
        parts.entry) }
{
    if is_whole {
        return parts;
    }
    match parts {
        Some((key, field)) => Some((part.of(key), field)),
        None => None,
    }
}
