//! The fields of a record, and the names of columns that a word has.

ghost use Rattle.std.specs.Prelude.{◌≡◌, IfOk, map};
ghost use Rattle.heavy_requests.specs.Fields.{ends_field, fields_in, is_mark, place_after};

use std::alloc::{AllocError, Global};

/// What the next byte of a record is part of.
#[derive(Clone, Copy)]
pub(crate) enum FieldState {
    /// The begin of a field.
    Begin,
    /// A field without quotes, or what follows a closing quote.
    Plain,
    /// A field in quotes.
    Quoted,
    /// What follows a quote in such a field: the quote closes it, or is the first of two that stand
    /// for one.
    Quote,
}

impl FieldState {
    /// Whether `byte` ends a field here.
    fn ends_field(self, byte: u8, delimiter: u8) -> bool
        ensures { result ≡ ends_field delimiter self byte }
    {
        byte == delimiter && !matches!(self, FieldState::Quoted)
    }

    /// Whether `byte` is a quote that opens or closes here, and no part of a field.
    fn is_mark(self, byte: u8) -> bool
        ensures { result ≡ is_mark self byte }
    {
        byte == b'"' && matches!(self, FieldState::Begin | FieldState::Quoted)
    }

    /// Gives the place after `byte`, which ends no field here.
    fn after(self, byte: u8) -> FieldState
        ensures { result ≡ place_after self byte }
    {
        match self {
            FieldState::Quoted if byte == b'"' => FieldState::Quote,
            FieldState::Begin | FieldState::Quote if byte == b'"' => FieldState::Quoted,
            FieldState::Quoted => FieldState::Quoted,
            _ => FieldState::Plain,
        }
    }
}

/// Splits the `bytes` of a record at each `delimiter`. A field that begins with a quote goes on to
/// the closing one, with the delimiters between, and two quotes in it stand for one.
pub fn split_fields(alloc: Global, delimiter: u8, bytes: &[u8]) -> Result<Vec<Vec<u8>>, AllocError>
    ensures { IfOk result (λ fields.
        map (λ f. f.items) fields.items ≡ fields_in delimiter bytes.now) }
{
    let mut fields = Vec::new(alloc);
    let mut field = Vec::new(alloc);
    let mut place = FieldState::Begin;
    for byte in bytes {
        if place.ends_field(*byte, delimiter) {
            fields.push(field)?;
            field = Vec::new(alloc);
            place = FieldState::Begin;
        } else {
            if !place.is_mark(*byte) {
                field.push(*byte)?;
            }
            place = place.after(*byte);
        }
    }
    fields.push(field)?;
    Ok(fields)
}
