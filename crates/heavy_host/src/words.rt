//! The words of the command line, which are bytes.
//!
//! `clap` reads words that are text. A word that is not UTF-8 is handed to it as a text of which
//! [`bytes_of`] takes the word's bytes back: each byte above 127 is spelled by a character of its
//! own.

ghost use Rattle.std.specs.Prelude.{◌≡◌, [], ◌∷◌, ◌++◌, ℕ, Option, List, ⊤, IfOk, OnOk, is_none};
ghost use Rattle.std.specs.Prelude.{map, option_map};
ghost use Rattle.std.specs.Char.{IsScalar};
ghost use Rattle.std.specs.List.{list_all};
ghost use Rattle.std.specs.Str.{chars};
ghost use Rattle.std.specs.String.{string_bytes};
ghost use Rattle.heavy_host.specs.Words.{AreAllWords, byte_of, spelled_bytes, word_of};

use std::alloc::{AllocError, Global};
use std::env::{Env, FillError};

/// The character that spells the byte 0 in a word that is not UTF-8; the other bytes' follow it. No
/// text uses these last 256 characters, which stand for nothing.
const SPELLED: u32 = 0x10_FF00;

/// The character that spells a byte.
fn spelled(byte: u8) -> char
    ensures byte { spelled_bytes result ≡ byte ∷ [] }
    ensures character { IsScalar result }
{
    if byte.is_ascii() {
        return char::from(byte);
    }
    match char::from_u32(SPELLED + u32::from(byte)) {
        Some(character) => character,
        None => char::REPLACEMENT_CHARACTER,
    }
}

/// The byte that a character spells, if it spells one.
fn byte_in(character: char) -> Option<u8>
    ensures { result ≡ byte_of character }
{
    match u32::from(character).checked_sub(SPELLED) {
        Some(byte) if byte <= 255 => Some(byte as u8),
        _ => None,
    }
}

/// Whether no character of a text spells a byte.
fn spells_no_byte(text: &str) -> bool
    ensures { result ≡ list_all (λ c. is_none (byte_of c)) (chars text.now) }
{
    text.chars().all(|character| byte_in(character).is_none())
}

/// A word as a text, from which [`bytes_of`] takes it back.
fn text_of(alloc: Global, word: &[u8]) -> Result<String, AllocError>
    ensures { IfOk result (λ text. word_of (string_bytes text) ≡ word.now) }
{
    if let Ok(text) = str::from_utf8(word) {
        if spells_no_byte(text) {
            return String::from_str(alloc, text);
        }
    }
    let mut text = String::new(alloc);
    for byte in word {
        text.push(spelled(*byte))?;
    }
    Ok(text)
}

/// Words as texts, in their order.
pub fn texts_of(alloc: Global, words: &[Vec<u8>]) -> Result<Vec<String>, AllocError>
    ensures { IfOk result (λ texts. map (λ t. word_of (string_bytes t)) texts.items
        ≡ map (λ w. w.items) words.now) }
{
    let mut texts = Vec::new(alloc);
    for word in words {
        texts.push(text_of(alloc, word)?)?;
    }
    Ok(texts)
}

/// Puts the bytes that a character stands for after these.
fn push_bytes(bytes: &mut Vec<u8>, character: char) -> Result<(), AllocError>
    ensures { OnOk result (bytes.new.items ≡ bytes.old.items ++ spelled_bytes character) }
{
    if let Some(byte) = byte_in(character) {
        bytes.push(byte)?;
        return Ok(());
    }
    let mut room = [0u8; 4];
    bytes.extend_from_slice(character.encode_utf8(&mut room).as_bytes())
}

/// The bytes of the word that a text stands for.
pub fn bytes_of(alloc: Global, text: &str) -> Result<Vec<u8>, AllocError>
    ensures { IfOk result (λ word. word.items ≡ word_of text.now) }
{
    let mut bytes = Vec::new(alloc);
    for character in text.chars() {
        push_bytes(&mut bytes, character)?;
    }
    Ok(bytes)
}

/// Where words come from, each by its number.
pub trait WordSource {
    /// The source has this word at this number, or none.
    ghost gives: { Self → ℕ → Option (List ℕ) → Type 0 };

    /// The word with this number, if there is one.
    fn word(&self, alloc: Global, number: usize) -> Result<Option<Vec<u8>>, AllocError>
        ensures { IfOk result (λ w. gives self.now number (option_map (λ v. v.items) w)) };
}

/// The word with this number, if it fits in so much room.
fn word_in<E: Env>(
    env: &E,
    alloc: Global,
    number: usize,
    room: usize,
) -> Result<Result<Vec<u8>, FillError>, AllocError> {
    let mut word = vec![in alloc; 0u8; room]?;
    match env.arg(number, word.as_mut_slice()) {
        Ok(len) => {
            word.truncate(len);
            Ok(Ok(word))
        }
        Err(fault) => Ok(Err(fault)),
    }
}

/// The words that the process was started with. No contract says which these are.
impl WordSource for HostRuntime {
    ghost gives = { λ _ _ _. ⊤ };

    /// The room is doubled until the word fits.
    fn word(&self, alloc: Global, number: usize) -> Result<Option<Vec<u8>>, AllocError> {
        let mut room = 256usize;
        for _ in 0..usize::BITS {
            match word_in(self, alloc, number, room)? {
                Ok(word) => return Ok(Some(word)),
                Err(FillError::NotPresent) => return Ok(None),
                Err(FillError::TooLong) => room = room.saturating_mul(2),
            }
        }
        Err(AllocError)
    }
}

/// All words of a source, in their order.
pub fn read_words<W: WordSource>(source: &W, alloc: Global) -> Result<Vec<Vec<u8>>, AllocError>
    ensures { IfOk result (λ words.
        AreAllWords (W.gives source.now) (map (λ w. w.items) words.items)) }
{
    let mut words = Vec::new(alloc);
    for number in 0..usize::MAX {
        match source.word(alloc, number)? {
            Some(word) => words.push(word)?,
            None => return Ok(words),
        }
    }
    Err(AllocError)
}
