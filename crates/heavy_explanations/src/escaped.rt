//! Texts with their control characters escaped, so that a terminal finds no command.

use std::fmt::{self, Display};

/// Writes `character`, escaped where it is a control character that isn't kept.
fn write_character<W: fmt::Write>(
    f: &mut fmt::Formatter<W>,
    character: char,
    is_kept: bool,
) -> fmt::Result {
    if character.is_control() && !is_kept {
        character.escape_default().fmt(f)
    } else {
        f.write_char(character)
    }
}

/// Writes `text` with its control characters escaped, but for its line feeds where it
/// `keeps_lines`.
fn write_escaped<W: fmt::Write>(
    f: &mut fmt::Formatter<W>,
    text: &str,
    keeps_lines: bool,
) -> fmt::Result {
    for character in text.chars() {
        write_character(f, character, keeps_lines && character == '\n')?;
    }
    Ok(())
}

/// A text of lines with its other control characters escaped.
#[derive(Clone, Copy)]
pub(crate) struct Lines<'a>(pub(crate) &'a str);

impl<'a> Display for Lines<'a> {
    fn fmt<W: fmt::Write>(&self, f: &mut fmt::Formatter<W>) -> fmt::Result {
        write_escaped(f, self.0, true)
    }
}

/// A name, as of a file, with its control characters escaped.
#[derive(Clone, Copy)]
pub(crate) struct Name<'a>(pub(crate) &'a [u8]);

impl<'a> Display for Name<'a> {
    fn fmt<W: fmt::Write>(&self, f: &mut fmt::Formatter<W>) -> fmt::Result {
        match str::from_utf8(self.0) {
            Ok(text) => write_escaped(f, text, false),
            Err(_) => self.0.escape_ascii().fmt(f),
        }
    }
}

/// Writes `text` with its control characters, quotes and backslashes escaped.
fn write_quoted<W: fmt::Write>(f: &mut fmt::Formatter<W>, text: &str) -> fmt::Result {
    for character in text.chars() {
        if matches!(character, '"' | '\\') {
            f.write_char('\\')?;
        }
        write_character(f, character, false)?;
    }
    Ok(())
}

/// A name in quotes, as of a column. What would end it or hide in it is escaped.
#[derive(Clone, Copy)]
pub(crate) struct Quoted<'a>(pub(crate) &'a [u8]);

impl<'a> Display for Quoted<'a> {
    fn fmt<W: fmt::Write>(&self, f: &mut fmt::Formatter<W>) -> fmt::Result {
        match str::from_utf8(self.0) {
            Ok(text) => {
                f.write_str("\"")?;
                write_quoted(f, text)?;
                f.write_str("\"")
            }
            Err(_) => write!(f, "\"{}\"", self.0.escape_ascii()),
        }
    }
}

/// Prints a line about the file `name`: the name, what stands `between`, and `words`.
pub(crate) fn print_about(rt: &HostRuntime, name: Name<'_>, between: &str, words: &str) {
    let _ = eprintln!(rt; "  {name}{between}{words}");
}
