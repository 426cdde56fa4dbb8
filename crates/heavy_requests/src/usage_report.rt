//! What is printed for a command line that asks for help, or is wrong.

ghost use Rattle.std.specs.Prelude.{◌≡◌, ◌≢◌, ◌⊎◌, IfOk, map};
ghost use Rattle.clap.specs.Words.{kind_of};
ghost use Rattle.heavy_requests.specs.Request.{IsRefusedBy, IsSaidOf, asks_help_for_help};

use clap::Error;
use clap::error::ErrorKind;
use heavy_arguments::command_line;
use heavy_host::texts_of;
use std::alloc::{AllocError, Global};

/// The error of `clap`, and what is known of the words.
#[derive(Drop)]
pub struct UsageReport {
    pub error: Error,
    /// Whether a fault has a second line.
    pub explains: bool,
    /// Whether they give a k to a command whose summary has one of its own.
    pub gives_k: bool,
    /// Whether they are for a command that takes keys, which may look like options.
    takes_keys: bool,
}

impl UsageReport {
    /// Splits the text of the error around the tip that an unknown letter be given as a value,
    /// which serves a command with keys alone. Where there is none, all of it comes first.
    pub fn without_tip<'a>(&self, text: &'a str) -> (&'a str, &'a str) {
        let is_letter = match text.strip_prefix("error: unexpected argument '-") {
            Some(rest) => !rest.starts_with("-"),
            None => false,
        };
        if self.takes_keys || !is_letter {
            return (text, "");
        }
        let Some((begin, rest)) = text.split_once("  tip: to pass ") else {
            return (text, "");
        };
        match rest.split_once("\n\n") {
            Some((_, end)) => (begin, end),
            None => (text, ""),
        }
    }
}

/// Whether one of the `words` before `--` is `option`, alone or with its value after `=`.
fn has_option(words: &[Vec<u8>], option: &[u8]) -> bool {
    for word in words {
        if word.as_slice() == b"--".as_slice() {
            return false;
        }
        if let Some([] | [b'=', ..]) = word.strip_prefix(option) {
            return true;
        }
    }
    false
}

/// Whether one of the `words` before `--` begins with `letter`, which may have its value after it.
fn has_letter(words: &[Vec<u8>], letter: &[u8]) -> bool {
    for word in words {
        if word.as_slice() == b"--".as_slice() {
            return false;
        }
        if word.starts_with(letter) {
            return true;
        }
    }
    false
}

/// Whether `words`, the first of which is the program's name, ask its command `help` for help,
/// which `clap` doesn't know.
fn asks_help_for_help(words: &[Vec<u8>]) -> bool
    ensures { result ≡ asks_help_for_help (map (λ w. w.items) words.now) }
{
    let (Some(command), Some(last)) = (words.get(1), words.last()) else {
        return false;
    };
    let last = last.as_slice();
    let asks = last == b"--help".as_slice() || last == b"-h".as_slice();
    command.as_slice() == b"help".as_slice() && asks
}

/// Gives what `clap` says of `words`, or `error` where it takes them.
fn refusal_of(alloc: Global, words: &[Vec<u8>], error: Error) -> Result<Error, AllocError>
    ensures { IfOk result (λ said. (kind_of said ≡ kind_of error)
        ⊎ IsRefusedBy (map (λ w. w.items) words.now) (kind_of said)) }
{
    let texts = texts_of(alloc, words)?;
    let refusal = match command_line(alloc)?.try_get_matches_from(texts.as_slice()) {
        Ok(_) => return Ok(error),
        Err(refusal) => refusal,
    };
    if matches!(refusal.kind(), ErrorKind::OutOfMemory) {
        return Err(AllocError);
    }
    Ok(refusal)
}

/// Gives what is said of `words`, where `clap` gave this `error`. Help of `help` is that of the
/// same words without it.
fn error_of(alloc: Global, words: &[Vec<u8>], error: Error) -> Result<Error, AllocError>
    ensures { IfOk result (λ said.
        IsSaidOf (map (λ w. w.items) words.now) (kind_of error) (kind_of said)) }
{
    match words {
        [_, after @ ..] if asks_help_for_help(words) => refusal_of(alloc, after, error),
        _ => Ok(error),
    }
}

/// Collects what is printed of `words`, the first of which is the program's name, where `clap` gave
/// this `error`.
pub fn usage_report_of(
    alloc: Global,
    words: &[Vec<u8>],
    error: Error,
) -> Result<UsageReport, AllocError>
    ensures memory { IfOk result (λ _. kind_of error ≢ ErrorKind.OutOfMemory) }
    ensures said { IfOk result (λ report.
        IsSaidOf (map (λ w. w.items) words.now) (kind_of error) (kind_of report.error)) }
{
    if matches!(error.kind(), ErrorKind::OutOfMemory) {
        return Err(AllocError);
    }
    let is_unknown = matches!(error.kind(), ErrorKind::UnknownArgument);
    let error = error_of(alloc, words, error)?;
    let words = words.get(1..).unwrap_or(words);
    let name = match words.first() {
        Some(name) => name.as_slice(),
        None => b"".as_slice(),
    };
    let passes = name == b"condense".as_slice() || name == b"confirm".as_slice();
    Ok(UsageReport {
        error,
        explains: has_option(words, b"--explain"),
        gives_k: passes && is_unknown && (has_option(words, b"--k") || has_letter(words, b"-k")),
        takes_keys: name == b"ask".as_slice(),
    })
}
