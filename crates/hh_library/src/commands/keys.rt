//! The numbers that a value tells of keys.

ghost use Rattle.std.specs.Prelude.{◌≡◌, Some, None, IfOk, IfErr, OnOk, map, vec_items};
ghost use Rattle.hh_commands.specs.Ask.{answer_of, bad_key};

use hh_commands::{answer_of, check_key, slack_of};
use hh_faults::ToolError;
use hh_saved::Saved;
use hh_stream::Key;
use std::alloc::{AllocError, Global};

/// The two numbers of words that passed their tests.
pub(crate) fn answers_of(
    alloc: Global,
    saved: &Saved,
    words: &[Vec<u8>],
) -> Result<Vec<(u64, u64)>, AllocError>
    requires { bad_key 1 (map vec_items words.now) ≡ None }
    ensures { IfOk result (λ answers.
        answers.items ≡ map (λ word. answer_of saved.now word.items) words.now) }
{
    let slack = slack_of(saved);
    let mut answers = Vec::new(alloc);
    for word in words {
        let key = Key::of_bytes(alloc, word)?;
        answers.push(answer_of(saved, slack, &key))?;
    }
    Ok(answers)
}

/// Tests that each of `words` can be a key, in order, numbered from 1.
pub(crate) fn check_keys(words: &[Vec<u8>]) -> Result<(), ToolError>
    ensures passes { OnOk result (bad_key 1 (map vec_items words.now) ≡ None) }
    ensures refused { IfErr result (λ fault. bad_key 1 (map vec_items words.now) ≡ Some fault) }
{
    for i in 0..words.len() {
        check_key(i as u64 + 1, &words[i])?;
    }
    Ok(())
}
