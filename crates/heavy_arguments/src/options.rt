//! What a command takes: options, and words that stand by themselves.

ghost use Rattle.std.specs.Prelude.{◌≡◌, ◌^◌, Some, false};
ghost use Rattle.clap.specs.Lexer.{usize_max};
ghost use Rattle.clap.specs.Simple.{new_rule};
ghost use Rattle.clap.specs.Walk.{rule_of};
ghost use Rattle.clap.specs.Words.{found_of};
ghost use Rattle.clap.specs.declared.builder.action.ArgAction.TheVariants.{Append};
ghost use Rattle.heavy_arguments.specs.CommandLine.{flag, option, rule_of_argument, rule_of_kind};
ghost use Rattle.heavy_arguments.specs.Found.{IsFlag, IsNumber, IsNumberGiven, number_of_kind};
ghost use Rattle.heavy_arguments.specs.Found.{text_found, text_of_kind};

use clap::builder::ValueParser;
use clap::{Arg, ArgAction, ArgMatches, value_parser};
use std::alloc::Global;

/// The place in help of an option that stands below those of the command's own.
const LAST: usize = 100;

/// What whole help says of the share above which keys are heavy.
const SHARE_HELP: &str = "Keys above this share of the total weight are heavy, from 1/(k+1) to 1/1,
with P and Q up to 4294967296; k is the number of counters [default: 1/(k+1)]";

/// The forms in which rows are printed.
#[derive(Clone, Copy)]
pub(crate) struct Forms<'a> {
    pub(crate) names: &'a [&'a str],
}

/// How an argument is given. Its texts are `T`: definitions cite constants of structs that have
/// references by type parameters alone.
#[derive(Clone, Copy)]
pub enum Kind<T> {
    /// An option with a number, and what it is where it isn't given.
    Number(Option<u64>),
    /// An option with a number from 0 to 9.
    Digit,
    /// An option with a text, by the name that help has for it, and what it is where it isn't
    /// given.
    Text(T, T),
    /// An option with a text that isn't empty, by the name that help has for it.
    Filled(T),
    /// An option with a byte.
    Byte,
    /// An option with columns.
    Columns,
    /// An option with a share of the total.
    Share,
    /// An option with the form in which rows are printed.
    Form,
    /// An option that is given or not.
    Flag,
    /// A flag that help lists after the command's own options.
    LastFlag,
    /// A word that has to be given.
    Word,
    /// A number from 1 on that has to be given, as a word.
    Count,
    /// One such word or more.
    Words,
    /// The names of files, if any.
    Files,
}

/// What a command takes: an option, or words that stand by themselves.
#[derive(Clone, Copy)]
pub struct Argument<T> {
    pub name: T,
    /// The letter that gives it too, after one hyphen.
    pub letter: Option<char>,
    pub kind: Kind<T>,
    pub help: T,
}

/// An argument of a constant.
pub type Named = Argument<&'static str>;

/// The word with this name, that of its value, and its help.
fn word<'a>(alloc: Global, name: &'a str, value: &'a str, help: &'a str) -> Arg<'a>
    ensures rule { rule_of result ≡ record (new_rule name.now) { value_names = 1 } }
    ensures local { result.global ≡ false }
{
    Arg::new(alloc, name).value_name(value).help(help)
}

/// Takes a word once or more.
fn several<'a>(word: Arg<'a>) -> Arg<'a>
    ensures rule { rule_of result ≡ record (rule_of word.entry) {
      action = Some Append;
      range = Some (record { start_inclusive = 1; end_inclusive = usize_max });
    } }
    ensures local { result.global ≡ word.entry.global }
{
    word.action(ArgAction::Append).num_args(1..)
}

/// The option with this name, that of its value, and its help.
fn option<'a>(alloc: Global, name: &'a str, value: &'a str, help: &'a str) -> Arg<'a>
    ensures rule { rule_of result ≡ option name.now }
    ensures local { result.global ≡ false }
{
    word(alloc, name, value, help).long(name)
}

/// The option that is given or not.
fn flag<'a>(alloc: Global, name: &'a str, help: &'a str) -> Arg<'a>
    ensures rule { rule_of result ≡ flag name.now }
    ensures local { result.global ≡ false }
{
    Arg::new(alloc, name)
        .long(name)
        .help(help)
        .action(ArgAction::SetTrue)
}

impl Kind<&'static str> {
    /// Gives the number that stands where none is given: 0 where the kind has no other.
    fn number(self) -> u64
        ensures { result ≡ number_of_kind self.entry }
    {
        match self {
            Kind::Number(Some(number)) => number,
            Kind::Count => 1,
            _ => 0,
        }
    }

    /// Gives the text that stands where none is given: none where the kind has no other.
    fn text(self) -> &'static str
        ensures { result.now ≡ text_of_kind (λ t. t.now) self.entry }
    {
        match self {
            Kind::Text(_, text) => text,
            _ => "",
        }
    }

    /// Makes the argument with this name and help for `clap`. Rows are printed in the `forms`.
    fn to_arg<'a>(self, alloc: Global, forms: Forms<'a>, name: &'a str, help: &'a str) -> Arg<'a>
        ensures rule { rule_of result ≡ rule_of_kind forms.entry.names self.entry name.now }
        ensures local { result.global ≡ false }
    {
        match self {
            Kind::Number(_) => option(alloc, name, "N", help).value_parser(value_parser!(u64)),
            Kind::Digit => {
                option(alloc, name, "D", help).value_parser(value_parser!(u8).range(0..=9))
            }
            Kind::Text(value, _) => option(alloc, name, value, help),
            Kind::Filled(value) => {
                option(alloc, name, value, help).value_parser(ValueParser::NonEmptyString)
            }
            Kind::Byte => option(alloc, name, "BYTE", help),
            Kind::Columns => option(alloc, name, "COLUMN", help).action(ArgAction::Append),
            Kind::Share => option(alloc, name, "P/Q", help).long_help(SHARE_HELP),
            Kind::Form => option(alloc, name, "FORM", help)
                .value_parser(forms.names)
                .hide_possible_values(true),
            Kind::Flag => flag(alloc, name, help),
            Kind::LastFlag => flag(alloc, name, help).display_order(LAST),
            Kind::Word => word(alloc, name, name, help).required(true),
            Kind::Count => word(alloc, name, name, help)
                .required(true)
                .value_parser(value_parser!(u64).range(1..)),
            Kind::Words => several(word(alloc, name, name, help).required(true)),
            Kind::Files => several(word(alloc, name, "FILE", help)),
        }
    }
}

impl Argument<&'static str> {
    /// Makes the argument for `clap`. Rows are printed in the `forms`.
    pub(crate) fn to_arg<'a>(self, alloc: Global, forms: Forms<'a>) -> Arg<'a>
        ensures rule { rule_of result
            ≡ rule_of_argument (λ t. t.now) forms.entry.names self.entry }
        ensures local { result.global ≡ false }
    {
        let argument = self.kind.to_arg(alloc, forms, self.name, self.help);
        match self.letter {
            Some(letter) => argument.short(letter),
            None => argument,
        }
    }

    /// Gives the number that was given, if one was.
    pub fn number_given(self, found: &ArgMatches) -> Option<u64>
        ensures { IsNumberGiven (found_of found.now) self.entry.name.now result }
    {
        found.get_one(self.name)
    }

    /// Gives the number that was given, or else the default.
    pub fn number(self, found: &ArgMatches) -> u64
        ensures { IsNumber (found_of found.now) self.entry.name.now (2 ^ 64)
            (number_of_kind self.entry.kind) result }
    {
        found.get_one(self.name).unwrap_or(self.kind.number())
    }

    /// Gives the digit that was given, or else 0.
    pub fn digit(self, found: &ArgMatches) -> u8
        ensures { IsNumber (found_of found.now) self.entry.name.now (2 ^ 8) 0 result }
    {
        found.get_one(self.name).unwrap_or(0)
    }

    /// Gives the text that was given, or else the default.
    pub fn text<'a>(self, found: &ArgMatches<'a>) -> &'a str
        ensures { result.now ≡ text_found (λ t. t.now) (found_of found.now) self.entry }
    {
        found.get_str(self.name).unwrap_or(self.kind.text())
    }

    /// Whether the flag is given.
    pub fn is_given(self, found: &ArgMatches) -> bool
        ensures { IsFlag (found_of found.now) self.entry.name.now result }
    {
        found.get_flag(self.name)
    }
}
