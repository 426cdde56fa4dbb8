//! The command line: each command, and what it takes.

ghost use Rattle.std.specs.Prelude.{◌≡◌, [], false, map, true, IfOk};
ghost use Rattle.clap.specs.declared.builder.command.Command.TheViews.{out-Command as fields_of};
ghost use Rattle.clap.specs.Simple.{app_of, new_app};
ghost use Rattle.heavy_arguments.specs.Commands.{HasNoGlobals, IsApp};
ghost use Rattle.heavy_arguments.specs.CommandLine.{AreForms, IsProgram, argument_rules};
ghost use Rattle.heavy_arguments.specs.CommandLine.{bare_program, program_of};
ghost use Rattle.heavy_arguments.specs.CommandLine.{shape_of_words, with_rules};

use crate::help::{
    ASK, CONDENSE, CONFIRM, DESCRIBE, Help, LIST, MERGE, PROGRAM, REPORT, SUMMARISE, TABLE,
    TOP_HELP,
};
use crate::options::{Argument, Forms, Kind, Named};
use clap::Command;
use std::alloc::{AllocError, Global};

/// The program's version.
const VERSION: &str = "1.0.0";

/// What the help of a command with words says of words that look like options.
const DASHES: &str = "A word that begins with - is given after --";

pub const EXPLAIN: Named = Argument {
    name: "explain",
    letter: None,
    kind: Kind::LastFlag,
    help: "Say more about a fault, in a second line, as is done on a terminal",
};

pub const PROGRESS: Named = Argument {
    name: "progress",
    letter: None,
    kind: Kind::LastFlag,
    help: "Tell on standard error how far the input is read, about once a second",
};

/// The number of counters.
pub const K: Named = Argument {
    name: "k",
    letter: Some('k'),
    kind: Kind::Number(Some(100)),
    help: "Keys above 1/(k+1) of the total weight are heavy, k from 1 to 65535 [default: 100]",
};

pub const THRESHOLD: Named = Argument {
    name: "threshold",
    letter: Some('t'),
    kind: Kind::Share,
    help: "Keys above this share of the total are heavy, as 1/50 [default: 1/(k+1)]",
};

pub const TOP: Named = Argument {
    name: "top",
    letter: Some('n'),
    kind: Kind::Number(None),
    help: "Print at most the first N rows [default: all]",
};

pub const SHARE: Named = Argument {
    name: "share",
    letter: None,
    kind: Kind::Flag,
    help: "Print in a third column the weight's share of the total in percent, rounded down",
};

pub const OUTPUT: Named = Argument {
    name: "output",
    letter: None,
    kind: Kind::Form,
    help: "Print rows as csv, tsv or json, an object a line [default: csv]",
};

pub const NAMES: Named = Argument {
    name: "names",
    letter: None,
    kind: Kind::Flag,
    help: "Print a first row with the columns' names",
};

/// The file that an answer replaces.
pub const OUT: Named = Argument {
    name: "out",
    letter: Some('o'),
    kind: Kind::Filled("FILE"),
    help: "Write to FILE: a new file takes its place once it is whole [default: standard output]",
};

pub const METHOD: Named = Argument {
    name: "method",
    letter: None,
    kind: Kind::Text("METHOD", "mg"),
    help: "How: mg (Misra-Gries) or ss (Space-Saving), with the same result [default: mg]",
};

pub const WORKERS: Named = Argument {
    name: "workers",
    letter: None,
    kind: Kind::Number(Some(4)),
    help: "Threads that work at once, from 1 to 64 [default: 4]",
};

/// The workers of a summary: one makes the bytes that its definition says.
pub const SUMMARY_WORKERS: Named = Argument {
    name: "workers",
    letter: None,
    kind: Kind::Number(Some(1)),
    help: "Threads that work at once, from 1 to 64 [default: 1]",
};

pub const MEMORY: Named = Argument {
    name: "memory",
    letter: None,
    kind: Kind::Number(Some(64)),
    help: "Megabytes of a pipe to keep in memory; a longer one goes to a file [default: 64]. \
        With --once, of counters [default: 4]",
};

pub const ONCE: Named = Argument {
    name: "once",
    letter: None,
    kind: Kind::Flag,
    help: "Read the input once and keep nothing of it; rows that are uncertain are refused",
};

/// The memory of a report by one reading, for counters.
pub const ONCE_MEMORY: Named = Argument {
    name: "memory",
    letter: None,
    kind: Kind::Number(Some(4)),
    help: "Megabytes of counters [default: 4]",
};

/// The memory of `top`, for what a pipe gave and for counters.
pub const TOP_MEMORY: Named = Argument {
    name: "memory",
    letter: None,
    kind: Kind::Number(Some(256)),
    help: "Megabytes of a pipe to keep in memory, and of counters that grow [default: 256]",
};

pub const PIECES: Named = Argument {
    name: "pieces",
    letter: None,
    kind: Kind::Number(Some(4)),
    help: "Pieces that the records are cut into, from 1 to 1024 [default: 4]",
};

pub const TREE: Named = Argument {
    name: "tree",
    letter: None,
    kind: Kind::Text("TREE", "balanced"),
    help: "How to merge the pieces: balanced, chain or as in ((0 1) 2) [default: balanced]",
};

pub const WIDTH: Named = Argument {
    name: "width",
    letter: None,
    kind: Kind::Number(Some(1024)),
    help: "Width of the Count-Min table, from 1 to 65536 [default: 1024]",
};

pub const DEPTH: Named = Argument {
    name: "depth",
    letter: None,
    kind: Kind::Number(Some(4)),
    help: "Depth of the Count-Min table, from 1 to 16 [default: 4]",
};

pub const SEED: Named = Argument {
    name: "seed",
    letter: None,
    kind: Kind::Number(Some(0)),
    help: "Seed of the table's hash family, from 0 to 18446744073709551615 [default: 0]",
};

pub const GREATEST: Named = Argument {
    name: "N",
    letter: None,
    kind: Kind::Count,
    help: "How many keys, from 1 on",
};

pub const SAVED_FILE: Named = Argument {
    name: "FILE",
    letter: None,
    kind: Kind::Word,
    help: "A saved file; - is standard input, once",
};

pub const SAVED_SUMMARY: Named = Argument {
    name: "FILE",
    letter: None,
    kind: Kind::Word,
    help: "A saved summary; - is standard input, once",
};

pub const SAVED_FILES: Named = Argument {
    name: "FILE",
    letter: None,
    kind: Kind::Words,
    help: "A saved file; - is standard input, once",
};

pub const KEYS: Named = Argument {
    name: "KEY",
    letter: None,
    kind: Kind::Words,
    help: "A key",
};

pub const RECORDS: Named = Argument {
    name: "RECORDS",
    letter: None,
    kind: Kind::Files,
    help: "Files of records, read one after the other; - is standard input, once [default: -]",
};

/// The digits of weights that were counted before.
pub const PRINTED_DECIMALS: Named = Argument {
    name: "decimals",
    letter: None,
    kind: Kind::Digit,
    help: "Print numbers with D digits behind the point, as the records had, 0 to 9 [default: 0]",
};

pub const DELIMITER: Named = Argument {
    name: "delimiter",
    letter: Some('d'),
    kind: Kind::Byte,
    help: "The byte between two fields, \\t for a tab, =- for a hyphen [default: , or a space]",
};

pub const HEADER: Named = Argument {
    name: "header",
    letter: Some('H'),
    kind: Kind::Flag,
    help: "The first record of each file names the columns, and is no record",
};

pub const KEY: Named = Argument {
    name: "key",
    letter: None,
    kind: Kind::Columns,
    help: "The column of the key, by number or name (2024 is a number); several, as 4,5 or \
        '\"a, b\",c', are one key",
};

pub const WEIGHT: Named = Argument {
    name: "weight",
    letter: None,
    kind: Kind::Text("COLUMN", ""),
    help: "The column of the weight; with --key alone each record weighs 1",
};

pub const ALLOW_ZERO: Named = Argument {
    name: "allow-zero",
    letter: None,
    kind: Kind::Flag,
    help: "A record of weight 0 or - adds nothing, and is no fault",
};

pub const BAD_AS: Named = Argument {
    name: "bad-as",
    letter: None,
    kind: Kind::Filled("KEY"),
    help: "Count each record that can't be read as one item of KEY, of weight 1, and tell \
        how many",
};

pub const DECIMALS: Named = Argument {
    name: "decimals",
    letter: None,
    kind: Kind::Digit,
    help: "Weights may have a point and up to D digits behind it, D from 0 to 9 [default: 0]",
};

pub const UNTIL: Named = Argument {
    name: "until",
    letter: None,
    kind: Kind::Text("BYTES", ""),
    help: "The key ends before the first of these bytes (no letters) in its last column, as \
        ? in a path",
};

pub const PREFIX: Named = Argument {
    name: "prefix",
    letter: None,
    kind: Kind::Number(None),
    help: "The key has at most the first N bytes of its last column, as 13 of a time to the \
        hour; of 0 none is left",
};

pub const NO_QUOTES: Named = Argument {
    name: "no-quotes",
    letter: None,
    kind: Kind::Flag,
    help: "A quote is a byte as any other: each line is a record",
};

pub const SQUEEZE: Named = Argument {
    name: "squeeze",
    letter: None,
    kind: Kind::Flag,
    help: "Several delimiters are one, and those at a line's ends none; no quotes, as padded \
        columns",
};

pub const LINES: Named = Argument {
    name: "lines",
    letter: None,
    kind: Kind::Flag,
    help: "Each line is a key; its delimiters and quotes are bytes as any other",
};

pub const JSON: Named = Argument {
    name: "json",
    letter: None,
    kind: Kind::Flag,
    help: "Each line is a JSON object; --key and --weight name members, or are JSON pointers \
        as /a/b",
};

/// How records are read.
pub const COLUMNS: &[Named] = &[
    DELIMITER, HEADER, KEY, WEIGHT, ALLOW_ZERO, BAD_AS, DECIMALS, UNTIL, PREFIX, NO_QUOTES,
    SQUEEZE, LINES, JSON,
];

/// How the same report is computed.
pub const MEANS: &[Named] = &[WORKERS, MEMORY, PIECES, TREE, WIDTH, DEPTH, SEED];

/// A command, unless there was no memory for it.
type Built<'a> = Result<Command<'a>, AllocError>;

/// A command: its name, what help says of it, and what it takes.
pub(crate) struct CommandWords {
    name: &'static str,
    help: &'static Help,
    arguments: &'static [Named],
    /// How records are read.
    columns: &'static [Named],
    /// How the same report is computed.
    means: &'static [Named],
}

pub const REPORT_ARGUMENTS: &[Named] = &[
    EXPLAIN, PROGRESS, K, THRESHOLD, TOP, SHARE, OUTPUT, NAMES, OUT, ONCE, RECORDS,
];

pub const TOP_ARGUMENTS: &[Named] = &[
    EXPLAIN, PROGRESS, SHARE, OUTPUT, NAMES, OUT, WORKERS, TOP_MEMORY, GREATEST, RECORDS,
];

pub const SUMMARISE_ARGUMENTS: &[Named] = &[
    EXPLAIN,
    PROGRESS,
    K,
    METHOD,
    SUMMARY_WORKERS,
    OUT,
    RECORDS,
];

pub const TABLE_ARGUMENTS: &[Named] = &[
    EXPLAIN, PROGRESS, WIDTH, DEPTH, SEED, WORKERS, OUT, RECORDS,
];

pub const MERGE_ARGUMENTS: &[Named] = &[EXPLAIN, OUT, SAVED_FILES];

pub const ASK_ARGUMENTS: &[Named] = &[
    EXPLAIN,
    PRINTED_DECIMALS,
    OUTPUT,
    NAMES,
    OUT,
    SAVED_FILE,
    KEYS,
];

pub const LIST_ARGUMENTS: &[Named] = &[
    EXPLAIN,
    PRINTED_DECIMALS,
    OUTPUT,
    NAMES,
    OUT,
    SAVED_SUMMARY,
];

pub const DESCRIBE_ARGUMENTS: &[Named] = &[EXPLAIN, OUTPUT, NAMES, OUT, SAVED_FILE];

pub const CONDENSE_ARGUMENTS: &[Named] = &[
    EXPLAIN,
    PROGRESS,
    OUTPUT,
    NAMES,
    OUT,
    WORKERS,
    SAVED_SUMMARY,
    RECORDS,
];

pub const CONFIRM_ARGUMENTS: &[Named] = &[
    EXPLAIN,
    PROGRESS,
    THRESHOLD,
    TOP,
    SHARE,
    OUTPUT,
    NAMES,
    OUT,
    WORKERS,
    SAVED_SUMMARY,
    RECORDS,
];

/// The commands in the order of help.
const COMMANDS: [CommandWords; 10] = [
    CommandWords {
        name: "report",
        help: &REPORT,
        arguments: REPORT_ARGUMENTS,
        columns: COLUMNS,
        means: MEANS,
    },
    CommandWords {
        name: "top",
        help: &TOP_HELP,
        arguments: TOP_ARGUMENTS,
        columns: COLUMNS,
        means: &[],
    },
    CommandWords {
        name: "summarise",
        help: &SUMMARISE,
        arguments: SUMMARISE_ARGUMENTS,
        columns: COLUMNS,
        means: &[],
    },
    CommandWords {
        name: "table",
        help: &TABLE,
        arguments: TABLE_ARGUMENTS,
        columns: COLUMNS,
        means: &[],
    },
    CommandWords {
        name: "merge",
        help: &MERGE,
        arguments: MERGE_ARGUMENTS,
        columns: &[],
        means: &[],
    },
    CommandWords {
        name: "ask",
        help: &ASK,
        arguments: ASK_ARGUMENTS,
        columns: &[],
        means: &[],
    },
    CommandWords {
        name: "list",
        help: &LIST,
        arguments: LIST_ARGUMENTS,
        columns: &[],
        means: &[],
    },
    CommandWords {
        name: "describe",
        help: &DESCRIBE,
        arguments: DESCRIBE_ARGUMENTS,
        columns: &[],
        means: &[],
    },
    CommandWords {
        name: "condense",
        help: &CONDENSE,
        arguments: CONDENSE_ARGUMENTS,
        columns: COLUMNS,
        means: &[],
    },
    CommandWords {
        name: "confirm",
        help: &CONFIRM,
        arguments: CONFIRM_ARGUMENTS,
        columns: COLUMNS,
        means: &[],
    },
];

/// The command with this name and help.
fn described<'a>(alloc: Global, name: &'a str, help: &Help) -> Command<'a>
    ensures app { app_of result ≡ new_app name.now }
    ensures globals { (fields_of result).has_globals ≡ false }
{
    Command::new(alloc, name)
        .about(help.about)
        .long_about(help.whole)
        .after_long_help(help.end)
}

/// Adds `arguments` to `command`. Rows are printed in the `forms`.
fn with<'a>(
    alloc: Global,
    mut command: Command<'a>,
    forms: Forms<'a>,
    arguments: &[Named],
) -> Built<'a>
    requires { (fields_of command).has_globals ≡ false }
    ensures app { IsApp (with_rules (app_of command.entry)
        (argument_rules (λ t. t.now) forms.entry.names arguments.now)) result }
    ensures globals { HasNoGlobals result }
{
    for argument in arguments {
        command = command.arg(argument.to_arg(alloc, forms))?;
    }
    Ok(command)
}

/// The command of these words, which prints rows in the `forms`.
fn command_of<'a>(alloc: Global, forms: Forms<'a>, words: &CommandWords) -> Built<'a>
    ensures app { IsApp (record {
      top = shape_of_words forms.entry.names words.now;
      subs = [];
    }) result }
    ensures globals { HasNoGlobals result }
{
    let command = described(alloc, words.name, words.help).after_help(DASHES);
    let command = with(alloc, command, forms, words.arguments)?;
    let command = command.next_help_heading("How records are read");
    let command = with(alloc, command, forms, words.columns)?;
    let command = command.next_help_heading("How the report is computed, which changes no row");
    with(alloc, command, forms, words.means)
}

/// The program, which has no command yet.
fn program<'a>(alloc: Global) -> Built<'a>
    ensures app { IsApp bare_program result }
    ensures globals { HasNoGlobals result }
{
    described(alloc, "heavy", &PROGRAM)
        .version(VERSION)
        .bin_name("heavy")
}

/// The program with these commands, of which one has to be named. They print rows in the `forms`.
fn with_commands<'a>(alloc: Global, forms: Forms<'a>, commands: &[CommandWords]) -> Built<'a>
    ensures app { IsApp (program_of (map (shape_of_words forms.entry.names) commands.now)) result }
    ensures globals { HasNoGlobals result }
    ensures required { IfOk result (λ c. (fields_of c).subcommand_required ≡ true) }
{
    let mut all = program(alloc)?;
    for words in commands {
        all = all.subcommand(command_of(alloc, forms, words)?)?;
    }
    Ok(all.subcommand_required(true))
}

/// The forms in which rows are printed.
fn all_forms<'a>() -> Forms<'a>
    ensures { AreForms result.names }
{
    Forms {
        names: &["csv", "tsv", "json"],
    }
}

/// The command line that the program reads.
pub fn command_line<'a>(alloc: Global) -> Result<Command<'a>, AllocError>
    ensures app { IfOk result (λ c. IsProgram (app_of c)) }
    ensures globals { HasNoGlobals result }
    ensures required { IfOk result (λ c. (fields_of c).subcommand_required ≡ true) }
{
    let all = with_commands(alloc, all_forms(), &COMMANDS)?;
    Ok(all)
}
