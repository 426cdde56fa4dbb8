//! What a command line asks for.

ghost use Rattle.std.specs.Prelude.{◌≡◌, ◌++◌, [], IfErr, IfOk, OnOk, map, option_map};
ghost use Rattle.clap.specs.Words.{first_value, found_of};
ghost use Rattle.heavy_arguments.specs.Found.{text_found};
ghost use Rattle.heavy_host.specs.Words.{word_of};
ghost use Rattle.heavy_requests.specs.Request.{AreOptions, AreRecordWords, AreRowOptions};
ghost use Rattle.heavy_requests.specs.Request.{AsksFor, GivesShare, IsAskedBy, IsAskedFrom};
ghost use Rattle.heavy_requests.specs.Request.{IsFormat, IsOutput, MayRefuse, MayRefuseFrom};
ghost use Rattle.heavy_requests.specs.Request.{NamesTree, all_columns, all_words, are_plain, bytes_of};
ghost use Rattle.heavy_requests.specs.Request.{asks_plan, between_commas, columns_in, first_file};
ghost use Rattle.heavy_requests.specs.Request.{word_given};

use crate::fields::split_fields;
use crate::usage_report::{UsageReport, usage_report_of};
use clap::ArgMatches;
use heavy_arguments::arguments::{
    ALLOW_ZERO, BAD_AS, DECIMALS, DELIMITER, DEPTH, EXPLAIN, GREATEST, HEADER, JSON, K, KEY, KEYS,
    LINES, METHOD, NAMES, NO_QUOTES, ONCE, OUT, OUTPUT, PIECES, PREFIX, PROGRESS, RECORDS,
    SAVED_FILES, SEED, SHARE, SQUEEZE, THRESHOLD, TOP, TREE, UNTIL, WEIGHT, WIDTH,
};
use heavy_arguments::{Named, Verb, command_line};
use heavy_host::{WordSource, bytes_of, read_words, texts_of};
use hh_records::{Format, LayoutWords, delimiter_of};
use hh_rows::{Form, Output, ReportOptions, RowOptions, Share, Tree};
use std::alloc::{AllocError, Global};
use std::io::IsTerminal;

/// How many bytes a megabyte has.
const MEGABYTE: u64 = 1_000_000;

/// What a command line asks for. Of an option that the command doesn't have it says what it says
/// where the option isn't given.
#[derive(Drop)]
pub struct Asked {
    pub verb: Verb,
    /// What a report is of, and how it is made.
    pub options: ReportOptions,
    /// Whether an option of the plan is given.
    pub by_plan: bool,
    /// Whether a report is made by one reading, of which nothing is kept.
    pub once: bool,
    /// How a summary is made.
    pub method: Vec<u8>,
    /// How many of the greatest keys are printed.
    pub greatest: u64,
    /// The most megabytes of a pipe that are kept in memory, where it is read twice, and of
    /// counters that grow, or that a report by one reading has. A pipe that gives more is kept in a
    /// temporary file.
    pub memory: u64,
    /// Which rows are printed, and how.
    pub rows: RowOptions,
    /// The names of saved files.
    pub files: Vec<Vec<u8>>,
    /// The keys that a saved file is asked for. Words are kept as bytes, which need not be UTF-8.
    pub keys: Vec<Vec<u8>>,
    pub records: RecordWords,
    /// The name of the file that the answer replaces. None is standard output.
    pub out: Option<Vec<u8>>,
    /// Whether the progress of reading is reported.
    pub tells_progress: bool,
    /// Whether an error message gets a second line, which explains it.
    pub explains: bool,
}

impl Asked {
    /// Whether a fault has a second line: where that is asked for, or standard error is a terminal.
    pub fn explains_faults(&self, rt: &HostRuntime) -> bool {
        self.explains || rt.stderr().is_terminal()
    }

    /// Gives the name of the first saved file, which `clap` requires where a command has one. Where
    /// there is none the name is empty, so that it can't be read.
    pub fn first_file(&self) -> &[u8]
        ensures { result.now ≡ first_file self.now }
    {
        match self.files.first() {
            Some(file) => file.as_slice(),
            None => b"",
        }
    }

    /// Gives how many saved files the command line names before its files of records. It is 0 for
    /// a command that reads no records, however many saved files it names.
    pub fn saved_before_records(&self) -> u64 {
        if self.verb.reads_records() {
            self.files.len() as u64
        } else {
            0
        }
    }

    /// Gives how many bytes the megabytes of memory are, or the greatest number.
    pub fn memory_bytes(&self) -> u64
        ensures { result ≡ bytes_of self.now.memory }
    {
        self.memory.saturating_mul(MEGABYTE)
    }

    /// Gives the passes in which workers read the files of records, by the command line alone.
    pub fn passes(&self) -> u64 {
        let one_reading = self.once || self.by_plan;
        self.verb.passes(one_reading, self.options.workers)
    }
}

/// The words that say which records are read.
#[derive(Drop)]
pub struct RecordWords {
    /// The names of their files. None is standard input, and so is `-`.
    pub files: Vec<Vec<u8>>,
    pub layout: LayoutWords,
}

impl RecordWords {
    /// Whether no file of records and no option of them is given.
    pub fn are_plain(&self) -> bool
        ensures { result ≡ are_plain self.now }
    {
        let layout = &self.layout;
        self.files.is_empty()
            && layout.delimiter.is_none()
            && !layout.has_header
            && layout.key.is_empty()
            && layout.weight.is_none()
            && layout.until.is_empty()
            && layout.prefix.is_none()
            && matches!(layout.format, Format::Csv)
            && !layout.allow_zero
            && layout.bad_as.is_none()
            && layout.decimals == 0
    }

    /// Gives the byte that parts two fields where records are counted: a quote where no field is
    /// quoted, since it opens none then.
    pub fn parting_byte(&self) -> Option<u8> {
        if !self.layout.format.has_quotes() {
            return Some(b'"');
        }
        match &self.layout.delimiter {
            Some(word) => delimiter_of(word),
            None => Some(b','),
        }
    }
}

/// Why a command line asks for nothing.
#[derive(Drop)]
pub enum UsageError {
    /// It asks for help or is wrong: the text to print.
    Reported(UsageReport),
    /// The allocator had no memory.
    Memory,
}

impl From<AllocError> for UsageError {
    ghost use Rattle.std.specs.Prelude.{◌≡◌};
    ghost use Rattle.heavy_requests.specs.declared.request.UsageError.TheVariants.{Memory};

    ghost from_gives = { λ _ e. e ≡ Memory };

    fn from(_: AllocError) -> UsageError {
        UsageError::Memory
    }
}

/// Gives the bytes of the text of `argument`, or else those of its default.
fn word(alloc: Global, found: &ArgMatches, argument: Named) -> Result<Vec<u8>, AllocError>
    ensures { IfOk result (λ word.
        word.items ≡ word_of (text_found (λ t. t.now) (found_of found.now) argument.entry)) }
{
    bytes_of(alloc, argument.text(found))
}

/// Collects the bytes of all words of `name`.
fn words(alloc: Global, found: &ArgMatches, name: &str) -> Result<Vec<Vec<u8>>, AllocError>
    ensures { IfOk result (λ words.
        map (λ w. w.items) words.items ≡ all_words (found_of found.now) name.now) }
{
    let mut words = Vec::new(alloc);
    let Some(texts) = found.get_strs(name) else {
        return Ok(words);
    };
    for text in texts {
        words.push(bytes_of(alloc, text)?)?;
    }
    Ok(words)
}

/// Splits `text` at its commas.
fn parts_of<'a>(alloc: Global, text: &'a str) -> Result<Vec<&'a str>, AllocError>
    ensures { IfOk result (λ parts.
        map (λ part. part.now) parts.items ≡ between_commas text.now) }
{
    text.split(',').collect(alloc)
}

/// Pushes the bytes of `texts` after `words`.
fn push_words(alloc: Global, words: &mut Vec<Vec<u8>>, texts: &[&str]) -> Result<(), AllocError>
    ensures { OnOk result (map (λ w. w.items) words.new.items
        ≡ map (λ w. w.items) words.old.items ++ map word_of (map (λ t. t.now) texts.now)) }
{
    for text in texts {
        words.push(bytes_of(alloc, text)?)?;
    }
    Ok(())
}

/// Pushes the columns that `text` names after `words`. Commas part them; in a text with quotes one
/// between two quotes is part of a name.
fn push_columns(alloc: Global, words: &mut Vec<Vec<u8>>, text: &str) -> Result<(), AllocError>
    ensures { OnOk result (map (λ w. w.items) words.new.items
        ≡ map (λ w. w.items) words.old.items ++ columns_in text.now) }
{
    if !text.as_bytes().contains(&b'"') {
        return push_words(alloc, words, &parts_of(alloc, text)?);
    }
    let mut names = split_fields(alloc, b',', &bytes_of(alloc, text)?)?;
    words.append(&mut names)
}

/// Collects all columns that the words of `name` name, of which a word may name several.
fn columns(alloc: Global, found: &ArgMatches, name: &str) -> Result<Vec<Vec<u8>>, AllocError>
    ensures { IfOk result (λ words.
        map (λ w. w.items) words.items ≡ all_columns (found_of found.now) name.now) }
{
    let mut words = Vec::new(alloc);
    let Some(texts) = found.get_strs(name) else {
        return Ok(words);
    };
    for text in texts {
        push_columns(alloc, &mut words, text)?;
    }
    Ok(words)
}

/// Gives the bytes of the first word of `name`, if one is given.
fn word_given(alloc: Global, found: &ArgMatches, name: &str) -> Result<Option<Vec<u8>>, AllocError>
    ensures { IfOk result (λ word. option_map (λ w. w.items) word
        ≡ word_given (found_of found.now) name.now) }
{
    match found.get_str(name) {
        Some(text) => Ok(Some(bytes_of(alloc, text)?)),
        None => Ok(None),
    }
}

/// Reads how a record is written: objects have no delimiters, lines no fields, and squeezed fields
/// no quotes.
fn format_of(found: &ArgMatches) -> Format
    ensures { IsFormat (found_of found.now) result }
{
    if JSON.is_given(found) {
        Format::Json
    } else if LINES.is_given(found) {
        Format::Lines
    } else if SQUEEZE.is_given(found) {
        Format::Squeezed
    } else if NO_QUOTES.is_given(found) {
        Format::Unquoted
    } else {
        Format::Csv
    }
}

/// Reads which records are asked for.
fn record_words(alloc: Global, found: &ArgMatches) -> Result<RecordWords, AllocError>
    ensures { IfOk result (AreRecordWords (found_of found.now)) }
{
    let layout = LayoutWords {
        format: format_of(found),
        delimiter: word_given(alloc, found, DELIMITER.name)?,
        has_header: HEADER.is_given(found),
        key: columns(alloc, found, KEY.name)?,
        weight: word_given(alloc, found, WEIGHT.name)?,
        until: word(alloc, found, UNTIL)?,
        prefix: PREFIX.number_given(found),
        allow_zero: ALLOW_ZERO.is_given(found),
        decimals: DECIMALS.digit(found),
        bad_as: word_given(alloc, found, BAD_AS.name)?,
    };
    Ok(RecordWords {
        files: words(alloc, found, RECORDS.name)?,
        layout,
    })
}

/// Reads the tree that `word` names.
fn tree_of(word: Vec<u8>) -> Tree
    ensures { NamesTree word.items result }
{
    if word.as_slice() == b"balanced".as_slice() {
        Tree::Balanced
    } else if word.as_slice() == b"chain".as_slice() {
        Tree::Chain
    } else {
        Tree::Text(word)
    }
}

/// Reads the threshold that is asked for, if one is.
fn threshold_of(alloc: Global, found: &ArgMatches) -> Result<Share, AllocError>
    ensures { IfOk result (GivesShare (first_value (found_of found.now) THRESHOLD.name.now)) }
{
    match found.get_str(THRESHOLD.name) {
        Some(text) => Ok(Share::Text(bytes_of(alloc, text)?)),
        None => Ok(Share::OfCounters),
    }
}

/// Reads how rows are printed. `clap` takes the three forms' names alone, so that the one that
/// isn't named here is `csv`.
fn output_of(found: &ArgMatches) -> Output
    ensures { IsOutput (found_of found.now) result }
{
    let form = match found.get_str(OUTPUT.name) {
        Some("tsv") => Form::Tsv,
        Some("json") => Form::Json,
        _ => Form::Csv,
    };
    Output {
        form,
        has_names: NAMES.is_given(found),
        decimals: DECIMALS.digit(found),
    }
}

/// Reads which rows are printed, and how.
fn rows_of(found: &ArgMatches) -> RowOptions
    ensures { AreRowOptions (found_of found.now) result }
{
    RowOptions {
        top: TOP.number_given(found),
        share: SHARE.is_given(found),
        output: output_of(found),
    }
}

/// Whether a plan is asked for, by one of its options.
fn asks_plan(found: &ArgMatches) -> bool
    ensures { result ≡ asks_plan (found_of found.now) }
{
    found.contains_id(PIECES.name)
        || found.contains_id(TREE.name)
        || found.contains_id(WIDTH.name)
        || found.contains_id(DEPTH.name)
        || found.contains_id(SEED.name)
}

/// Reads what a report is of, and how it is made. A command with another `verb` has some of it.
fn options_of(alloc: Global, verb: Verb, found: &ArgMatches) -> Result<ReportOptions, AllocError>
    ensures { IfOk result (AreOptions verb (found_of found.now)) }
{
    Ok(ReportOptions {
        k: K.number(found),
        threshold: threshold_of(alloc, found)?,
        workers: verb.workers(found),
        pieces: PIECES.number(found),
        tree: tree_of(word(alloc, found, TREE)?),
        width: WIDTH.number(found),
        depth: DEPTH.number(found),
        seed: SEED.number(found),
    })
}

/// Reads what the command `name` asks for.
fn asked_of(alloc: Global, name: &str, found: &ArgMatches) -> Result<Asked, AllocError>
    ensures { IfOk result (AsksFor name.now (found_of found.now)) }
{
    let verb = Verb::of(name);
    let once = ONCE.is_given(found);
    Ok(Asked {
        verb,
        options: options_of(alloc, verb, found)?,
        by_plan: asks_plan(found),
        once,
        method: word(alloc, found, METHOD)?,
        greatest: GREATEST.number(found),
        memory: verb.memory(once, found),
        rows: rows_of(found),
        files: words(alloc, found, SAVED_FILES.name)?,
        keys: words(alloc, found, KEYS.name)?,
        records: record_words(alloc, found)?,
        out: word_given(alloc, found, OUT.name)?,
        tells_progress: PROGRESS.is_given(found),
        explains: EXPLAIN.is_given(found),
    })
}

/// Reads what `words` ask for, the first of which is the program's name.
fn request_in(alloc: Global, words: &[Vec<u8>]) -> Result<Asked, UsageError>
    ensures asked { IfOk result (IsAskedBy (map (λ w. w.items) words.now)) }
    ensures refused { IfErr result (MayRefuse (map (λ w. w.items) words.now)) }
{
    let texts = texts_of(alloc, words)?;
    let matches = match command_line(alloc)?.try_get_matches_from(texts.as_slice()) {
        Ok(matches) => matches,
        Err(error) => return Err(UsageError::Reported(usage_report_of(alloc, words, error)?)),
    };
    let Some((name, found)) = matches.subcommand() else {
        unreachable!("a command is required");
    };
    Ok(asked_of(alloc, name, found)?)
}

/// Reads what the words of `source` ask for.
pub fn read_request<W: WordSource>(source: &W, alloc: Global) -> Result<Asked, UsageError>
    ensures asked { IfOk result (IsAskedFrom (W.gives source.now)) }
    ensures refused { IfErr result (MayRefuseFrom (W.gives source.now)) }
{
    let words = read_words(source, alloc)?;
    request_in(alloc, &words)
}
