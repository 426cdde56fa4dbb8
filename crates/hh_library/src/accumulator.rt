//! The value of a saved file as it grows: a summary as a monitor, once many items come.

ghost use Rattle.std.specs.Prelude.{◌≡◌, ◌+◌, ◌<◌, ◌≤◌, [], ◌∷◌, length, map, vec_items};
ghost use Rattle.std.specs.Prelude.{None, Ok};
ghost use Rattle.std.specs.Prelude.{IfErr, IfOk, IsTrue, MatchResult, OnErr, OnOk};
ghost use Rattle.hh_stream.specs.Weights.{max_key_len, max_total};
ghost use Rattle.hh_counters.specs.SpaceSaving.{monitor_of};
ghost use Rattle.hh_saved.specs.Spelling.{Spells};
ghost use Rattle.hh_saved.specs.declared.format.Version.TheVariants as version;
ghost use Rattle.hh_faults.specs.declared.error.ToolError.TheVariants as tool;
ghost use Rattle.hh_commands.specs.Ask.{answer_of, key_fault, unless};
ghost use Rattle.hh_commands.specs.Files.{Refuses, StopsAtHead};
ghost use Rattle.hh_commands.specs.Merge.{merge_saved, merged_from};
ghost use Rattle.hh_library.specs.Accumulator.{Grows, IsReady, value_of};
ghost use Rattle.hh_library.specs.Add.{added_to, entries, item_fault, total_in, value_and};
ghost use Rattle.hh_library.specs.Asked.{asked_of};
ghost use Rattle.hh_library.specs.declared.accumulator.Form.TheVariants.{Translated, Whole};

use crate::commands::add::add_all;
use crate::commands::keys::{answers_of, check_keys};
use crate::items::item_fault;
use hh_commands::{answer_of, check_key, file_of, merge_saved, slack_of};
use hh_counters::laws::summaries_follow_items;
use hh_counters::{BucketSaving, Monitor, Summary};
use hh_faults::ToolError;
use hh_saved::laws::spellings_are_read;
use hh_saved::{Saved, write};
use hh_stream::{Key, KeyHash};
use std::alloc::{AllocError, Global};
use std::marker::Model;
use std::mem;

/// The value of a saved file, which grows by items and by other files.
///
/// The first items are added to a summary as they come: to find a key takes some comparisons, and
/// one without a counter may move or lower all others. Once that takes about as long as to make a
/// monitor of the summary, one is made, to which an item costs little. So few items cost no more
/// than themselves, and many cost little each.
#[derive(Drop)]
pub struct Accumulator {
    hash: KeyHash,
    // what the items since the value was whole have cost, in look-ups
    spent: u64,
    form: Form,
}

impl Model for Accumulator {
    ghost use Rattle.hh_library.specs.Accumulator.{Grows, value_of};
    ghost use Rattle.hh_saved.specs.declared.saved.Saved.{Saved};

    ghost Value = { Saved };

    ghost view = { λ a. value_of a.form };

    ghost invariant = { λ a. Grows a.form };
}

/// How the value is held. The numbers are what a summary's stream weighs besides.
enum Form {
    /// A summary as a monitor that is translated to it.
    Monitored(u64, BucketSaving),
    /// A summary that a monitor was translated to.
    Translated(u64, Summary),
    /// The value itself.
    Whole(Saved),
}

impl Drop for Form {
    /// Drops what the form holds, of whatever kind: one call wherever a form is dropped.
    fn drop(self) {
        match self {
            Form::Monitored(_, _monitor) => {}
            Form::Translated(_, _summary) => {}
            Form::Whole(_saved) => {}
        }
    }
}

/// What may be spent on the items of a summary of no counters before a monitor is made, halved.
const LEAST: u64 = 32;

/// How many counters are walked over in the time of a look-up.
const WALKED: u64 = 512;

impl Accumulator {
    /// Lets `value` grow from now on, with the keys of a monitor hashed by `hash`.
    pub fn of(value: Saved, hash: KeyHash) -> Accumulator
        ensures { result ≡ value }
    {
        Accumulator {
            hash,
            spent: 0,
            form: Form::Whole(value),
        }
    }

    /// Adds the item of `key` and `weight` that has this `number`. After a refusal the value is as
    /// it was.
    pub fn add(
        &mut self,
        alloc: Global,
        number: u64,
        key: &[u8],
        weight: u64,
    ) -> Result<(), ToolError>
        ensures added { OnOk result (self.new ≡ value_and self.old ((key.now, weight) ∷ [])) }
        ensures passes { OnOk result
            (item_fault number (total_in self.old) (key.now, weight) ≡ None) }
        ensures refused { IfErr result (Refuses
            (unless (item_fault number (total_in self.old) (key.now, weight)) self.old)) }
        ensures unchanged { OnErr result (self.new ≡ self.old) }
    {
        if let Some(fault) = item_fault(number, self.form.total(), key, weight) {
            return Err(fault);
        }
        make_ready(alloc, &mut self.form, self.spent, self.hash)?;
        let before = self.form.shape();
        self.form.add_within(key, weight)?;
        let cost = cost_of(before, self.form.shape());
        self.spent = self.spent.saturating_add(cost);
        Ok(())
    }

    /// Adds `items` in order, numbered from 1, each a key and its weight: all of them, or after a
    /// refusal none. They are added to a copy of the value, which then takes its place.
    pub fn add_items(&mut self, alloc: Global, items: &[(&[u8], u64)]) -> Result<(), ToolError>
        ensures added { OnOk result (added_to self.old (entries items.now) ≡ Ok self.new) }
        ensures refused { IfErr result (Refuses (added_to self.old (entries items.now))) }
        ensures unchanged { OnErr result (self.new ≡ self.old) }
    {
        let mut next = Accumulator::of(self.copied(alloc)?, self.hash);
        add_all(alloc, &mut next, items)?;
        *self = next;
        Ok(())
    }

    /// Merges a saved `file`, as file 2. After a refusal the value is as it was.
    pub fn absorb(&mut self, alloc: Global, file: &[u8]) -> Result<(), ToolError>
        ensures merged { OnOk result (merged_from 2 self.old (file.now ∷ []) ≡ Ok self.new) }
        ensures refused { IfErr result (Refuses (merged_from 2 self.old (file.now ∷ []))) }
        ensures unchanged { OnErr result (self.new ≡ self.old) }
        ensures early { StopsAtHead 2 file.now result }
    {
        let next = file_of(alloc, 2, file)?;
        let mut other = Accumulator::of(next, self.hash);
        self.merge(alloc, &mut other)
    }

    /// Merges the value of `other`, as file 2, which stays. After a refusal both are as they were.
    pub fn merge(&mut self, alloc: Global, other: &mut Accumulator) -> Result<(), ToolError>
        ensures merged { OnOk result (merge_saved 2 self.old other.old ≡ Ok self.new) }
        ensures refused { IfErr result (Refuses (merge_saved 2 self.old other.old)) }
        ensures unchanged { OnErr result (self.new ≡ self.old) }
        ensures kept { other.new ≡ other.old }
    {
        self.spent = 0;
        other.spent = 0;
        make_whole(alloc, &mut self.form)?;
        make_whole(alloc, &mut other.form)?;
        match &mut self.form {
            Form::Whole(saved) => merge_saved(saved, 2, other.form.whole()),
            _ => unreachable!("such a form is whole"),
        }
    }

    /// Gives the least and the most that each of `keys` can weigh, which are numbered from 1.
    pub fn ask(&mut self, alloc: Global, keys: &[Vec<u8>]) -> Result<Vec<(u64, u64)>, ToolError>
        ensures bounds { IfOk result (λ bounds.
            asked_of self.old (map vec_items keys.now) ≡ Ok bounds.items) }
        ensures refused { IfErr result (Refuses (asked_of self.old (map vec_items keys.now))) }
        ensures kept { self.new ≡ self.old }
    {
        check_keys(keys)?;
        self.spent = 0;
        make_whole(alloc, &mut self.form)?;
        Ok(answers_of(alloc, self.form.whole(), keys)?)
    }

    /// Gives the least and the most that `key` can weigh.
    pub fn ask_key(&mut self, alloc: Global, key: &[u8]) -> Result<(u64, u64), ToolError>
        ensures bounds { IfOk result (λ bounds.
            unless (key_fault 1 key.now) (answer_of self.old key.now) ≡ Ok bounds) }
        ensures refused { IfErr result
            (Refuses (unless (key_fault 1 key.now) (answer_of self.old key.now))) }
        ensures kept { self.new ≡ self.old }
    {
        check_key(1, key)?;
        let key = Key::of_bytes(alloc, key)?;
        self.spent = 0;
        make_whole(alloc, &mut self.form)?;
        let saved = self.form.whole();
        Ok(answer_of(saved, slack_of(saved), &key))
    }

    /// Gives a copy of the value.
    pub fn copied(&mut self, alloc: Global) -> Result<Saved, ToolError>
        ensures value { IfOk result (λ saved. saved ≡ self.old) }
        ensures refused { IfErr result (λ refusal. refusal ≡ tool.Memory) }
        ensures kept { self.new ≡ self.old }
    {
        spellings_are_read();
        let file = self.save(alloc)?;
        match file_of(alloc, 1, &file) {
            Ok(saved) => Ok(saved),
            Err(_) => Err(ToolError::Memory),
        }
    }

    /// Gives the saved file of the value, which stays.
    pub fn save(&mut self, alloc: Global) -> Result<Vec<u8>, ToolError>
        ensures saved { IfOk result (λ bytes. Spells version.Two bytes.items self.old) }
        ensures refused { IfErr result (λ refusal. refusal ≡ tool.Memory) }
        ensures kept { self.new ≡ self.old }
    {
        self.spent = 0;
        make_whole(alloc, &mut self.form)?;
        Ok(write(alloc, self.form.whole())?)
    }
}

impl Form {
    /// Makes what stands in place of a form while that is made another.
    fn placeholder(alloc: Global) -> Form
        ensures { Grows result }
    {
        Form::Whole(Saved::Counters(Summary::empty(alloc, 1)))
    }

    /// Gives the value of a form that is the value itself.
    fn whole(&self) -> &Saved
        requires { self.now ≡ Whole (value_of self.now) }
        ensures { result.now ≡ value_of self.now }
    {
        match self {
            Form::Whole(saved) => saved,
            _ => unreachable!("such a form is whole"),
        }
    }

    /// Tells what the items of the value weigh.
    fn total(&self) -> u64
        requires { Grows self.now }
        ensures total { result ≡ total_in (value_of self.now) }
        ensures bounded { result ≤ max_total }
    {
        match self {
            Form::Monitored(besides, monitor) => *besides + monitor.total(),
            Form::Translated(besides, summary) => *besides + summary.total(),
            Form::Whole(Saved::Counters(summary)) => summary.total(),
            Form::Whole(Saved::Cells(table)) => table.total(),
        }
    }

    /// Tells whether items are added to the form as it is, after items that `spent` is the cost of.
    fn is_ready(&self, spent: u64) -> bool
        ensures { IsTrue result → IsReady self.now }
    {
        match self {
            Form::Monitored(..) | Form::Whole(Saved::Cells(_)) => true,
            Form::Translated(..) => false,
            Form::Whole(Saved::Counters(summary)) => {
                (spent / 2).saturating_sub(LEAST) <= summary.len() as u64
            }
        }
    }

    /// Gives the number of a summary's counters and the first of them: an item of a key that has
    /// none makes the number another, or lowers the counter.
    fn shape(&self) -> (usize, u64) {
        match self {
            Form::Whole(Saved::Counters(summary)) => {
                if summary.is_empty() {
                    (0, 0)
                } else {
                    (summary.len(), summary.entry(0).1)
                }
            }
            _ => (0, 0),
        }
    }

    /// Makes the value itself of a form, or where memory is refused another form of it.
    fn into_whole(self, alloc: Global) -> Result<Form, Form>
        requires { Grows self }
        ensures whole { IfOk result (λ form. form ≡ Whole (value_of self)) }
        ensures same { IfErr result (λ form. value_of form ≡ value_of self) }
        ensures grows { IfErr result Grows }
    {
        match self {
            Form::Monitored(besides, monitor) => match monitor.into_summary() {
                Ok(summary) => summary_as_whole(alloc, besides, summary),
                Err(monitor) => Err(Form::Monitored(besides, monitor)),
            },
            Form::Translated(besides, summary) => summary_as_whole(alloc, besides, summary),
            Form::Whole(saved) => Ok(Form::Whole(saved)),
        }
    }

    /// Makes a monitor of a summary, or where memory is refused another form of the value. Keys are
    /// hashed by `hash`.
    fn into_monitored(self, alloc: Global, hash: KeyHash) -> Result<Form, Form>
        requires { Grows self }
        ensures ready { IfOk result IsReady }
        ensures same_ok { IfOk result (λ form. value_of form ≡ value_of self) }
        ensures grows_ok { IfOk result Grows }
        ensures same { IfErr result (λ form. value_of form ≡ value_of self) }
        ensures grows { IfErr result Grows }
    {
        match self {
            Form::Translated(besides, summary) => monitored(alloc, besides, summary, hash),
            Form::Whole(Saved::Counters(summary)) => monitored(alloc, 0, summary, hash),
            form => Ok(form),
        }
    }

    /// Adds an item of `key` and `weight` to a form that is ready.
    fn add_within(&mut self, key: &[u8], weight: u64) -> Result<(), AllocError>
        requires ready { IsReady self.old }
        requires grows { Grows self.old }
        requires key { (0 < length key.now) × (length key.now ≤ max_key_len) }
        requires positive { 0 < weight }
        requires room { total_in (value_of self.old) + weight ≤ max_total }
        ensures added { OnOk result
            (value_of self.new ≡ value_and (value_of self.old) ((key.now, weight) ∷ [])) }
        ensures unchanged { OnErr result (value_of self.new ≡ value_of self.old) }
        ensures grows { Grows self.new }
    {
        summaries_follow_items();
        match self {
            Form::Monitored(_, monitor) => Ok(monitor.add_within(key, weight)?),
            Form::Whole(Saved::Counters(summary)) => Ok(summary.add_within(key, weight)?),
            Form::Whole(Saved::Cells(table)) => {
                table.add_within(key, weight);
                Ok(())
            }
            Form::Translated(..) => unreachable!("such a form is not ready"),
        }
    }
}

/// Tells what an item cost that changed the shape of a form from `before` to `after`.
fn cost_of(before: (usize, u64), after: (usize, u64)) -> u64 {
    if after.0 == before.0 && after.1 >= before.1 {
        1
    } else {
        1 + after.0 as u64 / WALKED
    }
}

/// Makes `form` one to which items are added: as it is, while what was `spent` so is less than a
/// monitor costs, or a monitor, whose keys are hashed by `hash`.
fn make_ready(alloc: Global, form: &mut Form, spent: u64, hash: KeyHash) -> Result<(), AllocError>
    requires { Grows form.old }
    ensures ready { OnOk result (IsReady form.new) }
    ensures same { value_of form.new ≡ value_of form.old }
    ensures grows { Grows form.new }
{
    if form.is_ready(spent) {
        return Ok(());
    }
    let made = mem::replace(form, Form::placeholder(alloc)).into_monitored(alloc, hash);
    put(form, made)
}

/// Makes `form` the value itself.
fn make_whole(alloc: Global, form: &mut Form) -> Result<(), AllocError>
    requires { Grows form.old }
    ensures whole { OnOk result (form.new ≡ Whole (value_of form.old)) }
    ensures same { value_of form.new ≡ value_of form.old }
    ensures grows { Grows form.new }
{
    let made = mem::replace(form, Form::placeholder(alloc)).into_whole(alloc);
    put(form, made)
}

/// Puts what was `made` in `place`: what was wanted, or another form where memory was refused.
fn put<T: Drop>(place: &mut T, made: Result<T, T>) -> Result<(), AllocError>
    ensures put { MatchResult made (λ wanted. place.new ≡ wanted) (λ other. place.new ≡ other) }
    ensures wanted { OnOk result (made ≡ Ok place.new) }
{
    match made {
        Ok(wanted) => {
            *place = wanted;
            Ok(())
        }
        Err(other) => {
            *place = other;
            Err(AllocError)
        }
    }
}

/// Gives the `summary` of a stream that weighs `besides` more as a value, or where memory is
/// refused as it is.
fn summary_as_whole(alloc: Global, besides: u64, summary: Summary) -> Result<Form, Form>
    requires { besides + summary.total ≤ max_total }
    ensures value { IfOk result (λ form. form ≡ Whole (value_of (Translated besides summary))) }
    ensures same { IfErr result (λ form. form ≡ Translated besides summary) }
{
    let mut whole = Summary::from_entries(summary.k(), besides, Vec::new(alloc));
    match whole.merge(&summary) {
        Ok(()) => Ok(Form::Whole(Saved::Counters(whole))),
        Err(_) => Err(Form::Translated(besides, summary)),
    }
}

/// Gives the `summary` of a stream that weighs `besides` more as a monitor, whose keys are hashed
/// by `hash`, or where memory is refused as it is.
fn monitored(alloc: Global, besides: u64, summary: Summary, hash: KeyHash) -> Result<Form, Form>
    requires { besides + summary.total ≤ max_total }
    ensures ready { IfOk result IsReady }
    ensures same_ok { IfOk result (λ form.
        value_of form ≡ value_of (Translated besides summary)) }
    ensures grows_ok { IfOk result Grows }
    ensures same { IfErr result (λ form. form ≡ Translated besides summary) }
{
    summaries_follow_items();
    match monitor_of(alloc, &summary, hash) {
        Ok(monitor) => {
            let lost = summary.total() - summary.sum();
            Ok(Form::Monitored(besides + lost, monitor))
        }
        Err(_) => Err(Form::Translated(besides, summary)),
    }
}

/// Makes a monitor that has seen each key of `summary` weigh its counter, hashed by `hash`.
fn monitor_of(alloc: Global, summary: &Summary, hash: KeyHash) -> Result<BucketSaving, AllocError>
    ensures { IfOk result (λ monitor. monitor ≡ monitor_of summary.now.k summary.now.counters) }
{
    summaries_follow_items();
    let mut monitor = BucketSaving::with_hasher(alloc, summary.k(), hash)?;
    for i in 0..summary.len() {
        let (key, counter) = summary.entry(i);
        monitor.add_within(key.bytes(), counter)?;
    }
    Ok(monitor)
}
