//! Input that reports on standard error how far it is read, where that is asked for.

ghost use Rattle.std.specs.Prelude.{◌≡◌, ◌≤◌};

use crate::record_count::{Form, RecordCount};
use std::cell::Cell;
use std::io::Read;
use std::sync::atomic::{AtomicU64, Ordering};
use std::time::Instant;
use std::{fmt, fs, io};

/// The least seconds between two reports. The end is reported whenever it comes.
const PAUSE: u64 = 1;

/// A number of bytes, shown in megabytes.
#[derive(Clone, Copy)]
struct Megabytes(u128);

impl fmt::Display for Megabytes {
    fn fmt<W: fmt::Write>(&self, f: &mut fmt::Formatter<W>) -> fmt::Result {
        let (whole, tenth) = (self.0 / 1_000_000, self.0 % 1_000_000 / 100_000);
        write!(f, "{whole}.{tenth} MB")
    }
}

/// When one thread began to read, and when it last reported.
#[derive(Clone, Copy)]
struct Times {
    started: Instant,
    printed: Instant,
}

/// The progress of one thread over all of its inputs, which it reads one after the other.
#[derive(Drop)]
pub struct ReadProgress {
    /// The bytes of all inputs, where those of each are known.
    size: Cell<Option<u64>>,
    /// How many inputs have not come to their end.
    unended: Cell<u64>,
    read: Cell<u64>,
    records: Cell<u64>,
    /// There are none before the first input.
    times: Cell<Option<Times>>,
}

impl ReadProgress {
    /// Begins with no input.
    pub fn new() -> ReadProgress {
        ReadProgress {
            size: Cell::new(Some(0)),
            unended: Cell::new(0),
            read: Cell::new(0),
            records: Cell::new(0),
            times: Cell::new(None),
        }
    }

    /// Adds an input that has `size` bytes, where that is known. The first one starts the time.
    fn open(&self, rt: &HostRuntime, size: Option<u64>) -> io::Result<()> {
        if self.times.get().is_none() {
            let now = Instant::now(rt)?;
            self.times.set(Some(Times {
                started: now,
                printed: now,
            }));
        }
        self.unended.set(self.unended.get().saturating_add(1));
        self.size.set(match (self.size.get(), size) {
            (Some(others), Some(size)) => Some(others.saturating_add(size)),
            _ => None,
        });
        Ok(())
    }

    /// Counts `count` bytes that were read, and `records` in place of the `before` that were
    /// counted of their input until then.
    fn count(&self, count: usize, before: u64, records: u64) {
        self.read.set(self.read.get().saturating_add(count as u64));
        let others = self.records.get().saturating_sub(before);
        self.records.set(others.saturating_add(records));
    }

    /// Takes the end of an input.
    fn end(&self) {
        self.unended.set(self.unended.get().saturating_sub(1));
    }

    /// Reports what was read: where the last report is a pause ago, and where all inputs came to
    /// their ends.
    fn report(&self, rt: &HostRuntime) -> io::Result<()> {
        let Some(times) = self.times.get() else {
            return Ok(());
        };
        let now = Instant::now(rt)?;
        let pause = now.duration_since(times.printed).as_secs();
        if self.unended.get() > 0 && pause < PAUSE {
            return Ok(());
        }
        self.times.set(Some(Times {
            printed: now,
            ..times
        }));
        self.print(rt, now.duration_since(times.started).as_millis().max(1))
    }

    /// Reports what was read in `millis` milliseconds. Of inputs that have more it adds the share
    /// that is read, and how long the rest takes at this rate.
    fn print(&self, rt: &HostRuntime, millis: u128) -> io::Result<()>
        requires { 1 ≤ millis }
    {
        let (read, records) = (u128::from(self.read.get()), self.records.get());
        let rate = Megabytes(read.saturating_mul(1000) / millis);
        let done = Megabytes(read);
        let size = u128::from(self.size.get().unwrap_or(0));
        if read == 0 || size <= read {
            return eprintln!(rt; "heavy: {done} and {records} records read, {rate}/s");
        }
        let (share, left) = (read.saturating_mul(100) / size, size - read);
        let seconds = left.saturating_mul(millis) / read / 1000;
        let all = Megabytes(size);
        eprintln!(rt;
            "heavy: {done} and {records} records read, {rate}/s, {share} % of {all}, \
            {seconds} s left"
        )
    }
}

/// The part of one input in the progress of its thread.
#[derive(Drop)]
struct InputProgress<'a> {
    rt: &'a HostRuntime,
    all: &'a ReadProgress,
    count: RecordCount,
    has_header: bool,
    /// How many of its records are counted.
    records: u64,
    is_ended: bool,
}

impl<'a> InputProgress<'a> {
    /// Adds an input that has `size` bytes, where that is known, to `all`.
    fn start(
        rt: &'a HostRuntime,
        all: &'a ReadProgress,
        size: Option<u64>,
        form: Form,
    ) -> io::Result<InputProgress<'a>> {
        all.open(rt, size)?;
        Ok(InputProgress {
            rt,
            all,
            count: RecordCount::new(form.delimiter),
            has_header: form.has_header,
            records: 0,
            is_ended: false,
        })
    }

    /// Counts `bytes` that were read, and reports how far the thread is. No bytes are the end.
    fn add(&mut self, bytes: &[u8]) -> io::Result<()> {
        self.count.add(bytes);
        let header = u64::from(self.has_header);
        let records = self.count.begun().saturating_sub(header);
        self.all.count(bytes.len(), self.records, records);
        self.records = records;
        if bytes.is_empty() && !self.is_ended {
            self.is_ended = true;
            self.all.end();
        }
        self.all.report(self.rt)
    }
}

/// A reader that hands each read on, and reports how far its thread is.
#[derive(Drop)]
pub struct ProgressReader<'a, R> {
    inner: R,
    progress: Option<InputProgress<'a>>,
}

impl<'a, R: Read> ProgressReader<'a, R> {
    /// Reads the bytes of `inner`, `size` where that is known, whose records have this form. Where
    /// there is a clock, it reports how far the thread is in `all` of its inputs, if that is asked
    /// for.
    pub fn new(
        rt: &'a HostRuntime,
        inner: R,
        size: Option<u64>,
        form: Form,
        all: Option<&'a ReadProgress>,
    ) -> ProgressReader<'a, R>
        ensures { ⟦<ProgressReader<'a, R> as Read>⟧.remaining result ≡ R.remaining inner }
    {
        let progress = match all {
            Some(all) => InputProgress::start(rt, all, size, form).ok(),
            None => None,
        };
        ProgressReader { inner, progress }
    }
}

impl<'a, R: Read> Read for ProgressReader<'a, R> {
    ghost remaining = { λ reader. R.remaining reader.inner };

    fn read(&mut self, buf: &mut [u8]) -> io::Result<usize> {
        let count = self.inner.read(buf)?;
        if let Some(progress) = &mut self.progress {
            let _ = progress.add(&buf[..count]);
        }
        Ok(count)
    }
}

/// The progress of workers that read files in one pass or in two. It is reported at most once in a
/// pause, whichever worker reads.
#[derive(Drop)]
pub struct SharedProgress<'a> {
    rt: &'a HostRuntime,
    passes: u64,
    /// The bytes of all passes.
    size: u64,
    read: AtomicU64,
    started: Instant,
    /// The time of the last report, in milliseconds from the start.
    printed: AtomicU64,
}

impl<'a> SharedProgress<'a> {
    /// Starts with nothing read of the files with these `names`.
    pub fn start(
        rt: &'a HostRuntime,
        names: &[Vec<u8>],
        passes: u64,
    ) -> io::Result<SharedProgress<'a>> {
        let mut size = 0u64;
        for name in names {
            if let Ok(path) = str::from_utf8(name) {
                if let Ok(file) = fs::metadata(rt, path) {
                    size = size.saturating_add(file.len());
                }
            }
        }
        Ok(SharedProgress {
            rt,
            passes,
            size: size.saturating_mul(passes),
            read: AtomicU64::new(0),
            started: Instant::now(rt)?,
            printed: AtomicU64::new(0),
        })
    }

    /// Counts `count` bytes that were read, and reports how far the reading is.
    pub fn add(&self, count: u64) {
        let read = self
            .read
            .fetch_add(count, Ordering::SeqCst)
            .saturating_add(count);
        let Ok(now) = Instant::now(self.rt) else {
            return;
        };
        let millis = now.duration_since(self.started).as_millis().max(1);
        let printed = self.printed.load(Ordering::SeqCst);
        if millis.saturating_sub(u128::from(printed)) < u128::from(PAUSE) * 1000 {
            return;
        }
        let next = millis.min(u128::from(u64::MAX)) as u64;
        let swapped = self
            .printed
            .compare_exchange(printed, next, Ordering::SeqCst, Ordering::SeqCst);
        if swapped.is_ok() {
            let _ = self.print(u128::from(read), millis);
        }
    }

    /// Reports the share of all passes that is read, and how long the rest takes at this rate.
    fn print(&self, read: u128, millis: u128) -> io::Result<()>
        requires { 1 ≤ millis }
    {
        let rate = Megabytes(read.saturating_mul(1000) / millis);
        let done = Megabytes(read);
        let size = u128::from(self.size);
        if read == 0 || size <= read {
            return eprintln!(self.rt; "heavy: {done} read, {rate}/s");
        }
        let (share, left) = (read.saturating_mul(100) / size, size - read);
        let seconds = left.saturating_mul(millis) / read / 1000;
        let all = Megabytes(size);
        let passes = if self.passes == 1 {
            ""
        } else {
            " in two passes"
        };
        eprintln!(self.rt;
            "heavy: {done} read{passes}, {rate}/s, {share} % of {all}, {seconds} s left"
        )
    }
}
