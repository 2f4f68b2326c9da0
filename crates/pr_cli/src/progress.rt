//! How far a run has read, shown on a terminal.

ghost use Rattle.std.specs.Prelude.{◌≡◌};
ghost use Rattle.std.specs.Io.{ReadsAtMost};
ghost use Rattle.std.specs.Io.KnownBytes.{ReadConsumes};
ghost use Rattle.pr_cli.specs.Progress.{counted};

use std::cell::Cell;
use std::io;
use std::io::Read;
use std::time::{Clock, Duration};

/// How long a run shows nothing, in milliseconds.
const QUIET: u64 = 2000;

/// How long what is shown stays as it is, in milliseconds.
const STEADY: u64 = 250;

/// A reader that shows on standard error how many bytes have come of it, from two seconds on.
#[derive(Drop)]
pub struct Progress<'a, T, R> {
    rt: &'a T,
    inner: R,
    /// When the number is shown next; None where no number is shown.
    next: Option<Duration>,
    /// How many bytes have come.
    count: &'a Cell<u64>,
    /// Whether the number is on the terminal.
    is_shown: &'a Cell<bool>,
}

impl<'a, T: Clock + Eprint, R> Progress<'a, T, R> {
    /// No byte has come yet. Nothing is ever shown unless `is_watched`. How many bytes have come is kept in `count`, and
    /// whether something is on the terminal in `is_shown`, so that [`clear`] takes it off before anything else is said there.
    pub fn new(
        rt: &'a T,
        inner: R,
        is_watched: bool,
        count: &'a Cell<u64>,
        is_shown: &'a Cell<bool>,
    ) -> Progress<'a, T, R>
        ensures { counted result ≡ inner }
    {
        let next = if is_watched { after(rt, QUIET) } else { None };
        Progress {
            rt,
            inner,
            next,
            count,
            is_shown,
        }
    }

    /// Shows how many bytes have come, if it is time, and nothing any more at the end.
    fn note(&mut self, n: usize)
        ensures { counted self.new ≡ counted self.old }
    {
        let bytes = self.count.get().wrapping_add(n as u64);
        self.count.set(bytes);
        if n == 0 {
            clear(self.rt, self.is_shown);
            self.next = None;
        } else if self.is_due() {
            let _ = self
                .rt
                .eprint(format_args!("\rprint1525: {bytes} bytes read"));
            self.is_shown.set(true);
            self.next = after(self.rt, STEADY);
        }
    }

    /// Whether it is time to show the number.
    fn is_due(&self) -> bool {
        let Some(next) = self.next else {
            return false;
        };
        match self.rt.monotonic() {
            Ok(now) => now >= next,
            Err(_) => false,
        }
    }
}

/// Takes the number off the terminal, if it is there.
pub fn clear(rt: &impl Eprint, is_shown: &Cell<bool>) {
    if is_shown.get() {
        let _ = rt.eprint(format_args!("\r\x1b[K"));
        is_shown.set(false);
    }
}

/// The time this many milliseconds from now, if there is a clock.
fn after(rt: &impl Clock, milliseconds: u64) -> Option<Duration> {
    match rt.monotonic() {
        Ok(now) => now.checked_add(Duration::from_millis(milliseconds)),
        Err(_) => None,
    }
}

impl<T: Clock + Eprint, R: Read> Read for Progress<'_, T, R> {
    ghost remaining = { λ p. R.remaining (counted p) };

    fn read(&mut self, buf: &mut [u8]) -> io::Result<usize>
        ensures bound { ReadsAtMost result buf.new }
        ensures bytes { ReadConsumes (R.remaining (counted self.old)) (R.remaining (counted self.new)) result buf.new }
    {
        let answer = self.inner.read(buf);
        if let Ok(n) = &answer {
            self.note(*n);
        }
        answer
    }
}
