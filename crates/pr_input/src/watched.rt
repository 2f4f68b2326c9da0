//! A reader or a writer that remembers whether it has failed, and whether it is flushed.

ghost use Rattle.std.specs.Prelude.{◌≡◌, ◌||◌, false, true, is_err, length, OnOk};
ghost use Rattle.std.specs.Io.{ReadsAtMost, WritesAtMost};
ghost use Rattle.std.specs.Io.KnownBytes.{Keeps, ReadConsumes, WriteAppends};
ghost use Rattle.pr_input.specs.Watched.{has_failed, is_flushed, wrapped, write_fails};

use std::io;
use std::io::{ErrorKind, Read, Write};

/// A reader or a writer, whether a call through it has failed, and whether a flush through it has
/// succeeded since the last write.
///
/// It has failed for good exactly when a read, a write or a flush through it fails, or when a write
/// of some bytes answers 0. So a caller can tell a failed read or write from every other refusal.
/// Reads, writes and flushes do what those of the reader or writer inside do, and fail as they do.
/// A call that a signal interrupts is made again, and has not failed (tested); at most 2^64 - 1
/// times, since a loop has to end.
#[derive(Drop)]
pub struct Watched<T> {
    inner: T,
    failed: bool,
    flushed: bool,
}

impl<T> Watched<T> {
    /// Wraps a reader or a writer: nothing has failed yet, and nothing was written. It takes no
    /// memory.
    pub fn new(inner: T) -> Watched<T>
        ensures inner { wrapped result ≡ inner }
        ensures failed { has_failed result ≡ false }
        ensures flushed { is_flushed result ≡ true }
    {
        Watched {
            inner,
            failed: false,
            flushed: true,
        }
    }

    /// Returns the reader or writer inside. It takes no memory.
    pub fn into_inner(self) -> T
        ensures { result ≡ wrapped self }
    {
        self.inner
    }

    /// Returns whether a read, a write or a flush has failed, or a write of bytes has taken none.
    pub fn failed(&self) -> bool
        ensures { result ≡ has_failed self.now }
    {
        self.failed
    }

    /// Returns whether a flush has succeeded since the last write, if there was one. That each such
    /// flush reaches the writer inside is tested, not proved: std's `Write` has no word for what a
    /// flush does.
    pub fn is_flushed(&self) -> bool
        ensures { result ≡ is_flushed self.now }
    {
        self.flushed
    }
}

/// Reads, and again as long as the call is interrupted.
fn read_again<R: Read>(inner: &mut R, buf: &mut [u8]) -> io::Result<usize>
    ensures bound { ReadsAtMost result buf.new }
    ensures bytes { ReadConsumes (R.remaining inner.old) (R.remaining inner.new) result buf.new }
{
    'tries: for _ in 0..u64::MAX {
        match inner.read(buf) {
            Ok(n) => return Ok(n),
            Err(e) if e.kind() == ErrorKind::Interrupted => {}
            Err(e) => return Err(e),
        }
    }
    Err(io::Error::from(ErrorKind::Interrupted))
}

/// Writes, and again as long as the call is interrupted.
fn write_again<W: Write>(inner: &mut W, buf: &[u8]) -> io::Result<usize>
    ensures bound { WritesAtMost result buf.now }
    ensures bytes { WriteAppends (W.contents inner.old) (W.contents inner.new) result buf.now }
{
    'tries: for _ in 0..u64::MAX {
        match inner.write(buf) {
            Ok(n) => return Ok(n),
            Err(e) if e.kind() == ErrorKind::Interrupted => {}
            Err(e) => return Err(e),
        }
    }
    Err(io::Error::from(ErrorKind::Interrupted))
}

/// Flushes, and again as long as the call is interrupted.
fn flush_again<W: Write>(inner: &mut W) -> io::Result<()>
    ensures { Keeps (W.contents inner.old) (W.contents inner.new) }
{
    'tries: for _ in 0..u64::MAX {
        match inner.flush() {
            Ok(()) => return Ok(()),
            Err(e) if e.kind() == ErrorKind::Interrupted => {}
            Err(e) => return Err(e),
        }
    }
    Err(io::Error::from(ErrorKind::Interrupted))
}

impl<R: Read> Read for Watched<R> {
    ghost remaining = { λ w. R.remaining (wrapped w) };

    fn read(&mut self, buf: &mut [u8]) -> io::Result<usize>
        ensures bound { ReadsAtMost result buf.new }
        ensures bytes { ReadConsumes (R.remaining (wrapped self.old)) (R.remaining (wrapped self.new)) result buf.new }
        ensures failed { has_failed self.new ≡ (has_failed self.old || is_err result) }
    {
        let answer = read_again(&mut self.inner, buf);
        if answer.is_err() {
            self.failed = true;
        }
        answer
    }
}

impl<W: Write> Write for Watched<W> {
    ghost contents = { λ w. W.contents (wrapped w) };

    fn write(&mut self, buf: &[u8]) -> io::Result<usize>
        ensures bound { WritesAtMost result buf.now }
        ensures bytes { WriteAppends (W.contents (wrapped self.old)) (W.contents (wrapped self.new)) result buf.now }
        ensures failed { has_failed self.new ≡ (has_failed self.old || write_fails result (length buf.now)) }
        ensures flushed { is_flushed self.new ≡ false }
    {
        self.flushed = false;
        let answer = write_again(&mut self.inner, buf);
        match &answer {
            Ok(0) => {
                if !buf.is_empty() {
                    self.failed = true;
                }
            }
            Ok(_) => {}
            Err(_) => self.failed = true,
        }
        answer
    }

    fn flush(&mut self) -> io::Result<()>
        ensures bytes { Keeps (W.contents (wrapped self.old)) (W.contents (wrapped self.new)) }
        ensures failed { has_failed self.new ≡ (has_failed self.old || is_err result) }
        ensures flushed { OnOk result (is_flushed self.new ≡ true) }
    {
        let answer = flush_again(&mut self.inner);
        self.flushed = answer.is_ok();
        if answer.is_err() {
            self.failed = true;
        }
        answer
    }
}
