//! A reader or a writer that keeps the reason of its last failed call.

ghost use Rattle.std.specs.Prelude.{◌≡◌};
ghost use Rattle.std.specs.Io.{ReadsAtMost, WritesAtMost};
ghost use Rattle.std.specs.Io.KnownBytes.{Keeps, ReadConsumes, WriteAppends};
ghost use Rattle.pr_files.specs.Noting.{noted};

use std::io;
use std::io::{Error, ErrorKind, Read, Write};

/// A reader or a writer, and why its last call failed that has failed.
#[derive(Drop)]
pub struct Noting<T> {
    inner: T,
    reason: Option<Reason>,
}

/// Why a call failed.
#[derive(Clone, Copy)]
struct Reason {
    /// The number by which the system says it, if it does.
    code: Option<i32>,
    kind: ErrorKind,
}

impl<T> Noting<T> {
    /// Wraps a reader or a writer of which no call has failed yet. It takes no memory.
    pub fn new(inner: T) -> Noting<T>
        ensures { noted result ≡ inner }
    {
        Noting {
            inner,
            reason: None,
        }
    }

    /// Returns why the last call failed that has failed. It takes no memory.
    pub fn error(&self) -> Option<Error> {
        match self.reason {
            Some(reason) => match reason.code {
                Some(code) => Some(Error::from_raw_os_error(code)),
                None => Some(Error::from(reason.kind)),
            },
            None => None,
        }
    }

    /// Returns the reader or writer inside. It takes no memory.
    pub fn into_inner(self) -> T
        ensures { result ≡ noted self }
    {
        self.inner
    }

    /// Keeps the reason of a failed call.
    fn note(&mut self, error: &Error)
        ensures { noted self.new ≡ noted self.old }
    {
        self.reason = Some(Reason {
            code: error.raw_os_error(),
            kind: error.kind(),
        });
    }
}

impl<R: Read> Read for Noting<R> {
    ghost remaining = { λ n. R.remaining (noted n) };

    fn read(&mut self, buf: &mut [u8]) -> io::Result<usize>
        ensures bound { ReadsAtMost result buf.new }
        ensures bytes { ReadConsumes (R.remaining (noted self.old)) (R.remaining (noted self.new)) result buf.new }
    {
        let answer = self.inner.read(buf);
        if let Err(error) = &answer {
            self.note(error);
        }
        answer
    }
}

impl<W: Write> Write for Noting<W> {
    ghost contents = { λ n. W.contents (noted n) };

    fn write(&mut self, buf: &[u8]) -> io::Result<usize>
        ensures bound { WritesAtMost result buf.now }
        ensures bytes { WriteAppends (W.contents (noted self.old)) (W.contents (noted self.new)) result buf.now }
    {
        let answer = self.inner.write(buf);
        if let Err(error) = &answer {
            self.note(error);
        }
        answer
    }

    fn flush(&mut self) -> io::Result<()>
        ensures { Keeps (W.contents (noted self.old)) (W.contents (noted self.new)) }
    {
        let answer = self.inner.flush();
        if let Err(error) = &answer {
            self.note(error);
        }
        answer
    }
}
