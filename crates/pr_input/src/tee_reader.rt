//! A reader that keeps what it has read.

ghost use Rattle.std.specs.Prelude.{◌≡◌, None, Some, [], if◌then◌else◌, take, IfOk, OnErr};
ghost use Rattle.std.specs.Io.{ReadsAtMost};
ghost use Rattle.std.specs.Io.KnownBytes.{ReadConsumes};
ghost use Rattle.pr_input.specs.TeeReader.{KeepsMore, kept, read_from};

use std::alloc::Global;
use std::io;
use std::io::Read;

/// A reader, and the bytes that have come of it, if they are kept.
///
/// They are kept while there is memory for them: after memory was refused, nothing is kept any
/// more, and reads go on. A read that succeeds takes just its bytes of the reader inside, and one
/// that fails takes none, where that reader's bytes are known. That a read answers as the reader
/// inside does, whether they are kept or not, is tested: no clause for any reader can name that
/// answer.
#[derive(Drop)]
pub struct TeeReader<R> {
    inner: R,
    /// All bytes that have come; None where they are not kept, or no longer.
    bytes: Option<Vec<u8>>,
}

impl<R> TeeReader<R> {
    /// Wraps a reader of which nothing has been read yet; its bytes will be kept if that is asked
    /// for. It takes no memory.
    pub fn new(alloc: Global, inner: R, is_kept: bool) -> TeeReader<R>
        ensures inner { read_from result ≡ inner }
        ensures bytes { kept result ≡ if is_kept then Some [] else None }
    {
        let bytes = if is_kept { Some(Vec::new(alloc)) } else { None };
        TeeReader { inner, bytes }
    }

    /// Keeps more bytes after the others, if those are kept and there is memory.
    fn keep(&mut self, more: &[u8])
        ensures inner { read_from self.new ≡ read_from self.old }
        ensures bytes { KeepsMore more.now self.old self.new }
    {
        if let Some(mut bytes) = self.bytes.take() {
            if bytes.extend_from_slice(more).is_ok() {
                self.bytes = Some(bytes);
            }
        }
    }
}

impl<R: Drop> TeeReader<R> {
    /// Returns all the bytes that have come of the reader, in order. None where they were not to be
    /// kept, or where memory was refused for them. It takes no memory.
    pub fn into_bytes(self) -> Option<Vec<u8>>
        ensures { result ≡ self.bytes }
    {
        self.bytes
    }
}

impl<R: Read> Read for TeeReader<R> {
    ghost remaining = { λ k. R.remaining (read_from k) };

    fn read(&mut self, buf: &mut [u8]) -> io::Result<usize>
        ensures bound { ReadsAtMost result buf.new }
        ensures bytes { ReadConsumes (R.remaining (read_from self.old)) (R.remaining (read_from self.new)) result buf.new }
        ensures kept { IfOk result (λ n. KeepsMore (take n buf.new) self.old self.new) }
        ensures same { OnErr result (kept self.new ≡ kept self.old) }
    {
        let answer = self.inner.read(buf);
        if let Ok(n) = &answer {
            self.keep(&buf[..*n]);
        }
        answer
    }
}
