//! A reader and a writer that move one byte a call and fail at one call.

use std::alloc::Global;
use std::io;
use std::io::{Error, ErrorKind, Read, Write};

/// Counts a call, and returns whether it is the one to fail.
fn fails(calls: &mut usize, fail_at: usize) -> bool {
    let fails = *calls == fail_at;
    *calls = calls.saturating_add(1);
    fails
}

/// Gives one byte a call.
#[derive(Drop)]
pub struct SlowReader<'a> {
    bytes: &'a [u8],
    /// The bytes given so far.
    pub given: usize,
    calls: usize,
    fail_at: usize,
}

impl<'a> SlowReader<'a> {
    pub fn new(bytes: &'a [u8], fail_at: usize) -> SlowReader<'a> {
        SlowReader {
            bytes,
            given: 0,
            calls: 0,
            fail_at,
        }
    }
}

impl<'a> Read for SlowReader<'a> {
    fn read(&mut self, buf: &mut [u8]) -> io::Result<usize> {
        if fails(&mut self.calls, self.fail_at) {
            return Err(Error::from(ErrorKind::Other));
        }
        match (self.bytes.get(self.given), buf.first_mut()) {
            (Some(byte), Some(place)) => {
                *place = *byte;
                self.given = self.given.saturating_add(1);
                Ok(1)
            }
            _ => Ok(0),
        }
    }
}

/// Takes one byte a call.
#[derive(Drop)]
pub struct SlowWriter {
    pub bytes: Vec<u8>,
    calls: usize,
    fail_at: usize,
    /// In place of an error a failing write takes none of its bytes.
    takes_none: bool,
}

impl SlowWriter {
    pub fn new(alloc: Global, fail_at: usize, takes_none: bool) -> SlowWriter {
        SlowWriter {
            bytes: Vec::new(alloc),
            calls: 0,
            fail_at,
            takes_none,
        }
    }
}

impl Write for SlowWriter {
    fn write(&mut self, buf: &[u8]) -> io::Result<usize> {
        if fails(&mut self.calls, self.fail_at) {
            if self.takes_none {
                return Ok(0);
            }
            return Err(Error::from(ErrorKind::Other));
        }
        match buf.first() {
            Some(byte) => {
                self.bytes.push(*byte)?;
                Ok(1)
            }
            None => Ok(0),
        }
    }

    fn flush(&mut self) -> io::Result<()> {
        if fails(&mut self.calls, self.fail_at) {
            return Err(Error::from(ErrorKind::Other));
        }
        Ok(())
    }
}
