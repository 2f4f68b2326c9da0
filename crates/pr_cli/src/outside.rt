//! What a run needs of the system beside its input and its output. Over memory there is none of it, so that a module for
//! browsers calls nothing of the system.

use crate::shown::Shown;
use pr_jobs::{Watched, read_whole};
use std::fs::{File, Files};
use std::io::{Error, ErrorKind, Read};

/// What is said where [`pr_files::save`] finds no name for a temporary file.
const NO_NAME: &str =
    "all names of a temporary file beside it are taken, .print1525-1.tmp to .print1525-100.tmp: \
     delete those that killed runs have left";

/// A system with files, or none.
pub trait Outside {
    /// The first bytes of the file of this name, as many as a job has read; None where they cannot be had.
    fn again(&self, name: &str, count: u64) -> Option<Vec<u8>>;

    /// Reports in one line on standard error why a file cannot be opened, read or written.
    fn tell_error(&self, name: &str, error: &Error);
}

impl<T: Files + Eprint + AllocGlobal> Outside for T {
    fn again(&self, name: &str, count: u64) -> Option<Vec<u8>> {
        let file = File::open(self, name).ok()?;
        let mut input = Watched::new(file.take(count));
        read_whole(self.alloc(), &mut input, usize::MAX).ok()
    }

    fn tell_error(&self, name: &str, error: &Error) {
        let name = Shown(name);
        let _ = if is_without_name(error) {
            self.eprintln(format_args!("print1525: {name}: {NO_NAME}"))
        } else {
            self.eprintln(format_args!("print1525: {name}: {error}"))
        };
    }
}

/// Whether an error says that all names of a temporary file are taken, and not that a call of the system found a file.
fn is_without_name(error: &Error) -> bool {
    error.kind() == ErrorKind::AlreadyExists && error.raw_os_error().is_none()
}
