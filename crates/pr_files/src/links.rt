//! Where the links of a file's name lead.

use std::alloc::AllocError;
use std::fs::Files;
use std::io::ErrorKind;
use std::{fs, io};

/// How many links are followed, as by Linux.
const LINKS: u32 = 40;

/// The name to which links lead from this one: the name itself where no link has it.
///
/// # Errors
///
/// Those of reading a link, and more than 40 links on the way.
pub fn followed<R: Files + AllocGlobal>(rt: &R, name: &str) -> io::Result<String> {
    let mut path = String::from_str(rt.alloc(), name)?;
    for _ in 0..=LINKS {
        match fs::read_link(rt, path.as_str()) {
            Ok(link) => path = from_folder_of(rt, path.as_str(), link.as_str())?,
            Err(error) if is_no_link(error.kind()) => return Ok(path),
            Err(error) => return Err(error),
        }
    }
    Err(io::Error::from(ErrorKind::InvalidFilename))
}

/// Whether reading a link failed so because the name is not a link's, or nothing has the name.
fn is_no_link(kind: ErrorKind) -> bool {
    kind == ErrorKind::InvalidInput || kind == ErrorKind::NotFound
}

/// The name that a link at `path` leads to.
fn from_folder_of<R: Files + AllocGlobal>(
    rt: &R,
    path: &str,
    link: &str,
) -> Result<String, AllocError> {
    let mut whole = String::new(rt.alloc());
    if !link.starts_with('/') {
        whole.push_str(folder_of(path))?;
    }
    whole.push_str(link)?;
    Ok(whole)
}

/// The folder in which a file's name is, with its `/`; nothing for a name without one.
pub fn folder_of(path: &str) -> &str {
    match path.rfind('/') {
        Some(at) => &path[..at + 1],
        None => "",
    }
}
