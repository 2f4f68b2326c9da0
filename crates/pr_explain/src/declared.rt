//! The signals that a dump declares, by their paths: each scope that they are in, and their names.

ghost use Rattle.std.specs.Prelude.{◌<◌, ◌≤◌, length};

use crate::texts::{is_space, unframed};
use pr_wire::NoMemory;
use std::alloc::Global;

/// Words that begin no section up to the next `$end`: changes are in these as elsewhere.
const ALONE: [&[u8]; 5] = [b"$end", b"$dumpvars", b"$dumpall", b"$dumpon", b"$dumpoff"];

/// Kinds of signals without levels: numbers, texts and events.
const WITHOUT_LEVELS: [&[u8]; 4] = [b"real", b"realtime", b"string", b"event"];

/// Returns the paths of a dump's signals that have levels and one bit, or bits that have an index: each
/// scope with a dot, and the words of the name. They are in the order of the dump.
pub fn paths_in(alloc: Global, dump: &[u8]) -> Result<Vec<Vec<u8>>, NoMemory> {
    let mut paths = Vec::new(alloc);
    let mut scopes = Vec::new(alloc);
    let mut rest = dump;
    while !rest.is_empty() {
        let (word, more) = split_word(rest);
        rest = more;
        if word == b"$enddefinitions".as_slice() {
            rest = &[];
        } else if word.starts_with(b"$") && !ALONE.contains(&word) {
            let (section, more) = split_section(more);
            rest = more;
            take_section(alloc, &mut paths, &mut scopes, word, section)?;
        }
    }
    Ok(paths)
}

/// Goes on after a section with this keyword: with the scopes that have begun, the outermost first, and
/// with the paths.
fn take_section<'a>(
    alloc: Global,
    paths: &mut Vec<Vec<u8>>,
    scopes: &mut Vec<&'a [u8]>,
    keyword: &[u8],
    section: &'a [u8],
) -> Result<(), NoMemory> {
    if keyword == b"$scope".as_slice() {
        let (_kind, rest) = split_word(section);
        let (name, _) = split_word(rest);
        scopes.push(name)?;
    } else if keyword == b"$upscope".as_slice() {
        let len = scopes.len();
        scopes.truncate(len.saturating_sub(1));
    } else if keyword == b"$var".as_slice() {
        let name = name_in(section);
        if !name.is_empty() {
            paths.push(path_of(alloc, scopes.as_slice(), name)?)?;
        }
    }
    Ok(())
}

/// The path of a signal with this name in these scopes.
fn path_of(alloc: Global, scopes: &[&[u8]], name: &[u8]) -> Result<Vec<u8>, NoMemory> {
    let mut path = Vec::new(alloc);
    for scope in scopes {
        path.extend_from_slice(*scope)?;
        path.push(b'.')?;
    }
    path.extend_from_slice(name)?;
    Ok(path)
}

/// The name of the signal that has this section, if it or one of its bits can be a line of the bus.
/// Else nothing.
fn name_in(section: &[u8]) -> &[u8] {
    let (kind, rest) = split_word(section);
    let (size, rest) = split_word(rest);
    let (_code, name) = split_word(rest);
    let is_told = size == b"1".as_slice() || name.contains(&b'[');
    if is_told && !WITHOUT_LEVELS.contains(&kind) {
        unframed(name)
    } else {
        &[]
    }
}

/// What is before the first `$end`, and what follows it.
fn split_section(bytes: &[u8]) -> (&[u8], &[u8])
    ensures { length result.1.now ≤ length bytes.now }
{
    let mut rest = bytes;
    while !rest.is_empty() {
        let (word, more) = split_word(rest);
        if word == b"$end".as_slice() {
            let len = bytes.len().saturating_sub(rest.len());
            return (&bytes[..len], more);
        }
        rest = more;
    }
    (bytes, rest)
}

/// The first word, and what follows it.
pub fn split_word(bytes: &[u8]) -> (&[u8], &[u8])
    ensures within { length result.1.now ≤ length bytes.now }
    ensures less { 0 < length bytes.now → length result.1.now < length bytes.now }
{
    let mut start = 0;
    for (i, byte) in bytes.iter().enumerate() {
        if !is_space(*byte) {
            continue;
        }
        if start < i {
            return (&bytes[start..i], &bytes[i + 1..]);
        }
        start = i + 1;
    }
    (&bytes[start.min(bytes.len())..], &[])
}

/// Returns the paths that a name means: a whole path, or its end after a dot; of a bit, that of the signal
/// that has it. Capitals, white space and quotation marks do not count.
pub fn paths_called<'a>(
    alloc: Global,
    paths: &'a [Vec<u8>],
    name: &[u8],
) -> Result<Vec<&'a [u8]>, NoMemory> {
    let name = plain(alloc, name)?;
    let mut called = Vec::new(alloc);
    for path in paths {
        let plain = plain(alloc, path.as_slice())?;
        if is_called(name.as_slice(), plain.as_slice()) {
            called.push(path.as_slice())?;
        }
    }
    Ok(called)
}

/// A name in small letters, without white space and quotation marks.
fn plain(alloc: Global, name: &[u8]) -> Result<Vec<u8>, NoMemory> {
    let mut plain = Vec::new(alloc);
    for byte in name {
        if !is_space(*byte) && *byte != b'"' {
            plain.push(byte.to_ascii_lowercase())?;
        }
    }
    Ok(plain)
}

/// Whether a name is that of a signal with this path, or of one of its bits.
fn is_called(name: &[u8], path: &[u8]) -> bool {
    ends_path(name, path) || (path.contains(&b':') && ends_path(stem(name), stem(path)))
}

/// Whether a name is a whole path, or its end after a dot.
fn ends_path(name: &[u8], path: &[u8]) -> bool {
    matches!(path.strip_suffix(name), Some([] | [.., b'.']))
}

/// What comes before the first `[`.
fn stem(name: &[u8]) -> &[u8] {
    for (i, byte) in name.iter().enumerate() {
        if *byte == b'[' {
            return &name[..i];
        }
    }
    name
}
