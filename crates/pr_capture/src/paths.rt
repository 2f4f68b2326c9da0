//! The paths of a dump's signals: the scopes that they are in, and their names.

ghost use Rattle.std.specs.Prelude.{◌≡◌, ◌++◌, IfOk, OnOk};
ghost use Rattle.pr_capture.specs.VcdReading.{ends_path, has_path, joined, name_in, path_of};
ghost use Rattle.pr_capture.specs.VcdSteps.{words_in};

use crate::signals::is_named;
use pr_wire::NoMemory;
use std::alloc::Global;

/// Adds words, without what is between them.
fn push_words(path: &mut Vec<u8>, words: &[Vec<u8>]) -> Result<(), NoMemory>
    ensures { OnOk result (path.new.items ≡ path.old.items ++ joined (words_in words.now)) }
{
    for word in words {
        path.extend_from_slice(word.as_slice())?;
    }
    Ok(())
}

/// Adds the name of the signal whose section `$var` has these words.
fn push_name(path: &mut Vec<u8>, inside: &[Vec<u8>]) -> Result<(), NoMemory>
    ensures { OnOk result (path.new.items ≡ path.old.items ++ name_in (words_in inside.now)) }
{
    match inside {
        [_, _, _, names @ ..] => push_words(path, names),
        _ => Ok(()),
    }
}

/// The path of a signal: each scope that it is in with a dot, and its name.
pub fn path_of(alloc: Global, scopes: &[Vec<u8>], inside: &[Vec<u8>]) -> Result<Vec<u8>, NoMemory>
    ensures { IfOk result (λ path. path.items ≡ path_of (words_in scopes.now) (words_in inside.now)) }
{
    let mut path = Vec::new(alloc);
    for scope in scopes {
        path.extend_from_slice(scope.as_slice())?;
        path.push(b'.')?;
    }
    push_name(&mut path, inside)?;
    Ok(path)
}

/// Whether a name is after one of the dots of a path.
fn ends_path(name: &[u8], path: &[u8]) -> bool
    ensures { result ≡ ends_path name.now path.now }
{
    for (i, b) in path.iter().enumerate() {
        if *b == b'.' && is_named(name, &path[i + 1..]) {
            return true;
        }
    }
    false
}

/// Whether a name is that of a signal with this path: the whole path, or its end after a dot.
pub fn has_path(name: &[u8], path: &[u8]) -> bool
    ensures { result ≡ has_path name.now path.now }
{
    is_named(name, path) || ends_path(name, path)
}
