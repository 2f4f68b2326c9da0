//! A file that is written whole, or not at all.

ghost use Rattle.std.specs.Prelude.{◌≡◌, Some, IfSome};
ghost use Rattle.std.specs.Io.{WritesAtMost};
ghost use Rattle.std.specs.Io.KnownBytes.{Keeps, WriteAppends};
ghost use Rattle.pr_files.specs.Saving.{known_of, written_to};

use crate::links::{folder_of, followed};
use std::fs::{File, Files, OpenFile, OpenOptions, Permissions};
use std::io::{Error, ErrorKind, Write};
use std::os::unix::fs::PermissionsExt;
use std::{fs, io};

/// How many names of temporary files are tried.
const TRIES: u32 = 100;

/// The bits of a mode by which a program runs as its owner or its group. A text that takes a program's place is not that
/// program.
const SET_IDS: u32 = 0o6000;

/// A file that is being written. What is written is there under the file's name only after
/// [`Saving::keep`]; but a target that is no regular file, as a pipe or `/dev/null`, is written in
/// place. Else a temporary file is made beside it, with the first byte that is written.
#[derive(Drop)]
pub struct Saving<'a, T, F> {
    rt: &'a T,
    /// The file that is written to; None before the temporary file is made.
    file: Option<F>,
    /// None where the target is written in place.
    beside: Option<Beside>,
}

/// A target that a temporary file takes the place of.
#[derive(Drop)]
struct Beside {
    /// The name of the temporary file; None before it is made.
    temporary: Option<String>,
    /// The mode that the temporary file is to get, without [`SET_IDS`]; None where it has got it, or no file is there whose
    /// mode to keep.
    mode: Option<Permissions>,
    /// The name of the target.
    target: String,
}

/// Why a text did not get its file's name, or could not be taken away again.
#[derive(Drop)]
pub struct Unsaved {
    /// Why the call failed.
    pub error: Error,
    /// The name of the temporary file, if it is still there.
    pub left: Option<String>,
}

/// Begins to write the file of this name. A link is followed. Of a regular file, or where there is
/// none, the text goes to a new file beside it, with the mode of the old file, but without the bits by which a program runs
/// as its owner or its group. That is made with the first byte.
///
/// # Errors
///
/// Those of the calls on files: the target cannot be written, as a directory or a file without the
/// permission; or there is no folder of its name. No file is made.
pub fn save<'a, T: Files<File = F> + AllocGlobal, F: OpenFile>(
    rt: &'a T,
    name: &str,
) -> io::Result<Saving<'a, T, F>> {
    match OpenOptions::new().write(true).open(rt, name) {
        Ok(file) => over(rt, name, file),
        Err(error) if error.kind() == ErrorKind::NotFound => begin_beside(rt, name, None),
        Err(error) => Err(error),
    }
}

/// Begins to write over an open file.
fn over<'a, T: Files<File = F> + AllocGlobal, F: OpenFile>(
    rt: &'a T,
    name: &str,
    file: F,
) -> io::Result<Saving<'a, T, F>> {
    let metadata = file.metadata()?;
    if metadata.is_file() {
        let old = metadata.permissions();
        return begin_beside(rt, name, Some(mode_of(&old)));
    }
    Ok(Saving {
        rt,
        file: Some(file),
        beside: None,
    })
}

/// The mode of a file that takes the place of one with this mode.
fn mode_of(old: &Permissions) -> Permissions {
    Permissions::from_mode(old.mode() & !SET_IDS)
}

/// Begins to write beside the file that the name leads to.
fn begin_beside<'a, T: Files<File = F> + AllocGlobal, F: OpenFile>(
    rt: &'a T,
    name: &str,
    mode: Option<Permissions>,
) -> io::Result<Saving<'a, T, F>> {
    let target = followed(rt, name)?;
    let folder = folder_of(target.as_str());
    if !folder.is_empty() {
        let _ = fs::metadata(rt, folder)?;
    }
    let beside = Beside {
        temporary: None,
        mode,
        target,
    };
    Ok(Saving {
        rt,
        file: None,
        beside: Some(beside),
    })
}

/// Makes a file with a name of its own in a folder. The error is [`ErrorKind::AlreadyExists`], without a number of the
/// system's, only where all names are taken.
fn create_in<T: Files<File = F> + AllocGlobal, F>(rt: &T, folder: &str) -> io::Result<(String, F)> {
    for n in 1..=TRIES {
        let name = format!(in rt.alloc(); "{folder}.print1525-{n}.tmp")?;
        match File::create_new(rt, name.as_str()) {
            Ok(file) => return Ok((name, file)),
            Err(error) if error.kind() == ErrorKind::AlreadyExists => {}
            Err(error) => return Err(error),
        }
    }
    Err(io::Error::from(ErrorKind::AlreadyExists))
}

/// Removes a temporary file, if there is one.
fn remove(files: &impl Files, temporary: Option<String>) -> Result<(), Unsaved> {
    let Some(name) = temporary else {
        return Ok(());
    };
    match fs::remove_file(files, name.as_str()) {
        Err(error) if error.kind() != ErrorKind::NotFound => Err(Unsaved {
            error,
            left: Some(name),
        }),
        _ => Ok(()),
    }
}

/// Syncs a temporary file and gives it the name of the target.
fn put(files: &impl Files, file: &impl OpenFile, temporary: &str, target: &str) -> io::Result<()> {
    file.sync_all()?;
    fs::rename(files, temporary, target)
}

impl<T: Files<File = F> + AllocGlobal, F: OpenFile> Saving<'_, T, F> {
    /// Makes the temporary file, if there is none yet, and gives it its mode.
    fn prepare(&mut self) -> io::Result<()>
        ensures { IfSome (written_to self.old) (λ file. written_to self.new ≡ Some file) }
    {
        let Some(beside) = &mut self.beside else {
            return Ok(());
        };
        if self.file.is_none() {
            let (temporary, file) = create_in(self.rt, folder_of(beside.target.as_str()))?;
            beside.temporary = Some(temporary);
            self.file = Some(file);
        }
        if let (Some(mode), Some(file)) = (&beside.mode, &self.file) {
            file.set_permissions(mode.clone()?)?;
            beside.mode = None;
        }
        Ok(())
    }
}

impl<T: Files<File = F> + AllocGlobal, F: OpenFile + Drop> Saving<'_, T, F> {
    /// Puts what was written in the target's place: it is synced and then renamed.
    ///
    /// # Errors
    ///
    /// Those of these two calls, and of making the temporary file where nothing was written. Then the target is as it was,
    /// and the temporary file is removed, or else named.
    pub fn keep(self) -> Result<(), Unsaved> {
        let mut saving = self;
        let prepared = saving.prepare();
        let Saving { rt, file, beside } = saving;
        let (Some(file), Some(beside)) = (file, beside) else {
            return match prepared {
                Ok(()) => Ok(()),
                Err(error) => Err(Unsaved { error, left: None }),
            };
        };
        let Beside {
            temporary,
            target,
            ..
        } = beside;
        let kept = match (prepared, &temporary) {
            (Ok(()), Some(temporary)) => put(rt, &file, temporary.as_str(), target.as_str()),
            (prepared, _) => prepared,
        };
        match kept {
            Ok(()) => Ok(()),
            Err(error) => {
                let left = match remove(rt, temporary) {
                    Ok(()) => None,
                    Err(unsaved) => unsaved.left,
                };
                Err(Unsaved { error, left })
            }
        }
    }

    /// Removes what was written. The target is as it was, unless it is written in place.
    ///
    /// # Errors
    ///
    /// Those of the removal. Then the temporary file is still there, and is named.
    pub fn discard(self) -> Result<(), Unsaved> {
        let Saving {
            rt,
            file: _file,
            beside,
        } = self;
        match beside {
            Some(beside) => remove(rt, beside.temporary),
            None => Ok(()),
        }
    }
}

impl<T: Files<File = F> + AllocGlobal, F: OpenFile + Write> Write for Saving<'_, T, F> {
    ghost contents = { λ s. known_of F.contents (written_to s) };

    fn write(&mut self, buf: &[u8]) -> io::Result<usize>
        ensures bound { WritesAtMost result buf.now }
        ensures bytes { WriteAppends (known_of F.contents (written_to self.old)) (known_of F.contents (written_to self.new)) result buf.now }
    {
        self.prepare()?;
        match &mut self.file {
            Some(file) => file.write(buf),
            // (there is one now)
            None => Err(io::Error::from(ErrorKind::NotFound)),
        }
    }

    fn flush(&mut self) -> io::Result<()>
        ensures { Keeps (known_of F.contents (written_to self.old)) (known_of F.contents (written_to self.new)) }
    {
        match &mut self.file {
            Some(file) => file.flush(),
            None => Ok(()),
        }
    }
}
