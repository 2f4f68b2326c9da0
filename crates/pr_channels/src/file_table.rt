//! The table of open files.

ghost use Rattle.std.specs.Prelude.{◌≡◌, ℕ, ◌≤◌, ◌==◌, None, Some, [], ◌∷◌, ◌++◌, IfErr, OnOk, if◌then◌else◌};
ghost use Rattle.std.specs.Option.{ForSome};
ghost use Rattle.pr_channels.specs.Files.{file_at, open_stop, without_file};
ghost use Rattle.pr_channels.specs.Table.{IsFile, AreFiles, IsTable};

use crate::faults::Stop;
use crate::file::File;
use arrayvec::ArrayVec;
use std::marker::Model;

/// The most files that are open at a time (Programmer's Reference Guide, OPEN).
const FILES: usize = 10;

/// A finite map from file numbers to a device and an optional secondary address, with at most ten
/// keys. Contracts see it as the list of its files in the order of opening, with each number once.
/// It never takes memory: its ten places are in the value, and an unused place holds the default
/// `File`, which no call shows.
#[derive(Drop)]
pub struct FileTable {
    files: ArrayVec<File, FILES>,
}

impl Model for FileTable {
    ghost use Rattle.pr_channels.specs.Files.{Files};
    ghost use Rattle.pr_channels.specs.Table.{IsTable, AreFiles};

    ghost Value = { Files };

    ghost view = { λ t. t.files.items };

    ghost invariant = { λ t. IsTable t.files.items × AreFiles t.files.items };
}

impl FileTable {
    /// Makes a table in which no file is open.
    pub fn new() -> FileTable
        ensures { result ≡ [] }
    {
        FileTable {
            files: ArrayVec::new(),
        }
    }

    /// Returns the open files, in the order of opening.
    pub fn as_slice(&self) -> &[File]
        ensures value { result.now ≡ self.now }
        ensures is_table { IsTable result.now }
        ensures are_files { AreFiles result.now }
    {
        self.files.as_slice()
    }

    /// Returns the file with this number, if it is open.
    pub fn get(&self, number: u8) -> Option<File>
        ensures found { result ≡ file_at self.now number }
        ensures in_range { ForSome result IsFile }
    {
        find_file(self.files.as_slice(), number)
    }

    /// Opens a file on a device of 4 to 30, with a secondary address of 0 to 15 or none.
    ///
    /// # Errors
    ///
    /// The first of these that applies; the table is then as it was: [`Stop::NotInputFile`] for
    /// file 0, [`Stop::FileOpen`] where the file is open, [`Stop::TooManyFiles`] where ten files
    /// are (profile: OPEN tests in this order).
    pub fn open(&mut self, number: u8, device: u8, second: Option<u8>) -> Result<(), Stop>
        // the caller's part
        requires low { 4 ≤ device }
        requires high { device ≤ 30 }
        requires second { ForSome second (λ s. s ≤ 15) }
        // what it does
        ensures ok { OnOk result ((open_stop self.old number ≡ None)
            × (self.new ≡ self.old ++ record { number = number; device = device; second = second } ∷ [])) }
        ensures map { OnOk result ((n : ℕ) → file_at self.new n ≡
            (if number == n then Some (record { number = number; device = device; second = second }) else file_at self.old n)) }
        // what a refusal leaves
        ensures err { IfErr result (λ stop. (open_stop self.old number ≡ Some stop) × (self.new ≡ self.old)) }
    {
        if number == 0 {
            return Err(Stop::NotInputFile);
        }
        if find_file(self.files.as_slice(), number).is_some() {
            return Err(Stop::FileOpen);
        }
        if self.files.is_full() {
            return Err(Stop::TooManyFiles);
        }
        self.files.push(File {
            number,
            device,
            second,
        });
        Ok(())
    }

    /// Takes a file out of the table, if it is open.
    pub fn close(&mut self, number: u8)
        ensures value { self.new ≡ without_file number self.old }
        ensures map { (n : ℕ) → file_at self.new n ≡ (if number == n then None else file_at self.old n) }
    {
        self.files.retain(|file| file.number != number);
    }
}

/// The first of some files with this number.
fn find_file(files: &[File], number: u8) -> Option<File>
    ensures { result ≡ file_at files.now number }
{
    for file in files {
        if file.number == number {
            return Some(*file);
        }
    }
    None
}
