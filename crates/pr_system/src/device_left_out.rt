//! Statements without one device.

ghost use Rattle.std.specs.Prelude.{◌≡◌, ◌≤◌, length, IfOk};
ghost use Rattle.pr_channels.specs.Files.{file_at};
ghost use Rattle.pr_system.specs.Without.{files_after, is_on, is_left_out, without, IsSpared, AreAddressed, GoesOn};
ghost use Rattle.pr_basic.specs.declared.session.StatusMode.{StatusMode};
ghost use Rattle.pr_serial.specs.declared.Present.{Present};

use crate::laws::printers_are_isolated;
use pr_basic::{Statement, number_of_second};
use pr_channels::FileTable;
use pr_serial::NoMemory;
use std::alloc::Global;

/// Whether the file with this number is open on the device.
fn is_file_on(files: &FileTable, number: u8, device: u8) -> bool
    ensures { result ≡ is_on device (file_at files.now number) }
{
    match files.get(number) {
        Some(file) => file.device == device,
        None => false,
    }
}

/// Whether a statement is left out with the device.
fn goes_with(files: &FileTable, statement: &Statement, device: u8) -> bool
    ensures { result ≡ is_left_out device files.now statement.now }
{
    match statement {
        Statement::OpenFile { device: on, .. } => on.get() == device,
        Statement::Cmd { file, .. }
        | Statement::PrintTo { file, .. }
        | Statement::CloseFile { file } => is_file_on(files, *file, device),
        Statement::Print { .. } | Statement::Rem => false,
    }
}

/// Keeps the table in step with a statement. An OPEN that the table refuses opens nothing.
fn follow(files: &mut FileTable, statement: &Statement)
    ensures { files.new ≡ files_after files.old statement.now }
{
    match statement {
        Statement::OpenFile {
            file,
            device,
            second,
        } => {
            let second = number_of_second(*second);
            let _refused = files.open(*file, device.get(), second);
        }
        Statement::CloseFile { file } => files.close(*file),
        _ => (),
    }
}

/// Copies a list of statements without those of one device: it leaves out each OPEN on that device,
/// and each PRINT#, CMD and CLOSE of a file that is on that device at that point. An OPEN that the
/// file table refuses opens nothing. The copy is no longer than the list. Any number may be the
/// device.
///
/// Where no statement is a CMD or a PRINT and none stops, none of the result stops either, and
/// every other device hears the same.
///
/// # Errors
///
/// [`NoMemory`] where memory was refused.
pub fn without_device(
    alloc: Global,
    statements: &[Statement],
    device: u8,
) -> Result<Vec<Statement>, NoMemory>
    ensures list { IfOk result (λ rest. rest.items ≡ without device statements.now) }
    ensures short { IfOk result (λ rest. length rest.items ≤ length statements.now) }
    ensures isolated { IfOk result
        (λ rest. (mode : StatusMode) (present : Present) → AreAddressed statements.now → GoesOn mode present statements.now →
        IsSpared mode present device statements.now rest.items) }
{
    // For the prover alone: a law, with nothing to run.
    printers_are_isolated();
    let mut files = FileTable::new();
    let mut rest = Vec::new(alloc);
    for statement in statements {
        if !goes_with(&files, statement, device) {
            rest.push(statement.copy(alloc)?)?;
        }
        follow(&mut files, statement);
    }
    Ok(rest)
}
