//! The script of what a run performs.

ghost use Rattle.std.specs.Prelude.{◌≡◌, ◌++◌, codes, decimal, IfOk, OnOk};
ghost use Rattle.pr_programs.specs.Scripts.{listed, open_text, performed_text, script_text, statement_text};

use crate::lists::{add_list, add_number, has_list};
use pr_basic::{Device, Line, Second, Statement};
use pr_run::Performed;
use std::alloc::{AllocError, Global};

/// Adds a byte and the list of a statement, if it has one.
fn add_listed(text: &mut Vec<u8>, b: u8, line: &Line) -> Result<(), AllocError>
    ensures { OnOk result (text.new.items ≡ text.old.items ++ listed b line.now) }
{
    if !has_list(line) {
        return Ok(());
    }
    text.push(b)?;
    add_list(text, line)
}

/// Adds a keyword and a file.
fn add_file(text: &mut Vec<u8>, keyword: &[u8], file: u8) -> Result<(), AllocError>
    ensures { OnOk result (text.new.items ≡ text.old.items ++ keyword.now ++ decimal file) }
{
    text.extend_from_slice(keyword)?;
    add_number(text, u32::from(file))
}

/// Adds OPEN.
fn add_open(
    text: &mut Vec<u8>,
    file: u8,
    device: Device,
    second: Option<Second>,
) -> Result<(), AllocError>
    ensures { OnOk result (text.new.items ≡ text.old.items ++ open_text file device second) }
{
    add_file(text, b"OPEN ", file)?;
    text.push(b',')?;
    add_number(text, u32::from(device.get()))?;
    if let Some(second) = second {
        text.push(b',')?;
        add_number(text, u32::from(second.get()))?;
    }
    Ok(())
}

/// Adds a statement.
#[tactic(auto, unfolding(crate::specs::Scripts::statement_text))]
fn add_statement(text: &mut Vec<u8>, statement: &Statement) -> Result<(), AllocError>
    ensures { OnOk result (text.new.items ≡ text.old.items ++ statement_text statement.now) }
{
    match statement {
        Statement::OpenFile {
            file,
            device,
            second,
        } => add_open(text, *file, *device, *second),
        Statement::CloseFile { file } => add_file(text, b"CLOSE ", *file),
        Statement::Cmd { file, line } => {
            add_file(text, b"CMD ", *file)?;
            add_listed(text, b',', line)
        }
        Statement::PrintTo { file, line } => {
            add_file(text, b"PRINT#", *file)?;
            add_listed(text, b',', line)
        }
        Statement::Print { line } => {
            text.extend_from_slice(b"PRINT")?;
            add_listed(text, b' ', line)
        }
        Statement::Rem => text.extend_from_slice(b"REM"),
    }
}

/// Adds the line of the script that has a statement.
#[tactic(auto, unfolding(crate::specs::Scripts::performed_text))]
fn add_performed(text: &mut Vec<u8>, performed: &Performed) -> Result<(), AllocError>
    ensures { OnOk result (text.new.items ≡ text.old.items ++ performed_text performed.now) }
{
    add_number(text, u32::from(performed.line))?;
    text.push(b' ')?;
    add_statement(text, &performed.statement)?;
    text.push(b'\n')?;
    Ok(())
}

/// Makes the script of what a run performs: a line for each statement, in order, with the number of the program's line
/// that it came from.
///
/// # Errors
///
/// Memory was refused.
#[tactic(auto, unfolding(crate::specs::Scripts::script_text))]
pub fn script_text(alloc: Global, performed: &[Performed]) -> Result<Vec<u8>, AllocError>
    ensures { IfOk result (λ text. text.items ≡ script_text performed.now) }
{
    let mut text = Vec::new(alloc);
    for done in performed {
        add_performed(&mut text, done)?;
    }
    Ok(text)
}
