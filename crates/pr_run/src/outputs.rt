//! The output statements: OPEN, CLOSE, CMD, PRINT and PRINT#.

ghost use Rattle.std.specs.Prelude.{◌≡◌, ◌==◌, not, [], IfErr, IfOk, Ok, drop, take};
ghost use Rattle.std.specs.List.{filter};
ghost use Rattle.pr_run.specs.Outputs.{close_statement, close_with, command_statement, command_to, directed};
ghost use Rattle.pr_run.specs.Outputs.{file_numbers, is_open, no_line, numbers, open_error, open_file, open_statement};
ghost use Rattle.pr_run.specs.Outputs.{open_with, print_file_statement, print_statement, print_to, value_place};
ghost use Rattle.pr_run.specs.Uses.{statement_place};
ghost use Rattle.pr_run.specs.Worked.{whole};
ghost use Rattle.pr_run.specs.Seen.{EndsAs, IsDevice, IsSecond, gives, puts, state_of};

use crate::ending::{Ending, Refusal};
use crate::lists::printed;
use crate::programs::Program;
use crate::state::Run;
use crate::uses::first_place;
use crate::worked::{statement_place, whole};
use pr_basic::{Device, Line, Second, Statement};
use pr_interpreter::{BasicError, Item, Nodes, Placed};
use std::alloc::Global;

/// At most so many files are open.
const FILES: usize = 10;

/// A statement that is performed, and the error with which it ends the run, if it does.
pub type Output = (Statement, Option<BasicError>);

/// Works out a whole number from 0 to 255.
fn byte(alloc: Global, program: &Program, run: &mut Run, nodes: &[Placed]) -> Result<u8, Ending>
    ensures ok { IfOk result (λ n. whole 255 program.now (state_of run.old) nodes.now ≡ gives n run.new) }
    ensures err { IfErr result (λ e. EndsAs e (whole 255 program.now (state_of run.old) nodes.now)) }
{
    let number = whole(alloc, 255, program, run, nodes)?;
    Ok(number as u8)
}

/// Works out whole numbers from 0 to 255.
#[tactic(auto, unfolding(crate::specs::Outputs::numbers))]
fn numbers(
    alloc: Global,
    program: &Program,
    run: &mut Run,
    values: &[Nodes],
) -> Result<Vec<u8>, Ending>
    ensures ok { IfOk result (λ found. numbers program.now (state_of run.old) values.now ≡ gives found.items run.new) }
    ensures err { IfErr result (λ e. EndsAs e (numbers program.now (state_of run.old) values.now)) }
{
    let mut found = Vec::new(alloc);
    'each: for nodes in values {
        let number = byte(alloc, program, run, nodes.as_slice())?;
        match found.push(number) {
            Ok(()) => {}
            Err(_) => return Err(Ending::OutOfMemory),
        }
    }
    Ok(found)
}

/// Returns the first three values.
#[tactic(auto, using(std::proofs::lemmas::List::take_all))]
fn first_three(values: &[Nodes]) -> &[Nodes]
    ensures { result.now ≡ take 3 values.now }
{
    if values.len() <= 3 {
        return values;
    }
    &values[..3]
}

/// Returns the values after the first three.
#[tactic(auto, using(std::proofs::lemmas::List::drop_all))]
fn after_three(values: &[Nodes]) -> &[Nodes]
    ensures { result.now ≡ drop 3 values.now }
{
    if values.len() <= 3 {
        return &[];
    }
    &values[3..]
}

/// Works out the numbers of OPEN and CLOSE; a fourth value is a file name, which is not taken.
fn file_numbers(
    alloc: Global,
    program: &Program,
    run: &mut Run,
    values: &[Nodes],
) -> Result<Vec<u8>, Ending>
    ensures ok { IfOk result (λ found. file_numbers program.now (state_of run.old) values.now ≡ gives found.items run.new) }
    ensures err { IfErr result (λ e. EndsAs e (file_numbers program.now (state_of run.old) values.now)) }
{
    let found = numbers(alloc, program, run, first_three(values))?;
    match after_three(values) {
        [name, ..] => Err(Ending::Refused {
            refusal: Refusal::FileName,
            place: first_place(name.as_slice()),
        }),
        [] => Ok(found),
    }
}

/// Returns whether a file is open.
fn is_open(file: u8, files: &[u8]) -> bool
    ensures { result ≡ is_open file files.now }
{
    for other in files {
        if *other == file {
            return true;
        }
    }
    false
}

/// Returns the error of an OPEN, if there is one.
fn open_error(file: u8, files: &[u8]) -> Option<BasicError>
    ensures { result ≡ open_error file files.now }
{
    if file == 0 {
        return Some(BasicError::NotInputFile);
    }
    if is_open(file, files) {
        return Some(BasicError::FileOpen);
    }
    if files.len() == FILES {
        return Some(BasicError::TooManyFiles);
    }
    None
}

/// Opens a file.
fn open_file(
    file: u8,
    device: Device,
    second: Option<Second>,
    run: &mut Run,
) -> Result<Output, Ending>
    ensures ok { IfOk result (λ o. puts o run.new ≡ Ok (open_file file device second (state_of run.old))) }
    ensures err { IfErr result (λ e. e ≡ Ending.OutOfMemory) }
{
    let error = open_error(file, run.files.as_slice());
    if error.is_none() {
        match run.files.push(file) {
            Ok(()) => {}
            Err(_) => return Err(Ending::OutOfMemory),
        }
    }
    let statement = Statement::OpenFile {
        file,
        device,
        second,
    };
    Ok((statement, error))
}

/// Returns the place of a value by its number; 0 if there is none.
fn value_place(number: usize, values: &[Nodes]) -> usize
    ensures { result ≡ value_place (drop number values.now) }
{
    match values.get(number) {
        Some(nodes) => first_place(nodes.as_slice()),
        None => 0,
    }
}

/// Returns a device of the bus by its number.
fn device_of(number: u8, place: usize) -> Result<Device, Ending>
    ensures { IsDevice number place result }
{
    match Device::new(number) {
        Some(device) => Ok(device),
        None => Err(Ending::Refused {
            refusal: Refusal::Device(number),
            place,
        }),
    }
}

/// Returns a secondary address by its number.
fn second_of(number: u8, place: usize) -> Result<Second, Ending>
    ensures { IsSecond number place result }
{
    match Second::new(number) {
        Some(second) => Ok(second),
        None => Err(Ending::Refused {
            refusal: Refusal::SecondAddress(number),
            place,
        }),
    }
}

/// Opens a file by its numbers.
fn open_with(
    program: &Program,
    values: &[Nodes],
    numbers: &[u8],
    run: &mut Run,
) -> Result<Output, Ending>
    ensures ok { IfOk result (λ o. open_with (statement_place program.now (state_of run.old)) values.now numbers.now (state_of run.old) ≡ puts o run.new) }
    ensures err { IfErr result (λ e. EndsAs e (open_with (statement_place program.now (state_of run.old)) values.now numbers.now (state_of run.old))) }
{
    match numbers {
        [] | [_] => Err(Ending::Refused {
            refusal: Refusal::Device(1),
            place: statement_place(program, run),
        }),
        [file, device] => {
            let device = device_of(*device, value_place(1, values))?;
            open_file(*file, device, None, run)
        }
        [file, device, second, ..] => {
            let device = device_of(*device, value_place(1, values))?;
            let second = second_of(*second, value_place(2, values))?;
            open_file(*file, device, Some(second), run)
        }
    }
}

/// Performs OPEN.
#[tactic(auto, unfolding(crate::specs::Outputs::open_statement))]
pub fn open_statement(
    alloc: Global,
    program: &Program,
    run: &mut Run,
    values: &[Nodes],
) -> Result<Output, Ending>
    ensures ok { IfOk result (λ o. open_statement program.now (state_of run.old) values.now ≡ puts o run.new) }
    ensures err { IfErr result (λ e. EndsAs e (open_statement program.now (state_of run.old) values.now)) }
{
    let numbers = file_numbers(alloc, program, run, values)?;
    open_with(program, values, numbers.as_slice(), run)
}

/// Forgets a file, if it is open.
fn forget(files: &mut Vec<u8>, file: u8)
    ensures { files.new.items ≡ filter (λ f. not (f == file)) files.old.items }
{
    files.retain(|other| *other != file);
}

/// Closes a file.
fn close_with(program: &Program, numbers: &[u8], run: &mut Run) -> Result<Output, Ending>
    ensures ok { IfOk result (λ o. close_with (statement_place program.now (state_of run.old)) numbers.now (state_of run.old) ≡ puts o run.new) }
    ensures err { IfErr result (λ e. EndsAs e (close_with (statement_place program.now (state_of run.old)) numbers.now (state_of run.old))) }
{
    let [file, ..] = numbers else {
        return Err(Ending::Refused {
            refusal: Refusal::FileName,
            place: statement_place(program, run),
        });
    };
    let file = *file;
    forget(&mut run.files, file);
    run.has_sent = true;
    Ok((Statement::CloseFile { file }, None))
}

/// Performs CLOSE.
#[tactic(auto, unfolding(crate::specs::Outputs::close_statement))]
pub fn close_statement(
    alloc: Global,
    program: &Program,
    run: &mut Run,
    values: &[Nodes],
) -> Result<Output, Ending>
    ensures ok { IfOk result (λ o. close_statement program.now (state_of run.old) values.now ≡ puts o run.new) }
    ensures err { IfErr result (λ e. EndsAs e (close_statement program.now (state_of run.old) values.now)) }
{
    let numbers = file_numbers(alloc, program, run, values)?;
    close_with(program, numbers.as_slice(), run)
}

/// Performs PRINT.
#[tactic(auto, unfolding(crate::specs::Outputs::print_statement))]
pub fn print_statement(
    alloc: Global,
    program: &Program,
    run: &mut Run,
    items: &[Item],
) -> Result<Output, Ending>
    ensures ok { IfOk result (λ o. print_statement program.now (state_of run.old) items.now ≡ puts o run.new) }
    ensures err { IfErr result (λ e. EndsAs e (print_statement program.now (state_of run.old) items.now)) }
{
    let line = printed(alloc, program, run, items)?;
    Ok((Statement::Print { line }, None))
}

/// Returns a list of nothing.
fn no_line(alloc: Global) -> Line
    ensures { result ≡ no_line }
{
    Line {
        bytes: Vec::new(alloc),
        ends: true,
    }
}

/// Lets the output go to a file.
fn direct(file: u8, run: &mut Run)
    ensures { state_of run.new ≡ directed file (state_of run.old) }
{
    run.channel = file;
    run.has_sent = true;
}

/// Performs CMD for a file.
fn command_to(
    alloc: Global,
    program: &Program,
    items: &[Item],
    file: u8,
    run: &mut Run,
) -> Result<Output, Ending>
    ensures ok { IfOk result (λ o. command_to program.now items.now file (state_of run.old) ≡ puts o run.new) }
    ensures err { IfErr result (λ e. EndsAs e (command_to program.now items.now file (state_of run.old))) }
{
    if !is_open(file, run.files.as_slice()) {
        let line = no_line(alloc);
        return Ok((Statement::Cmd { file, line }, Some(BasicError::FileNotOpen)));
    }
    direct(file, run);
    let line = printed(alloc, program, run, items)?;
    Ok((Statement::Cmd { file, line }, None))
}

/// Performs CMD: output goes to the file from now on.
#[tactic(auto, unfolding(crate::specs::Outputs::command_statement))]
pub fn command_statement(
    alloc: Global,
    program: &Program,
    run: &mut Run,
    file: &[Placed],
    items: &[Item],
) -> Result<Output, Ending>
    ensures ok { IfOk result (λ o. command_statement program.now (state_of run.old) file.now items.now ≡ puts o run.new) }
    ensures err { IfErr result (λ e. EndsAs e (command_statement program.now (state_of run.old) file.now items.now)) }
{
    let file = byte(alloc, program, run, file)?;
    command_to(alloc, program, items, file, run)
}

/// Performs PRINT# to a file.
fn print_to(
    alloc: Global,
    program: &Program,
    items: &[Item],
    file: u8,
    run: &mut Run,
) -> Result<Output, Ending>
    ensures ok { IfOk result (λ o. print_to program.now items.now file (state_of run.old) ≡ puts o run.new) }
    ensures err { IfErr result (λ e. EndsAs e (print_to program.now items.now file (state_of run.old))) }
{
    if !is_open(file, run.files.as_slice()) {
        let line = no_line(alloc);
        return Ok((
            Statement::PrintTo { file, line },
            Some(BasicError::FileNotOpen),
        ));
    }
    direct(file, run);
    let line = printed(alloc, program, run, items)?;
    run.channel = 0;
    Ok((Statement::PrintTo { file, line }, None))
}

/// Performs PRINT#: output goes to the file for this list.
#[tactic(auto, unfolding(crate::specs::Outputs::print_file_statement))]
pub fn print_file_statement(
    alloc: Global,
    program: &Program,
    run: &mut Run,
    file: &[Placed],
    items: &[Item],
) -> Result<Output, Ending>
    ensures ok { IfOk result (λ o. print_file_statement program.now (state_of run.old) file.now items.now ≡ puts o run.new) }
    ensures err { IfErr result (λ e. EndsAs e (print_file_statement program.now (state_of run.old) file.now items.now)) }
{
    let file = byte(alloc, program, run, file)?;
    print_to(alloc, program, items, file, run)
}
