//! The words of a command line as one text, and the program over them.

ghost use Rattle.std.specs.Prelude.{◌≡◌, ◌++◌, [], map, option_map, IfOk, OnOk};
ghost use Rattle.pr_options.specs.Jobs.{task_view};
ghost use Rattle.pr_cli.specs.Answered.{AnswersLine, AnswersWords, IsUntold, NamesFiles, NamesFilesOfLine};
ghost use Rattle.pr_cli.specs.Words.{name_part, names_part, words_in};
ghost use Rattle.pr_cli.specs.declared.statuses.End.TheVariants as end;

use crate::answers::{tell, tell_waiting};
use crate::meant::meant;
use crate::memory::{Answered, Memory, answer_in_memory};
use crate::refusals::refuse_word;
use crate::statuses::End;
use pr_jobs::CliFault;
use pr_options::{JobFault, Task, read_task};
use std::alloc::{AllocError, Global};

/// The words of a text.
fn words_in(alloc: Global, text: &str) -> Result<Vec<&str>, AllocError>
    ensures { IfOk result (λ words. map (λ s. s.now) words.items ≡ words_in text.now) }
{
    let mut words = Vec::new(alloc);
    for word in text.split('\0') {
        words.push(word)?;
    }
    Ok(words)
}

/// Does what [`answer_in_memory`] does, with words as one text with a byte 0 between each two. Words that are not UTF-8 are
/// refused as the program refuses them.
pub fn answer_line(
    alloc: Global,
    line: &[u8],
    is_explained: bool,
    input: &[u8],
    characters: &[u8],
) -> Answered
    ensures { AnswersLine line.now input.now characters.now result.output.items result.end }
{
    let Ok(text) = str::from_utf8(line) else {
        return refused_line(alloc, line);
    };
    answer_text(alloc, text, is_explained, input, characters)
}

/// Does the same with words that are UTF-8.
fn answer_text(
    alloc: Global,
    text: &str,
    is_explained: bool,
    input: &[u8],
    characters: &[u8],
) -> Answered
    ensures { AnswersWords (words_in text.now) input.now characters.now result.output.items result.end }
{
    match words_in(alloc, text) {
        Ok(words) => answer_in_memory(alloc, words.as_slice(), is_explained, input, characters),
        Err(AllocError) => no_memory(alloc),
    }
}

/// The answer where memory was refused.
fn no_memory(alloc: Global) -> Answered
    ensures { IsUntold result.output.items result.end }
{
    let memory = Memory::new(alloc);
    let end = tell(&memory, CliFault::NoMemory);
    memory.answered(end, Vec::new(alloc))
}

/// The answer to words that are not UTF-8.
fn refused_line(alloc: Global, line: &[u8]) -> Answered
    ensures end { result.end ≡ end.Words }
    ensures output { result.output.items ≡ [] }
{
    let memory = Memory::new(alloc);
    for word in line.split(|byte| *byte == 0) {
        if str::from_utf8(word).is_err() {
            refuse_word(&memory, word);
            break;
        }
    }
    memory.answered(End::Words, Vec::new(alloc))
}

/// Adds a file's name, if there is one, after a sign, and then a byte 0.
fn push_name(text: &mut Vec<u8>, name: Option<&str>) -> Result<(), AllocError>
    ensures { OnOk result (text.new.items ≡ text.old.items ++ name_part (option_map (λ name. name.now) name.entry)) }
{
    if let Some(name) = name {
        text.push(b'=')?;
        text.extend_from_slice(name.as_bytes())?;
    }
    text.push(0)?;
    Ok(())
}

/// The names of a task's files.
fn names_of(alloc: Global, task: &Task<'_>) -> Result<Vec<u8>, AllocError>
    ensures { IfOk result (λ text. text.items ≡ names_part (task_view task.now)) }
{
    let mut text = Vec::new(alloc);
    push_name(&mut text, task.input)?;
    push_name(&mut text, task.output)?;
    push_name(&mut text, task.characters)?;
    Ok(text)
}

/// The names of the files that words name, for a caller who reads and writes them: those of the file that is read, the file
/// that is written and the file of characters, each after `=`, or nothing where words name none, and a byte 0 behind each. The
/// messages are what is said where the input comes from a terminal. It ends with [`End::Done`]; with [`End::Words`] where words
/// ask for no task, of which [`answer_line`] says why, and with lack of memory where memory was refused.
pub fn named_files(alloc: Global, line: &[u8]) -> Answered
    ensures { NamesFilesOfLine line.now result.output.items result.end }
{
    let Ok(text) = str::from_utf8(line) else {
        return Memory::new(alloc).answered(End::Words, Vec::new(alloc));
    };
    named_in(alloc, text)
}

/// The names of the files that the words of a text name.
fn named_in(alloc: Global, text: &str) -> Answered
    ensures { NamesFiles (words_in text.now) result.output.items result.end }
{
    let memory = Memory::new(alloc);
    match named(&memory, text) {
        Ok((end, names)) => memory.answered(end, names),
        Err(AllocError) => no_memory(alloc),
    }
}

/// How it ends, and the names of files.
fn named(memory: &Memory, text: &str) -> Result<(End, Vec<u8>), AllocError>
    ensures { IfOk result (λ named. NamesFiles (words_in text.now) named.1.items named.0) }
{
    let alloc = memory.alloc();
    let words = words_in(alloc, text)?;
    let texts = meant(alloc, words.as_slice())?;
    match read_task(alloc, texts.as_slice()) {
        Ok(task) => {
            tell_waiting(memory, &task.job);
            Ok((End::Done, names_of(alloc, &task)?))
        }
        Err(JobFault::NoMemory) => Err(AllocError),
        Err(_) => Ok((End::Words, Vec::new(alloc))),
    }
}
