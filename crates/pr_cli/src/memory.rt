//! The program over memory: words, an input and a file of characters in, what the program writes and how it ends out.

ghost use Rattle.std.specs.Prelude.{◌≡◌, Some, [], map, IfOk};
ghost use Rattle.pr_cli.specs.Answered.{AnswersWords};

use crate::answers::{Telling, answer_given, tell};
use crate::meant::meant;
use crate::outside::Outside;
use crate::refusals::refuse_task;
use crate::statuses::{End, is_answered};
use crate::told::{ending_note, show_note};
use pr_jobs::CliFault;
use pr_options::{explains, is_quiet, read_task};
use std::alloc::{AllocError, Global};
use std::cell::RefCell;
use std::fmt::Display;
use std::io;
use std::io::{ErrorKind, Write};

/// What the program answers over memory.
#[derive(Drop)]
pub struct Answered {
    /// How the program ends; [`End::status`] is the exit status.
    pub end: End,
    /// What the program writes on standard output, or into the file that the words name. With another status than 0 and
    /// 1 the program puts no file in its place.
    pub output: Vec<u8>,
    /// What it writes on standard error.
    pub messages: Vec<u8>,
}

/// A runtime whose standard streams are texts in memory. A text for which memory is refused is left out.
#[derive(Drop)]
pub struct Memory {
    alloc: Global,
    output: RefCell<Vec<u8>>,
    messages: RefCell<Vec<u8>>,
}

impl Memory {
    /// No text yet.
    pub fn new(alloc: Global) -> Memory {
        Memory {
            alloc,
            output: RefCell::new(Vec::new(alloc)),
            messages: RefCell::new(Vec::new(alloc)),
        }
    }

    /// This answer, with what was said on standard error.
    pub fn answered(self, end: End, output: Vec<u8>) -> Answered
        ensures end { result.end ≡ end }
        ensures output { result.output ≡ output }
    {
        Answered {
            end,
            output,
            messages: self.messages.into_inner(),
        }
    }
}

impl Alloc for Memory {
    type A = Global;

    fn alloc(&self) -> Global {
        self.alloc
    }
}

/// Adds a text, and then an end, to a stream.
fn write_on<D: Display + Drop>(
    stream: &RefCell<Vec<u8>>,
    value: D,
    is_line: bool,
) -> io::Result<()> {
    let Ok(mut stream) = stream.try_borrow_mut() else {
        return Err(io::Error::from(ErrorKind::ResourceBusy));
    };
    if is_line {
        stream.writeln(value)
    } else {
        stream.write_fmt(value)
    }
}

impl Print for Memory {
    fn print<D: Display + Drop>(&self, value: D) -> io::Result<()> {
        write_on(&self.output, value, false)
    }

    fn println<D: Display + Drop>(&self, value: D) -> io::Result<()> {
        write_on(&self.output, value, true)
    }

    fn write_all(&self, bytes: &[u8]) -> io::Result<()> {
        let Ok(mut stream) = self.output.try_borrow_mut() else {
            return Err(io::Error::from(ErrorKind::ResourceBusy));
        };
        stream.write_all(bytes)
    }
}

impl Eprint for Memory {
    fn eprint<D: Display + Drop>(&self, value: D) -> io::Result<()> {
        write_on(&self.messages, value, false)
    }

    fn eprintln<D: Display + Drop>(&self, value: D) -> io::Result<()> {
        write_on(&self.messages, value, true)
    }
}

/// What a job has read in memory is kept where more is to be said of it, so nothing is read again. No read of memory fails.
impl Outside for Memory {
    fn again(&self, _name: &str, _count: u64) -> Option<Vec<u8>> {
        None
    }

    fn tell_error(&self, _name: &str, _error: &io::Error) {}
}

/// Does what the program does with these words, of which its name is the first, with `input` in the place of the file
/// that they name or of standard input, and `characters` in that of the file of characters, where they name one. More
/// is said of a refusal or an error where `is_explained`, or where words ask for it. Nothing is opened or written: the
/// caller reads the files, and writes the output.
pub fn answer_in_memory(
    alloc: Global,
    words: &[&str],
    is_explained: bool,
    input: &[u8],
    characters: &[u8],
) -> Answered
    ensures { AnswersWords (map (λ s. s.now) words.entry.now) input.now characters.now result.output.items result.end }
{
    let memory = Memory::new(alloc);
    match answer_words(&memory, words, is_explained, input, characters) {
        Ok((end, output)) => memory.answered(end, output),
        Err(AllocError) => {
            let end = tell(&memory, CliFault::NoMemory);
            memory.answered(end, Vec::new(alloc))
        }
    }
}

/// How the program ends, and what is written on standard output.
fn answer_words(
    memory: &Memory,
    words: &[&str],
    is_explained: bool,
    input: &[u8],
    characters: &[u8],
) -> Result<(End, Vec<u8>), AllocError>
    ensures { IfOk result (λ answer. AnswersWords (map (λ s. s.now) words.entry.now) input.now characters.now answer.1.items answer.0) }
{
    let alloc = memory.alloc();
    let texts = meant(alloc, words)?;
    let is_explained = is_explained || explains(texts.as_slice());
    match read_task(alloc, texts.as_slice()) {
        Ok(task) => {
            let note = ending_note(texts.as_slice(), &task);
            let telling = Telling {
                is_explained,
                is_quiet: is_quiet(texts.as_slice()),
            };
            let (end, output) = answer_given(memory, task, telling, input, characters);
            if is_explained && !telling.is_quiet && is_answered(end.status()) {
                show_note(memory, note);
            }
            Ok((end, output))
        }
        Err(fault) => {
            let end = refuse_task(memory, texts.as_slice(), fault, is_explained)?;
            let printed = match (end, memory.output.try_replace(Vec::new(alloc))) {
                (End::Done, Ok(printed)) => printed,
                _ => Vec::new(alloc),
            };
            Ok((end, printed))
        }
    }
}
