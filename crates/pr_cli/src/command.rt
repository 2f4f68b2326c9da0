//! The words of the program's command line, and its task done.

ghost use Rattle.std.specs.Prelude.{◌≡◌};

use crate::answers::{Surroundings, run_task, tell};
use crate::meant::meant;
use crate::refusals::{refuse, refuse_task, refuse_word};
use crate::statuses::{End, is_answered};
use crate::told::{ending_note, show_note};
use pr_jobs::CliFault;
use pr_options::{explains, is_quiet, read_task};
use std::alloc::{AllocError, Global};
use std::env::{FillError, VarError};
use std::fs::Files;
use std::io::ErrorKind;
use std::rt::Env;
use std::time::Clock;
use std::{env, io};

/// The environment's variable that, with the value 1, asks for the same as `--explain`.
const EXPLAIN_VARIABLE: &str = "PRINT1525_EXPLAIN";

/// The environment's variable that, with any value but an empty one, keeps sequences that change how text looks from terminals.
const PLAIN_VARIABLE: &str = "NO_COLOR";

/// The longest word of a command line that is shown where it is not UTF-8, in bytes.
const SHOWN: usize = 4096;

/// The standard streams that are terminals.
#[derive(Clone, Copy)]
pub struct Terminals {
    pub input: bool,
    pub output: bool,
    pub error: bool,
}

/// Does what the command line asks for and gives the exit status.
pub fn run(
    rt: &(impl Files + Env + Clock + Input + Print + Eprint + AllocGlobal),
    terminals: Terminals,
) -> u8 {
    match words_of(rt) {
        Ok(words) => match answer_words(rt, words.as_slice(), terminals) {
            Ok(status) => status,
            Err(AllocError) => tell(rt, CliFault::NoMemory).status(),
        },
        Err(error) if error.kind() == ErrorKind::OutOfMemory => {
            tell(rt, CliFault::NoMemory).status()
        }
        Err(_) => refuse_words(rt).status(),
    }
}

/// The words of the command line, collected by `push`: std's `collect` goes on when a reserve is
/// refused.
fn words_of(rt: &(impl Env + AllocGlobal)) -> io::Result<Vec<String>> {
    let mut words = Vec::new(rt.alloc());
    for word in env::args(rt)? {
        words.push(word)?;
    }
    Ok(words)
}

/// Reports which word of the command line is not UTF-8, and gives how the program ends. The room for the word is in a frame of
/// its own, which no other run has to clear.
#[inline(never)]
fn refuse_words(rt: &(impl Env + Eprint)) -> End {
    let mut word = [0u8; SHOWN];
    for i in 0..usize::MAX {
        match rt.arg(i, &mut word) {
            Ok(n) => {
                if str::from_utf8(&word[..n]).is_err() {
                    refuse_word(rt, &word[..n]);
                    return End::Words;
                }
            }
            Err(FillError::TooLong) => {}
            Err(FillError::NotPresent) => break,
        }
    }
    refuse(rt, "bad arguments")
}

/// Reads the words and does the task that they ask for. Gives the exit status.
fn answer_words(
    rt: &(impl Files + Env + Clock + Input + Print + Eprint + AllocGlobal),
    words: &[String],
    terminals: Terminals,
) -> Result<u8, AllocError> {
    let texts = texts_of(rt.alloc(), words)?;
    let texts = meant(rt.alloc(), texts.as_slice())?;
    let is_explained = explains(texts.as_slice()) || is_explaining(rt)?;
    let is_reversing = terminals.output && !is_plain(rt)?;
    let is_quiet = is_quiet(texts.as_slice());
    match read_task(rt.alloc(), texts.as_slice()) {
        Ok(task) => {
            let around = Surroundings {
                is_explained,
                is_quiet,
                terminals,
                is_reversing,
            };
            let note = ending_note(texts.as_slice(), &task);
            let status = run_task(rt, task, around);
            if !is_quiet && (is_explained || terminals.error) && is_answered(status) {
                show_note(rt, note);
            }
            Ok(status)
        }
        Err(fault) => {
            let is_listed = is_explained || (terminals.error && !is_quiet);
            Ok(refuse_task(rt, texts.as_slice(), fault, is_listed)?.status())
        }
    }
}

/// The texts of words.
fn texts_of(alloc: Global, words: &[String]) -> Result<Vec<&str>, AllocError> {
    let mut texts = Vec::new(alloc);
    for word in words {
        texts.push(word.as_str())?;
    }
    Ok(texts)
}

/// Whether the environment asks for explanations.
fn is_explaining(rt: &(impl Env + AllocGlobal)) -> Result<bool, AllocError> {
    match env::var(rt, EXPLAIN_VARIABLE) {
        Ok(value) => Ok(value.as_str() == "1"),
        Err(VarError::OutOfMemory) => Err(AllocError),
        Err(VarError::NotPresent | VarError::NotUnicode) => Ok(false),
    }
}

/// Whether the environment asks for text that looks plain on a terminal, as <https://no-color.org> has it.
fn is_plain(rt: &(impl Env + AllocGlobal)) -> Result<bool, AllocError> {
    match env::var(rt, PLAIN_VARIABLE) {
        Ok(value) => Ok(!value.is_empty()),
        Err(VarError::OutOfMemory) => Err(AllocError),
        Err(VarError::NotUnicode) => Ok(true),
        Err(VarError::NotPresent) => Ok(false),
    }
}
