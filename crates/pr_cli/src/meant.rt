//! What the words of a command line mean before clap reads them.

ghost use Rattle.std.specs.Prelude.{◌≡◌, map, IfOk};
ghost use Rattle.pr_cli.specs.Words.{begins_with_lines, helped, is_help, meant, with_lines, word_before};

use pr_options::read_inverted;
use std::alloc::{AllocError, Global};

/// The words that are read: `help` and `help COMMAND` ask for what `--help` and `COMMAND --help` do, and `--invert` that
/// no lines follow is that of all lines, so that a file's name may follow it.
pub fn meant<'a>(alloc: Global, words: &[&'a str]) -> Result<Vec<&'a str>, AllocError>
    ensures { IfOk result (λ read. map (λ s. s.now) read.items ≡ meant (map (λ s. s.now) words.entry.now)) }
{
    let helped = helped(alloc, words)?;
    let read = with_lines(alloc, helped.as_slice())?;
    Ok(read)
}

/// The words, with those that ask for help as clap has them.
fn helped<'a>(alloc: Global, words: &[&'a str]) -> Result<Vec<&'a str>, AllocError>
    ensures { IfOk result (λ read. map (λ s. s.now) read.items ≡ helped (map (λ s. s.now) words.entry.now)) }
{
    let mut read = Vec::new(alloc);
    match words {
        [program, first] if is_help(*first) => read.extend_from_slice(&[*program, "--help"])?,
        [program, first, command] if is_help(*first) => {
            read.extend_from_slice(&[*program, *command, "--help"])?;
        }
        _ => read.extend_from_slice(words)?,
    }
    Ok(read)
}

/// The words, with all lines for each `--invert` that no lines follow.
fn with_lines<'a>(alloc: Global, words: &[&'a str]) -> Result<Vec<&'a str>, AllocError>
    ensures { IfOk result (λ read. map (λ s. s.now) read.items ≡ with_lines (map (λ s. s.now) words.entry.now)) }
{
    let mut read = Vec::new(alloc);
    let mut left = words;
    while let [word, rest @ ..] = left {
        if *word == "--" {
            read.extend_from_slice(left)?;
            return Ok(read);
        }
        read.push(word_before(*word, rest))?;
        left = rest;
    }
    Ok(read)
}

/// A word, where these follow it.
fn word_before<'a>(word: &'a str, rest: &[&'a str]) -> &'a str
    ensures { result.now ≡ word_before word.now (map (λ s. s.now) rest.now) }
{
    if word == "--invert" && !begins_with_lines(rest) {
        "--invert=ATN,CLOCK,DATA"
    } else {
        word
    }
}

/// Whether lines of the bus follow.
fn begins_with_lines(words: &[&str]) -> bool
    ensures { result ≡ begins_with_lines (map (λ s. s.now) words.now) }
{
    match words {
        [] => false,
        [word, ..] => !word.is_empty() && read_inverted(*word).is_some(),
    }
}

/// Whether a word is `help`.
fn is_help(word: &str) -> bool
    ensures { result ≡ is_help word.now }
{
    word == "help"
}
