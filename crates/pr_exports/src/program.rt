//! The program as two calls: what is a text or a picture goes through them.

ghost use Rattle.std.specs.Prelude.{◌≡◌, length};
ghost use Rattle.pr_exports.specs.Program.{HandsTexts, IsPut, TellsAnswer, TellsNames};

use crate::faults::numbers_of;
use pr_cli::{Answered, answer_line, named_files};
use std::alloc::Global;

/// How the program ends, as numbers.
#[repr(C)]
#[derive(Clone, Copy, Debug, PartialEq, Eq)]
pub struct End {
    /// The exit status of the program, 0 to 3; 4 where the output is longer than its buffer.
    pub status: usize,
    /// The number of the fault, as include/print1525.h has them; 0 for none. With status 1 it is 100 and the number of the BASIC
    /// error that stopped the run.
    pub fault: usize,
    /// The line of the fault, from 1, the index of its edge, from 0, or how many sheets there are; with status 1 the statement, from
    /// 1; or 0.
    pub place: usize,
    /// The column in that line, from 1, of a listing's fault that has one; or 0.
    pub column: usize,
    /// How many bytes the output has.
    pub output: usize,
    /// How many bytes the messages have.
    pub messages: usize,
}

/// Does what the program `print1525` does with the words of a command line, of which its name is the first, with a byte 0
/// between each two: [`pr_cli::answer_line`]. `input` is in the place of the file that the words name or of standard
/// input, and `characters` in that of the file of characters, where they name one. More is said of a refusal or an error
/// where `explained` is not 0, or where words ask for it.
///
/// The output is at the front of the first buffer, and the rest is as it was. With too little room, status 4, or with a status
/// above `most`, whatever room it has, that buffer stays as it was. The messages are at the front of the second, if it has
/// room for them, whatever the status is; else that one stays as it was.
#[unsafe(no_mangle)]
pub extern "C" fn print1525_answer(
    alloc: Global,
    words: &[u8],
    explained: u8,
    most: u8,
    input: &[u8],
    characters: &[u8],
    output: &mut [u8],
    messages: &mut [u8],
    answer: &mut End,
)
    ensures tells { TellsAnswer words.now input.now characters.now most output.old output.new messages.old messages.new answer.new }
    ensures length { length output.new ≡ length output.old }
    ensures messages { length messages.new ≡ length messages.old }
{
    let answered = answer_line(alloc, words, explained != 0, input, characters);
    *answer = handed(&answered, most, output, messages);
}

/// Puts the names of the files that words name in the first buffer, and what the program says where the input comes from a
/// terminal in the second: [`pr_cli::named_files`]. The rest is as with [`print1525_answer`].
#[unsafe(no_mangle)]
pub extern "C" fn print1525_names(
    alloc: Global,
    words: &[u8],
    names: &mut [u8],
    messages: &mut [u8],
    answer: &mut End,
)
    ensures tells { TellsNames words.now names.old names.new messages.old messages.new answer.new }
    ensures length { length names.new ≡ length names.old }
    ensures messages { length messages.new ≡ length messages.old }
{
    let answered = named_files(alloc, words);
    *answer = handed(&answered, 3, names, messages);
}

/// Puts the output at the front of the first buffer, where the status is at most this one and there is room, and the messages
/// at that of the second.
fn handed(answered: &Answered, most: u8, output: &mut [u8], messages: &mut [u8]) -> End
    ensures hands { HandsTexts answered.now.output.items answered.now.messages.items answered.now.end most
        output.old output.new messages.old messages.new result }
    ensures length { length output.new ≡ length output.old }
    ensures messages { length messages.new ≡ length messages.old }
{
    put(&answered.messages, messages);
    let (fault, place, column) = numbers_of(answered.end);
    let status = answered.end.status();
    let made = End {
        status: usize::from(status),
        fault,
        place,
        column,
        output: answered.output.len(),
        messages: answered.messages.len(),
    };
    if status > most {
        return made;
    }
    if made.output > output.len() {
        return End { status: 4, ..made };
    }
    output[..made.output].copy_from_slice(&answered.output);
    made
}

/// Puts a text at the front of a buffer that has room for it.
fn put(text: &[u8], buffer: &mut [u8])
    ensures puts { IsPut text.now buffer.old buffer.new }
    ensures length { length buffer.new ≡ length buffer.old }
{
    if text.len() <= buffer.len() {
        buffer[..text.len()].copy_from_slice(text);
    }
}
