//! The lines of a story. All of their form is this project's own choice (profile): `attention` and
//! `data` have lines of their own, so that each frame has one line, all of one form; an apostrophe
//! is between quotation marks, so that each text is that of one byte alone.

ghost use Rattle.std.specs.Prelude.{◌≡◌, ◌++◌, OnOk};
ghost use Rattle.pr_report.specs.StoryText.{command_text, data_text, frame_line, heading, is_data, line_end, name_if, saying, story_line};

use crate::context::UNTALK;
use crate::numbers::{push_hex, push_moment, push_numbered};
use crate::timed_frame::TimedFrame;
use pr_base::UNLISTEN;
use pr_page::code_name;
use pr_wire::{ByteRole, NoMemory};

/// Adds what a command says (Programmer's Reference Guide, serial bus).
fn push_command(text: &mut Vec<u8>, byte: u8) -> Result<(), NoMemory>
    ensures { OnOk result (text.new.items ≡ text.old.items ++ command_text byte) }
{
    let number = byte as u64;
    if byte == UNLISTEN {
        text.extend_from_slice(b"UNLISTEN")
    } else if byte == UNTALK {
        text.extend_from_slice(b"UNTALK")
    } else if byte / 32 == 1 {
        push_numbered(text, b"LISTEN ", number % 32)
    } else if byte / 32 == 2 {
        push_numbered(text, b"TALK ", number % 32)
    } else if byte / 16 == 6 {
        push_numbered(text, b"SECOND ", number % 16)
    } else if byte / 16 == 14 {
        push_numbered(text, b"CLOSE ", number % 16)
    } else if byte / 16 == 15 {
        push_numbered(text, b"OPEN ", number % 16)
    } else {
        push_numbered(text, b"command ", number)
    }
}

/// The name of a control code, if bytes are a printer's.
fn name_if(printer: bool, byte: u8) -> &'static [u8]
    ensures { result.now ≡ name_if printer byte }
{
    if printer { code_name(byte) } else { b"" }
}

/// Adds what a data byte says, to a printer or to another device.
fn push_data(text: &mut Vec<u8>, printer: bool, byte: u8) -> Result<(), NoMemory>
    ensures { OnOk result (text.new.items ≡ text.old.items ++ data_text printer byte) }
{
    if byte == b'\'' {
        return text.extend_from_slice(b"\"'\"");
    }
    if 31 < byte && byte < 127 {
        return text.extend_from_slice(&[b'\'', byte, b'\'']);
    }
    let name = name_if(printer, byte);
    if name.is_empty() {
        push_numbered(text, b"byte ", byte as u64)
    } else {
        text.extend_from_slice(name)
    }
}

/// Adds what a frame says, a data byte to a printer or to another device.
fn push_saying(
    text: &mut Vec<u8>,
    printer: bool,
    sending: ByteRole,
    byte: u8,
) -> Result<(), NoMemory>
    ensures { OnOk result (text.new.items ≡ text.old.items ++ saying printer sending byte) }
{
    match sending {
        ByteRole::First | ByteRole::Second => push_command(text, byte),
        ByteRole::Data => push_data(text, printer, byte),
    }
}

/// The end of a frame's line.
fn line_end(eoi: bool) -> &'static [u8]
    ensures { result.now ≡ line_end eoi }
{
    if eoi { b", end-or-identify\n" } else { b"\n" }
}

/// The line before a frame that begins an attention, or data bytes.
fn heading(behind_data: bool, sending: ByteRole) -> &'static [u8]
    ensures { result.now ≡ heading behind_data sending }
{
    match (sending, behind_data) {
        (ByteRole::First, _) => b"attention\n",
        (ByteRole::Data, false) => b"data\n",
        (ByteRole::Data, true) => b"",
        (ByteRole::Second, _) => b"",
    }
}

/// Returns whether a frame is a data byte. It takes no memory.
pub fn is_data(sending: ByteRole) -> bool
    ensures { result ≡ is_data sending }
{
    match sending {
        ByteRole::First | ByteRole::Second => false,
        ByteRole::Data => true,
    }
}

/// Adds a frame's line: its moments, its byte in hexadecimal and what it says, a data byte to a printer or to
/// another device.
#[tactic(auto, unfolding(crate::specs::StoryText::frame_line))]
pub(crate) fn push_frame(
    text: &mut Vec<u8>,
    printer: bool,
    frame: TimedFrame,
) -> Result<(), NoMemory>
    ensures { OnOk result (text.new.items ≡ text.old.items ++ frame_line printer frame) }
{
    push_moment(text, frame.look)?;
    text.extend_from_slice(b" ")?;
    push_moment(text, frame.acknowledged)?;
    push_hex(text, frame.byte)?;
    push_saying(text, printer, frame.sending, frame.byte)?;
    text.extend_from_slice(line_end(frame.eoi))
}

/// Adds a frame's line of the story to a text: the moments of its look and of its acknowledgement
/// in microseconds, its byte in hexadecimal, what it says, and end-or-identify. `behind_data` is
/// whether the frame before it is a data byte. A line `attention` comes before each attention, and
/// a line `data` before a data byte that follows no data byte.
///
/// # Errors
///
/// [`NoMemory`] where a growth of the text was refused. Nothing is promised of the text then.
#[tactic(auto, unfolding(crate::specs::StoryText::story_line))]
pub fn push_story_line(
    text: &mut Vec<u8>,
    behind_data: bool,
    frame: TimedFrame,
) -> Result<(), NoMemory>
    ensures { OnOk result (text.new.items ≡ text.old.items ++ story_line behind_data frame) }
{
    text.extend_from_slice(heading(behind_data, frame.sending))?;
    push_frame(text, true, frame)
}
