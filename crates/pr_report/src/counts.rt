//! How many readings of each kind there are.

ghost use Rattle.std.specs.Prelude.{◌≡◌, ◌+◌, ◌^◌, ◌<◌, ◌++◌, ◌∷◌, [], List, length, OnOk};
ghost use Rattle.pr_decode.specs.declared.reading.Reading.{Reading};
ghost use Rattle.pr_report.specs.Steps.{counted};
ghost use Rattle.pr_report.specs.Summary.{counts_text, is_command, is_data_byte, is_frame, is_incomplete, is_unacknowledged};
ghost use Rattle.pr_report.specs.Taking.{HasCounted};

use crate::numbers::push_numbered;
use pr_decode::{FrameEnd, Reading};
use pr_wire::NoMemory;

/// A count, with one more where a test holds. It stays at its greatest.
pub(crate) fn counted(count: u64, test: bool) -> u64
    ensures { result ≡ counted test count }
{
    count.saturating_add(if test { 1 } else { 0 })
}

/// Whether a reading is a whole byte.
fn is_frame(reading: &Reading) -> bool
    ensures { result ≡ is_frame reading.now }
{
    match reading {
        Reading::Frame(_, _) => true,
        Reading::IncompleteByte(_, _) => false,
    }
}

/// Whether a reading is a command.
fn is_command(reading: &Reading) -> bool
    ensures { result ≡ is_command reading.now }
{
    match reading {
        Reading::Frame(transfer, _) => transfer.opening.command,
        Reading::IncompleteByte(_, _) => false,
    }
}

/// Whether a reading is a data byte.
fn is_data_byte(reading: &Reading) -> bool
    ensures { result ≡ is_data_byte reading.now }
{
    match reading {
        Reading::Frame(transfer, _) => !transfer.opening.command,
        Reading::IncompleteByte(_, _) => false,
    }
}

/// Whether a reading is a whole byte that is not acknowledged.
fn is_unacknowledged(reading: &Reading) -> bool
    ensures { result ≡ is_unacknowledged reading.now }
{
    match reading {
        Reading::Frame(_, FrameEnd::Acknowledged(_)) => false,
        Reading::Frame(_, FrameEnd::Unacknowledged(_)) => true,
        Reading::Frame(_, FrameEnd::Cut) => false,
        Reading::IncompleteByte(_, _) => false,
    }
}

/// Whether a reading is a byte begun and not ended.
fn is_incomplete(reading: &Reading) -> bool
    ensures { result ≡ is_incomplete reading.now }
{
    match reading {
        Reading::Frame(_, _) => false,
        Reading::IncompleteByte(_, _) => true,
    }
}

/// How many readings of each kind there are.
#[derive(Clone, Copy)]
pub(crate) struct Counts {
    frames: u64,
    commands: u64,
    data_bytes: u64,
    unacknowledged: u64,
    incomplete: u64,
}

impl Counts {
    /// No reading.
    pub fn new() -> Counts
        ensures { HasCounted [] result }
    {
        Counts {
            frames: 0,
            commands: 0,
            data_bytes: 0,
            unacknowledged: 0,
            incomplete: 0,
        }
    }

    /// With one reading more.
    pub fn with(self, reading: &Reading) -> Counts
        ensures { (readings : List Reading) → length readings + 1 < 2 ^ 64 → HasCounted readings self →
            HasCounted (readings ++ reading.now ∷ []) result }
    {
        let frames = counted(self.frames, is_frame(reading));
        let commands = counted(self.commands, is_command(reading));
        let data_bytes = counted(self.data_bytes, is_data_byte(reading));
        let unacknowledged = counted(self.unacknowledged, is_unacknowledged(reading));
        let incomplete = counted(self.incomplete, is_incomplete(reading));
        Counts {
            frames,
            commands,
            data_bytes,
            unacknowledged,
            incomplete,
        }
    }

    /// Adds the three lines of the counts.
    pub fn push_lines(self, text: &mut Vec<u8>) -> Result<(), NoMemory>
        ensures { OnOk result (text.new.items ≡ text.old.items
            ++ counts_text self.frames self.commands self.data_bytes self.unacknowledged self.incomplete) }
    {
        push_numbered(text, b"frames: ", self.frames)?;
        push_numbered(text, b", commands: ", self.commands)?;
        push_numbered(text, b", data bytes: ", self.data_bytes)?;
        push_numbered(text, b"\nnot acknowledged: ", self.unacknowledged)?;
        push_numbered(text, b"\nglitches: ", self.incomplete)?;
        text.extend_from_slice(b"\n")?;
        Ok(())
    }
}
