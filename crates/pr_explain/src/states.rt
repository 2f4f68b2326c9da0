//! The states of the table of lawful traces, and the edges that may follow there, in words.

use crate::rows::Row;
use crate::texts::{Digits, Moment};
use pr_wire::{BusState, ByteRole, NoMemory};
use std::fmt;

/// The greatest time, in microseconds, and the end of a line about it.
pub const LAST_TIME: &str = "18446744073709551615, the greatest possible time";

/// What is sent.
fn name_of(role: ByteRole) -> &'static str {
    match role {
        ByteRole::First => "the first command",
        ByteRole::Second => "the second command",
        ByteRole::Data => "a data byte",
    }
}

/// A state in words, without the time since which it lasts.
#[derive(Clone, Copy)]
struct InWords<'a>(&'a BusState);

impl fmt::Display for InWords<'_> {
    fn fmt<W: fmt::Write>(&self, f: &mut fmt::Formatter<W>) -> fmt::Result {
        match self.0 {
            BusState::Idle(_) => write!(f, "idle, all lines released"),
            BusState::Call(_, false) => write!(f, "attention, no printer has answered yet"),
            BusState::Call(_, true) => write!(f, "attention, a printer has answered"),
            BusState::Ready(_, role) => {
                write!(f, "the talker is ready to send {}", name_of(*role))
            }
            BusState::Free(_, role) => write!(f, "the listeners are ready for {}", name_of(*role)),
            BusState::Pulse(_, _) => write!(f, "a listener is acknowledging end-or-identify"),
            BusState::After(_) => write!(f, "a listener has acknowledged end-or-identify"),
            BusState::Bit { sending, seen, .. } => {
                write!(
                    f,
                    "bit {} of {}, CLOCK pulled",
                    seen.len(),
                    name_of(*sending)
                )
            }
            BusState::High { sending, seen, .. } => {
                write!(
                    f,
                    "bit {} of {}, CLOCK released",
                    seen.len(),
                    name_of(*sending)
                )
            }
            BusState::Last(_, role, _, _) => {
                write!(
                    f,
                    "all bits of {} sent, not acknowledged yet",
                    name_of(*role)
                )
            }
            BusState::Ack(_, role, _) => {
                write!(f, "a listener has acknowledged {}", name_of(*role))
            }
            BusState::Freed { unlistened, .. } => {
                write!(
                    f,
                    "the attention has ended{}",
                    if *unlistened { " with UNLISTEN" } else { "" }
                )
            }
        }
    }
}

/// Since when a state lasts.
fn since(state: &BusState) -> u64 {
    match state {
        BusState::Idle(since)
        | BusState::Call(since, _)
        | BusState::Ready(since, _)
        | BusState::Free(since, _)
        | BusState::Pulse(since, _)
        | BusState::After(since)
        | BusState::Bit { since, .. }
        | BusState::High { since, .. }
        | BusState::Last(since, _, _, _)
        | BusState::Ack(since, _, _)
        | BusState::Freed { since, .. } => *since,
    }
}

/// Adds a line for a state.
pub fn push_state(text: &mut String, state: &BusState, start: u64) -> Result<(), NoMemory> {
    let time = since(state);
    write!(
        text,
        "  bus state since {}: {}\n",
        Moment { time, start },
        InWords(state)
    )
}

/// Adds a line for each edge that may follow.
pub fn push_rows(text: &mut String, rows: &[Option<Row>], start: u64) -> Result<(), NoMemory> {
    let mut may_follow = false;
    for row in rows {
        if let Some(row) = row {
            write!(text, "  {} ", if may_follow { "or" } else { "expected" })?;
            push_row(text, *row, start)?;
            may_follow = true;
        }
    }
    if may_follow {
        return Ok(());
    }
    write!(
        text,
        "  no edge can follow: its time would be greater than {LAST_TIME}\n"
    )
}

/// Adds an edge that may follow, and ends the line.
fn push_row(text: &mut String, row: Row, start: u64) -> Result<(), NoMemory> {
    let levels = Digits(row.levels);
    let earliest = Moment {
        time: row.earliest,
        start,
    };
    match row.latest {
        None => write!(text, "{levels} at {earliest} or later\n"),
        Some(time) if time == row.earliest => write!(text, "{levels} at {earliest}\n"),
        Some(time) => {
            let latest = Moment { time, start };
            write!(text, "{levels} from {earliest} to {latest}\n")
        }
    }
}
