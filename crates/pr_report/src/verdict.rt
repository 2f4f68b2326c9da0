//! The verdict on a recording, in a line.

ghost use Rattle.std.specs.Prelude.{◌≡◌, ◌++◌, ◌∷◌, [], find, OnOk};
ghost use Rattle.std.specs.Option.{option_or};
ghost use Rattle.pr_report.specs.Verdict.{damage_end, damage_words, difference_words, edge_words, is_damaged, timing_words, truncated_words, verdict_line};

use crate::detail::Bounds;
use crate::numbers::push_numbered;
use crate::outside::{Outside, push_guide_words, push_reading_place};
use pr_decode::{FrameEnd, Reading};
use pr_wire::{NoMemory, WaveFault};

/// Whether a reading is damaged: an incomplete byte, or one that the recording's end cuts.
fn is_damaged(reading: &Reading) -> bool
    ensures { result ≡ is_damaged reading.now }
{
    match reading {
        Reading::Frame(_, FrameEnd::Cut) | Reading::IncompleteByte(_, _) => true,
        Reading::Frame(_, _) => false,
    }
}

/// The first damaged reading, with one reading more.
pub(crate) fn with_damage(before: Option<Reading>, reading: &Reading) -> Option<Reading>
    ensures { result ≡ option_or before (find is_damaged (reading.now ∷ [])) }
{
    match before {
        Some(damaged) => Some(damaged),
        None => {
            if is_damaged(reading) {
                Some(*reading)
            } else {
                None
            }
        }
    }
}

/// The words behind a damaged reading.
fn damage_end(reading: &Reading) -> &'static [u8]
    ensures { result.now ≡ damage_end reading.now }
{
    match reading {
        Reading::Frame(_, _) => b", cut by the recording's end; ",
        Reading::IncompleteByte(_, _) => b"; ",
    }
}

/// Adds the words for damage, if there is one.
fn push_damage(text: &mut Vec<u8>, damaged: Option<Reading>) -> Result<(), NoMemory>
    ensures { OnOk result (text.new.items ≡ text.old.items ++ damage_words damaged) }
{
    let Some(reading) = damaged else {
        return Ok(());
    };
    text.extend_from_slice(b"damaged: ")?;
    push_reading_place(text, reading)?;
    text.extend_from_slice(damage_end(&reading))
}

/// Adds at which edge a recording differs from this project's timing, and why.
fn push_edge(text: &mut Vec<u8>, edge: usize, reason: &[u8]) -> Result<(), NoMemory>
    ensures { OnOk result (text.new.items ≡ text.old.items ++ edge_words edge reason.now) }
{
    push_numbered(
        text,
        b"differs from this project's timing at edge ",
        edge as u64,
    )?;
    text.extend_from_slice(reason)?;
    Ok(())
}

/// Adds at which edge a recording ends too early.
fn push_truncated(text: &mut Vec<u8>, edge: usize) -> Result<(), NoMemory>
    ensures { OnOk result (text.new.items ≡ text.old.items ++ truncated_words edge) }
{
    push_numbered(
        text,
        b"this project's timing, truncated at edge ",
        edge as u64,
    )?;
    text.extend_from_slice(b"; ")?;
    Ok(())
}

/// Adds the words for the first fault of edges.
fn push_difference(text: &mut Vec<u8>, fault: WaveFault) -> Result<(), NoMemory>
    ensures { OnOk result (text.new.items ≡ text.old.items ++ difference_words fault) }
{
    match fault {
        WaveFault::Start(edge) => push_edge(text, edge, b": bad start; "),
        WaveFault::Order(edge) => push_edge(text, edge, b": bad order; "),
        WaveFault::TooEarly(edge) => push_edge(text, edge, b": too early; "),
        WaveFault::TooLate(edge) => push_edge(text, edge, b": too late; "),
        WaveFault::Shape(edge) => push_edge(text, edge, b": bad shape; "),
        WaveFault::Truncated(edge) => push_truncated(text, edge),
        WaveFault::NoMemory => text.extend_from_slice(b"out of memory; "),
    }
}

/// Adds how a recording compares with these bounds.
fn push_timing(
    text: &mut Vec<u8>,
    bounds: Bounds,
    fault: Option<WaveFault>,
    count: u64,
    outside: Option<Outside>,
) -> Result<(), NoMemory>
    ensures { OnOk result (text.new.items ≡ text.old.items ++ timing_words bounds fault count outside) }
{
    match (bounds, fault) {
        (Bounds::Guide, _) => push_guide_words(text, count, outside),
        (Bounds::Profile, None) => text.extend_from_slice(b"this project's timing\n"),
        (Bounds::Profile, Some(fault)) => {
            push_difference(text, fault)?;
            push_guide_words(text, count, outside)
        }
    }
}

/// Adds the line of the verdict by these bounds, by the first fault of the edges, the first damaged reading, how many
/// readings there are, and the first interval outside the guide's bounds.
///
/// # Errors
///
/// [`NoMemory`] where a growth of the text was refused. Nothing is promised of the text then.
pub(crate) fn push_verdict(
    text: &mut Vec<u8>,
    bounds: Bounds,
    fault: Option<WaveFault>,
    damaged: Option<Reading>,
    count: u64,
    outside: Option<Outside>,
) -> Result<(), NoMemory>
    ensures { OnOk result (text.new.items ≡ text.old.items ++ verdict_line bounds fault damaged count outside) }
{
    text.extend_from_slice(b"verdict: ")?;
    push_damage(text, damaged)?;
    push_timing(text, bounds, fault, count, outside)
}
