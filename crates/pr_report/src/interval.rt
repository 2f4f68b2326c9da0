//! The intervals of a byte on the bus, each with its name and its bounds: those of a delay of the profile, and
//! those of the Programmer's Reference Guide's table of serial bus timing. All are in microseconds.

ghost use Rattle.std.specs.Prelude.{◌≡◌, ◌-◌, ◌++◌, OnOk};
ghost use Rattle.std.specs.Option.{option_map};
ghost use Rattle.pr_report.specs.Intervals.{acknowledgement_in, bounds_after, highest_of, if_bits, is_above, is_beyond, is_outside, length_of, longest_answer, lowest_of, measure, name_of, owner_words, profile_greatest, row_of, transfer_of, unless_answered, upper_text};

use crate::detail::Bounds;
use crate::numbers::push_numbered;
use pr_decode::{FrameEnd, Reading, Transfer};
use pr_wire::{Kind, NoMemory};

/// An interval of a byte on the bus. [`Interval::row`] is the table of their names and bounds.
#[derive(Clone, Copy, Debug)]
pub enum Interval {
    /// The look to all listeners ready: CLOCK released to DATA released.
    Ready,
    /// Ready to CLOCK's first pull, without end-or-identify.
    FirstPull,
    /// Ready to DATA's pull, the answer to end-or-identify.
    Answer,
    /// The length of the answer. A reading does not say how many listeners answer, and the pulls of two
    /// join: the profile's bounds allow for two.
    AnswerLength,
    /// The end of the answer to CLOCK's first pull.
    PullAfterAnswer,
    /// CLOCK pulled in a bit: the shortest of the byte.
    ShortestLow,
    /// CLOCK pulled in a bit: the longest of the byte.
    LongestLow,
    /// CLOCK released in a bit: the shortest of the byte.
    ShortestHigh,
    /// CLOCK released in a bit: the longest of the byte.
    LongestHigh,
    /// CLOCK's last pull to DATA's pull, the acknowledgement.
    Acknowledgement,
}

/// All intervals, in the order of their lines.
pub const INTERVALS: [Interval; 10] = [
    Interval::Ready,
    Interval::FirstPull,
    Interval::Answer,
    Interval::AnswerLength,
    Interval::PullAfterAnswer,
    Interval::ShortestLow,
    Interval::LongestLow,
    Interval::ShortestHigh,
    Interval::LongestHigh,
    Interval::Acknowledgement,
];

/// A row of the table of intervals.
#[derive(Clone, Copy)]
struct Row {
    /// The name, in plain words.
    name: &'static [u8],
    /// The delay of the profile that bounds it.
    kind: Kind,
    /// The guide's bounds: the least length, and the greatest where its table has one.
    guide: (u64, Option<u64>),
}

impl Row {
    fn new(name: &'static [u8], kind: Kind, least: u64, greatest: Option<u64>) -> Row
        ensures name { result.name.now ≡ name.now }
        ensures kind { result.kind ≡ kind }
        ensures guide { result.guide ≡ (least, greatest) }
    {
        Row {
            name,
            kind,
            guide: (least, greatest),
        }
    }
}

/// How long DATA is pulled at most in answer to end-or-identify: two listeners pull it as one, of which the
/// first begins as early as the profile has it, and the second ends as late.
pub fn longest_answer() -> u64
    ensures { result ≡ longest_answer }
{
    let (earliest, _, latest) = pr_wire::bounds(Kind::Ye);
    let (_, _, greatest) = pr_wire::bounds(Kind::Ei);
    latest as u64 + greatest as u64 - earliest as u64
}

/// The byte of a reading, as far as it came.
pub fn transfer_of(reading: &Reading) -> Transfer
    ensures { result ≡ transfer_of reading.now }
{
    match reading {
        Reading::Frame(transfer, _) => *transfer,
        Reading::IncompleteByte(transfer, _) => *transfer,
    }
}

/// CLOCK's last pull to the acknowledgement, where a reading has one.
fn acknowledgement(reading: &Reading) -> Option<u64>
    ensures { result ≡ acknowledgement_in reading.now }
{
    match reading {
        Reading::Frame(transfer, FrameEnd::Acknowledged(time)) => {
            Some(time.saturating_sub(transfer.last_pull))
        }
        _ => None,
    }
}

/// A half of a byte's bits, once a bit has come.
fn if_bits(bits: u8, half: u64) -> Option<u64>
    ensures { result ≡ if_bits bits half }
{
    if bits == 0 { None } else { Some(half) }
}

/// Ready to CLOCK's first pull, without end-or-identify.
fn first_pull(byte: Transfer) -> Option<u64>
    ensures { result ≡ unless_answered byte.opening.pulse (byte.pull - byte.opening.ready_for_data) }
{
    match byte.opening.pulse {
        None => Some(byte.pull.saturating_sub(byte.opening.ready_for_data)),
        Some(_) => None,
    }
}

/// Ready to DATA's pull, with end-or-identify.
fn answer(byte: Transfer) -> Option<u64>
    ensures { result ≡ option_map (λ p. p.pulled - byte.opening.ready_for_data) byte.opening.pulse }
{
    match byte.opening.pulse {
        None => None,
        Some(pulse) => Some(pulse.pulled.saturating_sub(byte.opening.ready_for_data)),
    }
}

/// How long DATA is pulled, with end-or-identify.
fn answer_length(byte: Transfer) -> Option<u64>
    ensures { result ≡ option_map (λ p. p.released - p.pulled) byte.opening.pulse }
{
    match byte.opening.pulse {
        None => None,
        Some(pulse) => Some(pulse.released.saturating_sub(pulse.pulled)),
    }
}

/// DATA's release to CLOCK's first pull, with end-or-identify.
fn pull_after_answer(byte: Transfer) -> Option<u64>
    ensures { result ≡ option_map (λ p. byte.pull - p.released) byte.opening.pulse }
{
    match byte.opening.pulse {
        None => None,
        Some(pulse) => Some(byte.pull.saturating_sub(pulse.released)),
    }
}

/// Whether a length is above a greatest one, where there is one.
fn is_above(length: u64, greatest: Option<u64>) -> bool
    ensures { result ≡ is_above length greatest }
{
    match greatest {
        None => false,
        Some(greatest) => length > greatest,
    }
}

/// Whether a length is below a least one, or above a greatest one.
pub(crate) fn is_beyond(length: u64, lowest: u64, highest: Option<u64>) -> bool
    ensures { result ≡ is_beyond length lowest highest }
{
    length < lowest || is_above(length, highest)
}

/// Adds the greatest length, or that there is none.
fn push_upper(text: &mut Vec<u8>, greatest: Option<u64>) -> Result<(), NoMemory>
    ensures { OnOk result (text.new.items ≡ text.old.items ++ upper_text greatest) }
{
    match greatest {
        None => text.extend_from_slice(b" or more"),
        Some(greatest) => push_numbered(text, b" to ", greatest),
    }
}

/// The words before bounds that say whose they are.
fn owner_words(bounds: Bounds) -> &'static [u8]
    ensures { result.now ≡ owner_words bounds }
{
    match bounds {
        Bounds::Profile => b" us, the profile has ",
        Bounds::Guide => b" us, the guide has ",
    }
}

impl Interval {
    /// Its row in the table. The guide's names are Th, Tne, Tye, Tei, Try, Ts, Tv and Tf; a least length that its
    /// table leaves out is 1.
    fn row(self) -> Row
        ensures name { result.name.now ≡ (row_of self).0 }
        ensures kind { result.kind ≡ (row_of self).1 }
        ensures least { result.guide.0 ≡ (row_of self).2 }
        ensures greatest { result.guide.1 ≡ (row_of self).3 }
    {
        match self {
            Interval::Ready => Row::new(b"ready", Kind::H, 0, None),
            Interval::FirstPull => Row::new(b"first pull", Kind::Ne, 1, Some(200)),
            Interval::Answer => Row::new(b"answer", Kind::Ye, 200, None),
            Interval::AnswerLength => Row::new(b"answer length", Kind::Ei, 60, None),
            Interval::PullAfterAnswer => Row::new(b"pull after answer", Kind::Ry, 0, Some(60)),
            Interval::ShortestLow => Row::new(b"shortest low half", Kind::S, 20, None),
            Interval::LongestLow => Row::new(b"longest low half", Kind::S, 20, None),
            Interval::ShortestHigh => Row::new(b"shortest high half", Kind::V, 20, None),
            Interval::LongestHigh => Row::new(b"longest high half", Kind::V, 20, None),
            Interval::Acknowledgement => Row::new(b"acknowledgement", Kind::F, 0, Some(1000)),
        }
    }

    /// Its name, in plain words.
    pub fn name(self) -> &'static [u8]
        ensures { result.now ≡ name_of self }
    {
        self.row().name
    }

    /// Its greatest length by the profile, in microseconds: that of the delay that bounds it, but for the
    /// length of an answer that of two listeners' answers, since these join.
    pub fn profile_greatest(self) -> u64
        ensures { result ≡ profile_greatest self }
    {
        let (_, _, greatest) = pr_wire::bounds(self.row().kind);
        match self {
            Interval::AnswerLength => longest_answer(),
            _ => greatest as u64,
        }
    }

    /// Its least length, in microseconds.
    pub fn lowest(self, bounds: Bounds) -> u64
        ensures { result ≡ lowest_of bounds self }
    {
        match bounds {
            Bounds::Profile => {
                let (least, _, _) = pr_wire::bounds(self.row().kind);
                least as u64
            }
            Bounds::Guide => self.row().guide.0,
        }
    }

    /// Its greatest length, in microseconds. None where it may be as long as it likes.
    pub fn highest(self, bounds: Bounds) -> Option<u64>
        ensures { result ≡ highest_of bounds self }
    {
        match bounds {
            Bounds::Profile => Some(self.profile_greatest()),
            Bounds::Guide => self.row().guide.1,
        }
    }

    /// Adds a word, and after it these bounds.
    pub(crate) fn push_bounds(
        self,
        text: &mut Vec<u8>,
        word: &[u8],
        bounds: Bounds,
    ) -> Result<(), NoMemory>
        ensures { OnOk result (text.new.items ≡ text.old.items ++ bounds_after word.now bounds self) }
    {
        push_numbered(text, word, self.lowest(bounds))?;
        push_upper(text, self.highest(bounds))
    }

    /// Adds the end of a line: the name, a length in microseconds, and these bounds.
    pub(crate) fn push_measure(
        self,
        text: &mut Vec<u8>,
        bounds: Bounds,
        length: u64,
    ) -> Result<(), NoMemory>
        ensures { OnOk result (text.new.items ≡ text.old.items ++ measure bounds self length) }
    {
        text.extend_from_slice(self.name())?;
        push_numbered(text, b" ", length)?;
        self.push_bounds(text, owner_words(bounds), bounds)?;
        text.extend_from_slice(b"\n")?;
        Ok(())
    }

    /// Whether a length in microseconds lies outside these bounds.
    pub fn is_outside(self, bounds: Bounds, length: u64) -> bool
        ensures { result ≡ is_outside bounds self length }
    {
        is_beyond(length, self.lowest(bounds), self.highest(bounds))
    }

    /// How long it is in a reading, in microseconds, where the reading has it. Halves are there once a
    /// bit has come, the acknowledgement where the byte has one. Where times go back, it is 0.
    pub fn length(self, reading: &Reading) -> Option<u64>
        ensures { result ≡ length_of self reading.now }
    {
        let byte = transfer_of(reading);
        match self {
            Interval::Ready => Some(
                byte.opening
                    .ready_for_data
                    .saturating_sub(byte.opening.ready_to_send),
            ),
            Interval::FirstPull => first_pull(byte),
            Interval::Answer => answer(byte),
            Interval::AnswerLength => answer_length(byte),
            Interval::PullAfterAnswer => pull_after_answer(byte),
            Interval::ShortestLow => if_bits(byte.bits, byte.low.shortest),
            Interval::LongestLow => if_bits(byte.bits, byte.low.longest),
            Interval::ShortestHigh => if_bits(byte.bits, byte.high.shortest),
            Interval::LongestHigh => if_bits(byte.bits, byte.high.longest),
            Interval::Acknowledgement => acknowledgement(reading),
        }
    }
}
