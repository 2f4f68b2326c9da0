//! The edges of a recording, one after the other, up to where time goes back.

ghost use Rattle.std.specs.Prelude.{◌≡◌, ◌+◌, ◌^◌, ◌<◌, ◌≤◌, ◌++◌, ◌∷◌, ◌||◌, [], List, None, ℕ, drop, false, length, take, IfOk, OnOk};
ghost use Rattle.pr_wire.specs.declared.Edge.{Edge};
ghost use Rattle.pr_decode.specs.declared.reading.Reading.{Reading};
ghost use Rattle.pr_decode.specs.Taking.{AreInOrder, HasReadings, last_time, time_behind};
ghost use Rattle.pr_report.specs.Oddities.{is_acknowledged};
ghost use Rattle.pr_recording.specs.Decoded.{stop_at};
ghost use Rattle.pr_recording.specs.Taped.{BeginsBack, CutsLast, EndsTape, HasTaped, ReadsMore, TapesMore, edges_taped};

use pr_decode::{Decoder, GoesBack, Reading, readings_add_up};
use pr_jobs::CliFault;
use pr_report::{LinesSeen, Oddities, is_acknowledged};
use pr_wire::{Edge, WaveFault};
use std::alloc::AllocError;

/// Takes what a recording says, reading by reading.
pub trait Takes {
    /// With these readings more, the first state becomes the second.
    ghost takes: { List Reading → Self → Self → Type 0 };

    /// This many readings may still come.
    ghost may_take: { ℕ → Self → Type 0 };

    /// Takes the next reading.
    ///
    /// # Errors
    ///
    /// `AllocError` where memory was refused. Nothing is said of what was taken then.
    fn take_reading(&mut self, reading: &Reading) -> Result<(), AllocError>
        requires room { may_take 1 self.old }
        ensures taken { OnOk result (takes (reading.now ∷ []) self.old self.new) }
        ensures room { OnOk result ((n : ℕ) → may_take (1 + n) self.old → may_take n self.new) };

    /// With no reading more, nothing changes.
    ghost takes_none: { (s : Self) → takes [] s s };

    /// Readings may come in two parts.
    ghost takes_both: { (xs ys : List Reading) (a b c : Self) → takes xs a b → takes ys b c → takes (xs ++ ys) a c };

    /// Where more readings may come, fewer may.
    ghost takes_fewer: { (k n : ℕ) (s : Self) → may_take (k + n) s → may_take n s };
}

/// Why a recording is read no further: time goes back at one of its edges, or else its input has a fault.
pub fn stop_at(back: Option<usize>, own: Option<CliFault>) -> Option<CliFault>
    ensures { result ≡ stop_at back own }
{
    match back {
        Some(index) => Some(CliFault::Wave(WaveFault::Order(index))),
        None => own,
    }
}

/// Whether an acknowledged byte has come, with one reading more.
fn with_byte(before: bool, reading: &Reading) -> bool
    ensures { result ≡ (before || is_acknowledged reading.now) }
{
    before || is_acknowledged(reading)
}

/// Takes the edges in front that are whole bits of the byte that has begun, as [`Decoder::take_bits`]: none where the
/// first of them does not release CLOCK, with which a bit begins.
#[inline(always)]
fn take_bits(decoder: &mut Decoder, edges: &[Edge]) -> usize
    requires some { 0 < length edges.now }
    ensures read { (before : List Edge) (given : List Reading) → HasReadings before given decoder.old →
        HasReadings (before ++ take result edges.now) given decoder.new }
    ensures order { AreInOrder (last_time decoder.old) (take result edges.now) }
    ensures last { last_time decoder.new ≡ time_behind (last_time decoder.old) (take result edges.now) }
    ensures within { result ≤ length edges.now }
    ensures none { result ≡ 0 → decoder.new ≡ decoder.old }
{
    if edges[0].levels.clock {
        decoder.take_bits(edges)
    } else {
        0
    }
}

/// Where a tape is read.
#[derive(Drop)]
pub struct Head {
    decoder: Decoder,
    /// Some reading is an acknowledged byte.
    has_byte: bool,
}

impl Head {
    /// A head that has read no edge. It takes no memory.
    pub fn new() -> Head
        ensures read { HasReadings [] [] result.decoder }
        ensures last { last_time result.decoder ≡ None }
        ensures byte { result.has_byte ≡ false }
    {
        Head {
            decoder: Decoder::new(),
            has_byte: false,
        }
    }

    /// Reads edges from the front of some: whole bits of a byte, or else the next edge. Gives how many they are: none
    /// where time goes back at the next one.
    #[inline(always)]
    fn read_front<T: Takes>(&mut self, edges: &[Edge], taker: &mut T) -> Result<usize, AllocError>
        // the caller's part
        requires some { 0 < length edges.now }
        requires room { T.may_take 1 taker.old }
        // what is read
        ensures read { IfOk result (λ len. ReadsMore T.takes (take len edges.now) self.old self.new taker.old taker.new) }
        ensures within { IfOk result (λ len. len ≤ length edges.now) }
        ensures back { IfOk result (λ len. len ≡ 0 → BeginsBack edges.now self.new) }
        ensures room { IfOk result (λ len. (n : ℕ) → T.may_take (len + n) taker.old → T.may_take n taker.new) }
    {
        let bits = take_bits(&mut self.decoder, edges);
        if bits > 0 {
            return Ok(bits);
        }
        match self.decoder.take(edges[0]) {
            Ok(None) => Ok(1),
            Ok(Some(reading)) => {
                self.has_byte = with_byte(self.has_byte, &reading);
                taker.take_reading(&reading)?;
                Ok(1)
            }
            Err(GoesBack) => Ok(0),
        }
    }

    /// Reads edges, up to one at which time goes back. Gives how many.
    pub fn read_all<T: Takes>(&mut self, edges: &[Edge], taker: &mut T) -> Result<usize, AllocError>
        requires room { T.may_take (length edges.now) taker.old }
        // what is read
        ensures read { IfOk result (λ len. ReadsMore T.takes (take len edges.now) self.old self.new taker.old taker.new) }
        ensures within { IfOk result (λ len. len ≤ length edges.now) }
        ensures back { IfOk result (λ len. len < length edges.now → BeginsBack (drop len edges.now) self.new) }
        ensures room { IfOk result (λ len. (n : ℕ) → T.may_take (len + n) taker.old → T.may_take n taker.new) }
    {
        let mut len = 0;
        while len < edges.len() {
            let more = self.read_front(&edges[len..], taker)?;
            if more == 0 {
                return Ok(len);
            }
            len += more;
        }
        Ok(len)
    }

    /// Ends the edges, and hands on the reading that the end cuts, if there is one. Gives whether some reading is an
    /// acknowledged byte.
    pub fn finish<T: Takes>(self, taker: &mut T) -> Result<bool, AllocError>
        requires room { T.may_take 1 taker.old }
        ensures { IfOk result (λ has_byte. CutsLast T.takes self taker.old taker.new has_byte) }
    {
        match self.decoder.finish() {
            Some(cut) => {
                taker.take_reading(&cut)?;
                Ok(with_byte(self.has_byte, &cut))
            }
            None => Ok(self.has_byte),
        }
    }
}

/// How a recording ends.
#[derive(Drop)]
pub struct TapeEnd {
    /// What is odd about a recording that nothing stops.
    pub odd: Oddities,
    /// The fault after which nothing is read.
    pub stop: Option<CliFault>,
}

/// Reads the edges of a recording, up to where time goes back, and hands on what they say.
#[derive(Drop)]
pub struct Tape {
    head: Head,
    /// What the edges taken say of the lines.
    lines: LinesSeen,
    /// How many edges were taken, those after time has gone back not counted.
    taken: usize,
    /// The index of the edge at which time goes back.
    back: Option<usize>,
}

impl Tape {
    /// A tape of which no edge has come. It takes no memory.
    pub fn new() -> Tape
        ensures taped { HasTaped [] [] result }
        ensures edges { edges_taped result ≡ 0 }
    {
        Tape {
            head: Head::new(),
            lines: LinesSeen::new(),
            taken: 0,
            back: None,
        }
    }

    /// Takes the next edges, in order, and hands on the readings that they settle. After an edge at which time goes
    /// back it takes none.
    ///
    /// # Errors
    ///
    /// `AllocError` where a reading was refused. Nothing is said of the tape then.
    pub fn take_all<T: Takes>(&mut self, edges: &[Edge], taker: &mut T) -> Result<(), AllocError>
        requires few { edges_taped self.old + length edges.now < 2 ^ 64 }
        requires room { T.may_take (length edges.now) taker.old }
        ensures taped { OnOk result (TapesMore T.takes edges.now self.old self.new taker.old taker.new) }
        ensures edges { OnOk result (edges_taped self.new ≤ edges_taped self.old + length edges.now) }
        ensures room { OnOk result ((n : ℕ) → T.may_take (length edges.now + n) taker.old → T.may_take n taker.new) }
    {
        if self.back.is_some() {
            return Ok(());
        }
        let len = self.head.read_all(edges, taker)?;
        self.lines.take_all(&edges[..len]);
        self.taken += len;
        if len == edges.len() {
            return Ok(());
        }
        self.back = Some(self.taken);
        Ok(())
    }

    /// Ends the edges of an input with this fault, if it has one. Where nothing stops them, what the end cuts is
    /// handed on too.
    ///
    /// # Errors
    ///
    /// `AllocError` where a reading was refused.
    pub fn finish<T: Takes>(
        self,
        own: Option<CliFault>,
        taker: &mut T,
    ) -> Result<TapeEnd, AllocError>
        requires room { T.may_take 1 taker.old }
        ensures { IfOk result (λ end. EndsTape T.takes own self taker.old taker.new end) }
    {
        readings_add_up();
        let stop = stop_at(self.back, own);
        if stop.is_some() {
            let odd = self.lines.oddities(self.head.has_byte);
            return Ok(TapeEnd { odd, stop });
        }
        let has_byte = self.head.finish(taker)?;
        let odd = self.lines.oddities(has_byte);
        Ok(TapeEnd { odd, stop: None })
    }
}
