//! What is known of a dump after some of its pieces.

ghost use Rattle.std.specs.Prelude.{◌≡◌, ℕ, List, IfErr, IfOk, IsOk, OnOk, Err, Ok};
ghost use Rattle.pr_capture.specs.Csv.{field_at};
ghost use Rattle.pr_capture.specs.declared.known.Stage.TheVariants.{InHeader};
ghost use Rattle.pr_capture.specs.VcdPieces.Piece.{Change, Resume, Section, Stamp, Stray};
ghost use Rattle.pr_capture.specs.VcdReading.{changed, header_ended, level_if, pauses, sample_of, signal_or, stamped, with_scope, without_last};
ghost use Rattle.pr_capture.specs.VcdSteps.{codes_of, found_of, place_at, place_of, words_in, ReadsPiece};

use crate::bits::level_at;
use crate::changes::{Seen, is_number, level_behind, time_at};
use crate::entries::Keyword;
use crate::fault::{CaptureFault, Wire};
use crate::header::{WireCode, WireCodes, copied, scale_in, word_at};
use crate::signals::{Probes, Signals};
use crate::times::time_or;
use pr_wire::{Edge, NoMemory};
use std::alloc::Global;

/// Which pieces come next.
#[derive(Clone, Copy)]
pub enum Stage {
    /// Those of the header, after a timescale of this many femtoseconds, if one came.
    InHeader(Option<u64>),
    /// Changes, by this timescale.
    InChanges(u64, Seen),
    /// What says nothing, until recording goes on after a pause.
    InPause(u64, Seen),
}

/// What is known of a dump so far.
#[derive(Drop)]
pub struct Known {
    pub stage: Stage,
    /// The scopes that have begun in the header, the outermost first.
    pub scopes: Vec<Vec<u8>>,
    pub codes: WireCodes,
}

/// A wire has to have a signal, and no other of its name, after a header that ends on a line.
fn check_signal(line: usize, wire: Wire, found: &WireCode) -> Result<(), CaptureFault>
    ensures ok { IfOk result (λ _. IsOk (signal_or line wire (found_of found.now))) }
    ensures err { IfErr result (λ f. signal_or line wire (found_of found.now) ≡ Err f) }
{
    if found.code.is_none() {
        return Err(CaptureFault::NoSignal(line, wire));
    }
    match found.other {
        None => Ok(()),
        Some(other) => Err(CaptureFault::TwoSignals(other, wire)),
    }
}

/// Where the first changes are, after a header that ends on a line.
fn header_ended(line: usize, scale: Option<u64>, codes: &WireCodes) -> Result<Stage, CaptureFault>
    ensures ok { IfOk result (λ stage. (scopes : List (List ℕ)) → header_ended line scale (codes_of codes.now) ≡ Ok (place_at stage scopes (codes_of codes.now))) }
    ensures err { IfErr result (λ f. header_ended line scale (codes_of codes.now) ≡ Err f) }
{
    let Some(scale) = scale else {
        return Err(CaptureFault::NoTimescale(line));
    };
    check_signal(line, Wire::Atn, &codes.atn)?;
    check_signal(line, Wire::Clock, codes.clock_code())?;
    check_signal(line, Wire::Data, &codes.line)?;
    if let Some(fault) = codes.shared(line) {
        return Err(fault);
    }
    let seen = Seen {
        time: 0,
        atn: None,
        clock: None,
        line: None,
    };
    Ok(Stage::InChanges(scale, seen))
}

/// Whether recording pauses after a section with this keyword.
fn pauses(keyword: Keyword) -> bool
    ensures { result ≡ pauses keyword }
{
    match keyword {
        Keyword::Pause => true,
        Keyword::Timescale
        | Keyword::Scope
        | Keyword::Upscope
        | Keyword::Var
        | Keyword::Definitions
        | Keyword::Other => false,
    }
}

/// What is known after a time stamp, which in whole microseconds is not before that of an earlier one.
fn stamped(scale: u64, seen: Seen, line: usize, digits: &[u8]) -> Result<Seen, CaptureFault>
    ensures { result ≡ stamped scale seen line digits.now }
{
    let time = time_or(line, seen.time, time_at(scale, digits))?;
    Ok(Seen {
        time,
        atn: seen.atn,
        clock: seen.clock,
        line: seen.line,
    })
}

/// What is known of a wire's level after a change.
fn level_if(
    is_known: bool,
    line: usize,
    is_inverted: bool,
    found: &WireCode,
    bits: &[u8],
    code: &[u8],
    before: Option<bool>,
) -> Result<Option<bool>, CaptureFault>
    ensures { result ≡ level_if is_known line is_inverted (found_of found.now) bits.now code.now before }
{
    if !found.has_code(code) {
        return Ok(before);
    }
    match level_at(found.bit, bits) {
        None => Err(CaptureFault::BadLevel(line)),
        Some(level) => level_behind(is_known, line, is_inverted, level),
    }
}

/// What is known after a change.
fn changed(
    probes: Probes,
    codes: &WireCodes,
    seen: Seen,
    line: usize,
    bits: &[u8],
    code: &[u8],
) -> Result<Seen, CaptureFault>
    ensures { result ≡ changed probes (codes_of codes.now) seen line bits.now code.now }
{
    let is_known = seen.all_known();
    let clock = codes.clock_code();
    let atn = level_if(is_known, line, probes.atn, &codes.atn, bits, code, seen.atn)?;
    let clock = level_if(is_known, line, probes.clock, clock, bits, code, seen.clock)?;
    let data = level_if(
        is_known,
        line,
        probes.line,
        &codes.line,
        bits,
        code,
        seen.line,
    )?;
    Ok(Seen {
        time: seen.time,
        atn,
        clock,
        line: data,
    })
}

impl Known {
    /// The sample after a piece, if all levels are known.
    fn sample(&self) -> Option<Edge>
        ensures { result ≡ sample_of (place_of self.now) }
    {
        match self.stage {
            Stage::InHeader(_) => None,
            Stage::InChanges(_, seen) => seen.sample(),
            Stage::InPause(_, _) => None,
        }
    }

    /// Goes on after the section that begins a scope, with these words.
    fn open_scope(&mut self, alloc: Global, inside: &[Vec<u8>]) -> Result<(), NoMemory>
        ensures scopes { OnOk result (words_in self.new.scopes.items ≡ with_scope (words_in self.old.scopes.items) (field_at 1 (words_in inside.now))) }
        ensures stage { self.new.stage ≡ self.old.stage }
        ensures codes { self.new.codes ≡ self.old.codes }
    {
        let name = match word_at(inside, 1) {
            None => Vec::new(alloc),
            Some(name) => copied(alloc, name)?,
        };
        self.scopes.push(name)?;
        Ok(())
    }

    /// Goes on after the section that ends a scope.
    fn close_scope(&mut self)
        ensures scopes { words_in self.new.scopes.items ≡ without_last (words_in self.old.scopes.items) }
        ensures stage { self.new.stage ≡ self.old.stage }
        ensures codes { self.new.codes ≡ self.old.codes }
    {
        let len = self.scopes.len();
        self.scopes.truncate(len.saturating_sub(1));
    }

    /// Goes on after a section of the header, with this timescale, if one came.
    fn take_heading(
        &mut self,
        alloc: Global,
        signals: &Signals<'_>,
        line: usize,
        scale: Option<u64>,
        keyword: Keyword,
        inside: &[Vec<u8>],
    ) -> Result<Option<Edge>, CaptureFault>
        requires { self.old.stage ≡ InHeader scale }
        ensures { ReadsPiece signals.now (Section line keyword (words_in inside.now)) (place_of self.old) result (place_of self.new) }
    {
        match keyword {
            Keyword::Timescale => {
                let Some(scale) = scale_in(inside) else {
                    return Err(CaptureFault::BadTimescale(line));
                };
                self.stage = Stage::InHeader(Some(scale));
                Ok(None)
            }
            Keyword::Scope => {
                self.open_scope(alloc, inside)?;
                Ok(None)
            }
            Keyword::Upscope => {
                self.close_scope();
                Ok(None)
            }
            Keyword::Var => {
                self.codes
                    .note_signal(alloc, signals, line, self.scopes.as_slice(), inside)?;
                Ok(None)
            }
            Keyword::Definitions => {
                self.stage = header_ended(line, scale, &self.codes)?;
                Ok(None)
            }
            Keyword::Pause | Keyword::Other => Ok(None),
        }
    }

    /// Goes on after a section.
    pub fn take_section(
        &mut self,
        alloc: Global,
        signals: &Signals<'_>,
        line: usize,
        keyword: Keyword,
        inside: &[Vec<u8>],
    ) -> Result<Option<Edge>, CaptureFault>
        ensures { ReadsPiece signals.now (Section line keyword (words_in inside.now)) (place_of self.old) result (place_of self.new) }
    {
        match self.stage {
            Stage::InHeader(scale) => {
                self.take_heading(alloc, signals, line, scale, keyword, inside)
            }
            Stage::InChanges(scale, seen) => {
                if pauses(keyword) {
                    self.stage = Stage::InPause(scale, seen);
                    return Ok(None);
                }
                Ok(seen.sample())
            }
            Stage::InPause(_, _) => Ok(None),
        }
    }

    /// Goes on after a time stamp. In the header `#` without digits says nothing.
    pub fn take_stamp(
        &mut self,
        signals: &Signals<'_>,
        line: usize,
        digits: &[u8],
    ) -> Result<Option<Edge>, CaptureFault>
        ensures { ReadsPiece signals.now (Stamp line digits.now) (place_of self.old) result (place_of self.new) }
    {
        match self.stage {
            Stage::InHeader(_) => {
                if is_number(digits) {
                    Err(CaptureFault::NoDefinitions(line))
                } else {
                    Ok(None)
                }
            }
            Stage::InChanges(scale, seen) => {
                let seen = stamped(scale, seen, line, digits)?;
                self.stage = Stage::InChanges(scale, seen);
                Ok(seen.sample())
            }
            Stage::InPause(_, _) => Ok(None),
        }
    }

    /// Goes on after any other word.
    pub fn take_stray(
        &mut self,
        signals: &Signals<'_>,
        line: usize,
    ) -> Result<Option<Edge>, CaptureFault>
        ensures { ReadsPiece signals.now (Stray line) (place_of self.old) result (place_of self.new) }
    {
        match self.stage {
            Stage::InHeader(_) => Ok(None),
            Stage::InChanges(_, _) | Stage::InPause(_, _) => Err(CaptureFault::BadWord(line)),
        }
    }

    /// Goes on where recording does after a pause: where the levels were known, nobody knows them in
    /// between.
    pub fn take_resumption(
        &mut self,
        signals: &Signals<'_>,
        line: usize,
    ) -> Result<Option<Edge>, CaptureFault>
        ensures { ReadsPiece signals.now (Resume line) (place_of self.old) result (place_of self.new) }
    {
        match self.stage {
            Stage::InHeader(_) => Ok(None),
            Stage::InChanges(_, seen) => match seen.sample() {
                None => Ok(None),
                Some(_) => Err(CaptureFault::Unknown(line)),
            },
            Stage::InPause(scale, seen) => match seen.sample() {
                None => {
                    self.stage = Stage::InChanges(scale, seen);
                    Ok(None)
                }
                Some(_) => Err(CaptureFault::Unknown(line)),
            },
        }
    }

    /// Goes on after a change.
    pub fn take_change(
        &mut self,
        signals: &Signals<'_>,
        line: usize,
        bits: &[u8],
        code: &[u8],
    ) -> Result<Option<Edge>, CaptureFault>
        ensures { ReadsPiece signals.now (Change line bits.now code.now) (place_of self.old) result (place_of self.new) }
    {
        let Stage::InChanges(scale, seen) = self.stage else {
            return Ok(None);
        };
        let seen = changed(signals.probes, &self.codes, seen, line, bits, code)?;
        self.stage = Stage::InChanges(scale, seen);
        Ok(seen.sample())
    }
}
