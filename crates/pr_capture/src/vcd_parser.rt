//! Reading a dump word by word.

ghost use Rattle.std.specs.Prelude.{◌≡◌, ◌⊎◌, ℕ, ◌∷◌, [], None, IfErr, IfOk};
ghost use Rattle.pr_capture.specs.declared.fault.CaptureFault.TheVariants.{NoMemory};
ghost use Rattle.pr_capture.specs.declared.vcd_parser.Phase.TheVariants.{Between, InSection};
ghost use Rattle.pr_capture.specs.VcdPieces.{with_word};
ghost use Rattle.pr_capture.specs.VcdReading.{no_codes};
ghost use Rattle.pr_capture.specs.VcdReading.Place.{Header};
ghost use Rattle.pr_capture.specs.VcdPieces.Begun.{Nothing};
ghost use Rattle.pr_capture.specs.VcdSteps.{begun_of, place_of, words_in, AnswersEnd, MayEnd, ReadsWords};

use crate::entries::{Entry, Keyword, bits_of, entry_of, is_word, keeps, rest_of};
use crate::fault::CaptureFault;
use crate::header::{WireCode, WireCodes, copied};
use crate::known::{Known, Stage};
use crate::signals::Signals;
use pr_wire::Edge;
use std::alloc::Global;

/// What has begun.
#[derive(Clone, Copy)]
pub enum Phase {
    /// Nothing.
    Between,
    /// A section, with the line of its keyword.
    InSection(usize, Keyword),
    /// A value, with its line: its code is the next word.
    BehindValue(usize),
}

/// How far a dump has come, by whole words.
#[derive(Drop)]
pub struct VcdParser {
    alloc: Global,
    phase: Phase,
    /// The words of the section that has begun, if they are looked at.
    inside: Vec<Vec<u8>>,
    /// The bits of the last value whose code is a word of its own.
    bits: Vec<u8>,
    known: Known,
}

impl VcdParser {
    /// No word has come. It takes no memory.
    pub fn new(alloc: Global) -> VcdParser
        ensures begun { begun_of result ≡ Nothing }
        ensures place { place_of result.known ≡ Header None [] no_codes }
    {
        let codes = WireCodes {
            atn: WireCode::new(),
            clock: WireCode::new(),
            second: WireCode::new(),
            line: WireCode::new(),
        };
        VcdParser {
            alloc,
            phase: Phase::Between,
            inside: Vec::new(alloc),
            bits: Vec::new(alloc),
            known: Known {
                stage: Stage::InHeader(None),
                scopes: Vec::new(alloc),
                codes,
            },
        }
    }

    /// Keeps a word of a section, if it is looked at.
    fn keep(&mut self, keyword: Keyword, word: &[u8]) -> Result<(), CaptureFault>
        ensures refused { IfErr result (λ f. f ≡ NoMemory) }
        ensures inside { IfOk result (λ _. words_in self.new.inside.items ≡ with_word keyword (words_in self.old.inside.items) word.now) }
        ensures phase { self.new.phase ≡ self.old.phase }
        ensures known { self.new.known ≡ self.old.known }
    {
        if keeps(keyword) {
            let copy = copied(self.alloc, word)?;
            self.inside.push(copy)?;
        }
        Ok(())
    }

    /// Goes on after a word that is in no section.
    fn take_single(
        &mut self,
        signals: &Signals<'_>,
        number: usize,
        word: &[u8],
    ) -> Result<Option<Edge>, CaptureFault>
        requires { self.old.phase ≡ Between }
        ensures read { ReadsWords signals.now (record { line = number; letters = word.now } ∷ []) self.old result self.new }
        ensures end { IfOk result (λ sample. (sample ≡ None) ⊎ MayEnd self.new) }
    {
        match entry_of(word) {
            Entry::Silent => Ok(None),
            Entry::Foreign => self.known.take_stray(signals, number),
            Entry::Resumes => self.known.take_resumption(signals, number),
            Entry::Opens(keyword) => {
                self.inside.clear();
                self.phase = Phase::InSection(number, keyword);
                Ok(None)
            }
            Entry::Value => {
                self.bits.clear();
                self.bits.extend_from_slice(bits_of(word))?;
                self.phase = Phase::BehindValue(number);
                Ok(None)
            }
            Entry::Time => self.known.take_stamp(signals, number, rest_of(word)),
            Entry::Level(level) => self
                .known
                .take_change(signals, number, &[level], rest_of(word)),
        }
    }

    /// Goes on after a word of a section.
    fn take_inner(
        &mut self,
        signals: &Signals<'_>,
        line: usize,
        keyword: Keyword,
        word: &[u8],
    ) -> Result<Option<Edge>, CaptureFault>
        requires { self.old.phase ≡ InSection line keyword }
        ensures read { (number : ℕ) → ReadsWords signals.now (record { line = number; letters = word.now } ∷ []) self.old result self.new }
        ensures end { IfOk result (λ sample. (sample ≡ None) ⊎ MayEnd self.new) }
    {
        if !is_word(word, b"$end") {
            self.keep(keyword, word)?;
            return Ok(None);
        }
        self.phase = Phase::Between;
        let inside = self.inside.as_slice();
        self.known
            .take_section(self.alloc, signals, line, keyword, inside)
    }

    /// Goes on after a word.
    pub fn take_word(
        &mut self,
        signals: &Signals<'_>,
        number: usize,
        word: &[u8],
    ) -> Result<Option<Edge>, CaptureFault>
        ensures read { ReadsWords signals.now (record { line = number; letters = word.now } ∷ []) self.old result self.new }
        ensures end { IfOk result (λ sample. (sample ≡ None) ⊎ MayEnd self.new) }
    {
        match self.phase {
            Phase::Between => self.take_single(signals, number, word),
            Phase::InSection(line, keyword) => self.take_inner(signals, line, keyword, word),
            Phase::BehindValue(line) => {
                self.phase = Phase::Between;
                self.known
                    .take_change(signals, line, self.bits.as_slice(), word)
            }
        }
    }

    /// The answer for a text that ends here, on a line.
    pub fn answer(&self, end: usize) -> Result<Option<Edge>, CaptureFault>
        ensures { AnswersEnd end self.now result }
    {
        match (self.phase, self.known.stage) {
            (Phase::InSection(line, _), _) => Err(CaptureFault::NoEnd(line)),
            (_, Stage::InHeader(_)) => Err(CaptureFault::NoDefinitions(end)),
            (Phase::BehindValue(line), _) => Err(CaptureFault::BadWord(line)),
            (Phase::Between, Stage::InChanges(_, seen))
            | (Phase::Between, Stage::InPause(_, seen)) => match seen.missing() {
                Some(wire) => Err(CaptureFault::NoLevel(end, wire)),
                None => Ok(None),
            },
        }
    }
}
