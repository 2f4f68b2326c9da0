//! What the header of a dump says: the unit of all times, and the codes of the three wires.

ghost use Rattle.std.specs.Prelude.{◌≡◌, ◌≤◌, option_copied, IfOk, IfSome, OnOk};
ghost use Rattle.pr_capture.specs.Csv.{field_at};
ghost use Rattle.pr_capture.specs.VcdReading.{bit_wanted, clock_found, found_too, has_levels, is_bit, is_bit_too, is_code, is_same, nothing, other_line, scale_in, scale_of, shared_in, unit_in, with_path, with_signal, with_words};
ghost use Rattle.pr_capture.specs.VcdSteps.{code_of, codes_of, found_of, words_in};

use crate::bits::bit_in;
use crate::entries::is_word;
use crate::fault::CaptureFault;
use crate::paths::{has_path, path_of};
use crate::signals::{Signals, shared};
use pr_base::digit_count;
use pr_wire::NoMemory;
use std::alloc::Global;

/// The femtoseconds of a unit of time.
fn unit_in(letters: &[u8]) -> Option<u64>
    ensures unit { result ≡ unit_in letters.now }
    ensures few { IfSome result (λ n. n ≤ 1000000000000000) }
{
    if is_word(letters, b"s") {
        Some(1_000_000_000_000_000)
    } else if is_word(letters, b"ms") {
        Some(1_000_000_000_000)
    } else if is_word(letters, b"us") {
        Some(1_000_000_000)
    } else if is_word(letters, b"ns") {
        Some(1_000_000)
    } else if is_word(letters, b"ps") {
        Some(1000)
    } else if is_word(letters, b"fs") {
        Some(1)
    } else {
        None
    }
}

/// The femtoseconds of 1, 10 or 100 units.
fn scale_of(count: &[u8], unit: &[u8]) -> Option<u64>
    ensures { result ≡ scale_of count.now (unit_in unit.now) }
{
    let unit = unit_in(unit)?;
    if is_word(count, b"1") {
        Some(unit)
    } else if is_word(count, b"10") {
        Some(10 * unit)
    } else if is_word(count, b"100") {
        Some(100 * unit)
    } else {
        None
    }
}

/// The word of a place, from 0.
pub fn word_at(inside: &[Vec<u8>], place: usize) -> Option<&[u8]>
    ensures { option_copied result ≡ field_at place (words_in inside.now) }
{
    if place < inside.len() {
        Some(inside[place].as_slice())
    } else {
        None
    }
}

/// The femtoseconds that the words of a timescale spell.
pub fn scale_in(inside: &[Vec<u8>]) -> Option<u64>
    ensures { result ≡ scale_in (words_in inside.now) }
{
    let count = word_at(inside, 0)?;
    if word_at(inside, 2).is_some() {
        return None;
    }
    match word_at(inside, 1) {
        None => {
            let digits = digit_count(count);
            scale_of(&count[..digits], &count[digits..])
        }
        Some(unit) => scale_of(count, unit),
    }
}

/// Whether a signal is wanted, by its path and its size; and which of its bits, where it has more than
/// one, by how many are on its right.
fn bit_wanted(wanted: &[u8], path: &[u8], size: &[u8]) -> Option<Option<u64>>
    ensures { result ≡ bit_wanted wanted.now path.now size.now }
{
    if is_word(size, b"1") && has_path(wanted, path) {
        return Some(None);
    }
    match bit_in(wanted, path) {
        None => None,
        Some(bit) => Some(Some(bit)),
    }
}

/// Whether signals of a kind have levels: not numbers, texts and events.
fn has_levels(kind: Option<&[u8]>) -> bool
    ensures { result ≡ has_levels (option_copied kind.entry) }
{
    match kind {
        None => true,
        Some(kind) => {
            !(is_word(kind, b"real")
                || is_word(kind, b"realtime")
                || is_word(kind, b"string")
                || is_word(kind, b"event"))
        }
    }
}

/// Bytes in a vector of their own.
pub fn copied(alloc: Global, bytes: &[u8]) -> Result<Vec<u8>, NoMemory>
    ensures { IfOk result (λ v. v.items ≡ bytes.now) }
{
    let mut copy = Vec::new(alloc);
    copy.extend_from_slice(bytes)?;
    Ok(copy)
}

/// The code by which changes call a wire.
#[derive(Drop)]
pub struct WireCode {
    /// The code, once it is known.
    pub code: Option<Vec<u8>>,
    /// How many bits of the signal are on the right of the wire's, if it has more than one.
    pub bit: Option<u64>,
    /// The line of the first other signal that has the wire's name too.
    pub other: Option<usize>,
}

/// Whether two bits are the same.
fn is_bit(known: Option<u64>, bit: Option<u64>) -> bool
    ensures { result ≡ is_bit known bit }
{
    match (known, bit) {
        (None, None) => true,
        (Some(known), Some(bit)) => known == bit,
        _ => false,
    }
}

/// Whether two bits of a signal are not two of them: a signal of one bit names none.
fn is_bit_too(bit: Option<u64>, other: Option<u64>) -> bool
    ensures { result ≡ is_bit_too bit other }
{
    match (bit, other) {
        (Some(bit), Some(other)) => bit == other,
        _ => true,
    }
}

/// The line of a signal, if it is another than the known one.
fn other_line(
    line: usize,
    known: &[u8],
    known_bit: Option<u64>,
    code: &[u8],
    bit: Option<u64>,
) -> Option<usize>
    ensures { result ≡ other_line line known.now known_bit code.now bit }
{
    if is_word(known, code) && is_bit(known_bit, bit) {
        None
    } else {
        Some(line)
    }
}

impl WireCode {
    /// No signal has the wire's name yet.
    pub fn new() -> WireCode
        ensures { found_of result ≡ nothing }
    {
        WireCode {
            code: None,
            bit: None,
            other: None,
        }
    }

    /// Whether the wire has this code.
    pub fn has_code(&self, code: &[u8]) -> bool
        ensures { result ≡ is_code (code_of self.now.code) code.now }
    {
        match &self.code {
            None => false,
            Some(known) => is_word(known.as_slice(), code),
        }
    }

    /// Whether another wire has the same signal: by the same code, and not by another of its bits.
    fn is_same(&self, other: &WireCode) -> bool
        ensures { result ≡ is_same (found_of self.now) (found_of other.now) }
    {
        let Some(code) = &other.code else {
            return false;
        };
        self.has_code(code.as_slice()) && is_bit_too(self.bit, other.bit)
    }

    /// Notes the code of a signal on a line that has the wire's name, and its bit.
    fn note_code(
        &mut self,
        alloc: Global,
        line: usize,
        code: &[u8],
        bit: Option<u64>,
    ) -> Result<(), NoMemory>
        ensures { OnOk result (found_of self.new ≡ found_too line (found_of self.old) (code_of self.old.code) code.now bit) }
    {
        match &self.code {
            None => {
                self.code = Some(copied(alloc, code)?);
                self.bit = bit;
            }
            Some(known) => {
                if self.other.is_none() {
                    self.other = other_line(line, known.as_slice(), self.bit, code, bit);
                }
            }
        }
        Ok(())
    }

    /// Notes the signal on a line, if it has the wire's name and these words give its code.
    fn note(
        &mut self,
        alloc: Global,
        line: usize,
        name: &[u8],
        path: &[u8],
        inside: &[Vec<u8>],
    ) -> Result<(), NoMemory>
        ensures { OnOk result (found_of self.new ≡ with_words line (found_of self.old) name.now path.now (words_in inside.now)) }
    {
        let [_, size, code, _, ..] = inside else {
            return Ok(());
        };
        match bit_wanted(name, path, size.as_slice()) {
            None => Ok(()),
            Some(bit) => self.note_code(alloc, line, code.as_slice(), bit),
        }
    }
}

/// The codes by which changes call the three wires, as far as they are known.
#[derive(Drop)]
pub struct WireCodes {
    pub atn: WireCode,
    pub clock: WireCode,
    /// That of a signal with CLOCK's second name.
    pub second: WireCode,
    pub line: WireCode,
}

impl WireCodes {
    /// Notes the codes of the wires whose name the signal with this path has.
    fn note_path(
        &mut self,
        alloc: Global,
        signals: &Signals<'_>,
        line: usize,
        path: &[u8],
        inside: &[Vec<u8>],
    ) -> Result<(), NoMemory>
        ensures { OnOk result (codes_of self.new ≡ with_path signals.now (codes_of self.old) line path.now (words_in inside.now)) }
    {
        self.atn.note(alloc, line, signals.atn, path, inside)?;
        self.clock.note(alloc, line, signals.clock, path, inside)?;
        self.second
            .note(alloc, line, signals.second_name(), path, inside)?;
        self.line.note(alloc, line, signals.line, path, inside)
    }

    /// Notes the codes of the wires whose signal has its section on a line with these words, in some
    /// scopes, if it has levels.
    pub fn note_signal(
        &mut self,
        alloc: Global,
        signals: &Signals<'_>,
        line: usize,
        scopes: &[Vec<u8>],
        inside: &[Vec<u8>],
    ) -> Result<(), NoMemory>
        ensures { OnOk result (codes_of self.new ≡ with_signal signals.now (codes_of self.old) line (words_in scopes.now) (words_in inside.now)) }
    {
        if !has_levels(word_at(inside, 0)) {
            return Ok(());
        }
        let path = path_of(alloc, scopes, inside)?;
        self.note_path(alloc, signals, line, path.as_slice(), inside)
    }

    /// CLOCK's own: that of its first name counts, if a signal has it.
    pub fn clock_code(&self) -> &WireCode
        ensures { found_of result.now ≡ clock_found (codes_of self.now) }
    {
        if self.clock.code.is_some() {
            &self.clock
        } else {
            &self.second
        }
    }
    /// The fault of a wire that has no signal of its own, after a header that ends on a line.
    pub fn shared(&self, line: usize) -> Option<CaptureFault>
        ensures { result ≡ shared_in line (codes_of self.now) }
    {
        let clock = self.clock_code();
        let has_clock = self.atn.is_same(clock);
        let has_data = self.atn.is_same(&self.line) || clock.is_same(&self.line);
        shared(line, has_clock, has_data)
    }
}
