//! What the name of a table's first column and its remarks say of time.

ghost use Rattle.std.specs.Prelude.{◌≡◌, ◌∷◌, [], option_copied};
ghost use Rattle.pr_capture.specs.Numbers.{behind_digits};
ghost use Rattle.pr_capture.specs.TableTimes.{bare_unit, begins, begins_power, behind_fraction, behind_letter_e, behind_marks, behind_plus_minus, ends_there, has_numbers, has_slash, is_another, is_count_word, is_counting, is_cut, is_mark, is_micro, is_milli, is_plain_rate, is_plain_unit, is_power, is_sample_word, is_sigrok_name, is_sigrok_word, is_this, is_timing, is_unit, is_whole, no_remarks, own_rate, places_right, power_in, scale_by, scale_of, rate_by, rate_given, rate_in, rate_known, rate_power, rate_told, rate_unit, remarked, time_unit, unit_apart, unit_behind, unit_by, unit_of, with_rate};

use crate::csv::{Columns, Scale};
use crate::entries::is_word;
use crate::numbers::{
    are_in_units, are_signs, are_some, behind_decimals, behind_digits, behind_first, behind_word,
    decimals_in, digits_in, first_of, is_sign, number_from, number_in, number_of_first, spells,
    with_zeros, without_signs,
};
use crate::times::{Exponent, behind_plus_minus, few_places, is_minus};

/// What remarks say of time.
#[derive(Clone, Copy)]
pub struct Remarks {
    /// How many samples there are in a second, if the caller says so.
    pub given: Option<u64>,
    /// How many samples there are in a second, if a remark says so: the last one of them.
    pub rate: Option<u64>,
    /// Whether a remark says another rate than one before it.
    pub differs: bool,
    /// The unit of a column that is called Time alone, if it has times: how many decimals it is of a
    /// second.
    pub bare: Option<u8>,
    /// The byte that separates fields, if a line says so.
    pub separator: Option<u8>,
    /// The columns of the three lines by sigrok's remark of its channels, if it names them, in a table without times.
    pub alone: Option<Columns>,
    /// The same in a table with times or numbers in front.
    pub behind: Option<Columns>,
}

/// Whether a name is a micro sign before s, in UTF-8 (of two kinds) or in Latin-1.
fn is_micro(name: &[u8]) -> bool
    ensures { result ≡ is_micro name.now }
{
    spells(&[194, 181, b's'], name) || spells(&[206, 188, b's'], name) || spells(&[181, b's'], name)
}

/// Whether a name is that of a unit.
fn is_unit(short: &[u8], long: &[u8], more: &[u8], name: &[u8]) -> bool
    ensures { result ≡ is_unit short.now long.now more.now name.now }
{
    spells(short, name) || spells(long, name) || spells(more, name)
}

/// Whether a name is that of a unit, cut short.
fn is_cut(cut: &[u8], front: &[u8], name: &[u8]) -> bool
    ensures { result ≡ is_cut cut.now front.now name.now }
{
    spells(cut, name) || spells(front, name)
}

/// How many decimals of a second a unit is, from 0 for seconds to 12 for picoseconds.
fn unit_of(name: &[u8]) -> Option<u8>
    ensures { result ≡ unit_of name.now }
{
    if is_unit(b"s", b"second", b"seconds", name) || spells(b"sec", name) {
        Some(0)
    } else if is_unit(b"ms", b"millisecond", b"milliseconds", name)
        || is_cut(b"msec", b"millis", name)
    {
        Some(3)
    } else if is_unit(b"us", b"microsecond", b"microseconds", name)
        || is_cut(b"usec", b"micros", name)
        || is_micro(name)
    {
        Some(6)
    } else if is_unit(b"ns", b"nanosecond", b"nanoseconds", name)
        || is_cut(b"nsec", b"nanos", name)
    {
        Some(9)
    } else if is_unit(b"ps", b"picosecond", b"picoseconds", name)
        || is_cut(b"psec", b"picos", name)
    {
        Some(12)
    } else {
        None
    }
}

/// The unit after a word for time, or that of a bare word, if there is such a word.
fn unit_behind(bare: Option<u8>, rest: Option<&[u8]>) -> Option<u8>
    ensures { result ≡ unit_behind bare (option_copied rest.entry) }
{
    match rest {
        None => None,
        Some(rest) => { if are_signs(rest) { bare } else { unit_of(rest) } }
    }
}

/// Whether a word ends here: no letter or digit follows.
fn ends_there(rest: Option<&[u8]>) -> bool
    ensures { result ≡ ends_there (option_copied rest.entry) }
{
    match rest {
        None => false,
        Some(rest) => rest.is_empty() || is_sign(rest[0]),
    }
}

/// The same after a word that ends here.
fn unit_apart(bare: Option<u8>, rest: Option<&[u8]>) -> Option<u8>
    ensures { result ≡ unit_apart bare (option_copied rest.entry) }
{
    if ends_there(rest) {
        unit_behind(bare, rest)
    } else {
        None
    }
}

/// The unit that a column of times names. Other columns have none.
pub fn time_unit(bare: Option<u8>, name: &[u8]) -> Option<u8>
    ensures { result ≡ time_unit bare name.now }
{
    if let Some(unit) = unit_behind(bare, behind_word(b"timestamp", name)) {
        return Some(unit);
    }
    if let Some(unit) = unit_behind(bare, behind_word(b"time", name)) {
        return Some(unit);
    }
    if let Some(unit) = unit_apart(bare, behind_word(b"t", name)) {
        return Some(unit);
    }
    unit_of(name)
}

/// Whether a name begins with a word.
fn begins(word: &[u8], name: &[u8]) -> bool
    ensures { result ≡ begins word.now name.now }
{
    ends_there(behind_word(word, name))
}

/// Whether a name is by a word one of times or of numbers.
fn is_count_word(name: &[u8]) -> bool
    ensures { result ≡ is_count_word name.now }
{
    begins(b"t", name)
        || begins(b"time", name)
        || begins(b"timestamp", name)
        || begins(b"elapsed", name)
        || begins(b"delta", name)
        || begins(b"relative", name)
        || begins(b"sample", name)
        || begins(b"samples", name)
        || begins(b"row", name)
        || begins(b"index", name)
        || begins(b"number", name)
        || begins(b"count", name)
        || begins(b"tick", name)
        || begins(b"ticks", name)
        || spells(b"n", name)
        || spells(b"nr", name)
        || spells(b"no", name)
}

/// Whether a first column has times or numbers, never levels, by its name, or has none.
pub fn is_counting(name: &[u8]) -> bool
    ensures { result ≡ is_counting name.now }
{
    is_count_word(name) || are_signs(name)
}

/// Whether a name is one that sigrok gives to times: Time, or their unit in full.
fn is_sigrok_word(name: &[u8]) -> bool
    ensures { result ≡ is_sigrok_word name.now }
{
    spells(b"time", name)
        || spells(b"seconds", name)
        || spells(b"milliseconds", name)
        || spells(b"microseconds", name)
        || spells(b"nanoseconds", name)
        || spells(b"picoseconds", name)
}

/// The same of a first column, if there is one.
fn is_sigrok_name(first: Option<&[u8]>) -> bool
    ensures { result ≡ is_sigrok_name (option_copied first.entry) }
{
    match first {
        None => false,
        Some(name) => is_sigrok_word(name),
    }
}

/// Whether a column is called by a word for the number of a sample.
fn is_sample_word(name: &[u8]) -> bool
    ensures { result ≡ is_sample_word name.now }
{
    spells(b"sample", name)
        || spells(b"samples", name)
        || spells(b"sampleindex", name)
        || spells(b"samplenumber", name)
        || spells(b"index", name)
}

/// Whether a column has times or numbers by its name, wherever it stands.
pub fn is_timing(name: &[u8]) -> bool
    ensures { result ≡ is_timing name.now }
{
    time_unit(Some(0), name).is_some() || is_sample_word(name) || is_count_word(name)
}

/// The unit of a rate, as the power of ten that it is. Signs do not count in words: `S/s` is `Ss`.
fn rate_unit(name: &[u8]) -> Option<u8>
    ensures { result ≡ rate_unit name.now }
{
    if are_signs(name) || is_unit(b"Hz", b"Ss", b"Sas", name) || spells(b"sps", name) {
        Some(0)
    } else if is_unit(b"k", b"kHz", b"kSs", name) || is_cut(b"kSas", b"ksps", name) {
        Some(3)
    } else if is_unit(b"M", b"MHz", b"MSs", name) || is_cut(b"MSas", b"Msps", name) {
        Some(6)
    } else if is_unit(b"G", b"GHz", b"GSs", name) || is_cut(b"GSas", b"Gsps", name) {
        Some(9)
    } else {
        None
    }
}

/// What follows the letter of an exponent.
fn behind_letter_e(rest: &[u8]) -> &[u8]
    ensures { result.now ≡ behind_letter_e rest.now }
{
    match rest {
        [] => &[],
        [_, behind @ ..] => behind,
    }
}

/// Whether the letter of an exponent is in front.
fn begins_power(rest: &[u8]) -> bool
    ensures { result ≡ begins_power rest.now }
{
    match rest {
        [] => false,
        [b, ..] => *b == b'E' || *b == b'e',
    }
}

/// What follows the letter and the number of an exponent.
fn behind_power(rest: &[u8]) -> &[u8]
    ensures { result.now ≡ behind_digits (behind_plus_minus (behind_letter_e rest.now)) }
{
    behind_digits(behind_plus_minus(behind_letter_e(rest)))
}

/// Whether `e` and a number stand here, as in `4e6`, and after them nothing or a unit that is no power itself, as in
/// `4e6 Hz`.
fn is_power(rest: &[u8]) -> bool
    ensures { result ≡ is_power rest.now }
{
    begins_power(rest) && is_this(0, rate_unit(behind_power(rest)))
}

/// The exponent whose sign and digits are in front.
fn power_in(text: &[u8]) -> Option<Exponent>
    ensures { result ≡ power_in text.now }
{
    few_places(is_minus(text), number_in(behind_plus_minus(text)))
}

/// The places that an exponent moves the point to the right, if it moves it there.
fn places_right(exponent: Option<Exponent>) -> Option<u8>
    ensures { result ≡ places_right exponent }
{
    let exponent = exponent?;
    if exponent.left == 0 {
        Some(exponent.right)
    } else {
        None
    }
}

/// The power of ten after the number of a rate: that of an exponent, or of a unit.
fn rate_power(rest: &[u8]) -> Option<u8>
    ensures { result ≡ rate_power rest.now }
{
    if is_power(rest) {
        places_right(power_in(behind_letter_e(rest)))
    } else {
        rate_unit(rest)
    }
}

/// The rate of these digits and decimals, and a power of ten.
fn rate_by(whole: &[u8], decimals: &[u8], power: Option<u8>) -> Option<u64>
    ensures { result ≡ rate_by whole.now decimals.now power }
{
    let power = power?;
    if whole.is_empty() {
        return None;
    }
    let number = number_from(0, whole)?;
    let rate = number_of_first(number, usize::from(power), decimals)?;
    if rate == 0 { None } else { Some(rate) }
}

/// The rate that a text spells, as 4 MHz, in samples a second. None is 0.
fn rate_in(text: &[u8]) -> Option<u64>
    ensures { result ≡ rate_in text.now }
{
    let behind = behind_digits(text);
    rate_by(
        digits_in(text),
        decimals_in(behind),
        rate_power(behind_decimals(behind)),
    )
}

/// Whether decimals before a power of ten are whole samples a second.
fn is_whole(decimals: &[u8], power: Option<u8>) -> bool
    ensures { result ≡ is_whole decimals.now power }
{
    match power {
        None => false,
        Some(power) => !are_some(behind_first(decimals, usize::from(power))),
    }
}

/// What follows a point and decimals.
fn behind_fraction(text: &[u8]) -> &[u8]
    ensures { result.now ≡ behind_fraction text.now }
{
    if decimals_in(text).is_empty() {
        text
    } else {
        behind_decimals(text)
    }
}

/// Whether a unit begins with a small m before s, which is no mega.
fn is_milli(unit: &[u8]) -> bool
    ensures { result ≡ is_milli unit.now }
{
    match unit {
        [] => false,
        [b, rest @ ..] => *b == b'm' && behind_word(b"s", rest).is_some(),
    }
}

/// Whether a unit has a slash elsewhere than before its last s.
fn has_slash(unit: &[u8]) -> bool
    ensures { result ≡ has_slash unit.now }
{
    for (i, b) in unit.iter().enumerate() {
        if *b == b'/' {
            return !spells(b"s", &unit[i + 1..]);
        }
    }
    false
}

/// Whether this is all that the unit of an option's value can have.
fn is_plain_unit(unit: &[u8]) -> bool
    ensures { result ≡ is_plain_unit unit.now }
{
    are_in_units(unit) && !is_milli(without_signs(unit)) && !has_slash(unit)
}

/// Whether a unit is all that stands here, or an exponent and a unit.
fn is_plain_rate(rest: &[u8]) -> bool
    ensures { result ≡ is_plain_rate rest.now }
{
    if is_power(rest) {
        is_plain_unit(behind_power(rest))
    } else {
        is_plain_unit(rest)
    }
}

/// Returns the rate that the value of an option spells, in samples a second: digits, perhaps a point and
/// decimals, then an exponent, as in `4e6`, or nothing, `k`, `M` or `G`, then nothing, `Hz`, `S/s`, `Sa/s` or `sps`, in
/// either case and with spaces between, as `4M`, `12.5M`, `500kHz`, `4 MS/s`, `4e6Hz` or `4000000` (profile). None for
/// any other text, as `4 ms/s` with a small m, for 0, for 2^64 samples a second and more, and for a part of a sample.
pub fn read_rate(text: &str) -> Option<u64>
    ensures { result ≡ rate_given text.now }
{
    let bytes = text.as_bytes();
    let behind = behind_digits(bytes);
    let unit = behind_fraction(behind);
    if is_plain_rate(unit) && is_whole(decimals_in(behind), rate_power(unit)) {
        rate_in(bytes)
    } else {
        None
    }
}

/// The unit that sigrok takes for times, by the rate of samples: the largest that is no longer than a
/// sample.
fn unit_by(rate: Option<u64>) -> Option<u8>
    ensures { result ≡ unit_by rate }
{
    let rate = rate?;
    if rate == 1 {
        Some(0)
    } else if rate <= 1000 {
        Some(3)
    } else if rate <= 1_000_000 {
        Some(6)
    } else if rate <= 1_000_000_000 {
        Some(9)
    } else {
        Some(12)
    }
}

/// Whether there is a unit, and it is this one.
fn is_this(unit: u8, other: Option<u8>) -> bool
    ensures { result ≡ is_this unit other }
{
    match other {
        None => false,
        Some(other) => other == unit,
    }
}

/// What sigrok-cli's times in a unit of which a second has this many are, at a rate: it adds up the time of one sample, in
/// whole units and rounded down. So they are numbers of units, or else of samples.
fn scale_by(unit: u8, rate: u64, second: Option<u64>) -> Scale
    ensures { result ≡ scale_by unit rate second }
{
    let Some(second) = second else {
        return Scale::Timed(unit);
    };
    if rate == 0 || second % rate == 0 {
        return Scale::Numbered {
            step: 1,
            rate: second,
        };
    }
    let step = second / rate;
    Scale::Numbered { step, rate }
}

/// What a first column has whose name is of times in this unit.
pub fn scale_of(remarks: Remarks, unit: u8, first: Option<&[u8]>) -> Scale
    ensures { result ≡ scale_of remarks unit (option_copied first.entry) }
{
    match remarks.own_rate(unit, first) {
        None => Scale::Timed(unit),
        Some(rate) => scale_by(unit, rate, with_zeros(usize::from(unit), 1)),
    }
}

/// Whether the first column has numbers of samples. After the line that sigrok-cli puts in front of what it
/// writes before it knows the rate, all of them are 0 and none counts.
pub fn has_numbers(bare: Option<u8>, first: Option<&[u8]>) -> bool
    ensures { result ≡ has_numbers bare (option_copied first.entry) }
{
    match (bare, first) {
        (Some(_), Some(name)) => is_sample_word(name),
        _ => false,
    }
}

/// Whether a remark may have this byte between its word and the rate.
fn is_mark(b: u8) -> bool
    ensures { result ≡ is_mark b }
{
    b == b' ' || b == b'\t' || b == b':' || b == b'='
}

/// What follows such bytes.
fn behind_marks(text: &[u8]) -> &[u8]
    ensures { result.now ≡ behind_marks text.now }
{
    for (i, b) in text.iter().enumerate() {
        if !is_mark(*b) {
            return &text[i..];
        }
    }
    &[]
}

/// Whether a remark does not give the rate that is known.
fn is_another(known: Option<u64>, rate: Option<u64>) -> bool
    ensures { result ≡ is_another known rate }
{
    match (known, rate) {
        (None, _) => false,
        (Some(_), None) => true,
        (Some(known), Some(rate)) => known != rate,
    }
}

impl Remarks {
    /// No remark: a column that is called Time alone is of seconds. The rate is that of the caller.
    pub fn new(given: Option<u64>) -> Remarks
        ensures { result ≡ no_remarks given }
    {
        Remarks {
            given,
            rate: None,
            differs: false,
            bare: Some(0),
            separator: None,
            alone: None,
            behind: None,
        }
    }

    /// The rate of samples by remarks, unless they differ.
    fn rate_told(self) -> Option<u64>
        ensures { result ≡ rate_told self.differs self.rate }
    {
        if self.differs { None } else { self.rate }
    }

    /// The rate of samples: that of the caller, or else that of remarks.
    pub fn rate_known(self) -> Option<u64>
        ensures { result ≡ rate_known self }
    {
        match self.given {
            Some(rate) => Some(rate),
            None => self.rate_told(),
        }
    }

    /// The unit of a column that is called Time alone, if it is known: where remarks differ, it is not, nor where the
    /// caller gives a rate, no remark does and so it may be sigrok's or not.
    pub fn bare_unit(self) -> Option<u8>
        ensures { result ≡ bare_unit self }
    {
        if self.differs || (self.given.is_some() && self.rate.is_none()) {
            None
        } else {
            self.bare
        }
    }

    /// The rate of sigrok's remark, if this is the unit that it has for it, and the first column has a name of
    /// sigrok's.
    fn own_rate(self, unit: u8, first: Option<&[u8]>) -> Option<u64>
        ensures { result ≡ own_rate self unit (option_copied first.entry) (rate_told self.differs self.rate) }
    {
        let rate = self.rate_told()?;
        if is_sigrok_name(first) && is_this(unit, self.bare) && is_this(unit, unit_by(Some(rate))) {
            Some(rate)
        } else {
            None
        }
    }

    /// What is known after a remark of a rate, in a line with this text after its word, if it has it.
    fn with_rate(self, line: &[u8], text: Option<&[u8]>) -> Remarks
        ensures { result ≡ with_rate self line.now (option_copied text.entry) }
    {
        let Some(text) = text else {
            return self;
        };
        let rate = rate_in(behind_marks(text));
        let differs = self.differs || is_another(self.rate, rate);
        let bare = if is_word(first_of(without_signs(line), 11), b"Samplerate:") {
            unit_by(rate)
        } else {
            self.bare
        };
        Remarks {
            given: self.given,
            rate,
            differs,
            bare,
            separator: self.separator,
            alone: self.alone,
            behind: self.behind,
        }
    }

    /// What is known after a remark. The line that sigrok-cli puts in front of what it writes before it
    /// knows the rate says that a column called Time alone has no times.
    pub fn behind(self, line: &[u8]) -> Remarks
        ensures { result ≡ remarked self line.now }
    {
        match behind_word(b"METAsamplerate", line) {
            None => self.with_rate(line, behind_word(b"samplerate", line)),
            Some(text) => {
                let rate = rate_in(behind_marks(text));
                Remarks {
                    given: self.given,
                    rate,
                    differs: self.differs || is_another(self.rate, rate),
                    bare: None,
                    separator: self.separator,
                    alone: self.alone,
                    behind: self.behind,
                }
            }
        }
    }
}
