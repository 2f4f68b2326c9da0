//! Times in a table: what a field spells, and what a row's time is.

ghost use Rattle.std.specs.Prelude.{◌≡◌, ◌+◌, ◌^◌, ◌<◌, ◌≤◌, false, length, option_copied, take, IfSome, Some};
ghost use Rattle.std.specs.List.{list_all};
ghost use Rattle.pr_capture.specs.TableTimes.{behind_decimals_by, behind_part, behind_plus_minus, count_in, dated_in, decimals_by, earlier, exponent_in, few_places, from_start, has_rest, instant_at, instant_by, instant_in, is_decimal_sign, is_minus, is_zone_sign, left_at, micros_left, micros_of, places_in, sample_in, start_of, time_at_rate, time_or, times_in, unsigned_in, instant_of};
ghost use Rattle.pr_capture.specs.Numbers.{onward};
ghost use Rattle.pr_capture.specs.CsvSteps.{IsTimeAhead, decimals_len, is_plain};

use crate::fault::CaptureFault;
use crate::numbers::{
    are_some, behind_digits, behind_first, digits_ahead, digits_in, first_of, number_from,
    number_in, number_of_first,
};
use crate::signals::{are_framing, is_framing};
use pr_base::{digit_count, is_digit};

/// A moment of a table, in whole microseconds before or after its moment 0.
#[derive(Clone, Copy)]
pub struct Instant {
    /// Whether it is before.
    pub is_negative: bool,
    pub micros: u64,
}

/// How many places an exponent moves the point.
#[derive(Clone, Copy)]
pub struct Exponent {
    pub right: u8,
    pub left: u8,
}

/// Whether a minus is in front.
pub fn is_minus(text: &[u8]) -> bool
    ensures { result ≡ is_minus text.now }
{
    match text {
        [b, ..] => *b == b'-',
        [] => false,
    }
}

/// What follows a sign, if one is in front.
pub fn behind_plus_minus(text: &[u8]) -> &[u8]
    ensures { result.now ≡ behind_plus_minus text.now }
{
    match text {
        [] => &[],
        [b, rest @ ..] => { if *b == b'-' || *b == b'+' { rest } else { text } }
    }
}

/// An exponent of up to 255 places.
pub fn few_places(is_negative: bool, number: Option<u64>) -> Option<Exponent>
    ensures { result ≡ few_places is_negative number }
{
    let places = u8::try_from(number?).ok()?;
    if is_negative {
        Some(Exponent {
            right: 0,
            left: places,
        })
    } else {
        Some(Exponent {
            right: places,
            left: 0,
        })
    }
}

/// The places that the digits of an exponent spell, with nothing after them.
fn places_in(is_negative: bool, text: &[u8]) -> Option<Exponent>
    ensures { result ≡ places_in is_negative text.now }
{
    let digits = digits_in(text);
    if digits.is_empty() || !are_framing(behind_digits(text)) {
        return None;
    }
    few_places(is_negative, number_from(0, digits))
}

/// The exponent after the digits of a number, if nothing else is there.
fn exponent_in(text: &[u8]) -> Option<Exponent>
    ensures { result ≡ exponent_in text.now }
{
    match text {
        [] => Some(Exponent { right: 0, left: 0 }),
        [b, rest @ ..] => {
            if *b == b'E' || *b == b'e' {
                places_in(is_minus(rest), behind_plus_minus(rest))
            } else if are_framing(text) {
                Some(Exponent { right: 0, left: 0 })
            } else {
                None
            }
        }
    }
}

/// The whole microseconds of a number whose point moves to the right by this many places, and then to the
/// left.
fn micros_of(right: usize, left: usize, whole: &[u8], decimals: &[u8]) -> Option<u64>
    ensures { result ≡ micros_of right left whole.now decimals.now }
{
    if left <= right {
        let number = number_from(0, whole)?;
        number_of_first(number, right - left, decimals)
    } else {
        number_from(0, first_of(whole, whole.len().saturating_sub(left - right)))
    }
}

/// Whether there are other digits than zeros after the point then.
fn has_rest(right: usize, left: usize, whole: &[u8], decimals: &[u8]) -> bool
    ensures { result ≡ has_rest right left whole.now decimals.now }
{
    if left <= right {
        are_some(behind_first(decimals, right - left))
    } else {
        are_some(behind_first(whole, whole.len().saturating_sub(left - right)))
            || are_some(decimals)
    }
}

/// A time before 0 is rounded to the earlier microsecond too, where something is left.
fn earlier(is_left: bool, micros: Option<u64>) -> Option<u64>
    ensures { result ≡ earlier is_left micros }
{
    let micros = micros?;
    if is_left {
        micros.checked_add(1)
    } else {
        Some(micros)
    }
}

/// The time of a number whose point moves so.
fn instant_at(
    is_negative: bool,
    right: usize,
    left: usize,
    whole: &[u8],
    decimals: &[u8],
) -> Option<Instant>
    ensures { result ≡ instant_at is_negative right left whole.now decimals.now }
{
    let is_left = is_negative && has_rest(right, left, whole, decimals);
    let micros = earlier(is_left, micros_of(right, left, whole, decimals))?;
    Some(Instant {
        is_negative,
        micros,
    })
}

/// The time of these digits and decimals, in a unit, with an exponent.
fn instant_by(
    unit: u8,
    is_negative: bool,
    whole: &[u8],
    decimals: &[u8],
    exponent: Option<Exponent>,
) -> Option<Instant>
    ensures { result ≡ instant_by unit is_negative whole.now decimals.now exponent }
{
    let exponent = exponent?;
    if whole.is_empty() {
        return None;
    }
    let right = 6 + usize::from(exponent.right);
    let left = usize::from(unit) + usize::from(exponent.left);
    instant_at(is_negative, right, left, whole, decimals)
}

/// Whether a byte is the sign before decimals: a point, or a comma where another byte separates fields.
fn is_decimal_sign(separator: u8, b: u8) -> bool
    ensures { result ≡ is_decimal_sign separator b }
{
    b == b'.' || (b == b',' && separator != b',')
}

/// The digits after that sign, if it is here.
fn decimals_by(separator: u8, text: &[u8]) -> &[u8]
    ensures { result.now ≡ decimals_by separator text.now }
{
    match text {
        [] => &[],
        [b, rest @ ..] => {
            if is_decimal_sign(separator, *b) {
                digits_in(rest)
            } else {
                &[]
            }
        }
    }
}

/// What follows them.
fn behind_decimals_by(separator: u8, text: &[u8]) -> &[u8]
    ensures { result.now ≡ behind_decimals_by separator text.now }
{
    match text {
        [] => &[],
        [b, rest @ ..] => {
            if is_decimal_sign(separator, *b) {
                behind_digits(rest)
            } else {
                text
            }
        }
    }
}

/// The time that a number without its sign spells.
pub fn unsigned_in(separator: u8, unit: u8, is_negative: bool, text: &[u8]) -> Option<Instant>
    ensures { result ≡ unsigned_in separator unit is_negative text.now }
{
    let behind = behind_digits(text);
    let exponent = exponent_in(behind_decimals_by(separator, behind));
    instant_by(
        unit,
        is_negative,
        digits_in(text),
        decimals_by(separator, behind),
        exponent,
    )
}

/// What follows the digits in front of a text, and a sign after them.
fn behind_part(sign: u8, text: &[u8]) -> Option<&[u8]>
    ensures { option_copied result ≡ behind_part sign text.now }
{
    match behind_digits(text) {
        [] => None,
        [b, rest @ ..] => { if *b == sign { Some(rest) } else { None } }
    }
}

/// Whether a byte is one of a zone, or framing.
fn is_zone_sign(b: u8) -> bool
    ensures { result ≡ is_zone_sign b }
{
    is_digit(b) || b == b'Z' || b == b'+' || b == b'-' || b == b':' || is_framing(b)
}

/// Whether these are all bytes of a zone, or framing.
fn are_zone(bytes: &[u8]) -> bool
    ensures { result ≡ list_all is_zone_sign bytes.now }
{
    for b in bytes {
        if !is_zone_sign(*b) {
            return false;
        }
    }
    true
}

/// The microseconds from a moment of a month on to the end of its day 31.
fn micros_left(day: u64, hour: u64, minute: u64, second: u64, micros: u64) -> Option<u64>
    ensures { result ≡ micros_left day hour minute second micros }
{
    if day > 31 || hour >= 24 || minute >= 60 || second >= 60 || micros >= 1_000_000 {
        return None;
    }
    let minutes = ((32 - day) * 24 - hour) * 60 - minute;
    Some(minutes * 60_000_000 - second * 1_000_000 - micros)
}

/// The same of the moment that these texts begin with: a day, an hour, a minute, a second and its
/// decimals.
fn left_at(separator: u8, day: &[u8], hour: &[u8], minute: &[u8], second: &[u8]) -> Option<u64>
    ensures { result ≡ left_at separator day.now hour.now minute.now second.now }
{
    let decimals = decimals_by(separator, behind_digits(second));
    let day = number_in(day)?;
    let hour = number_in(hour)?;
    let minute = number_in(minute)?;
    let second = number_in(second)?;
    let micros = number_of_first(0, 6, decimals)?;
    micros_left(day, hour, minute, second, micros)
}

/// The time of a date and a time of day, counted back from the end of the month's last day.
fn dated_in(separator: u8, text: &[u8]) -> Option<Instant>
    ensures { result ≡ dated_in separator text.now }
{
    let month = behind_part(b'-', text)?;
    let day = behind_part(b'-', month)?;
    let hour = behind_part(b'T', day)?;
    let minute = behind_part(b':', hour)?;
    let second = behind_part(b':', minute)?;
    if !are_zone(behind_decimals_by(separator, behind_digits(second))) {
        return None;
    }
    let micros = left_at(separator, day, hour, minute, second)?;
    Some(Instant {
        is_negative: true,
        micros,
    })
}

/// Whether a byte can be in a plain time: a digit or a point.
pub fn is_plain(b: u8) -> bool
    ensures { result ≡ is_plain b }
{
    is_digit(b) || b == b'.'
}

/// A plain time in front of a text: digits, or digits, a point and decimals.
#[derive(Clone, Copy)]
pub struct PlainTime {
    /// How many bytes it has.
    pub len: usize,
    /// The whole microseconds that it spells.
    pub micros: u64,
}

/// How many bytes a point and decimals have, if a point is here.
fn decimals_len(text: &[u8]) -> usize
    ensures len { result ≡ decimals_len text.now }
    ensures within { result ≤ length text.now }
{
    match text {
        [] => 0,
        [b, rest @ ..] => { if *b == b'.' { 1 + digit_count(rest) } else { 0 } }
    }
}

/// The plain time in front of a text in a unit, if it begins with a digit and is below 2^64 microseconds.
#[inline(always)]
pub fn plain_in(unit: u8, text: &[u8]) -> Option<PlainTime>
    ensures plain { IfSome result (λ t. IsTimeAhead unit text.now t) }
    ensures within { IfSome result (λ t. t.len ≤ length text.now) }
{
    if unit == 6 {
        let digits = digits_ahead(text)?;
        if digits.len > 0 && decimals_len(&text[digits.len..]) == 0 {
            return Some(PlainTime {
                len: digits.len,
                micros: digits.number,
            });
        }
    }
    let count = digit_count(text);
    let whole = &text[..count];
    if whole.is_empty() {
        return None;
    }
    let behind = &text[count..];
    let len = decimals_len(behind);
    let decimals = behind_first(&behind[..len], 1);
    Some(PlainTime {
        len: count + len,
        micros: micros_of(6, usize::from(unit), whole, decimals)?,
    })
}

/// The time that a field of a table with this separator spells: a date and a time of day, or a number of units, of
/// which one is a second's decimal of this place.
pub fn instant_in(separator: u8, unit: u8, field: &[u8]) -> Option<Instant>
    ensures { result ≡ instant_in separator unit field.now }
{
    match dated_in(separator, field) {
        Some(time) => Some(time),
        None => unsigned_in(separator, unit, is_minus(field), behind_plus_minus(field)),
    }
}

/// How long before moment 0 a table starts, in microseconds, which has this time first where no start is
/// known.
pub fn start_of(start: Option<u64>, first: Instant) -> u64
    ensures { result ≡ start_of start first }
{
    match start {
        Some(start) => start,
        None => { if first.is_negative { first.micros } else { 0 } }
    }
}

/// A time from a table's start on, in microseconds.
pub fn from_start(number: usize, start: u64, time: Instant) -> Result<u64, CaptureFault>
    ensures { result ≡ from_start number start time }
{
    if time.is_negative {
        start
            .checked_sub(time.micros)
            .ok_or(CaptureFault::GoesBack(number))
    } else {
        start
            .checked_add(time.micros)
            .ok_or(CaptureFault::BadTime(number))
    }
}

/// A row's time, which in whole microseconds is not before that of an earlier row.
pub fn time_or(number: usize, before: u64, time: Option<u64>) -> Result<u64, CaptureFault>
    ensures { result ≡ time_or number before time }
{
    match time {
        None => Err(CaptureFault::BadTime(number)),
        Some(time) => {
            if time < before {
                Err(CaptureFault::GoesBack(number))
            } else {
                Ok(time)
            }
        }
    }
}

/// The time of the sample after this many others, in microseconds, where a second has this many.
pub fn time_at_rate(rate: u64, count: u64) -> Option<u64>
    ensures time { result ≡ time_at_rate rate count }
    ensures few { IfSome result (λ t. count + 1 < 2 ^ 64) }
{
    if rate == 0 || count == u64::MAX {
        return None;
    }
    // Nearly always the product has 64 bits, and the division is one instruction.
    if let Some(micros) = count.checked_mul(1_000_000) {
        return Some(micros / rate);
    }
    u64::try_from(u128::from(count) * 1_000_000 / u128::from(rate)).ok()
}

/// The number that a field spells by digits alone.
pub fn count_in(text: &[u8]) -> Option<u64>
    ensures { result ≡ count_in text.now }
{
    if are_framing(behind_digits(text)) {
        number_in(text)
    } else {
        None
    }
}

/// How often a number has a step, if it has it so often exactly.
fn times_in(step: u64, number: u64) -> Option<u64>
    ensures { result ≡ times_in step number }
{
    if step != 0 && number % step == 0 {
        Some(number / step)
    } else {
        None
    }
}

/// The time of the sample whose number is this one, a step times, where a second has this many samples.
pub fn sample_at(step: u64, rate: u64, number: u64) -> Option<Instant>
    ensures { result ≡ instant_of false (onward (times_in step number) (time_at_rate rate)) }
{
    let count = times_in(step, number)?;
    Some(Instant {
        is_negative: false,
        micros: time_at_rate(rate, count)?,
    })
}

/// The same of the number that a field spells.
pub fn sample_in(step: u64, rate: u64, field: &[u8]) -> Option<Instant>
    ensures { result ≡ sample_in step rate field.now }
{
    sample_at(step, rate, count_in(field)?)
}
