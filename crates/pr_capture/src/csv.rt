//! Reading tables of separated values, as logic analysers export them.
//!
//! The kit's crate `csv` does not fit: its reader owns its stream, while all three formats are read
//! from the front of a block that the caller has read (`take_front`), so that one loop serves
//! them; its clauses do not say on which line a row is; and its quoted fields may hold line ends.

ghost use Rattle.std.specs.Prelude.{◌≡◌, ◌+◌, ◌^◌, ◌<◌, ◌≤◌, ◌∷◌, [], false, true, None, Err, IfErr, IfOk, Ok, drop, length, option_copied, take, IfSome, Some};
ghost use Rattle.std.specs.List.{list_all, prefix_len};
ghost use Rattle.pr_capture.specs.Csv.{are_logic, begins_digit, behind_colon, behind_mark, behind_point, cell_level, channels_in, clock_name, column_in, columns_by, columns_called, columns_or, column_of, columns_in, field_at, fields_of, first_moment, has_level, has_number, has_numeral, has_return, has_times, instant_of_number, instant_of_row, is_archive, is_foreign, is_in_front, is_inner, is_level, is_line_at, is_level_letter, is_number, is_other, is_separator, is_silent, is_twice, is_wide, last_of, layout_beside, layout_by, layout_last, layout_of, level_at, level_of, level_or, moment_at, moment_next, moment_of, noted, opened, place_meant, rate_beside, rated, row_of, sample_by, sample_of, separator_behind, separator_of, separator_or, separator_said, with_channels, with_separator, without_space, without_zeros};
ghost use Rattle.pr_capture.specs.CsvReads.{EndsText, FaultsIn, ReadsMore, RefusesTable, SkipsRows, TakesRepeats};
ghost use Rattle.pr_capture.specs.CsvSteps.{field_len, fields_left, line_number, moment_after, with_len, AreTimed, AnswersEnd, HasNoRows, HasReadTable, HoldsMore, IsRowOf, NamesAreRefused, NamesLeadTo, ReadsLine};
ghost use Rattle.pr_capture.specs.TableTimes.{time_at_rate};
ghost use Rattle.pr_capture.specs.declared.fault.CaptureFault.TheVariants.{NoMemory};

use crate::entries::is_word;
use crate::fault::{CaptureFault, Wire};
use crate::last_row::LastRow;
use crate::numbers::{behind_first, behind_word, first_of};
use crate::remarks::{Remarks, has_numbers, is_counting, is_timing, scale_of, time_unit};
use crate::signals::{
    Probes, Signals, are_framing, is_named, is_space, level_in, shared, without_front,
};
use crate::times::{
    Instant, behind_plus_minus, count_in, from_start, instant_in, sample_in, start_of,
    time_at_rate, time_or,
};
use crate::volts::{Threshold, volts_in};
use pr_base::is_digit;
use pr_wire::{Edge, Levels};
use std::alloc::Global;

/// The places of the three lines' columns, from 0.
#[derive(Clone, Copy)]
pub struct Columns {
    pub atn: usize,
    pub clock: usize,
    pub line: usize,
    /// Whether the first column is none of these, and has neither times nor numbers by its name: it has levels too.
    pub has_other_first: bool,
    /// Whether the rows' times come of a rate: then no later column has other numbers than levels.
    pub are_rated: bool,
}

/// What the rows' times are.
#[derive(Clone, Copy)]
pub enum Scale {
    /// Each row has its time, in this unit: how many decimals it is of a second.
    Timed(u8),
    /// Each row has the number of its sample, `step` times, and a second has `rate` samples.
    Numbered { step: u64, rate: u64 },
    /// A row is a sample, and a second has this many.
    Counted(u64),
}

/// How the rows of a table are read.
#[derive(Clone, Copy)]
pub struct Layout {
    pub columns: Columns,
    /// The byte that separates fields.
    pub separator: u8,
    pub scale: Scale,
    /// The place of the times or numbers, from 0.
    pub times: usize,
}

/// Where the next row is in time.
#[derive(Clone, Copy)]
pub struct Moment {
    /// How long before moment 0 the table starts, in microseconds, once a row has shown it.
    pub start: Option<u64>,
    /// The time of the last row, in microseconds from the start on.
    pub before: u64,
    /// How many samples come before, in a table without times.
    pub count: u64,
    /// The levels of the last row; all lines are released before the first.
    pub levels: Levels,
}

/// What follows the white space in front.
fn without_space(bytes: &[u8]) -> &[u8]
    ensures { result.now ≡ without_space bytes.now }
{
    for (i, b) in bytes.iter().enumerate() {
        if !is_space(*b) {
            return &bytes[i..];
        }
    }
    &[]
}

/// Whether a line is blank or a remark, which begins with `;` or `#`.
fn is_silent(line: &[u8]) -> bool
    ensures { result ≡ is_silent line.now }
{
    match without_space(line) {
        [] => true,
        [b, ..] => *b == b';' || *b == b'#',
    }
}

/// Whether a byte can separate fields.
pub fn is_separator(b: u8) -> bool
    ensures { result ≡ is_separator b }
{
    b == b',' || b == b';' || b == b'\t'
}

/// What separates fields, if this follows the word for it: an equals sign, and a comma, a semicolon or a tab.
fn separator_behind(rest: &[u8]) -> Option<u8>
    ensures { result ≡ separator_behind rest.now }
{
    match rest {
        [sign, b, more @ ..] => {
            if *sign == b'=' && is_separator(*b) && are_framing(more) {
                Some(*b)
            } else {
                None
            }
        }
        _ => None,
    }
}

/// What separates fields, if a line says so, as spreadsheets are told.
fn separator_said(line: &[u8]) -> Option<u8>
    ensures { result ≡ separator_said line.now }
{
    separator_behind(behind_word(b"sep", line)?)
}

/// Whether a line comes before that of the names: it is silent, or the line that sigrok-cli puts in front of what it
/// writes, or says what separates fields.
fn is_in_front(line: &[u8]) -> bool
    ensures { result ≡ is_in_front line.now }
{
    is_silent(line)
        || behind_word(b"METAsamplerate", line).is_some()
        || separator_said(line).is_some()
}

/// What separates fields, by the line of the names: the first comma, semicolon or tab.
fn separator_of(line: &[u8]) -> u8
    ensures { result ≡ separator_of line.now }
{
    for b in line {
        if is_separator(*b) {
            return *b;
        }
    }
    b','
}

/// The same where a line before has said it, or not.
fn separator_or(said: Option<u8>, line: &[u8]) -> u8
    ensures { result ≡ separator_or said line.now }
{
    match said {
        None => separator_of(line),
        Some(separator) => separator,
    }
}

/// How many bytes the first field has. A separator between quotation marks does not end it.
pub fn field_len(separator: u8, line: &[u8]) -> usize
    ensures len { result ≡ field_len separator false line.now }
    ensures within { result ≤ length line.now }
{
    let mut is_quoted = false;
    for (i, b) in line.iter().enumerate() {
        if *b == separator && !is_quoted {
            return i;
        }
        if *b == b'"' {
            is_quoted = !is_quoted;
        }
    }
    line.len()
}

/// The first field of a line, and what follows its separator, if it has one.
fn split_field(separator: u8, line: &[u8]) -> (&[u8], Option<&[u8]>)
    ensures { fields_of separator false line.now ≡ result.0.now ∷ fields_left separator (option_copied result.1) }
{
    let len = field_len(separator, line);
    if len < line.len() {
        (&line[..len], Some(&line[len + 1..]))
    } else {
        (line, None)
    }
}

/// The field of a place, from 0.
fn field_at(separator: u8, line: &[u8], place: usize) -> Option<&[u8]>
    ensures { option_copied result ≡ field_at place (fields_of separator false line.now) }
{
    let mut rest = line;
    let mut left = place;
    while left > 0 {
        let (_, Some(more)) = split_field(separator, rest) else {
            return None;
        };
        rest = more;
        left -= 1;
    }
    Some(split_field(separator, rest).0)
}

/// The place of the first field that is this name, where the first of them has a place.
fn column_of(name: &[u8], place: usize, separator: u8, fields: Option<&[u8]>) -> Option<usize>
    requires { place + length (fields_left separator (option_copied fields)) < 2 ^ 64 }
    ensures { result ≡ column_of name.now place (fields_left separator (option_copied fields.entry)) }
{
    let mut at = place;
    let mut left = fields;
    while let Some(line) = left {
        let (field, more) = split_field(separator, line);
        if is_named(name, field) {
            return Some(at);
        }
        at += 1;
        left = more;
    }
    None
}

/// Whether two fields are this name.
fn is_twice(name: &[u8], separator: u8, fields: Option<&[u8]>) -> bool
    requires { length (fields_left separator (option_copied fields)) < 2 ^ 64 }
    ensures { result ≡ is_twice name.now (fields_left separator (option_copied fields.entry)) }
{
    let mut left = fields;
    while let Some(line) = left {
        let (field, more) = split_field(separator, line);
        if is_named(name, field) {
            return column_of(name, 0, separator, more).is_some();
        }
        left = more;
    }
    false
}

/// Whether a field is a number.
fn has_numeral(separator: u8, fields: Option<&[u8]>) -> bool
    requires { length (fields_left separator (option_copied fields)) < 2 ^ 64 }
    ensures { result ≡ has_numeral (fields_left separator (option_copied fields.entry)) }
{
    let mut left = fields;
    while let Some(line) = left {
        let (field, more) = split_field(separator, line);
        if count_in(without_front(field)).is_some() {
            return true;
        }
        left = more;
    }
    false
}

/// The place of the field that a name means, where the first of them has a place: that which is this name, or, where no
/// field is a number, that with this number, from 0.
fn place_meant(name: &[u8], place: usize, separator: u8, fields: Option<&[u8]>) -> Option<usize>
    requires { place + length (fields_left separator (option_copied fields)) < 2 ^ 64 }
    ensures { result ≡ place_meant name.now place (fields_left separator (option_copied fields.entry)) }
{
    if let Some(at) = column_of(name, place, separator, fields) {
        return Some(at);
    }
    if has_numeral(separator, fields) {
        return None;
    }
    let number = usize::try_from(count_in(without_front(name))?).ok()?;
    let line = fields?;
    match field_at(separator, line, number) {
        None => None,
        Some(_) => Some(place + number),
    }
}

/// Whether the column at a place is that of a line.
fn is_line_at(columns: Columns, place: usize) -> bool
    ensures { result ≡ is_line_at columns place }
{
    columns.atn == place || columns.clock == place || columns.line == place
}

/// Whether one of these columns, of which the first has this place, has times or numbers by its name, and is none of the
/// three lines'.
fn has_times(columns: Columns, place: usize, separator: u8, fields: Option<&[u8]>) -> bool
    requires { place + length (fields_left separator (option_copied fields)) < 2 ^ 64 }
    ensures { result ≡ has_times columns place (fields_left separator (option_copied fields.entry)) }
{
    let mut column = place;
    let mut left = fields;
    while let Some(line) = left {
        let (field, more) = split_field(separator, line);
        if is_timing(field) && !is_line_at(columns, column) {
            return true;
        }
        column += 1;
        left = more;
    }
    false
}

/// The place of the column that a wire needs, which no other has the name of.
fn column_in(
    number: usize,
    wire: Wire,
    name: &[u8],
    place: usize,
    separator: u8,
    fields: Option<&[u8]>,
) -> Result<usize, CaptureFault>
    requires { place + length (fields_left separator (option_copied fields)) < 2 ^ 64 }
    ensures { result ≡ column_in number wire name.now place (fields_left separator (option_copied fields.entry)) }
{
    if is_twice(name, separator, fields) {
        return Err(CaptureFault::TwoSignals(number, wire));
    }
    match place_meant(name, place, separator, fields) {
        None => Err(CaptureFault::NoSignal(number, wire)),
        Some(place) => Ok(place),
    }
}

/// CLOCK's name: its first, or else its second.
fn clock_name<'s>(signals: &'s Signals<'_>, separator: u8, fields: Option<&[u8]>) -> &'s [u8]
    requires { length (fields_left separator (option_copied fields)) < 2 ^ 64 }
    ensures { result.now ≡ clock_name signals.now (fields_left separator (option_copied fields.entry)) }
{
    match column_of(signals.clock, 0, separator, fields) {
        Some(_) => signals.clock,
        None => signals.second_name(),
    }
}

/// Whether the first column is none of these, where columns are counted from it.
fn is_other(place: usize, atn: usize, clock: usize, line: usize) -> bool
    ensures { result ≡ is_other place atn clock line }
{
    place == 0 && atn != 0 && clock != 0 && line != 0
}

/// The columns of the three lines, each of its own, by the fields from a place on.
fn columns_in(
    signals: &Signals<'_>,
    number: usize,
    place: usize,
    separator: u8,
    fields: Option<&[u8]>,
) -> Result<Columns, CaptureFault>
    requires { place + length (fields_left separator (option_copied fields)) < 2 ^ 64 }
    ensures { result ≡ columns_in signals.now number place (fields_left separator (option_copied fields.entry)) }
{
    let clock = clock_name(signals, separator, fields);
    let atn = column_in(number, Wire::Atn, signals.atn, place, separator, fields)?;
    let clock = column_in(number, Wire::Clock, clock, place, separator, fields)?;
    let line = column_in(number, Wire::Data, signals.line, place, separator, fields)?;
    if let Some(fault) = shared(number, clock == atn, line == atn || line == clock) {
        return Err(fault);
    }
    Ok(Columns {
        atn,
        clock,
        line,
        has_other_first: is_other(place, atn, clock, line),
        are_rated: false,
    })
}

/// The same columns, where the rows' times come of a rate.
fn rated(columns: Columns) -> Columns
    ensures { result ≡ rated columns }
{
    Columns {
        atn: columns.atn,
        clock: columns.clock,
        line: columns.line,
        has_other_first: columns.has_other_first,
        are_rated: true,
    }
}

/// What follows the first colon.
fn behind_colon(text: &[u8]) -> Option<&[u8]>
    ensures behind { option_copied result ≡ behind_colon text.now }
    ensures within { IfSome result (λ l. length l.now + 1 ≤ length text.now) }
{
    for (i, b) in text.iter().enumerate() {
        if *b == b':' {
            return Some(&text[i + 1..]);
        }
    }
    None
}

/// The names in sigrok's remark of its channels.
fn channels_in(line: &[u8]) -> Option<&[u8]>
    ensures names { option_copied result ≡ channels_in line.now }
    ensures within { IfSome result (λ l. length l.now + 1 ≤ length line.now) }
{
    if behind_word(b"channels", line).is_some() {
        behind_colon(line)
    } else {
        None
    }
}

/// The columns of the three lines, if the columns from a place on have these names.
fn columns_called(signals: &Signals<'_>, place: usize, names: &[u8]) -> Option<Columns>
    requires { place + length (fields_of 44 false names.now) < 2 ^ 64 }
    ensures { result ≡ columns_called signals.now place names.now }
{
    match columns_in(signals, 0, place, b',', Some(names)) {
        Ok(columns) => Some(columns),
        Err(_) => None,
    }
}

/// What is known after a line that says what separates fields, if it does.
fn with_separator(remarks: Remarks, said: Option<u8>) -> Remarks
    ensures { result ≡ with_separator remarks said }
{
    match said {
        None => remarks,
        Some(separator) => Remarks {
            given: remarks.given,
            rate: remarks.rate,
            differs: remarks.differs,
            bare: remarks.bare,
            separator: Some(separator),
            alone: remarks.alone,
            behind: remarks.behind,
        },
    }
}

/// What is known after sigrok's remark of its channels, if a line is one.
fn with_channels(signals: &Signals<'_>, remarks: Remarks, names: Option<&[u8]>) -> Remarks
    requires { IfSome names (λ l. length l.now + 2 < 2 ^ 64) }
    ensures { result ≡ with_channels signals.now remarks (option_copied names.entry) }
{
    match names {
        None => remarks,
        Some(names) => Remarks {
            given: remarks.given,
            rate: remarks.rate,
            differs: remarks.differs,
            bare: remarks.bare,
            separator: remarks.separator,
            alone: columns_called(signals, 0, names),
            behind: columns_called(signals, 1, names),
        },
    }
}

/// What is known after a line that comes before that of the names.
fn noted(signals: &Signals<'_>, remarks: Remarks, line: &[u8]) -> Remarks
    requires { length line.now + 1 < 2 ^ 64 }
    ensures { result ≡ noted signals.now remarks line.now }
{
    let behind = with_separator(remarks.behind(line), separator_said(line));
    with_channels(signals, behind, channels_in(line))
}

/// Whether all of these columns are called by the unit that sigrok has for levels.
fn are_logic(separator: u8, fields: Option<&[u8]>) -> bool
    requires { length (fields_left separator (option_copied fields)) < 2 ^ 64 }
    ensures { result ≡ are_logic (fields_left separator (option_copied fields.entry)) }
{
    let mut left = fields;
    while let Some(line) = left {
        let (field, more) = split_field(separator, line);
        if !is_named(b"logic", field) {
            return false;
        }
        left = more;
    }
    true
}

/// The columns of the three lines: where sigrok's units are the names, those of its remark, if there was one.
fn columns_by(
    signals: &Signals<'_>,
    said: Option<Columns>,
    number: usize,
    place: usize,
    separator: u8,
    fields: Option<&[u8]>,
) -> Result<Columns, CaptureFault>
    requires { place + length (fields_left separator (option_copied fields)) < 2 ^ 64 }
    ensures { result ≡ columns_by signals.now said number place (fields_left separator (option_copied fields.entry)) }
{
    if let Some(columns) = said {
        if are_logic(separator, fields) {
            return Ok(columns);
        }
    }
    columns_in(signals, number, place, separator, fields)
}

/// The rate of samples, where the first column is another than one of times or of numbers.
fn rate_beside(remarks: Remarks, first: Option<&[u8]>) -> Option<u64>
    ensures { result ≡ rate_beside remarks (option_copied first.entry) }
{
    match first {
        None => remarks.rate_known(),
        Some(name) => {
            if is_counting(name) {
                None
            } else {
                remarks.rate_known()
            }
        }
    }
}

/// The last of these fields; nothing where there is none.
fn last_of(separator: u8, fields: Option<&[u8]>) -> &[u8]
    requires { length (fields_left separator (option_copied fields)) < 2 ^ 64 }
    ensures { result.now ≡ last_of [] (fields_left separator (option_copied fields.entry)) }
{
    let mut last: &[u8] = &[];
    let mut left = fields;
    while let Some(line) = left {
        let (field, more) = split_field(separator, line);
        last = field;
        left = more;
    }
    last
}

/// How many fields these are.
fn count_of(separator: u8, fields: Option<&[u8]>) -> usize
    requires { length (fields_left separator (option_copied fields)) < 2 ^ 64 }
    ensures { result ≡ length (fields_left separator (option_copied fields.entry)) }
{
    let mut count = 0;
    let mut left = fields;
    while let Some(line) = left {
        let (_, more) = split_field(separator, line);
        count += 1;
        left = more;
    }
    count
}

/// How a table is read whose last column has the times, by its name; None where its name is none of times, or one of
/// the three lines has it.
fn layout_last(remarks: Remarks, columns: Columns, separator: u8, line: &[u8]) -> Option<Layout>
    requires { length (fields_of separator false line.now) < 2 ^ 64 }
    ensures { result ≡ layout_last remarks separator columns (fields_of separator false line.now) }
{
    let name = last_of(separator, Some(line));
    let unit = time_unit(remarks.bare_unit(), name)?;
    let times = count_of(separator, Some(line)).saturating_sub(1);
    if is_line_at(columns, times) {
        return None;
    }
    Some(Layout {
        columns: Columns {
            atn: columns.atn,
            clock: columns.clock,
            line: columns.line,
            has_other_first: false,
            are_rated: columns.are_rated,
        },
        separator,
        scale: scale_of(remarks, unit, Some(name)),
        times,
    })
}

/// How a table is read whose first column has no times: it has the numbers of samples, or the last one has the times, or
/// a row is a sample.
fn layout_beside(
    signals: &Signals<'_>,
    remarks: Remarks,
    number: usize,
    separator: u8,
    has_numbers: bool,
    line: &[u8],
    more: Option<&[u8]>,
) -> Result<Layout, CaptureFault>
    requires first { 1 + length (fields_left separator (option_copied more)) < 2 ^ 64 }
    requires all { length (fields_of separator false line.now) < 2 ^ 64 }
    requires more { drop 1 (fields_of separator false line.now) ≡ fields_left separator (option_copied more) }
    ensures { result ≡ layout_beside signals.now remarks number separator has_numbers (fields_of separator false line.now) }
{
    let columns = if has_numbers {
        columns_by(signals, remarks.behind, number, 1, separator, more)?
    } else {
        columns_by(signals, remarks.alone, number, 0, separator, Some(line))?
    };
    if !has_numbers {
        if let Some(layout) = layout_last(remarks, columns, separator, line) {
            return Ok(layout);
        }
    }
    let rate = if has_times(columns, 1, separator, more) {
        None
    } else if has_numbers {
        remarks.rate_known()
    } else {
        rate_beside(remarks, field_at(separator, line, 0))
    };
    let Some(rate) = rate else {
        return Err(CaptureFault::NoTime(number));
    };
    let scale = if has_numbers {
        Scale::Numbered { step: 1, rate }
    } else {
        Scale::Counted(rate)
    };
    Ok(Layout {
        columns: rated(columns),
        separator,
        scale,
        times: 0,
    })
}

/// How a table is read whose first column has times of this unit, or no times, by the line of its names
/// and what follows its first field.
fn layout_by(
    signals: &Signals<'_>,
    remarks: Remarks,
    number: usize,
    separator: u8,
    unit: Option<u8>,
    line: &[u8],
    more: Option<&[u8]>,
) -> Result<Layout, CaptureFault>
    requires first { 1 + length (fields_left separator (option_copied more)) < 2 ^ 64 }
    requires all { length (fields_of separator false line.now) < 2 ^ 64 }
    requires more { drop 1 (fields_of separator false line.now) ≡ fields_left separator (option_copied more) }
    ensures { result ≡ layout_by signals.now remarks number separator unit (fields_of separator false line.now) }
{
    match unit {
        Some(unit) => {
            let columns = columns_by(signals, remarks.behind, number, 1, separator, more)?;
            Ok(Layout {
                columns,
                separator,
                scale: scale_of(remarks, unit, field_at(separator, line, 0)),
                times: 0,
            })
        }
        None => {
            let numbers = has_numbers(remarks.bare, field_at(separator, line, 0));
            layout_beside(signals, remarks, number, separator, numbers, line, more)
        }
    }
}

/// Whether a line has a byte 13 with more after it, which ends no line here.
fn has_return(line: &[u8]) -> bool
    ensures { result ≡ has_return line.now }
{
    for (i, b) in line.iter().enumerate() {
        if *b == b'\r' {
            return !are_framing(&line[i + 1..]);
        }
    }
    false
}

/// How a table is read, by the line of its names.
fn layout_of(
    signals: &Signals<'_>,
    remarks: Remarks,
    number: usize,
    line: &[u8],
) -> Result<Layout, CaptureFault>
    requires { length line.now + 1 < 2 ^ 64 }
    ensures { result ≡ layout_of signals.now remarks number line.now }
{
    if has_return(line) {
        return Err(CaptureFault::NoSignal(number, Wire::Atn));
    }
    let separator = separator_or(remarks.separator, line);
    let (first, more) = split_field(separator, line);
    let unit = time_unit(remarks.bare_unit(), first);
    layout_by(signals, remarks, number, separator, unit, line, more)
}

/// What follows the zeros in front.
fn without_zeros(bytes: &[u8]) -> &[u8]
    ensures { result.now ≡ without_zeros bytes.now }
{
    for (i, b) in bytes.iter().enumerate() {
        if *b != b'0' {
            return &bytes[i..];
        }
    }
    &[]
}

/// What follows a point and zeros, if they are in front.
fn behind_point(bytes: &[u8]) -> &[u8]
    ensures { result.now ≡ behind_point bytes.now }
{
    match bytes {
        [] => &[],
        [b, rest @ ..] => {
            if *b == b'.' {
                without_zeros(rest)
            } else {
                bytes
            }
        }
    }
}

/// The level that a letter spells in a table, in which z is released.
fn cell_level(number: usize, is_inverted: bool, b: u8) -> Result<bool, CaptureFault>
    ensures { result ≡ cell_level number is_inverted b }
{
    if b == b'z' || b == b'Z' {
        return Ok(true);
    }
    level_in(number, is_inverted, b)
}

/// The level that a field spells: 0 or 1.0.
fn level_of(number: usize, is_inverted: bool, field: &[u8]) -> Result<bool, CaptureFault>
    ensures { result ≡ level_of number is_inverted field.now }
{
    match field {
        [] => Err(CaptureFault::BadLevel(number)),
        [b, rest @ ..] => {
            if are_framing(behind_point(rest)) {
                cell_level(number, is_inverted, *b)
            } else {
                Err(CaptureFault::BadLevel(number))
            }
        }
    }
}

/// The level that a field spells, as it is, or in volts where there is a threshold, in a line with this level before.
fn level_at(
    number: usize,
    separator: u8,
    is_inverted: bool,
    before: bool,
    threshold: Option<Threshold>,
    field: &[u8],
) -> Result<bool, CaptureFault>
    ensures { result ≡ level_at number separator is_inverted before threshold field.now }
{
    let Some(threshold) = threshold else {
        return level_of(number, is_inverted, field);
    };
    match volts_in(separator, field) {
        None => Err(CaptureFault::BadLevel(number)),
        Some(volts) => Ok(threshold.level(is_inverted, before, volts)),
    }
}

/// The level in a wire's column, which had this one before.
fn level_or(
    number: usize,
    separator: u8,
    probes: Probes,
    wire: Wire,
    before: bool,
    field: Option<&[u8]>,
) -> Result<bool, CaptureFault>
    ensures { result ≡ level_or number separator probes wire before (option_copied field.entry) }
{
    match field {
        None => Err(CaptureFault::NoLevel(number, wire)),
        Some(field) => level_at(
            number,
            separator,
            probes.inverts(wire),
            before,
            probes.threshold,
            without_front(field),
        ),
    }
}

/// Whether a byte is a letter of a level, known or not.
fn is_level_letter(b: u8) -> bool
    ensures { result ≡ is_level_letter b }
{
    b == b'0'
        || b == b'L'
        || b == b'l'
        || b == b'1'
        || b == b'H'
        || b == b'h'
        || b == b'x'
        || b == b'X'
        || b == b'z'
        || b == b'Z'
}

/// Whether a field is a level, known or not.
fn is_level(field: &[u8]) -> bool
    ensures { result ≡ is_level field.now }
{
    match field {
        [] => false,
        [b, rest @ ..] => is_level_letter(*b) && are_framing(behind_point(rest)),
    }
}

/// Whether the first field is one.
fn has_level(first: Option<&[u8]>) -> bool
    ensures { result ≡ has_level (option_copied first.entry) }
{
    match first {
        None => false,
        Some(field) => is_level(without_front(field)),
    }
}

/// Whether a digit is in front.
fn begins_digit(text: &[u8]) -> bool
    ensures { result ≡ begins_digit text.now }
{
    match text {
        [b, ..] => is_digit(*b),
        [] => false,
    }
}

/// What follows a point or a comma, if one is in front.
fn behind_mark(text: &[u8]) -> &[u8]
    ensures { result.now ≡ behind_mark text.now }
{
    match text {
        [] => &[],
        [b, rest @ ..] => { if *b == b'.' || *b == b',' { rest } else { text } }
    }
}

/// Whether a field begins as a number does, and is no level.
fn is_number(field: &[u8]) -> bool
    ensures { result ≡ is_number field.now }
{
    begins_digit(behind_mark(behind_plus_minus(field))) && !is_level(field)
}

/// Whether one of these columns, of which the first has this place, has such a number, and is none of the three lines'.
fn has_number(columns: Columns, place: usize, separator: u8, fields: Option<&[u8]>) -> bool
    requires { place + length (fields_left separator (option_copied fields)) < 2 ^ 64 }
    ensures { result ≡ has_number columns place (fields_left separator (option_copied fields.entry)) }
{
    let mut here = place;
    let mut left = fields;
    while let Some(line) = left {
        let (field, more) = split_field(separator, line);
        if is_number(without_front(field)) && !is_line_at(columns, here) {
            return true;
        }
        here += 1;
        left = more;
    }
    false
}

/// Whether a row has times or numbers that no name says: a first column that is none of the three lines' has no level
/// in it, or at a rate a later one has a number.
fn is_foreign(layout: Layout, line: &[u8]) -> bool
    ensures { result ≡ is_foreign layout.columns (fields_of layout.separator false line.now) }
{
    if layout.columns.has_other_first && !has_level(field_at(layout.separator, line, 0)) {
        return true;
    }
    if !layout.columns.are_rated {
        return false;
    }
    let (_, later) = split_field(layout.separator, line);
    has_number(layout.columns, 1, layout.separator, later)
}

/// The sample of the three lines' columns, which has this time, after these levels.
fn sample_by(
    layout: Layout,
    probes: Probes,
    before: Levels,
    number: usize,
    line: &[u8],
    time: u64,
) -> Result<Edge, CaptureFault>
    ensures { result ≡ sample_by layout probes before number (fields_of layout.separator false line.now) time }
{
    let columns = layout.columns;
    let separator = layout.separator;
    let atn = level_or(
        number,
        separator,
        probes,
        Wire::Atn,
        before.atn,
        field_at(separator, line, columns.atn),
    )?;
    let clock = level_or(
        number,
        separator,
        probes,
        Wire::Clock,
        before.clock,
        field_at(separator, line, columns.clock),
    )?;
    let line = level_or(
        number,
        separator,
        probes,
        Wire::Data,
        before.line,
        field_at(separator, line, columns.line),
    )?;
    let levels = Levels { atn, clock, line };
    Ok(Edge { time, levels })
}

/// A row's sample, which has this time, after these levels.
fn sample_of(
    layout: Layout,
    probes: Probes,
    before: Levels,
    number: usize,
    line: &[u8],
    time: u64,
) -> Result<Edge, CaptureFault>
    ensures { result ≡ sample_of layout probes before number (fields_of layout.separator false line.now) time }
{
    if is_foreign(layout, line) {
        return Err(CaptureFault::NoTime(number));
    }
    sample_by(layout, probes, before, number, line, time)
}

/// How many rows there were after `rows` more.
fn with_rows(count: u64, rows: usize) -> Option<u64>
    ensures { IfSome result (λ n. n ≡ count + rows) }
{
    count.checked_add(u64::try_from(rows).ok()?)
}

/// The time that a row's field of times spells.
fn instant_of_row(separator: u8, unit: u8, time: Option<&[u8]>) -> Option<Instant>
    ensures { result ≡ instant_of_row separator unit (option_copied time.entry) }
{
    instant_in(separator, unit, without_front(time?))
}

/// That of the sample whose number, multiplied by `step`, it spells.
fn instant_of_number(step: u64, rate: u64, time: Option<&[u8]>) -> Option<Instant>
    ensures { result ≡ instant_of_number step rate (option_copied time.entry) }
{
    sample_in(step, rate, without_front(time?))
}

impl Moment {
    /// That of the first row.
    fn first() -> Moment
        ensures { result ≡ first_moment }
    {
        Moment {
            start: None,
            before: 0,
            count: 0,
            levels: Levels {
                atn: true,
                clock: true,
                line: true,
            },
        }
    }

    /// That of a row with this time.
    #[inline(always)]
    pub fn at(self, number: usize, time: Option<Instant>) -> Result<Moment, CaptureFault>
        ensures { result ≡ moment_at number self time }
    {
        let Some(time) = time else {
            return Err(CaptureFault::BadTime(number));
        };
        let start = start_of(self.start, time);
        let time = from_start(number, start, time)?;
        let before = time_or(number, self.before, Some(time))?;
        Ok(Moment {
            start: Some(start),
            before,
            ..self
        })
    }

    /// That of the next row at a rate.
    #[inline(always)]
    pub fn next(self, number: usize, rate: u64) -> Result<Moment, CaptureFault>
        ensures { result ≡ moment_next number self (time_at_rate rate self.count) }
    {
        let Some(time) = time_at_rate(rate, self.count) else {
            return Err(CaptureFault::BadTime(number));
        };
        let last = time_or(number, self.before, Some(time))?;
        Ok(Moment {
            before: last,
            count: self.count + 1,
            ..self
        })
    }

    /// That of the row after `rows` more at a rate, if each of them has a time.
    pub fn skip(self, rate: u64, rows: usize) -> Option<Moment>
        ensures after { IfSome result (λ m. m ≡ moment_after rate self rows) }
        ensures timed { IfSome result (λ m. AreTimed rate self rows) }
    {
        if rows == 0 {
            return Some(self);
        }
        if time_at_rate(rate, self.count)? < self.before {
            return None;
        }
        let count = with_rows(self.count, rows)?;
        Some(Moment {
            start: self.start,
            before: time_at_rate(rate, count - 1)?,
            count,
            levels: self.levels,
        })
    }

    /// That of a row.
    fn of_row(self, layout: Layout, number: usize, line: &[u8]) -> Result<Moment, CaptureFault>
        ensures { result ≡ moment_of layout.scale layout.separator number self (field_at layout.times (fields_of layout.separator false line.now)) }
    {
        match layout.scale {
            Scale::Timed(unit) => {
                let time = field_at(layout.separator, line, layout.times);
                self.at(number, instant_of_row(layout.separator, unit, time))
            }
            Scale::Numbered { step, rate } => {
                let sample = field_at(layout.separator, line, layout.times);
                self.at(number, instant_of_number(step, rate, sample))
            }
            Scale::Counted(rate) => self.next(number, rate),
        }
    }
}

/// What a row says.
#[derive(Clone, Copy)]
pub struct Row {
    pub sample: Edge,
    /// Where the next row goes on.
    pub moment: Moment,
}

/// What a row after a moment says.
fn row_of(
    layout: Layout,
    probes: Probes,
    number: usize,
    moment: Moment,
    line: &[u8],
) -> Result<Row, CaptureFault>
    ensures { result ≡ row_of layout probes number moment (fields_of layout.separator false line.now) }
{
    let next = moment.of_row(layout, number, line)?;
    let sample = sample_of(layout, probes, moment.levels, number, line, next.before)?;
    let levels = sample.levels;
    Ok(Row {
        sample,
        moment: Moment { levels, ..next },
    })
}

/// Whether a text has 16 bits a letter.
pub fn is_wide(line: &[u8]) -> bool
    ensures { result ≡ is_wide line.now }
{
    is_word(first_of(line, 2), &[255, 254]) || is_word(first_of(line, 2), &[254, 255])
}

/// Whether this is a zip archive.
pub fn is_archive(line: &[u8]) -> bool
    ensures { result ≡ is_archive line.now }
{
    is_word(first_of(line, 4), &[b'P', b'K', 3, 4])
}

/// The first line without its byte order mark, if it has one.
fn opened(line: &[u8]) -> Result<&[u8], CaptureFault>
    ensures ok { IfOk result (λ l. opened line.now ≡ Ok l.now) }
    ensures err { IfErr result (λ f. opened line.now ≡ Err f) }
    ensures within { IfOk result (λ l. length l.now ≤ length line.now) }
{
    if is_wide(line) {
        return Err(CaptureFault::WideText);
    }
    if is_archive(line) {
        return Err(CaptureFault::Archive);
    }
    if is_word(first_of(line, 3), &[239, 187, 191]) {
        Ok(behind_first(line, 3))
    } else {
        Ok(line)
    }
}

/// Which lines come next.
#[derive(Drop)]
pub enum RowPlace {
    /// The first, and those up to that of the names, with the rate that the caller gives.
    First(Option<u64>),
    /// Some that say nothing of the bus, and that of the names, after these remarks.
    Names(Remarks),
    /// Rows, after this moment.
    Rows(Layout, Moment),
}

impl RowPlace {
    /// Goes on after a line that comes before the names or has them, after these remarks.
    fn take_names(
        &mut self,
        signals: &Signals<'_>,
        remarks: Remarks,
        number: usize,
        line: &[u8],
    ) -> Result<(), CaptureFault>
        requires { length line.now + 1 < 2 ^ 64 }
        ensures ok { IfOk result (λ _. NamesLeadTo signals.now remarks number line.now self.new) }
        ensures err { IfErr result (λ f. NamesAreRefused signals.now remarks number line.now f) }
    {
        if is_in_front(line) {
            *self = RowPlace::Names(noted(signals, remarks, line));
            return Ok(());
        }
        let layout = layout_of(signals, remarks, number, line)?;
        *self = RowPlace::Rows(layout, Moment::first());
        Ok(())
    }

    /// Goes on after a line with this number, and gives its sample, if it has one.
    fn take_line(
        &mut self,
        signals: &Signals<'_>,
        number: usize,
        line: &[u8],
    ) -> Result<Option<Edge>, CaptureFault>
        requires { length line.now + 1 < 2 ^ 64 }
        ensures read { ReadsLine signals.now number line.now self.old result self.new }
        ensures names { IfOk result (λ sample. HasNoRows self.new → sample ≡ None) }
        ensures row { IfOk result (λ sample. IsRowOf signals.now.probes self.new line.now sample) }
    {
        match self {
            RowPlace::First(given) => {
                let given = *given;
                let line = opened(line)?;
                self.take_names(signals, Remarks::new(given), number, line)?;
                Ok(None)
            }
            RowPlace::Names(remarks) => {
                let remarks = *remarks;
                self.take_names(signals, remarks, number, line)?;
                Ok(None)
            }
            RowPlace::Rows(layout, moment) => {
                if is_silent(line) {
                    return Ok(None);
                }
                let row = row_of(*layout, signals.probes, number, *moment, line)?;
                *moment = row.moment;
                Ok(Some(row.sample))
            }
        }
    }
}

/// How many bytes come before the end of the first line.
pub fn line_len(text: &[u8]) -> usize
    ensures len { result ≡ prefix_len is_inner text.now }
    ensures within { result ≤ length text.now }
{
    for (i, b) in text.iter().enumerate() {
        if *b == b'\n' {
            return i;
        }
    }
    text.len()
}

/// How many bytes were taken, and the last sample that they have, if they have one.
fn with_len(len: usize, last: Option<Edge>) -> Option<(usize, Edge)>
    ensures { result ≡ with_len len last }
{
    match last {
        None => None,
        Some(sample) => Some((len, sample)),
    }
}

/// Reads a table of comma separated values that comes in blocks. It keeps no more of the text than the line
/// that has begun and the last row.
#[derive(Drop)]
pub struct CsvReader<'a> {
    signals: Signals<'a>,
    number: usize,
    place: RowPlace,
    line: Vec<u8>,
    last: LastRow,
}

impl<'a> CsvReader<'a> {
    /// Makes a reader that has taken nothing of a text, with the rate of samples, in samples a second, that
    /// the caller gives: a table whose first column has neither times nor other counts by its name is read at it,
    /// whatever its remarks say. It takes no memory.
    pub fn new(alloc: Global, signals: Signals<'a>, rate: Option<u64>) -> CsvReader<'a>
        ensures read { HasReadTable signals.entry rate [] [] result }
        ensures number { line_number result ≡ 1 }
    {
        CsvReader {
            signals,
            number: 1,
            place: RowPlace::First(rate),
            line: Vec::new(alloc),
            last: LastRow::new(alloc),
        }
    }

    /// Goes on with the line that has begun.
    fn go_on(&mut self, bytes: &[u8]) -> Result<(), CaptureFault>
        requires { list_all is_inner bytes.now ≡ true }
        ensures read { IfOk result (λ _. HoldsMore bytes.now self.old self.new) }
        ensures refused { IfErr result (λ f. f ≡ NoMemory) }
        ensures number { IfOk result (λ _. line_number self.new ≡ line_number self.old) }
    {
        self.line.extend_from_slice(bytes)?;
        Ok(())
    }

    /// Ends the line that has begun, and gives its sample, if it has one.
    fn end_line(&mut self) -> Result<Option<Edge>, CaptureFault>
        // the caller's part
        requires few { line_number self.old + 1 < 2 ^ 64 }
        // what it gives
        ensures read { IfOk result (λ sample. ReadsMore (10 ∷ []) sample self.old self.new) }
        ensures number { IfOk result (λ sample. line_number self.new ≡ line_number self.old + 1) }
        ensures line { IfOk result (λ sample. self.new.line.items ≡ []) }
        ensures names { IfOk result (λ sample. HasNoRows self.new.place → sample ≡ None) }
        // when it refuses, and what that leaves
        ensures refused { IfErr result (λ f. FaultsIn (10 ∷ []) self.old f) }
    {
        let sample = self
            .place
            .take_line(&self.signals, self.number, self.line.as_slice())?;
        self.last.note(&self.place, &mut self.line, sample);
        self.number += 1;
        Ok(sample)
    }

    /// Takes the row in front of a block, if no line has begun, a whole row is there and it goes on as the last
    /// row does: a quick way for most rows where nothing changes. Gives its length, with the end of its line,
    /// and its sample. It takes no memory.
    #[inline(always)]
    fn take_repeat(&mut self, block: &[u8]) -> Option<(usize, Edge)>
        // the caller's part
        requires few { line_number self.old + 1 < 2 ^ 64 }
        // what it gives
        ensures read { IfSome result (λ r. ReadsMore (take r.0 block.now) (Some r.1) self.old self.new) }
        ensures some { IfSome result (λ r. 0 < r.0) }
        ensures within { IfSome result (λ r. r.0 ≤ length block.now) }
        ensures number { line_number self.new ≤ line_number self.old + 1 }
        ensures levels { IfSome result (λ r. self.old.last.levels ≡ Some r.1.levels) }
        // what stays the same, and what it leaves where it gives nothing
        ensures last { self.new.last ≡ self.old.last }
        ensures same { result ≡ None → self.new ≡ self.old }
    {
        if !self.line.is_empty() {
            return None;
        }
        match &mut self.place {
            RowPlace::First(_) | RowPlace::Names(_) => None,
            RowPlace::Rows(layout, moment) => {
                let (len, row) = self.last.repeat(*layout, *moment, self.number, block)?;
                *moment = row.moment;
                self.number += 1;
                Some((len, row.sample))
            }
        }
    }

    /// Takes the rows in front of a block that are the last row byte for byte, if a row is a sample: a quick way through tables in which nothing changes. It takes no memory.
    fn take_copies(&mut self, block: &[u8]) -> Option<(usize, Edge)>
        // the caller's part
        requires whole { self.old.line.items ≡ [] }
        requires few { line_number self.old + length block.now + 1 < 2 ^ 64 }
        // what it gives
        ensures read { IfSome result (λ r. SkipsRows (take r.0 block.now) r.1 self.old self.new) }
        ensures some { IfSome result (λ r. 0 < r.0) }
        ensures within { IfSome result (λ r. r.0 ≤ length block.now) }
        ensures number { IfSome result (λ r. line_number self.new ≤ line_number self.old + r.0) }
        ensures levels { IfSome result (λ r. self.old.last.levels ≡ Some r.1.levels) }
        // what stays the same, and what it leaves where it gives nothing
        ensures last { self.new.last ≡ self.old.last }
        ensures same { result ≡ None → self.new ≡ self.old }
    {
        match &mut self.place {
            RowPlace::First(_) | RowPlace::Names(_) => None,
            RowPlace::Rows(layout, moment) => {
                let copies = self.last.copies(*layout, *moment, self.number, block)?;
                *moment = copies.row.moment;
                self.number += copies.count;
                Some((copies.len, copies.row.sample))
            }
        }
    }

    /// Takes the rows in front of a block that go on as the last row does, which has these levels.
    fn take_rows(&mut self, block: &[u8], levels: Levels) -> Option<(usize, Edge)>
        requires few { line_number self.old + length block.now + 1 < 2 ^ 64 }
        requires levels { self.old.last.levels ≡ Some levels }
        ensures { TakesRepeats block.now levels self.old self.new result }
    {
        let mut rest = block;
        let mut last = None;
        while !rest.is_empty() {
            match self.take_repeat(rest) {
                Some((len, sample)) => {
                    rest = &rest[len..];
                    last = Some(sample);
                }
                None => return with_len(block.len() - rest.len(), last),
            }
        }
        with_len(block.len() - rest.len(), last)
    }

    /// The answer for a text that ends with a whole line, if it ends here; the sample is that of its
    /// last line.
    fn answer(&self, last: Option<Edge>) -> Result<Option<Edge>, CaptureFault>
        requires whole { self.now.line.items ≡ [] }
        requires names { HasNoRows self.now.place → last ≡ None }
        ensures { AnswersEnd self.now last result }
    {
        match self.place {
            RowPlace::First(_) => Err(CaptureFault::NoSignal(self.number, Wire::Atn)),
            RowPlace::Names(_) => Err(CaptureFault::NoSignal(self.number, Wire::Atn)),
            RowPlace::Rows(_, _) => Ok(last),
        }
    }

    /// Takes bytes from the front of a block: the rest of a line with its end, or else all of them.
    /// Gives how many, at least one, and the sample of the line that they end, if it has one.
    /// However the text is cut into blocks, the samples given are those that it says before its
    /// first fault.
    ///
    /// # Errors
    ///
    /// The first fault of the text, whose line these bytes end; [`CaptureFault::NoMemory`] where
    /// the growth of the line was refused. Nothing is promised of the reader afterwards.
    pub fn take_front(&mut self, block: &[u8]) -> Result<(usize, Option<Edge>), CaptureFault>
        // the caller's part
        requires few { line_number self.old + 1 < 2 ^ 64 }
        requires some { 0 < length block.now }
        // what it gives
        ensures read { IfOk result (λ r. ReadsMore (take r.0 block.now) r.1 self.old self.new) }
        ensures some { IfOk result (λ r. 0 < r.0) }
        ensures within { IfOk result (λ r. r.0 ≤ length block.now) }
        ensures number { IfOk result (λ r. line_number self.new ≤ line_number self.old + 1) }
        // when it refuses, and what that leaves
        ensures refused { IfErr result (λ f. RefusesTable block.now self.old f) }
    {
        if let Some((len, sample)) = self.take_repeat(block) {
            return Ok((len, Some(sample)));
        }
        let len = line_len(block);
        self.go_on(&block[..len])?;
        if len == block.len() {
            return Ok((len, None));
        }
        let sample = self.end_line()?;
        Ok((len + 1, sample))
    }

    /// Takes rows in front of a block that go on as the last row does, if that row has these levels and one is whole there:
    /// those that are the last row byte for byte by doubling, so that some may be left, or else all. Gives how many bytes, at least one, and the last of their samples: all have these levels.
    /// None where there is no such row; then nothing was taken. It takes no memory.
    ///
    /// It is a quick way for a caller to whom only the last of such samples counts, as [`EdgeDetector::skip`]; rows
    /// that it does not take are there for [`take_front`](CsvReader::take_front).
    pub fn take_repeats(&mut self, block: &[u8], levels: Levels) -> Option<(usize, Edge)>
        // the caller's part
        requires few { line_number self.old + length block.now + 1 < 2 ^ 64 }
        // what it gives
        ensures read { IfSome result (λ r. SkipsRows (take r.0 block.now) r.1 self.old self.new) }
        ensures levels { IfSome result (λ r. r.1.levels ≡ levels) }
        ensures some { IfSome result (λ r. 0 < r.0) }
        ensures within { IfSome result (λ r. r.0 ≤ length block.now) }
        ensures number { IfSome result (λ r. line_number self.new ≤ line_number self.old + r.0) }
        // what it leaves where it gives nothing
        ensures same { result ≡ None → self.new ≡ self.old }
    {
        if !self.last.has_levels(levels) {
            return None;
        }
        if self.line.is_empty() {
            if let Some(taken) = self.take_copies(block) {
                return Some(taken);
            }
        }
        self.take_rows(block, levels)
    }

    /// Ends the text, whose last line may lack its end, and gives the sample of that line, if it
    /// has one. It takes no memory.
    ///
    /// # Errors
    ///
    /// The fault of the last line, or [`CaptureFault::NoSignal`] with ATN where no line had the
    /// names; never [`CaptureFault::NoMemory`].
    pub fn finish(mut self) -> Result<Option<Edge>, CaptureFault>
        requires few { line_number self + 1 < 2 ^ 64 }
        ensures { EndsText self.entry result }
    {
        if self.line.is_empty() {
            return self.answer(None);
        }
        let sample = self.end_line()?;
        self.answer(sample)
    }
}
