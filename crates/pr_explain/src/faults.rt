//! The line of a trace text or of a recording that cannot be read, and what it should have.

ghost use Rattle.std.specs.Prelude.{◌≡◌, Some};
ghost use Rattle.pr_jobs.specs.Report.{IsOwnFault};
ghost use Rattle.pr_explain.specs.TracePlaces.{capture_line, fault_line};

use crate::declared::split_word;
use crate::names::{
    begins_with, first_field, has_column, has_number_of_signal, has_signal, has_units, has_volts,
    is_number, is_signal, is_volts, number_of, push_dump_names, push_same_names, push_table_names,
    separator_of,
};
use crate::preambles::heading_of;
use crate::tables::{
    begins_number, has_meta, names_before, other_said, push_other_said, push_row_rule,
    push_times_rule, separator_at,
};
use crate::texts::{Cut, line_with, without_end};
use crate::timed::has_times_last;
use crate::words::begins_listing;
use pr_base::digit_count;
use pr_basic::cut_line;
use pr_capture::{CaptureFault, InputFormat, Signals, TraceInput, Wire};
use pr_jobs::CliFault;
use pr_wire::{NoMemory, TraceFault};
use std::alloc::Global;

/// What a message says of a line that begins as those of a dump do.
const LIKE_DUMP: &str = "this looks like a Value Change Dump: use --from vcd";

/// What a message says of a line that begins as sigrok-cli's first one does.
const LIKE_SIGROK: &str =
    "this looks like what sigrok-cli writes: use --from vcd for a dump, --from csv for a table";

/// What a message says of a line with a separator of fields.
const LIKE_TABLE: &str = "this looks like a table: use --from csv";

/// What a message says of a line that begins as those of a listing do.
const LIKE_LISTING: &str = "this looks like a listing: pages prints it, bus writes its trace";

/// What a message says of a line of a trace text.
const LIKE_TRACE: &str = "this looks like a trace text: use --from text";

/// What a message says of a table in which sigrok-cli calls each signal `logic`.
const UNITS: &str =
    "sigrok-cli writes units in place of names: write the table with -O csv:label=channel";

/// What a message says of a row whose cells have decimals in place of levels.
const VOLTS: &str =
    "expected level 0, 1, L or H: these look like volts, which --threshold compares: with --threshold 1.5 a line \
     is 1 from 1.5 volts on";

/// What a message says of a table whose cells are other numbers than levels.
const NUMBERED: &str =
    "expected level 0, 1, L or H: these are other numbers, which --threshold compares: give it one that a 1 \
     reaches and a 0 does not";

/// What a message says of the numbers of samples that sigrok-cli writes where it does not know their rate in time.
const SAMPLES_OF_META: &str =
    "behind its line META samplerate sigrok-cli numbers all samples 0, so none counts: save the recording as a .sr \
     file, and write the table from that";

/// What a cell has where volts are compared with a threshold.
const NO_VOLTS: &str =
    "expected volts, such as 3.3, -0.05 or 4e-1 (3,3 where ; or a tab separates); cells with levels need no --threshold";

/// What a message says of text of 16 bits a letter.
const WIDE: &str = "this is UTF-16 text: save the recording as UTF-8 text";

/// What a message says of a line at the end of a recording that may have more.
const CUT: &str =
    "this line is the last one and has no end: if the recording was cut there, delete the line";

/// What a message says of a table without a line of names whose signals are numbers.
const NUMBERS: &str =
    "numbers in --names count the columns below a line of names: put one in front, such as Time [us],ATN,CLOCK,DATA, \
     or without times ATN,CLOCK,DATA, and leave out --names";

/// What a message says of an archive.
const ARCHIVE: &str =
    "this is a zip archive, as .sr, .sal and .dsl files are: export the recording as VCD or CSV";

/// The line of a fault of an input, from 1. Other faults have none.
fn line_of(fault: CliFault) -> Option<usize>
    ensures { result ≡ fault_line fault }
{
    match fault {
        CliFault::Trace(TraceFault::BadLine(line)) => Some(line),
        CliFault::Capture(fault) => line_of_capture(fault),
        _ => None,
    }
}

/// The line of a recording's fault, from 1. Lack of memory has none; a file of another kind shows it on
/// its first line.
fn line_of_capture(fault: CaptureFault) -> Option<usize>
    ensures { result ≡ capture_line fault }
{
    match fault {
        CaptureFault::NoSignal(line, _)
        | CaptureFault::BadWord(line)
        | CaptureFault::NoEnd(line)
        | CaptureFault::NoDefinitions(line)
        | CaptureFault::TwoSignals(line, _)
        | CaptureFault::NoTimescale(line)
        | CaptureFault::BadTimescale(line)
        | CaptureFault::NoTime(line)
        | CaptureFault::BadTime(line)
        | CaptureFault::GoesBack(line)
        | CaptureFault::NoLevel(line, _)
        | CaptureFault::Unknown(line)
        | CaptureFault::Floating(line)
        | CaptureFault::BadLevel(line) => Some(line),
        CaptureFault::WideText | CaptureFault::Archive => Some(1),
        CaptureFault::NoMemory => None,
    }
}

/// The line of a fault of an input's own, from 1.
pub fn own_line(fault: CliFault) -> usize
    requires { IsOwnFault fault }
    ensures { fault_line fault ≡ Some result }
{
    match line_of(fault) {
        Some(line) => line,
        None => unreachable!(),
    }
}

/// Whether bytes begin as text of 16 bits a letter does, with a mark in front or without one.
fn is_wide(bytes: &[u8]) -> bool {
    match bytes {
        [255, 254, ..] | [254, 255, ..] => true,
        [first, 0, second, 0, ..] => *first != 0 && *second != 0,
        [0, first, 0, second, ..] => *first != 0 && *second != 0,
        _ => false,
    }
}

/// What to do with an input that is no text, by its first bytes. None for others.
fn rule_of_file(bytes: &[u8]) -> Option<&'static str> {
    if is_wide(bytes) {
        Some(WIDE)
    } else if bytes.starts_with(&[b'P', b'K', 3, 4]) {
        Some(ARCHIVE)
    } else {
        None
    }
}

/// The program that has packed a file and unpacks it, by the file's first bytes. None for others.
fn packer_of(bytes: &[u8]) -> Option<&'static str> {
    if bytes.starts_with(&[31, 139]) {
        Some("gzip")
    } else if bytes.starts_with(&[253, b'7', b'z', b'X', b'Z', 0]) {
        Some("xz")
    } else if bytes.starts_with(b"BZh") {
        Some("bzip2")
    } else if bytes.starts_with(&[40, 181, 47, 253]) {
        Some("zstd")
    } else {
        None
    }
}

/// Adds what to do with an input that is no text, if it is none, and gives whether that is so.
fn push_file(text: &mut String, bytes: &[u8]) -> Result<bool, NoMemory> {
    if let Some(rule) = rule_of_file(bytes) {
        write!(text, "  {rule}\n")?;
        return Ok(true);
    }
    if let Some(packer) = packer_of(bytes) {
        write!(
            text,
            "  this file is packed with {packer}: unpack it first, as {packer} -d does\n"
        )?;
        return Ok(true);
    }
    Ok(false)
}

/// Adds the line of an input, of this number, that has this fault, and what it should have.
pub fn push_fault(
    alloc: Global,
    text: &mut String,
    bytes: &[u8],
    input: TraceInput<'_>,
    fault: CliFault,
    number: usize,
) -> Result<(), NoMemory> {
    let line = line_with(bytes, number);
    write!(text, "  line {number}: {}\n", Cut(without_end(line)))?;
    if push_file(text, bytes)? {
        return Ok(());
    }
    push_rule(alloc, text, bytes, input, fault, number)?;
    let is_cut = match fault {
        CliFault::Capture(fault) => may_be_cut(bytes, number, fault, input.source),
        _ => number > 1 && begins_trace(line),
    };
    if is_cut {
        write!(text, "  {CUT}\n")
    } else {
        Ok(())
    }
}

/// Adds that lines end with byte 13 alone, in a file of this kind.
fn push_returns(text: &mut String, kind: &str) -> Result<(), NoMemory> {
    write!(
        text,
        "  CR alone ends no line here, so this is one line: save the {kind} with LF or CR LF line ends\n"
    )
}

/// Adds that a byte order mark is in front of a file of this kind.
fn push_mark(text: &mut String, kind: &str) -> Result<(), NoMemory> {
    write!(
        text,
        "  a byte order mark is in front: save the {kind} as UTF-8 without one\n"
    )
}

/// Adds what the line of an input, of this number, should have that has this fault.
fn push_rule(
    alloc: Global,
    text: &mut String,
    bytes: &[u8],
    input: TraceInput<'_>,
    fault: CliFault,
    number: usize,
) -> Result<(), NoMemory> {
    let line = line_with(bytes, number);
    let signals = input.signals;
    match (fault, input.source) {
        (CliFault::Capture(CaptureFault::NoSignal(_, wire)), InputFormat::Vcd) => {
            push_no_signal(alloc, text, bytes, wire, signals)?;
            push_dump_names(alloc, text, bytes)
        }
        (CliFault::Capture(CaptureFault::TwoSignals(_, wire)), InputFormat::Vcd) => {
            let (_, name) = line_and_name(wire, signals);
            push_same_names(alloc, text, bytes, name, second_name(wire, name))
        }
        (CliFault::Capture(fault), InputFormat::Vcd) => push_dump_rule(text, bytes, line, fault),
        (CliFault::Capture(fault), InputFormat::Csv) => push_table_fault(
            text, bytes, input, fault, number,
        ),
        _ => push_text_rule(text, line),
    }
}

/// Adds what a line of a dump should have that has this fault.
fn push_dump_rule(
    text: &mut String,
    bytes: &[u8],
    line: &[u8],
    fault: CaptureFault,
) -> Result<(), NoMemory> {
    if let (CaptureFault::BadLevel(_), Some(value)) = (fault, undefined_in(line)) {
        let value = char::from(value);
        return write!(
            text,
            "  expected level 0, 1, L or H, found {value}, which is undefined: begin the recording after the \
             reset, or give the signal a start value\n"
        );
    }
    let rule = no_dump_hint(bytes, fault).unwrap_or(rule_of_dumps(fault));
    write!(text, "  {rule}\n")?;
    match fault {
        CaptureFault::NoTimescale(_) | CaptureFault::NoDefinitions(_) if has_mark(bytes) => {
            push_mark(text, "dump")
        }
        _ => Ok(()),
    }
}

/// The first value on a line of a dump that VHDL has for an undefined signal, if one is there.
fn undefined_in(line: &[u8]) -> Option<u8> {
    let mut rest = line;
    while !rest.is_empty() {
        let (word, more) = split_word(rest);
        rest = more;
        let value = undefined_value(word);
        if value.is_some() {
            return value;
        }
    }
    None
}

/// Such a value in one word, which is a level with its signal's code, or has bits.
fn undefined_value(word: &[u8]) -> Option<u8> {
    match word {
        [b'b' | b'B', bits @ ..] => bits.iter().copied().find(|bit| is_undefined(*bit)),
        [value, _, ..] if is_undefined(*value) => Some(*value),
        _ => None,
    }
}

/// Whether a level is one that VHDL has for an undefined signal, but for x.
fn is_undefined(level: u8) -> bool {
    matches!(level, b'U' | b'u' | b'W' | b'w' | b'-')
}

/// Whether bytes begin with UTF-8's byte order mark.
fn has_mark(bytes: &[u8]) -> bool {
    bytes.starts_with(&[239, 187, 191])
}

/// A line without UTF-8's byte order mark in front.
fn without_mark(line: &[u8]) -> &[u8] {
    match line {
        [239, 187, 191, rest @ ..] => rest,
        whole => whole,
    }
}

/// Whether the line of this number, with this fault, may be the last of a recording that was cut: it has no end, and
/// lacks something there.
fn may_be_cut(bytes: &[u8], number: usize, fault: CaptureFault, source: InputFormat) -> bool {
    let line = line_with(bytes, number);
    if line.is_empty() || line.ends_with(b"\n") {
        return false;
    }
    match fault {
        CaptureFault::GoesBack(_) | CaptureFault::BadTime(_) => {
            source == InputFormat::Vcd
                || lacks_cells(bytes, line, number)
                || ends_with_time(bytes, number)
        }
        CaptureFault::NoLevel(_, _) | CaptureFault::BadLevel(_) => {
            source == InputFormat::Csv && lacks_cells(bytes, line, number)
        }
        CaptureFault::BadWord(_) | CaptureFault::NoEnd(_) => true,
        _ => false,
    }
}

/// Whether a row of a table, of this number, has fewer cells than there are names, or nothing behind its last
/// separator.
fn lacks_cells(bytes: &[u8], row: &[u8], number: usize) -> bool {
    let Some(names) = names_before(bytes, number) else {
        return false;
    };
    let separator = separator_at(bytes, names, number).unwrap_or(b',');
    count_in(separator, row) < count_in(separator, names) || row.ends_with(&[separator])
}

/// Whether the rows of a table, such as that of this number, end with their times.
fn ends_with_time(bytes: &[u8], number: usize) -> bool {
    let Some(names) = names_before(bytes, number) else {
        return false;
    };
    let separator = separator_at(bytes, names, number).unwrap_or(b',');
    has_times_last(separator, names)
}

/// How often a byte is there.
fn count_in(byte: u8, line: &[u8]) -> usize {
    let mut count: usize = 0;
    for other in line {
        if *other == byte {
            count = count.wrapping_add(1);
        }
    }
    count
}

/// Adds what the line of a table, of this number, should have that has this fault.
fn push_table_fault(
    text: &mut String,
    bytes: &[u8],
    input: TraceInput<'_>,
    fault: CaptureFault,
    number: usize,
) -> Result<(), NoMemory> {
    let Some(heading) = heading_of(bytes) else {
        return push_table_rule(text, bytes, input, fault, number);
    };
    let unit = heading.unit_in(bytes);
    if heading.begins_later(number) && is_of_names(fault) {
        heading.push_names(text)?;
    } else if !heading.has_units_at(number) && !(unit.is_some() && is_untimed(fault)) {
        push_table_rule(text, bytes, input, fault, number)?;
    }
    if heading.counts_samples(bytes) {
        return heading.push_samples(text, number);
    }
    heading.push_units(text, number, unit.unwrap_or("s"))
}

/// Whether a table has this fault since no name is one of times.
fn is_untimed(fault: CaptureFault) -> bool {
    matches!(fault, CaptureFault::NoTime(_))
}

/// Whether a table has this fault in the line that is to have its names.
fn is_of_names(fault: CaptureFault) -> bool {
    matches!(
        fault,
        CaptureFault::NoSignal(_, _) | CaptureFault::TwoSignals(_, _) | CaptureFault::NoTime(_)
    )
}

/// Adds what the line of a table, of this number, should have that has this fault, whatever lines are before its rows.
fn push_table_rule(
    text: &mut String,
    bytes: &[u8],
    input: TraceInput<'_>,
    fault: CaptureFault,
    number: usize,
) -> Result<(), NoMemory> {
    let line = line_with(bytes, number);
    let separator = separator_at(bytes, line, number);
    match fault {
        CaptureFault::NoSignal(_, wire) => {
            if has_return(line) || has_return(line_with(bytes, 1)) {
                return push_returns(text, "table");
            }
            if let Some(said) = other_said(bytes, line, number) {
                return push_other_said(text, said);
            }
            push_columns(text, line, separator, wire, input.signals)?;
            if numbers_by_meta(bytes, number, line, separator) {
                return write!(text, "  {SAMPLES_OF_META}\n");
            }
            push_skipped(text, bytes, line)
        }
        CaptureFault::TwoSignals(_, _) if is_number(first_field(separator.unwrap_or(b','), line)) =>
            { push_no_names(text, input.signals) }
        CaptureFault::NoTime(_) => match names_before(bytes, number) {
            Some(names) => {
                let separator = separator_at(bytes, names, number).unwrap_or(b',');
                push_row_rule(text, names, line, separator, input)
            }
            None if numbers_by_meta(bytes, number, line, separator) => {
                write!(text, "  {SAMPLES_OF_META}\n")
            }
            None => push_times_rule(text, bytes, number, line, separator.unwrap_or(b','), input),
        },
        CaptureFault::BadLevel(_) if input.signals.probes.threshold.is_some() => {
            write!(text, "  {NO_VOLTS}\n")
        }
        CaptureFault::BadLevel(_) if may_be_volts(bytes, line, number, input.signals) => {
            write!(text, "  {VOLTS}\n")
        }
        CaptureFault::BadLevel(_) if may_be_numbers(bytes, line, number, input.signals) => {
            write!(text, "  {NUMBERED}\n")
        }
        _ => write!(text, "  {}\n", rule_of_tables(fault)),
    }
}

/// Whether a row of a table, of this number, has a cell of volts in a column that may be one of the signals.
fn may_be_volts(bytes: &[u8], row: &[u8], number: usize, signals: Signals<'_>) -> bool {
    let names = names_before(bytes, number).unwrap_or(row);
    let separator = separator_at(bytes, names, number).unwrap_or(b',');
    has_volts(separator, row)
        || (is_signal(first_field(separator, names), signals)
            && is_volts(first_field(separator, row)))
}

/// Whether a row of a table, of this number, has a whole number of two digits or more in a column of a signal.
fn may_be_numbers(bytes: &[u8], row: &[u8], number: usize, signals: Signals<'_>) -> bool {
    let names = names_before(bytes, number).unwrap_or(row);
    let separator = separator_at(bytes, names, number).unwrap_or(b',');
    has_number_of_signal(separator, names, row, signals)
}

/// Whether the line of this number, with the names of a table, has the numbers of samples that sigrok-cli writes behind its
/// line of a rate.
fn numbers_by_meta(bytes: &[u8], number: usize, line: &[u8], separator: Option<u8>) -> bool {
    begins_with(first_field(separator.unwrap_or(b','), line), b"sample") && has_meta(bytes, number)
}

/// Whether a line has byte 13 elsewhere than at its end.
fn has_return(line: &[u8]) -> bool {
    without_end(line).contains(&b'\r')
}

/// The name of a line of the bus, and that of its signal.
fn line_and_name<'a>(wire: Wire, signals: Signals<'a>) -> (&'static str, &'a [u8]) {
    match wire {
        Wire::Atn => ("ATN", signals.atn),
        Wire::Clock => ("CLOCK", signals.clock),
        Wire::Data => ("DATA", signals.line),
    }
}

/// The other name that the signal of a line of the bus may have; the same where there is none.
fn second_name<'a>(wire: Wire, name: &'a [u8]) -> &'a [u8] {
    if wire == Wire::Clock && name.eq_ignore_ascii_case(b"CLOCK") {
        b"CLK".as_slice()
    } else {
        name
    }
}

/// Adds which name no signal of a dump has, or that another line of the bus has its signal.
fn push_no_signal(
    alloc: Global,
    text: &mut String,
    dump: &[u8],
    wire: Wire,
    signals: Signals<'_>,
) -> Result<(), NoMemory> {
    let (own, name) = line_and_name(wire, signals);
    for known in [name, second_name(wire, name)] {
        if has_signal(alloc, dump, known)? {
            return push_shared(text, "signal", known, own);
        }
    }
    push_missing(text, wire, signals)
}

/// Adds that another line of the bus has this signal or column.
fn push_shared(text: &mut String, kind: &str, name: &[u8], own: &str) -> Result<(), NoMemory> {
    let name = Cut(name);
    write!(
        text,
        "  the {kind} {name} is that of another line already: {own} needs one of its own\n"
    )
}

/// Adds which name no signal of a recording has.
fn push_missing(text: &mut String, wire: Wire, signals: Signals<'_>) -> Result<(), NoMemory> {
    let (line, name) = line_and_name(wire, signals);
    write!(
        text,
        "  found no signal named {} for the {line} line\n",
        Cut(name)
    )
}

/// Adds which name no column of a table has, by the line of its names, or that another line of the bus has its column.
fn push_unmeant(
    text: &mut String,
    line: &[u8],
    separator: u8,
    wire: Wire,
    signals: Signals<'_>,
) -> Result<(), NoMemory> {
    let (own, name) = line_and_name(wire, signals);
    if has_column(separator, line, name) {
        return push_shared(text, "column", name, own);
    }
    push_missing(text, wire, signals)
}

/// Adds which name no column of a table has, and the names that this line gives, or why it gives none.
fn push_columns(
    text: &mut String,
    line: &[u8],
    separator: Option<u8>,
    wire: Wire,
    signals: Signals<'_>,
) -> Result<(), NoMemory> {
    if without_end(line).is_empty() {
        return write!(
            text,
            "  expected column names such as Time,ATN,CLOCK,DATA before the rows, found none\n"
        );
    }
    if line.starts_with(b"$") {
        return write!(text, "  {LIKE_DUMP}\n");
    }
    if let Some(hint) = no_table_hint(line) {
        return write!(text, "  {hint}\n");
    }
    let Some(separator) = separator else {
        return write!(
            text,
            "  expected column names separated by commas, semicolons or tabs, such as Time,ATN,CLOCK,DATA\n"
        );
    };
    if is_number(first_field(separator, line)) {
        return push_no_names(text, signals);
    }
    if has_units(separator, line) {
        return write!(text, "  {UNITS}\n");
    }
    push_unmeant(text, line, separator, wire, signals)?;
    push_table_names(text, separator, line)
}

/// Adds that a table has no line of names, and that numbers of columns do not count then.
fn push_no_names(text: &mut String, signals: Signals<'_>) -> Result<(), NoMemory> {
    write!(
        text,
        "  expected column names such as Time,ATN,CLOCK,DATA before the rows, found a number\n"
    )?;
    if number_of(signals.atn).is_some() {
        return write!(text, "  {NUMBERS}\n");
    }
    Ok(())
}

/// Adds which line looks like the names of a table's columns and is a remark, where a row stands in place of the names.
fn push_skipped(text: &mut String, bytes: &[u8], row: &[u8]) -> Result<(), NoMemory> {
    if !begins_number(row) {
        return Ok(());
    }
    match skipped_names(bytes) {
        Some(number) => write!(
            text,
            "  line {number} begins with #, so it is a remark, and its names do not count: delete the #\n"
        ),
        None => Ok(()),
    }
}

/// The number of the first line, from 1, that begins with `#` and has a separator of fields.
fn skipped_names(bytes: &[u8]) -> Option<usize> {
    let mut rest = bytes;
    let mut number: usize = 0;
    while !rest.is_empty() {
        let (line, more) = cut_line(rest);
        number = number.wrapping_add(1);
        if line.starts_with(b"#") && separator_of(line).is_some() {
            return Some(number);
        }
        rest = more;
    }
    None
}

/// What a dump has where it has this fault.
fn rule_of_dumps(fault: CaptureFault) -> &'static str {
    match fault {
        CaptureFault::BadWord(_) => {
            "expected a time (#120), a level with the signal's code (0! or b0 !), or a section that ends \
             with $end"
        }
        CaptureFault::NoEnd(_) => "the section that begins here has no $end",
        CaptureFault::NoDefinitions(_) => {
            "expected $enddefinitions $end after the header; for a table use --from csv, for a trace text \
             --from text"
        }
        CaptureFault::NoTimescale(_) | CaptureFault::BadTimescale(_) => {
            "expected a timescale in the header, such as $timescale 1 us $end: 1, 10 or 100 of s, ms, us, \
             ns, ps or fs"
        }
        CaptureFault::BadTime(_) => {
            "expected a time such as #120, below 2^64 in the dump's unit and below 2^64 microseconds"
        }
        _ => rule_of_levels(fault),
    }
}

/// What a table has where it has this fault.
fn rule_of_tables(fault: CaptureFault) -> &'static str {
    match fault {
        CaptureFault::BadTime(_) => {
            "expected a time, such as 0.000125, -2 or 5e-05 (0,000125 where ; or a tab separates), in \
             the unit of its column and below 2^64 microseconds; sample numbers are digits, and times after sigrok-cli's remark of a rate are \
             multiples of one sample's"
        }
        CaptureFault::GoesBack(_) => {
            "this time is earlier than the one before it; of instants, the month, the year and the offset from UTC are not read"
        }
        CaptureFault::TwoSignals(_, _) => {
            "two columns have this name, in capitals or not: rename one, or choose others with --names"
        }
        _ => rule_of_levels(fault),
    }
}

/// What a recording of any kind has where it has this fault.
fn rule_of_levels(fault: CaptureFault) -> &'static str {
    match fault {
        CaptureFault::GoesBack(_) => "this time is earlier than the one before it",
        CaptureFault::NoLevel(_, _) => "expected a level for each of ATN, CLOCK and DATA",
        CaptureFault::Unknown(_) => "expected level 0 or 1, found x (unknown)",
        CaptureFault::Floating(_) => {
            "expected level 0 or 1, found z (nothing drives the line); a pull-up makes it 1"
        }
        CaptureFault::BadLevel(_) => "expected level 0, 1, L or H",
        _ => "this is not allowed here",
    }
}

/// Adds what a line of a trace text should have, and how a line is read that begins as one of
/// another format does.
fn push_text_rule(text: &mut String, line: &[u8]) -> Result<(), NoMemory> {
    write!(
        text,
        "  expected a time in microseconds, a space, and a digit each for ATN, CLOCK and DATA (1 \
         released, 0 pulled), such as 100 001\n"
    )?;
    let plain = without_mark(line);
    if let Some(hint) = hint_of(plain) {
        write!(text, "  {hint}\n")?;
    }
    let first = first_by_return(plain);
    if is_of_trace(first) && has_return(plain) {
        return push_returns(text, "trace");
    }
    if !has_mark(line) {
        Ok(())
    } else if plain.starts_with(b"$") {
        push_mark(text, "dump")
    } else if is_of_trace(plain) {
        push_mark(text, "trace")
    } else {
        Ok(())
    }
}

/// What a line has before its first byte 13.
fn first_by_return(line: &[u8]) -> &[u8] {
    match line.iter().position(|byte| *byte == b'\r') {
        Some(end) => &line[..end],
        None => line,
    }
}

/// Whether a line has no end, and may be a line of a trace text that was cut.
fn begins_trace(line: &[u8]) -> bool {
    let time = digit_count(line);
    time > 0
        && matches!(
            &line[time..],
            [] | [b' '] | [b' ', b'0' | b'1'] | [b' ', b'0' | b'1', b'0' | b'1']
        )
}

/// What a line looks like that is to name the columns of a table, where it is one of a trace text or of a listing.
fn no_table_hint(line: &[u8]) -> Option<&'static str> {
    if is_of_trace(line) {
        Some(LIKE_TRACE)
    } else if begins_listing(line) {
        Some(LIKE_LISTING)
    } else {
        None
    }
}

/// What a dump without definitions looks like, where its first line is one of a trace text.
fn no_dump_hint(bytes: &[u8], fault: CaptureFault) -> Option<&'static str> {
    match fault {
        CaptureFault::NoDefinitions(_) if is_of_trace(line_with(bytes, 1)) => Some(LIKE_TRACE),
        _ => None,
    }
}

/// Whether a line is one of a trace text: a time, a space and a level of each line.
fn is_of_trace(line: &[u8]) -> bool {
    let line = without_end(line);
    let time = digit_count(line);
    time > 0 && matches!(&line[time..], [b' ', b'0' | b'1', b'0' | b'1', b'0' | b'1'])
}

/// Which format a line looks like that is not one of a trace text.
fn hint_of(line: &[u8]) -> Option<&'static str> {
    if line.starts_with(b"$") {
        Some(LIKE_DUMP)
    } else if line.starts_with(b"META samplerate:") {
        Some(LIKE_SIGROK)
    } else if begins_listing(line) {
        Some(LIKE_LISTING)
    } else if separator_of(line).is_some() {
        Some(LIKE_TABLE)
    } else {
        None
    }
}
