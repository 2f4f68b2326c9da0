//! The values of the program's options.

ghost use Rattle.std.specs.Prelude.{[], false, option_map, ◌∷◌, ◌≡◌, IfSome};
ghost use Rattle.pr_capture.specs.Recording.{alike};
ghost use Rattle.pr_options.specs.Options.{before_of, bounds_of, decode_output_of, device_of, form_of, format_of, found_format_of, from_time_of, glitch_of, inverted_of, listening_of, mode_of, moment_of, pages_output_of, paper_of, present_of, rate_of, report_of, scale_of, scaled, set_of, sheet_numbered, sheet_of, source_of, start_of, steps_of, threshold_between, threshold_in, threshold_of, top_numbered, top_of, trace_format_of, with_line};
ghost use Rattle.std.specs.Int.{div_ceil};
ghost use Rattle.pr_options.specs.SignalNames.{are_names, differ, is_clock_twice, is_name, names_of, names_of_signals, three_names};

use crate::outputs::{CheckOutput, DecodeOutput, Hearing, PagesOutput};
use crate::parts::{all_digits, cut};
use pr_basic::StatusMode;
use pr_capture::{
    InputFormat, OutputFormat, Probes, Signals, Threshold, Volts, read_rate, read_volts,
};
use pr_dots::Scale;
use pr_listing::ListingForm;
use pr_programs::{Form, STEPS};
use pr_render::{Device, Format, Layout, Look, Part, Size};
use pr_report::{Bounds, Detail, Report};
use pr_serial::Present;

/// Reads which printers are present, from `none`, `4`, `5` or `both` (profile). None for any other
/// text. It takes no memory.
pub fn read_present(text: &str) -> Option<Present>
    ensures { result ≡ present_of text.now }
{
    let (four, five) = match text {
        "none" => (false, false),
        "4" => (true, false),
        "5" => (false, true),
        "both" => (true, true),
        _ => return None,
    };
    Some(Present { four, five })
}

/// The form of what a script is made of: a listing as `text`, `prg`, `petcat`, `magazine` or `auto`, which the first
/// bytes show; a program that is run, `basic`; or `bas`, a script or else such a program (profile). A run has the usual
/// number of steps, if no option says more. None for any other text.
pub fn read_form(text: &str) -> Option<Form>
    ensures { result ≡ form_of text.now }
{
    match text {
        "text" => Some(Form::Listing(ListingForm::Text)),
        "prg" => Some(Form::Listing(ListingForm::Program)),
        "petcat" => Some(Form::Listing(ListingForm::Petcat)),
        "magazine" => Some(Form::Listing(ListingForm::Magazine)),
        "auto" => Some(Form::Listing(ListingForm::Auto)),
        "basic" => Some(Form::Program { steps: STEPS }),
        "bas" => Some(Form::Either { steps: STEPS }),
        _ => None,
    }
}

/// The steps that a run has at most: decimal digits that spell a number from 1, below 2^64 (profile). None for any
/// other text.
pub fn read_steps(text: &str) -> Option<u64>
    ensures { result ≡ steps_of text.now }
{
    match read_start(text) {
        Some(n) => sheet_numbered(n),
        None => None,
    }
}

/// Reads how the status goes from statement to statement, from `each` or `kept` (profile). None for
/// any other text. It takes no memory.
pub fn read_status(text: &str) -> Option<StatusMode>
    ensures { result ≡ mode_of text.now }
{
    match text {
        "each" => Some(StatusMode::Each),
        "kept" => Some(StatusMode::Kept),
        _ => None,
    }
}

/// Whether the character set to select is lower/upper case: `upper` (graphic/upper case) or
/// `lower` (profile). None for any other text.
pub fn read_set(text: &str) -> Option<bool>
    ensures { result ≡ set_of text.now }
{
    match text {
        "upper" => Some(false),
        "lower" => Some(true),
        _ => None,
    }
}

/// The format of a page: `list`, `text`, `svg`, `png` or `pdf` (profile). None for any other text.
pub fn read_format(text: &str) -> Option<Format>
    ensures { result ≡ format_of text.now }
{
    match text {
        "list" => Some(Format::List),
        "text" => Some(Format::Lines(Look::Blocks)),
        "svg" => Some(Format::Svg(Part::whole())),
        "png" => Some(Format::Png(Part::whole())),
        "pdf" => Some(Format::Pdf(None, Layout::usual())),
        _ => None,
    }
}

/// The output of `pages`: a format of its pages, or `bytes`, printer 4's if no option says more (profile). None for
/// any other text.
pub fn read_pages_output(text: &str) -> Option<PagesOutput>
    ensures { result ≡ pages_output_of text.now }
{
    match text {
        "bytes" => Some(PagesOutput::Bytes(Device::Four)),
        _ => {
            let format = read_format(text)?;
            Some(PagesOutput::Pages(format))
        }
    }
}

/// No printer listens when a recording begins.
pub const UNHEARING: Hearing = Hearing {
    listening: Present {
        four: false,
        five: false,
    },
    lower: false,
    is_strict: false,
};

/// The output of `decode`: its readings as a `list` or as `json`, the `bytes` that a printer hears, or a format of the
/// pages (profile); a list without intervals, by this project's bounds, and bytes of printer 4, and no printer listens
/// at first, if no option says more. None for any other text.
pub fn read_decode_output(text: &str) -> Option<DecodeOutput>
    ensures { result ≡ decode_output_of text.now }
{
    match text {
        "list" => Some(DecodeOutput::Readings(Detail {
            intervals: false,
            bounds: Bounds::Profile,
        })),
        "json" => Some(DecodeOutput::Json),
        "bytes" => Some(DecodeOutput::Bytes(Device::Four, UNHEARING)),
        _ => {
            let format = read_format(text)?;
            Some(DecodeOutput::Pages(format, UNHEARING))
        }
    }
}

/// The printers that listen when a recording begins: `4`, `5` or `4,5` (profile). None for any other text.
pub fn read_listening(text: &str) -> Option<Present>
    ensures { result ≡ listening_of text.now }
{
    match text {
        "4" => Some(Present {
            four: true,
            five: false,
        }),
        "5" => Some(Present {
            four: false,
            five: true,
        }),
        "4,5" => Some(Present {
            four: true,
            five: true,
        }),
        _ => None,
    }
}

/// The bounds that intervals are measured against: `profile` (this project's) or `guide` (the Programmer's Reference
/// Guide's) (profile). None for any other text.
pub fn read_bounds(text: &str) -> Option<Bounds>
    ensures { result ≡ bounds_of text.now }
{
    match text {
        "profile" => Some(Bounds::Profile),
        "guide" => Some(Bounds::Guide),
        _ => None,
    }
}

/// The samples in a second, as [`read_rate`] reads them, or `none` (profile). None for any other text.
pub fn read_given_rate(text: &str) -> Option<Option<u64>>
    ensures { result ≡ rate_of text.now }
{
    match text {
        "none" => Some(None),
        _ => {
            let rate = read_rate(text)?;
            Some(Some(rate))
        }
    }
}

/// A threshold of these volts, of which the second are at least the first.
fn threshold_between(low: Option<Volts>, high: Option<Volts>) -> Option<Threshold>
    ensures { result ≡ threshold_between low high }
{
    match (low, high) {
        (Some(low), Some(high)) if high.is_at_least(low) => Some(Threshold { low, high }),
        _ => None,
    }
}

/// The volts from which on a line is 1, as [`read_volts`] reads them, or those below which it is 0, a comma and those from
/// which on it is 1.
fn threshold_in(text: &str) -> Option<Threshold>
    ensures { result ≡ threshold_in text.now }
{
    let (low, high) = cut(text, ',');
    if low.len() < text.len() {
        threshold_between(read_volts(low), read_volts(high))
    } else {
        threshold_between(read_volts(text), read_volts(text))
    }
}

/// By which volts a line is 1 or 0: one voltage, or a low one and a high one that is no lower, separated by a comma; or
/// `none` (profile). None for any other text.
pub fn read_threshold(text: &str) -> Option<Option<Threshold>>
    ensures { result ≡ threshold_of text.now }
{
    match text {
        "none" => Some(None),
        _ => {
            let threshold = threshold_in(text)?;
            Some(Some(threshold))
        }
    }
}

/// The probes of which that of this line inverts too: `ATN`, `CLOCK` or `DATA`. None for any other text.
fn with_line(probes: Probes, name: &str) -> Option<Probes>
    ensures { result ≡ with_line probes name.now }
{
    match name {
        "ATN" => Some(Probes {
            atn: true,
            ..probes
        }),
        "CLOCK" => Some(Probes {
            clock: true,
            ..probes
        }),
        "DATA" => Some(Probes {
            line: true,
            ..probes
        }),
        _ => None,
    }
}

/// Reads which probes invert, from the names of their lines, separated by commas: `ATN`, `CLOCK` and `DATA` (profile);
/// where no name is given, none do. None for any other text. It takes no memory.
pub fn read_inverted(text: &str) -> Option<Probes>
    ensures { result ≡ inverted_of text.now }
{
    let mut probes = Probes::alike(false);
    if text.is_empty() {
        return Some(probes);
    }
    for name in text.split(',') {
        let Some(more) = with_line(probes, name) else {
            return None;
        };
        probes = more;
    }
    Some(probes)
}

/// The printer whose pages are drawn, or whose bytes are written: `4` or `5` (profile). None for any other text.
pub fn read_device(text: &str) -> Option<Device>
    ensures { result ≡ device_of text.now }
{
    match text {
        "4" => Some(Device::Four),
        "5" => Some(Device::Five),
        _ => None,
    }
}

/// The sheet that is drawn: decimal digits that spell a number from 1, below 2^64 (profile). None for any other text.
pub fn read_sheet(text: &str) -> Option<u64>
    ensures { result ≡ sheet_of text.now }
{
    match read_start(text) {
        Some(n) => sheet_numbered(n),
        None => None,
    }
}

/// The sheet of a number; sheets count from 1.
fn sheet_numbered(n: u64) -> Option<u64>
    ensures { result ≡ sheet_numbered n }
{
    if n == 0 { None } else { Some(n) }
}

/// How many lines of 1/6 inch the first row is below the upper edge of the paper: decimal digits that spell a number up to
/// 65, the last line of a sheet (profile). None for any other text.
pub fn read_top(text: &str) -> Option<u8>
    ensures { result ≡ top_of text.now }
{
    match read_start(text) {
        Some(n) => top_numbered(n),
        None => None,
    }
}

/// The paper of a document: `continuous`, `a4` or `letter` (profile). None for any other text.
pub fn read_paper(text: &str) -> Option<Size>
    ensures { result ≡ paper_of text.now }
{
    match text {
        "continuous" => Some(Size::Continuous),
        "a4" => Some(Size::A4),
        "letter" => Some(Size::Letter),
        _ => None,
    }
}

/// How many pixels a bitmap has for the place of a dot, across and down: `1` to `8` (profile). None for any other text.
pub fn read_scale(text: &str) -> Option<Scale>
    ensures { result ≡ scale_of text.now }
{
    match text {
        "1" => Some(Scale::One),
        "2" => Some(Scale::Two),
        "3" => Some(Scale::Three),
        "4" => Some(Scale::Four),
        "5" => Some(Scale::Five),
        "6" => Some(Scale::Six),
        "7" => Some(Scale::Seven),
        "8" => Some(Scale::Eight),
        _ => None,
    }
}

/// These lines, if a sheet has more.
fn top_numbered(n: u64) -> Option<u8>
    ensures { result ≡ top_numbered n }
{
    if n < 66 { Some(n as u8) } else { None }
}

/// The format of a run's trace: `text` or `vcd` (profile). None for any other text.
pub fn read_trace_format(text: &str) -> Option<OutputFormat>
    ensures { result ≡ trace_format_of text.now }
{
    match text {
        "text" => Some(OutputFormat::Text),
        "vcd" => Some(OutputFormat::Vcd),
        _ => None,
    }
}

/// The format of a trace or a recording: `text`, `vcd` or `csv` (profile). None for any other text.
fn read_source(text: &str) -> Option<InputFormat>
    ensures { result ≡ source_of text.now }
{
    match text {
        "text" => Some(InputFormat::Text),
        "vcd" => Some(InputFormat::Vcd),
        "csv" => Some(InputFormat::Csv),
        _ => None,
    }
}

/// The format of a trace or a recording, as [`read_source`] reads it, or `auto`, which names none: its first bytes show it
/// (profile). None for any other text.
pub fn read_found_format(text: &str) -> Option<Option<InputFormat>>
    ensures { result ≡ found_format_of text.now }
{
    match text {
        "auto" => Some(None),
        _ => {
            let source = read_source(text)?;
            Some(Some(source))
        }
    }
}

/// What is written of a trace that is checked: `frames`, `story` or `json` (profile). None for any
/// other text.
pub fn read_report(text: &str) -> Option<CheckOutput>
    ensures { result ≡ report_of text.now }
{
    match text {
        "frames" => Some(CheckOutput::Report(Report::Frames)),
        "story" => Some(CheckOutput::Report(Report::Story)),
        "json" => Some(CheckOutput::Json),
        _ => None,
    }
}

/// The signals of a recording by the names of ATN, CLOCK and DATA, which are in this order, parted
/// by commas, with probes that do not invert. White space around a name does not count; no name is empty or begins with
/// a quotation mark, and no two are the same or CLOCK and CLK, capitals or not (profile). None for any other text.
pub fn read_signals(text: &str) -> Option<Signals<'_>>
    ensures names { option_map names_of_signals result ≡ names_of text.now }
    ensures straight { IfSome result (λ s. s.probes ≡ alike false) }
{
    let (atn, others) = cut(text, ',');
    let (clock, line) = cut(others, ',');
    if line.contains(',') {
        return None;
    }
    signals_named(atn.trim_ascii(), clock.trim_ascii(), line.trim_ascii())
}

/// The signals of these names, if they are names of three signals.
fn signals_named<'a>(atn: &'a str, clock: &'a str, line: &'a str) -> Option<Signals<'a>>
    ensures names { option_map names_of_signals result ≡ three_names (atn.now ∷ clock.now ∷ line.now ∷ []) }
    ensures straight { IfSome result (λ s. s.probes ≡ alike false) }
{
    if !are_names(atn, clock, line) {
        return None;
    }
    Some(Signals {
        atn: atn.as_bytes(),
        clock: clock.as_bytes(),
        line: line.as_bytes(),
        probes: Probes::alike(false),
    })
}

/// Whether these are names of three signals: each can be one, and no two can be those of one signal.
fn are_names(atn: &str, clock: &str, line: &str) -> bool
    ensures { result ≡ are_names atn.now clock.now line.now }
{
    let are_filled = is_name(atn) && is_name(clock) && is_name(line);
    are_filled && differ(atn, clock) && differ(atn, line) && differ(clock, line)
}

/// Whether a text can be a signal's name: it is not empty and does not begin with a quotation mark, as
/// the names of a recording are read without those around them.
fn is_name(text: &str) -> bool
    ensures { result ≡ is_name text.now }
{
    match text.as_bytes() {
        [] => false,
        [first, ..] => *first != b'"',
    }
}

/// Whether no signal can be found by both names: they are not the same, capitals or not, nor are they
/// CLOCK and CLK.
fn differ(a: &str, b: &str) -> bool
    ensures { result ≡ differ a.now b.now }
{
    !a.eq_ignore_ascii_case(b) && !is_clock_twice(a, b) && !is_clock_twice(b, a)
}

/// Whether the one name is CLOCK and the other CLK, which also finds CLOCK, capitals or not.
fn is_clock_twice(a: &str, b: &str) -> bool
    ensures { result ≡ is_clock_twice a.now b.now }
{
    a.eq_ignore_ascii_case("CLOCK") && b.eq_ignore_ascii_case("CLK")
}

/// A moment, in microseconds: decimal digits that spell a number below
/// 2^64 (profile). None for any other text.
pub fn read_start(text: &str) -> Option<u64>
    ensures { result ≡ start_of text.now }
{
    if !all_digits(text.as_bytes()) {
        return None;
    }
    text.parse().ok()
}

/// A time in microseconds: a number as [`read_start`] reads it, alone or with a unit behind it, `us`, `ms` or `s`; below 2^64
/// microseconds (profile). None for any other text.
fn read_moment(text: &str) -> Option<u64>
    ensures { result ≡ moment_of text.now }
{
    let (micros, behind_micros) = cut(text, 'u');
    if behind_micros == "s" {
        return read_start(micros);
    }
    let (millis, behind_millis) = cut(text, 'm');
    if behind_millis == "s" {
        return scaled(1000, read_start(millis));
    }
    let (seconds, behind_seconds) = cut(text, 's');
    if behind_seconds.is_empty() && seconds.len() < text.len() {
        return scaled(1_000_000, read_start(seconds));
    }
    read_start(text)
}

/// A number, multiplied, if it is below 2^64.
fn scaled(factor: u64, number: Option<u64>) -> Option<u64>
    ensures { result ≡ scaled factor number }
{
    match number {
        Some(number) => number.checked_mul(factor),
        None => None,
    }
}

/// The moment of a recording at which its trace starts, in microseconds: as [`read_moment`], or a minus and such a
/// time, for which it is 0, the recording's first moment, until its own moment 0 is known (profile). None for any
/// other text.
pub fn read_from_time(text: &str) -> Option<u64>
    ensures { result ≡ from_time_of text.now }
{
    let (front, _) = cut(text, '-');
    if front.is_empty() {
        let _before = read_before(text)?;
        Some(0)
    } else {
        read_moment(text)
    }
}

/// How long before its recording's own moment 0 a trace starts, in microseconds: a minus and a time, as
/// [`read_moment`] reads it (profile). None for any other text.
pub fn read_before(text: &str) -> Option<u64>
    ensures { result ≡ before_of text.now }
{
    let (front, behind) = cut(text, '-');
    if front.is_empty() {
        read_moment(behind)
    } else {
        None
    }
}

/// The longest pulse that is left out, in microseconds: a time as [`read_moment`] reads it, or a number of nanoseconds
/// and `ns`, rounded up (profile). None for any other text.
pub fn read_glitch(text: &str) -> Option<u64>
    ensures { result ≡ glitch_of text.now }
{
    let (nanos, behind) = cut(text, 'n');
    if behind == "s" {
        in_micros(read_start(nanos))
    } else {
        read_moment(text)
    }
}

/// Nanoseconds in microseconds, rounded up.
fn in_micros(nanos: Option<u64>) -> Option<u64>
    ensures { result ≡ option_map (λ n. div_ceil n 1000) nanos }
{
    match nanos {
        Some(nanos) => Some(nanos.div_ceil(1000)),
        None => None,
    }
}
