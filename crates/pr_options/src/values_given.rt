//! What words give the options, and what of it goes together.

ghost use Rattle.std.specs.Prelude.{◌≡◌, IfErr, find, option_map, unwrap_or};
ghost use Rattle.std.specs.Str.{str_eq_ignore_ascii_case};
ghost use Rattle.clap.specs.Words.{first_of, found_of, rows_of};
ghost use Rattle.pr_options.specs.Given.{characters_in, ending_value, file_in, has_ending, is_given, is_named, is_of_words, named, value_by_ending, value_by_name, value_in};
ghost use Rattle.pr_options.specs.Jobs.{decode_output, drawn, fitting, heard, hearing, is_continuous, is_picture, pages_output, printed, read, read_if_given, shown, unless_found, unmeasured, unprinted, wanted_detail, wanted_hearing, wanted_layout, wanted_part, wants_more, wants_paper, wants_picture, wants_printers, wants_readings, wants_recording, wants_table};
ghost use Rattle.pr_options.specs.Options.{bounds_of, device_of, listening_of, paper_of, scale_of, sheet_of, top_of};
ghost use Rattle.pr_options.specs.SignalNames.{names_of};
ghost use Rattle.pr_options.specs.Steps.{IsOwn, signals_result};
ghost use Rattle.pr_options.specs.Subcommands.{endings_view, row_view};

use crate::command_line::JobFault;
use crate::option_values::{
    UNHEARING, read_bounds, read_device, read_listening, read_paper, read_scale, read_sheet,
    read_signals, read_top,
};
use crate::options::{FileArgument, NameEnding, Opt, OptionRow};
use crate::outputs::{DecodeOutput, Hearing, PagesOutput};
use clap::ArgMatches;
use clap::parser::ValueSource;
use pr_capture::{InputFormat, Signals};
use pr_dots::Scale;
use pr_render::{Device, Format, Layout, Part, Size};
use pr_report::{Bounds, Detail};
use pr_serial::Present;

/// The format of a recording whose first bytes show none.
pub fn unless_found(options: &ArgMatches<'_>) -> InputFormat
    ensures { result ≡ unless_found (rows_of (found_of options.now)) }
{
    if wants_recording(options) || wants_table(options) {
        InputFormat::Csv
    } else {
        InputFormat::Text
    }
}

/// The signals of a recording by their names, with probes that do not invert.
pub fn signals_in<'a>(options: &ArgMatches<'a>) -> Result<Signals<'a>, JobFault>
    ensures names { signals_result result ≡ read Opt.Names names_of (rows_of (found_of options.now)) }
    ensures own { IfErr result IsOwn }
{
    read_signals(value_in(options, Opt::Names)).ok_or(JobFault::Bad(Opt::Names))
}

/// What `pages` writes, as the other options say.
pub fn pages_output_in(
    plain: PagesOutput,
    options: &ArgMatches<'_>,
) -> Result<PagesOutput, JobFault>
    ensures value { result ≡ pages_output plain (rows_of (found_of options.now)) }
    ensures own { IfErr result IsOwn }
{
    match plain {
        PagesOutput::Pages(format) => {
            let shown = shown_in(format, options)?;
            Ok(PagesOutput::Pages(shown))
        }
        PagesOutput::Bytes(_) => {
            let device = heard_in(options)?;
            Ok(PagesOutput::Bytes(device))
        }
    }
}

/// The printer whose bytes are written. Bytes have no sheets and are no picture.
fn heard_in(options: &ArgMatches<'_>) -> Result<Device, JobFault>
    ensures value { result ≡ heard (rows_of (found_of options.now)) }
    ensures own { IfErr result IsOwn }
{
    let part = part_in(options)?;
    if part.sheet.is_some() {
        return Err(JobFault::NoPart);
    }
    if wants_picture(options) {
        return Err(JobFault::NoPicture);
    }
    if wants_paper(options) {
        return Err(JobFault::NoPaper);
    }
    Ok(part.device.unwrap_or(Device::Four))
}

/// A format that shows the part of the pages that is asked for, with the characters that are.
pub fn shown_in(format: Format, options: &ArgMatches<'_>) -> Result<Format, JobFault>
    ensures value { result ≡ shown format (rows_of (found_of options.now)) }
    ensures own { IfErr result IsOwn }
{
    let part = part_in(options)?;
    let shown = format.showing(part).ok_or(JobFault::NoPart)?;
    drawn_in(shown, options)
}

/// The format, where it is a picture or no option of pictures is given.
fn drawn_in(format: Format, options: &ArgMatches<'_>) -> Result<Format, JobFault>
    ensures value { result ≡ drawn format (rows_of (found_of options.now)) }
    ensures own { IfErr result IsOwn }
{
    if is_picture(format) || !wants_picture(options) {
        printed_in(format, options)
    } else {
        Err(JobFault::NoPicture)
    }
}

/// The format, where no option of paper or pixels is given that it has not.
fn printed_in(format: Format, options: &ArgMatches<'_>) -> Result<Format, JobFault>
    ensures value { result ≡ printed format (rows_of (found_of options.now)) }
    ensures own { IfErr result IsOwn }
{
    if wants_more(format, options) {
        Err(JobFault::NoPaper)
    } else {
        Ok(format)
    }
}

/// Whether an option of paper or pixels is given that pages in this format have not: bitmaps have holes and pixels, documents
/// paper and holes.
fn wants_more(format: Format, options: &ArgMatches<'_>) -> bool
    ensures { result ≡ wants_more format (rows_of (found_of options.now)) }
{
    match format {
        Format::List | Format::Lines(_) | Format::Svg(_) => wants_paper(options),
        Format::Png(_) => is_given(options, Opt::Paper),
        Format::Pdf(_, _) => is_given(options, Opt::Scale),
    }
}

/// Whether anything is given of paper or pixels.
fn wants_paper(options: &ArgMatches<'_>) -> bool
    ensures { result ≡ wants_paper (rows_of (found_of options.now)) }
{
    is_given(options, Opt::Scale) || is_given(options, Opt::Paper) || is_given(options, Opt::Holes)
}

/// Whether anything is given that goes with pictures alone.
fn wants_picture(options: &ArgMatches<'_>) -> bool
    ensures { result ≡ wants_picture (rows_of (found_of options.now)) }
{
    characters_in(options).is_some() || is_given(options, Opt::Top)
}

/// Whether pages in this format are drawn.
fn is_picture(format: Format) -> bool
    ensures { result ≡ is_picture format }
{
    match format {
        Format::List | Format::Lines(_) => false,
        Format::Svg(_) | Format::Png(_) | Format::Pdf(_, _) => true,
    }
}

/// What of the pages is shown, and how they lie on their paper.
fn part_in(options: &ArgMatches<'_>) -> Result<Part, JobFault>
    ensures value { result ≡ wanted_part (rows_of (found_of options.now)) }
    ensures own { IfErr result IsOwn }
{
    let device = device_in(options)?;
    let sheet = sheet_in(options)?;
    let scale = scale_in(options)?;
    let layout = layout_in(options)?;
    Ok(Part {
        device,
        sheet,
        layout,
        scale,
    })
}

/// How the pages lie on their paper. Holes go with continuous paper alone.
fn layout_in(options: &ArgMatches<'_>) -> Result<Layout, JobFault>
    ensures value { result ≡ wanted_layout (rows_of (found_of options.now)) }
    ensures own { IfErr result IsOwn }
{
    let top = top_in(options)?;
    let size = paper_in(options)?;
    let holes = is_given(options, Opt::Holes);
    if holes && !is_continuous(size) {
        return Err(JobFault::NoStrips);
    }
    Ok(Layout { top, size, holes })
}

/// Whether this is continuous paper.
fn is_continuous(size: Size) -> bool
    ensures { result ≡ is_continuous size }
{
    match size {
        Size::Continuous => true,
        Size::A4 | Size::Letter => false,
    }
}

/// The paper of a document.
fn paper_in(options: &ArgMatches<'_>) -> Result<Size, JobFault>
    ensures value { result ≡ read Opt.Paper paper_of (rows_of (found_of options.now)) }
    ensures own { IfErr result IsOwn }
{
    let size = read_paper(value_in(options, Opt::Paper)).ok_or(Opt::Paper)?;
    Ok(size)
}

/// The pixels of a bitmap for the place of a dot.
fn scale_in(options: &ArgMatches<'_>) -> Result<Scale, JobFault>
    ensures value { result ≡ read Opt.Scale scale_of (rows_of (found_of options.now)) }
    ensures own { IfErr result IsOwn }
{
    let scale = read_scale(value_in(options, Opt::Scale)).ok_or(Opt::Scale)?;
    Ok(scale)
}

/// The lines from the upper edge of the paper to the first row.
fn top_in(options: &ArgMatches<'_>) -> Result<u8, JobFault>
    ensures value { result ≡ read Opt.Top top_of (rows_of (found_of options.now)) }
    ensures own { IfErr result IsOwn }
{
    let top = read_top(value_in(options, Opt::Top)).ok_or(Opt::Top)?;
    Ok(top)
}

/// The printer whose pages are shown, if words name one.
fn device_in(options: &ArgMatches<'_>) -> Result<Option<Device>, JobFault>
    ensures value { result ≡ read_if_given Opt.Device device_of (rows_of (found_of options.now)) }
    ensures own { IfErr result IsOwn }
{
    if !is_given(options, Opt::Device) {
        return Ok(None);
    }
    let device = read_device(value_in(options, Opt::Device)).ok_or(Opt::Device)?;
    Ok(Some(device))
}

/// The sheet that is shown, if words name one.
fn sheet_in(options: &ArgMatches<'_>) -> Result<Option<u64>, JobFault>
    ensures value { result ≡ read_if_given Opt.Sheet sheet_of (rows_of (found_of options.now)) }
    ensures own { IfErr result IsOwn }
{
    if !is_given(options, Opt::Sheet) {
        return Ok(None);
    }
    let sheet = read_sheet(value_in(options, Opt::Sheet)).ok_or(Opt::Sheet)?;
    Ok(Some(sheet))
}

/// What `decode` writes, as the other options say, with this character set of `--set`.
pub fn decode_output_in(
    plain: DecodeOutput,
    lower: bool,
    options: &ArgMatches<'_>,
) -> Result<DecodeOutput, JobFault>
    ensures value { result ≡ decode_output plain lower (rows_of (found_of options.now)) }
    ensures own { IfErr result IsOwn }
{
    match plain {
        DecodeOutput::Readings(_) => {
            let detail = detail_in(options)?;
            unprinted(options)?;
            Ok(DecodeOutput::Readings(detail))
        }
        DecodeOutput::Json => {
            shown_in(Format::List, options)?;
            unmeasured(options)?;
            unprinted(options)?;
            Ok(DecodeOutput::Json)
        }
        DecodeOutput::Bytes(_, _) => {
            let device = heard_in(options)?;
            unmeasured(options)?;
            let hearing = hearing_in(lower, options)?;
            Ok(DecodeOutput::Bytes(device, hearing))
        }
        DecodeOutput::Pages(format, _) => {
            let shown = shown_in(format, options)?;
            unmeasured(options)?;
            let hearing = hearing_in(lower, options)?;
            Ok(DecodeOutput::Pages(shown, hearing))
        }
    }
}

/// How what printers hear of a recording is written.
fn hearing_in(lower: bool, options: &ArgMatches<'_>) -> Result<Hearing, JobFault>
    ensures value { result ≡ wanted_hearing lower (rows_of (found_of options.now)) }
    ensures own { IfErr result IsOwn }
{
    let listening = listening_in(options)?;
    hearing(lower, listening, options)
}

/// The same by the printers that listen then, if words name any. A character set goes with them alone: any other printer
/// is called, which selects one.
fn hearing(
    lower: bool,
    listening: Option<Present>,
    options: &ArgMatches<'_>,
) -> Result<Hearing, JobFault>
    ensures value { result ≡ hearing lower listening (rows_of (found_of options.now)) }
    ensures own { IfErr result IsOwn }
{
    let is_strict = is_given(options, Opt::Strict);
    match listening {
        Some(listening) => Ok(Hearing {
            listening,
            lower,
            is_strict,
        }),
        None if is_given(options, Opt::Set) => Err(JobFault::NoListener),
        None => Ok(Hearing {
            is_strict,
            ..UNHEARING
        }),
    }
}

/// The printers that listen when a recording begins, if words name any.
fn listening_in(options: &ArgMatches<'_>) -> Result<Option<Present>, JobFault>
    ensures value { result ≡ read_if_given Opt.Listening listening_of (rows_of (found_of options.now)) }
    ensures own { IfErr result IsOwn }
{
    if !is_given(options, Opt::Listening) {
        return Ok(None);
    }
    let listening = read_listening(value_in(options, Opt::Listening)).ok_or(Opt::Listening)?;
    Ok(Some(listening))
}

/// Refuses what is given and goes with pages and bytes alone.
fn unprinted(options: &ArgMatches<'_>) -> Result<(), JobFault>
    ensures value { result ≡ unprinted (rows_of (found_of options.now)) }
    ensures own { IfErr result IsOwn }
{
    listening_in(options)?;
    if wants_printers(options) {
        return Err(JobFault::NoPages);
    }
    Ok(())
}

/// Whether anything is given that goes with pages and bytes alone.
fn wants_printers(options: &ArgMatches<'_>) -> bool
    ensures { result ≡ wants_printers (rows_of (found_of options.now)) }
{
    is_given(options, Opt::Listening)
        || is_given(options, Opt::Set)
        || is_given(options, Opt::Strict)
}

/// What of the intervals of readings is written. Readings are no pictures: they show no part and draw no characters.
fn detail_in(options: &ArgMatches<'_>) -> Result<Detail, JobFault>
    ensures value { result ≡ wanted_detail (rows_of (found_of options.now)) }
    ensures own { IfErr result IsOwn }
{
    shown_in(Format::List, options)?;
    let bounds = read_bounds(value_in(options, Opt::Bounds)).ok_or(Opt::Bounds)?;
    Ok(Detail {
        intervals: is_given(options, Opt::Intervals),
        bounds,
    })
}

/// Refuses what is given and goes with a list of readings alone.
fn unmeasured(options: &ArgMatches<'_>) -> Result<(), JobFault>
    ensures value { result ≡ unmeasured (rows_of (found_of options.now)) }
    ensures own { IfErr result IsOwn }
{
    read_bounds(value_in(options, Opt::Bounds)).ok_or(Opt::Bounds)?;
    if wants_readings(options) {
        return Err(JobFault::NoReadings);
    }
    Ok(())
}

/// Whether anything is given that goes with a list of readings alone: JSON has all intervals, and no bounds.
fn wants_readings(options: &ArgMatches<'_>) -> bool
    ensures { result ≡ wants_readings (rows_of (found_of options.now)) }
{
    is_given(options, Opt::Intervals) || is_given(options, Opt::Bounds)
}

/// Refuses what is given and does not go with the source: with a text what goes with a recording alone, and what
/// goes with a table alone unless it is one.
pub fn fitting(source: InputFormat, options: &ArgMatches<'_>) -> Result<(), JobFault>
    ensures value { result ≡ fitting source (rows_of (found_of options.now)) }
    ensures own { IfErr result IsOwn }
{
    match source {
        InputFormat::Text if wants_recording(options) => Err(JobFault::NoRecording),
        InputFormat::Text | InputFormat::Vcd if wants_table(options) => Err(JobFault::NoTable),
        InputFormat::Text | InputFormat::Vcd | InputFormat::Csv => Ok(()),
    }
}

/// Whether anything is given that goes with a table alone.
fn wants_table(options: &ArgMatches<'_>) -> bool
    ensures { result ≡ wants_table (rows_of (found_of options.now)) }
{
    is_given(options, Opt::Rate) || is_given(options, Opt::Threshold)
}

/// Whether anything is given that goes with a recording alone.
fn wants_recording(options: &ArgMatches<'_>) -> bool
    ensures { result ≡ wants_recording (rows_of (found_of options.now)) }
{
    is_given(options, Opt::Invert)
        || is_given(options, Opt::Names)
        || is_given(options, Opt::FromTime)
        || is_given(options, Opt::Glitch)
}

/// The file that words name by this argument. None where they name none, or give `-`.
pub fn file_in<'a>(options: &ArgMatches<'a>, file: FileArgument) -> Option<&'a str>
    ensures { option_map (λ name. name.now) result ≡ file_in file.name.now (rows_of (found_of options.now)) }
{
    file_named(options, file.name)
}

/// The same by the argument's name.
fn file_named<'a>(options: &ArgMatches<'a>, argument: &str) -> Option<&'a str>
    ensures { option_map (λ name. name.now) result ≡ file_in argument.now (rows_of (found_of options.now)) }
{
    match text_in(options, argument) {
        Some(name) => named(name),
        None => None,
    }
}

/// The file of characters that words name.
pub fn characters_in<'a>(options: &ArgMatches<'a>) -> Option<&'a str>
    ensures { option_map (λ name. name.now) result ≡ characters_in (rows_of (found_of options.now)) }
{
    text_in(options, Opt::Characters.row().name)
}

/// The name of a file, which `-` is not.
fn named(name: &str) -> Option<&str>
    ensures { option_map (λ text. text.now) result ≡ named name.now }
{
    if name == "-" { None } else { Some(name) }
}

/// The text that words, or a default, give an argument.
fn text_in<'a>(options: &ArgMatches<'a>, name: &str) -> Option<&'a str>
    ensures { option_map (λ text. text.now) result ≡ first_of name.now (rows_of (found_of options.now)) }
{
    options.get_str(name)
}

/// The value of an option: the one that words give, else the one that a file's name gives, else its
/// default, which serves where the subcommand does not have the option too.
pub fn value_in<'a>(options: &ArgMatches<'a>, opt: Opt) -> &'a str
    ensures { result.now ≡ value_in opt (rows_of (found_of options.now)) }
{
    let row = opt.row();
    match ending_value(options, row, opt.foreign()) {
        Some(value) => value,
        None => given_value(options, row),
    }
}

/// The value that words give an option, or else its default.
fn given_value<'a>(options: &ArgMatches<'a>, row: OptionRow) -> &'a str
    ensures { result.now ≡ unwrap_or (first_of row.name.now (rows_of (found_of options.now))) row.default.now }
{
    options.get_str(row.name).unwrap_or(row.default)
}

/// The value that a file's name gives an option, where words do not give it.
fn ending_value(
    options: &ArgMatches<'_>,
    row: OptionRow,
    foreign: &[NameEnding],
) -> Option<&'static str>
    ensures { option_map (λ value. value.now) result ≡ ending_value (row_view row) (endings_view foreign.now) (rows_of (found_of options.now)) }
{
    if is_named(options, row.name) {
        return None;
    }
    match file_named(options, row.file) {
        Some(name) => value_by_name(row.endings, foreign, name),
        None => None,
    }
}

/// The value by the endings of an option, or else by those that no format has.
fn value_by_name(endings: &[NameEnding], foreign: &[NameEnding], name: &str) -> Option<&'static str>
    ensures { option_map (λ value. value.now) result ≡ value_by_name (endings_view endings.now) (endings_view foreign.now) name.now }
{
    match value_by_ending(endings, name) {
        Some(value) => Some(value),
        None => value_by_ending(foreign, name),
    }
}

/// The value of the first of these endings that the name has.
fn value_by_ending(endings: &[NameEnding], name: &str) -> Option<&'static str>
    ensures { option_map (λ value. value.now) result ≡ value_by_ending (endings_view endings.now) name.now }
{
    match first_ending(endings, name) {
        Some((_ending, value)) => Some(*value),
        None => None,
    }
}

/// The first of these endings that the name has.
fn first_ending<'a>(endings: &'a [NameEnding], name: &str) -> Option<&'a NameEnding>
    ensures { option_map (λ e. e.now) result ≡ find (λ e. has_ending name.now e.0.now) endings.now }
{
    endings.iter().find(|e| has_ending(name, e.0))
}

/// Whether a file's name ends so, in capitals or not.
fn has_ending(name: &str, ending: &str) -> bool
    ensures { result ≡ has_ending name.now ending.now }
{
    let bytes = name.as_bytes();
    if bytes.len() < ending.len() {
        return false;
    }
    is_same(&bytes[bytes.len() - ending.len()..], ending.as_bytes())
}

/// Whether two texts differ only in capitals and small letters.
fn is_same(a: &[u8], b: &[u8]) -> bool
    ensures { result ≡ str_eq_ignore_ascii_case a.now b.now }
{
    a.eq_ignore_ascii_case(b)
}

/// Whether words give this option or flag, not only its default.
pub fn is_given(options: &ArgMatches<'_>, opt: Opt) -> bool
    ensures { result ≡ is_given opt (rows_of (found_of options.now)) }
{
    is_named(options, opt.row().name)
}

/// Whether words have an option of this name.
fn is_named(options: &ArgMatches<'_>, name: &str) -> bool
    ensures { result ≡ is_named name.now (rows_of (found_of options.now)) }
{
    is_of_words(options.value_source(name))
}

/// Whether a value comes from the words, and not from a default.
fn is_of_words(source: Option<ValueSource>) -> bool
    ensures { result ≡ is_of_words source }
{
    matches!(source, Some(ValueSource::CommandLine))
}
