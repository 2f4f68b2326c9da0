//! What the numbers and bytes that a caller passes mean.

ghost use Rattle.std.specs.Prelude.{◌≡◌, take};
ghost use Rattle.pr_capture.specs.Found.{found_format};
ghost use Rattle.pr_exports.specs.Settings.{AsksShapes, IsInput, detail_of, device_of, form_of, format_of, layout_of, paper_of, rate_of, scale_of, sheet_of, shown_of, source_of};

use pr_capture::{InputFormat, Probes, Signals, TraceInput, found_format};
use pr_characters::{CharactersFault, read_shapes};
use pr_dots::{Scale, Shapes};
use pr_listing::ListingForm;
use pr_render::{Device, Format, Layout, Look, Part, Size};
use pr_report::{Bounds, Detail};

/// How many bytes of a recording show its format, at most.
const FIRST: usize = 4096;

/// The bytes that show a recording's format.
fn first_of(bytes: &[u8]) -> &[u8]
    ensures { result.now ≡ take 4096 bytes.now }
{
    &bytes[..FIRST.min(bytes.len())]
}

/// The format that they show, or else this one.
fn found_in(source: InputFormat, bytes: &[u8]) -> InputFormat
    ensures { result ≡ found_format source (take 4096 bytes.now) }
{
    found_format(source, first_of(bytes))
}

/// The format of a recording: 0 a trace text, 1 a Value Change Dump, 2 a table of comma separated values; 3 the one
/// that its first bytes show, or else a trace text, 4 the same, or else a table.
pub fn source_for(number: u8, bytes: &[u8]) -> Option<InputFormat>
    ensures { result ≡ source_of number bytes.now }
{
    match number {
        0 => Some(InputFormat::Text),
        1 => Some(InputFormat::Vcd),
        2 => Some(InputFormat::Csv),
        3 => Some(found_in(InputFormat::Text, bytes)),
        4 => Some(found_in(InputFormat::Csv, bytes)),
        _ => None,
    }
}

/// The shapes that a caller asks for: those of a file of characters, or this project's own where it is empty.
pub fn shapes_for(characters: &[u8]) -> Result<Shapes, CharactersFault>
    ensures { AsksShapes characters.now result }
{
    match characters {
        [] => Ok(Shapes::own()),
        [_, ..] => read_shapes(characters),
    }
}

/// The form of a listing: 0 the text of a script, 1 a saved program, 2 petcat's text, 3 a magazine's listing, 4 what
/// the first bytes show.
pub fn form_for(form: u8) -> Option<ListingForm>
    ensures { result ≡ form_of form }
{
    match form {
        0 => Some(ListingForm::Text),
        1 => Some(ListingForm::Program),
        2 => Some(ListingForm::Petcat),
        3 => Some(ListingForm::Magazine),
        4 => Some(ListingForm::Auto),
        _ => None,
    }
}

/// The format of pages: 0 the page text, 1 lines of 80 columns, 2 an SVG document, 3 a PNG file, 4 a PDF document.
fn format_for(number: u8) -> Option<Format>
    ensures { result ≡ format_of number }
{
    match number {
        0 => Some(Format::List),
        1 => Some(Format::Lines(Look::Blocks)),
        2 => Some(Format::Svg(Part::whole())),
        3 => Some(Format::Png(Part::whole())),
        4 => Some(Format::Pdf(None, Layout::usual())),
        _ => None,
    }
}

/// The printer whose pages are shown: 0 all printers, or 4 or 5; `None` for another number.
fn device_for(number: u8) -> Option<Option<Device>>
    ensures { result ≡ device_of number }
{
    match number {
        0 => Some(None),
        4 => Some(Some(Device::Four)),
        5 => Some(Some(Device::Five)),
        _ => None,
    }
}

/// The sheet that is shown, from 1; 0 for all of them.
fn sheet_for(number: u64) -> Option<u64>
    ensures { result ≡ sheet_of number }
{
    match number {
        0 => None,
        sheet => Some(sheet),
    }
}

/// The pixels of a bitmap for the place of a dot, across and down: 1 to 8.
fn scale_for(number: u8) -> Option<Scale>
    ensures { result ≡ scale_of number }
{
    match number {
        1 => Some(Scale::One),
        2 => Some(Scale::Two),
        3 => Some(Scale::Three),
        4 => Some(Scale::Four),
        5 => Some(Scale::Five),
        6 => Some(Scale::Six),
        7 => Some(Scale::Seven),
        8 => Some(Scale::Eight),
        _ => None,
    }
}

/// The paper of a document, and whether it and a bitmap show its holes: 0 continuous paper without and 1 with them, 2 A4, 3
/// letter.
fn paper_for(number: u8) -> Option<(Size, bool)>
    ensures { result ≡ paper_of number }
{
    match number {
        0 => Some((Size::Continuous, false)),
        1 => Some((Size::Continuous, true)),
        2 => Some((Size::A4, false)),
        3 => Some((Size::Letter, false)),
        _ => None,
    }
}

/// How the pages lie on their paper: this many lines above the first row; `None` where a sheet has no more, or there is no such
/// paper.
fn layout_for(top: u8, paper: u8) -> Option<Layout>
    ensures { result ≡ layout_of top paper }
{
    let Some((size, holes)) = paper_for(paper) else {
        return None;
    };
    if top < 66 {
        Some(Layout { top, size, holes })
    } else {
        None
    }
}

/// The format of pages, what of them it shows: one printer or all (0), one sheet or all (0), the lines above the first row, the
/// paper of a document and the pixels of a bitmap for the place of a dot. `None` where a number means no such setting, or the
/// format cannot show this part.
pub fn shown_for(
    format: u8,
    device: u8,
    sheet: u64,
    top: u8,
    paper: u8,
    scale: u8,
) -> Option<Format>
    ensures { result ≡ shown_of format device sheet top paper scale }
{
    let Some(format) = format_for(format) else {
        return None;
    };
    let Some(device) = device_for(device) else {
        return None;
    };
    let Some(layout) = layout_for(top, paper) else {
        return None;
    };
    let Some(scale) = scale_for(scale) else {
        return None;
    };
    format.showing(Part {
        device,
        sheet: sheet_for(sheet),
        layout,
        scale,
    })
}

/// Which intervals of a reading have a line: 0 and 2 none, 1 those outside the profile's bounds, 3 those outside the guide's,
/// both with a table of all intervals; with 2 and 3 the verdict is by the guide.
pub fn detail_for(number: u8) -> Option<Detail>
    ensures { result ≡ detail_of number }
{
    let (intervals, bounds) = match number {
        0 => (false, Bounds::Profile),
        1 => (true, Bounds::Profile),
        2 => (false, Bounds::Guide),
        3 => (true, Bounds::Guide),
        _ => return None,
    };
    Some(Detail { intervals, bounds })
}

/// The samples in a second that are said of a table; 0 where none are.
fn rate_for(number: u64) -> Option<u64>
    ensures { result ≡ rate_of number }
{
    match number {
        0 => None,
        rate => Some(rate),
    }
}

/// A recording with these names of its signals, of levels as they are or all inverted, which starts at this
/// microsecond and has `rate` samples in a second, or says itself how many (0).
pub fn input_for<'a>(
    source: InputFormat,
    atn: &'a [u8],
    clock: &'a [u8],
    line: &'a [u8],
    is_inverted: bool,
    start: u64,
    rate: u64,
) -> TraceInput<'a>
    ensures { IsInput source atn.now clock.now line.now is_inverted start rate result }
{
    TraceInput {
        source,
        signals: Signals {
            atn,
            clock,
            line,
            probes: Probes::alike(is_inverted),
        },
        start,
        pulse: 0,
        rate: rate_for(rate),
    }
}
