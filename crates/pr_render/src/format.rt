//! The formats of pages.

ghost use Rattle.std.specs.Prelude.{◌≡◌};
ghost use Rattle.pr_render.specs.Showing.{showing, usual, whole};

use pr_dots::Scale;

/// One of the two printers.
#[derive(Clone, Copy, Debug, PartialEq, Eq)]
pub enum Device {
    /// Printer 4.
    Four,
    /// Printer 5.
    Five,
}

/// The paper of a document.
#[derive(Clone, Copy, Debug, PartialEq, Eq)]
pub enum Size {
    /// Continuous paper, 9.5 by 11 inches.
    Continuous,
    /// A4, with a sheet in true size in its middle.
    A4,
    /// Letter, with a sheet at 95 % in its middle.
    Letter,
}

/// How the pages lie on their paper, and which paper it is.
#[derive(Clone, Copy, Debug, PartialEq, Eq)]
pub struct Layout {
    /// How many lines of 1/6 inch the first row is below the upper edge of the paper.
    pub top: u8,
    /// The paper of a document.
    pub size: Size,
    /// A bitmap or a document has the strips with holes, and the lines at which paper tears off.
    pub holes: bool,
}

/// What of the pages a picture shows, and how they lie on their paper.
#[derive(Clone, Copy, Debug, PartialEq, Eq)]
pub struct Part {
    /// The one printer whose pages are shown.
    pub device: Option<Device>,
    /// The one sheet of 11 inches that is shown, from 1.
    pub sheet: Option<u64>,
    /// How the pages lie on their paper.
    pub layout: Layout,
    /// How many pixels a bitmap has for the place of a dot.
    pub scale: Scale,
}

/// How lines show what is printed in reverse (profile).
#[derive(Clone, Copy, Debug, PartialEq, Eq)]
pub enum Look {
    /// For a file: reversed letters as letters, and reversed blanks as full blocks.
    Blocks,
    /// For a terminal: in its reverse video, which SGR 7 of ECMA-48 begins and SGR 27 ends.
    Video,
}

/// How pages are written, and what of them (profile).
#[derive(Clone, Copy, Debug, PartialEq, Eq)]
pub enum Format {
    /// The page text, a line for each row and each mark.
    List,
    /// Lines of at most 80 columns, for a terminal, mail and `diff`.
    Lines(Look),
    /// An SVG document, for a browser: the pages of all printers one above the other, those of one printer, or one sheet.
    Svg(Part),
    /// A bitmap: the paper of one printer down to its last row, or one sheet.
    Png(Part),
    /// The sheets of all printers, or of one, as a PDF document.
    Pdf(Option<Device>, Layout),
}

impl Layout {
    /// The first row is 3 lines, half an inch, below the upper edge, as people put their paper in, and pictures show
    /// continuous paper without its holes (profile).
    pub fn usual() -> Layout
        ensures { result ≡ usual }
    {
        Layout {
            top: 3,
            size: Size::Continuous,
            holes: false,
        }
    }
}

impl Part {
    /// All of the pages, on paper as people put it in; a bitmap has two pixels for the place of a dot (profile).
    pub fn whole() -> Part
        ensures { result ≡ whole }
    {
        Part {
            device: None,
            sheet: None,
            layout: Layout::usual(),
            scale: Scale::Two,
        }
    }
}

impl Format {
    /// The same format of this part of the pages, or `None` where the format has no such part: the list and the lines show
    /// all pages, without their paper, and a PDF document has no single sheet.
    pub fn showing(self, part: Part) -> Option<Format>
        ensures { result ≡ showing self part }
    {
        match (self, part.device, part.sheet) {
            (Format::List, None, None) => Some(Format::List),
            (Format::Lines(look), None, None) => Some(Format::Lines(look)),
            (Format::Svg(_), _, _) => Some(Format::Svg(part)),
            (Format::Png(_), _, _) => Some(Format::Png(part)),
            (Format::Pdf(_, _), device, None) => Some(Format::Pdf(device, part.layout)),
            _ => None,
        }
    }
}
