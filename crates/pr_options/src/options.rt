//! The program's options, a row for each, and the options of each subcommand. Help has at most 80 columns, and
//! its lines are broken here.
//!
//! `specs/Rows.antt` has rows and lists once more, since the kit hands no constant that is a struct to a
//! specification; so a changed default or ending is refused.

ghost use Rattle.std.specs.Prelude.{◌≡◌};
ghost use Rattle.pr_options.specs.Rows.{by_file, command_name, foreign, letter, no_value, options_of, plain, row};
ghost use Rattle.pr_options.specs.Subcommands.{endings_view, row_view, subcommands};

use std::fmt;

/// A subcommand of the program.
#[derive(Clone, Copy, Debug, PartialEq, Eq)]
pub enum Subcommand {
    Pages,
    Bus,
    Check,
    Decode,
    Raw,
}

impl Subcommand {
    /// All subcommands, in the order in which help lists them.
    pub fn all() -> &'static [Subcommand]
        ensures { result.now ≡ subcommands }
    {
        &[
            Subcommand::Pages,
            Subcommand::Bus,
            Subcommand::Check,
            Subcommand::Decode,
            Subcommand::Raw,
        ]
    }

    /// Its name in a command line.
    pub fn name(self) -> &'static str
        ensures { result.now ≡ command_name self }
    {
        match self {
            Subcommand::Pages => "pages",
            Subcommand::Bus => "bus",
            Subcommand::Check => "check",
            Subcommand::Decode => "decode",
            Subcommand::Raw => "raw",
        }
    }

    /// Its options, in the order in which help lists them, which is that of [`Opt`], but for `--set` of `decode`.
    pub fn options(self) -> &'static [Opt]
        ensures { result.now ≡ options_of self }
    {
        match self {
            Subcommand::Pages => &[
                Opt::ListingFrom,
                Opt::Steps,
                Opt::Present,
                Opt::Delays,
                Opt::Status,
                Opt::PageAs,
                Opt::Explain,
                Opt::Quiet,
                Opt::Device,
                Opt::Sheet,
                Opt::Scale,
                Opt::Top,
                Opt::Paper,
                Opt::Holes,
                Opt::Characters,
            ],
            Subcommand::Bus => &[
                Opt::ListingFrom,
                Opt::Steps,
                Opt::Present,
                Opt::Delays,
                Opt::Status,
                Opt::TraceAs,
                Opt::Explain,
                Opt::Quiet,
            ],
            Subcommand::Check => &[
                Opt::From,
                Opt::Names,
                Opt::Invert,
                Opt::FromTime,
                Opt::Glitch,
                Opt::Rate,
                Opt::Threshold,
                Opt::ReportAs,
                Opt::Explain,
                Opt::Quiet,
            ],
            Subcommand::Decode => &[
                Opt::ReadingFrom,
                Opt::Names,
                Opt::Invert,
                Opt::FromTime,
                Opt::Glitch,
                Opt::Rate,
                Opt::Threshold,
                Opt::ReadingAs,
                Opt::Explain,
                Opt::Quiet,
                Opt::Device,
                Opt::Sheet,
                Opt::Scale,
                Opt::Top,
                Opt::Paper,
                Opt::Holes,
                Opt::Characters,
                Opt::Intervals,
                Opt::Bounds,
                Opt::Listening,
                Opt::Set,
                Opt::Strict,
            ],
            Subcommand::Raw => &[
                Opt::Set,
                Opt::RawAs,
                Opt::Explain,
                Opt::Quiet,
                Opt::RawDevice,
                Opt::Sheet,
                Opt::Scale,
                Opt::Top,
                Opt::Paper,
                Opt::Holes,
                Opt::Characters,
            ],
        }
    }
}

/// An option with a value, a flag, or an option that names a file. A bad value is reported in this order, after
/// those of `--present`, `--delays` and `--status`.
#[derive(Clone, Copy, Debug, PartialEq, Eq)]
pub enum Opt {
    /// The form of a listing: `--from` of `pages` and `bus`.
    ListingFrom,
    /// The steps that the run of a program has at most.
    Steps,
    /// The format of a trace that is checked: `--from` of `check`.
    From,
    /// The format of a recording that is decoded: `--from` of `decode`.
    ReadingFrom,
    /// The printers on the bus.
    Present,
    /// How long each party waits.
    Delays,
    /// Whether the status is kept from statement to statement.
    Status,
    /// The character set that is selected first.
    Set,
    /// The signals of a recording.
    Names,
    /// The lines whose probes invert.
    Invert,
    /// The moment of a recording at which the trace starts.
    FromTime,
    /// The longest pulse of a line that is left out of a recording.
    Glitch,
    /// The samples in a second of a recording without times.
    Rate,
    /// By which volts a line is 1 or 0 in a table of volts.
    Threshold,
    /// What `pages` writes: its `--as`.
    PageAs,
    /// The format of the page of a printer's bytes: `--as` of `raw`.
    RawAs,
    /// The format of the trace of a run: `--as` of `bus`.
    TraceAs,
    /// What `check` writes: its `--as`.
    ReportAs,
    /// What `decode` writes: its `--as`.
    ReadingAs,
    /// A flag: more is said about a fault or a BASIC error.
    Explain,
    /// A flag: nothing is said but faults.
    Quiet,
    /// The printer whose pages a picture shows, or whose bytes are written.
    Device,
    /// The same of `raw`, which has no other help.
    RawDevice,
    /// The sheet that a picture shows.
    Sheet,
    /// The pixels of a bitmap for the place of a dot.
    Scale,
    /// The lines above the first row of a picture's paper.
    Top,
    /// The paper of a document.
    Paper,
    /// A flag: a bitmap or a document shows the holes of continuous paper.
    Holes,
    /// The file of the shapes of the characters that a picture draws.
    Characters,
    /// A flag: each byte's intervals outside the bounds are written.
    Intervals,
    /// The bounds that the intervals of a recording are measured against.
    Bounds,
    /// The printers that listen when a recording begins.
    Listening,
    /// A flag: it is no success where something of a recording is left out.
    Strict,
}

/// What follows the name of an option.
#[derive(Clone, Copy, Debug, PartialEq, Eq)]
pub enum Kind {
    /// A value.
    Value,
    /// Lines of the bus, or nothing, which means [`ALL_LINES`].
    Lines,
    /// Nothing.
    Flag,
    /// The name of a file.
    File,
}

/// What is known of an option.
#[derive(Clone, Copy)]
pub struct OptionRow {
    /// What follows its name.
    pub kind: Kind,
    /// Its name, after `--`.
    pub name: &'static str,
    /// What help calls its value.
    pub value: &'static str,
    /// The value where nothing else gives one.
    pub default: &'static str,
    /// The argument that names the file whose ending can give the value; empty where none does.
    pub file: &'static str,
    /// What the endings of that file's name say: each ending with its point, in small letters (capitals are the
    /// same), and the value, as words would give it.
    pub endings: &'static [NameEnding],
    /// Its values, in a few words.
    pub values: &'static str,
    /// What it is for, and what its values are, as help says it.
    pub help: &'static str,
}

/// An ending of a file's name, and the value that it gives an option.
pub type NameEnding = (&'static str, &'static str);

/// An argument that names a file.
#[derive(Clone, Copy)]
pub struct FileArgument {
    /// Its name; that of an option is after `--`.
    pub name: &'static str,
    /// What it is for.
    pub help: &'static str,
}

/// The name of [`INPUT`].
const INPUT_NAME: &str = "file";

/// The name of [`OUTPUT`].
const OUTPUT_NAME: &str = "output";

/// The file that is read. Words give it without a name of an option.
pub const INPUT: FileArgument = FileArgument {
    name: "file",
    help: "The file to read\n\
           [default: standard input, as with -]",
};

/// The file that is written.
pub const OUTPUT: FileArgument = FileArgument {
    name: "output",
    help: "The file to write, which is replaced when the\n\
           text is whole\n\
           [default: standard output, as with -]",
};

/// The value of an option that lines of the bus may follow, where nothing does.
pub const ALL_LINES: &str = "ATN,CLOCK,DATA";

/// The letter of [`OUTPUT`], after `-`.
pub const OUTPUT_LETTER: char = 'o';

/// What the endings of a listing's name say.
const LISTING_ENDINGS: &[NameEnding] = &[
    (".prg", "prg"),
    (".p00", "prg"),
    (".t64", "prg"),
    (".petcat", "petcat"),
    (".bas", "bas"),
    (".txt", "text"),
];

/// What the endings of a recording's name say.
const RECORDING_ENDINGS: &[NameEnding] = &[(".vcd", "vcd"), (".csv", "csv"), (".trace", "text")];

/// What the endings of a page's name say.
const PAGE_ENDINGS: &[NameEnding] = &[
    (".svg", "svg"),
    (".png", "png"),
    (".pdf", "pdf"),
    (".txt", "text"),
];

/// What the endings of a trace's name say.
const TRACE_ENDINGS: &[NameEnding] = &[(".vcd", "vcd")];

/// What the endings of a report's name say.
const REPORT_ENDINGS: &[NameEnding] = &[(".json", "json")];

/// What the endings of a reading's name say.
const READING_ENDINGS: &[NameEnding] = &[
    (".svg", "svg"),
    (".png", "png"),
    (".pdf", "pdf"),
    (".json", "json"),
];

/// The endings of files that are no listing: images of disks and tapes, archives, and recordings. Any other name says
/// nothing, so the first bytes show the form.
const FOREIGN_LISTINGS: &[NameEnding] = &[
    (".d64", "d64"),
    (".d71", "d71"),
    (".d80", "d80"),
    (".d81", "d81"),
    (".d82", "d82"),
    (".g64", "g64"),
    (".g71", "g71"),
    (".nib", "nib"),
    (".s00", "s00"),
    (".u00", "u00"),
    (".r00", "r00"),
    (".tap", "tap"),
    (".crt", "crt"),
    (".lnx", "lnx"),
    (".gz", "gz"),
    (".xz", "xz"),
    (".zip", "zip"),
    (".7z", "7z"),
    (".rar", "rar"),
    (".vcd", "vcd"),
    (".svg", "svg"),
    (".png", "png"),
    (".pdf", "pdf"),
    ("", "auto"),
];

/// The endings of files that are no recording which is read: dumps in other forms, and archives. Any other name says
/// nothing, so the first bytes show the format.
const FOREIGN_RECORDINGS: &[NameEnding] = &[
    (".fst", "fst"),
    (".ghw", "ghw"),
    (".lxt", "lxt"),
    (".gz", "gz"),
    (".xz", "xz"),
    (".zip", "zip"),
    (".7z", "7z"),
    (".rar", "rar"),
    ("", "auto"),
];

/// The endings of files of other programs, and of formats that only other subcommands write.
const FOREIGN_OUTPUTS: &[NameEnding] = &[
    (".svg", "svg"),
    (".png", "png"),
    (".pdf", "pdf"),
    (".json", "json"),
    (".vcd", "vcd"),
    (".csv", "csv"),
    (".jpg", "jpg"),
    (".jpeg", "jpeg"),
    (".gif", "gif"),
    (".bmp", "bmp"),
    (".tif", "tif"),
    (".tiff", "tiff"),
    (".webp", "webp"),
    (".ps", "ps"),
    (".eps", "eps"),
    (".htm", "htm"),
    (".html", "html"),
    (".doc", "doc"),
    (".docx", "docx"),
    (".odt", "odt"),
    (".rtf", "rtf"),
    (".xml", "xml"),
    (".svgz", "svgz"),
    (".gz", "gz"),
    (".tgz", "tgz"),
    (".xz", "xz"),
    (".zip", "zip"),
    (".7z", "7z"),
    (".rar", "rar"),
    (".bas", "bas"),
    (".prg", "prg"),
    (".petcat", "petcat"),
];

/// No ending says anything.
const NO_ENDINGS: &[NameEnding] = &[];

// What help says of the options, and their values in a few words.

const LISTING_FROM_HELP: &str = "auto (what the first bytes show),\n\
     text, prg (a saved program),\n\
     petcat (petcat's text of a program),\n\
     magazine (a magazine's listing),\n\
     basic (a program, which is run), or\n\
     bas (text, or else basic)\n\
     [default: by FILE; standard input is text]";

const LISTING_FROM_VALUES: &str = "auto, text, prg, petcat, magazine, basic or bas";

const STEPS_HELP: &str = "How many statements and ends of lines a program\n\
     runs before it is refused";

const STEPS_VALUES: &str = "a whole number from 1";

const FROM_HELP: &str = "auto (what the first bytes show),\n\
     text (a trace as bus writes it),\n\
     vcd (a Value Change Dump) or\n\
     csv (a table of samples)\n\
     [default: by FILE; standard input is text]";

const READING_FROM_HELP: &str = "auto (what the first bytes show),\n\
     text (a trace as bus writes it),\n\
     vcd (a Value Change Dump) or\n\
     csv (a table of samples)\n\
     [default: by the ending of FILE, else auto]";

const FROM_VALUES: &str = "auto, text, vcd or csv";

const PRESENT_HELP: &str = "The printers on the bus:\n\
     none, 4, 5 or both";

const PRESENT_VALUES: &str = "none, 4, 5 or both";

const DELAYS_HELP: &str = "How long each party waits, as in 900,999/9: lists\n\
     of the computer, printer 4 and printer 5, each with\n\
     numbers from 0 to 65535 in at most five digits\n\
     [default: every delay is the typical one]";

const DELAYS_VALUES: &str = "lists as in 900,999/9";

const STATUS_HELP: &str = "each (clears the status before each statement)\n\
     or kept";

const STATUS_VALUES: &str = "each or kept";

const SET_HELP: &str = "The character set selected before the first byte:\n\
     upper (graphic/upper case) or\n\
     lower (lower/upper case)";

const SET_VALUES: &str = "upper or lower";

const NAMES_HELP: &str = "The signals that are ATN, CLOCK and DATA:\n\
     no quotation marks, no two the same, and not\n\
     both CLOCK and CLK";

const NAMES_VALUES: &str = "three different names, as in ATN,CLOCK,DATA";

const INVERT_HELP: &str = "The probes of these lines invert, or all do if no\n\
     line follows: 0 is released, 1 is pulled";

const INVERT_VALUES: &str = "lines of the bus, as in DATA or ATN,CLOCK";

const FROM_TIME_HELP: &str = "The time of the recording at which the trace\n\
     starts: microseconds, or as in 5ms or 2s; =-500\n\
     is before the table's own moment 0";

const FROM_TIME_VALUES: &str = "microseconds below 2^64, as in 1500, 5ms, 2s or -500";

const GLITCH_HELP: &str = "Leave out pulses of a line up to this length, as\n\
     cross-talk makes them: a time as in 200ns or 2us,\n\
     rounded up to whole microseconds";

const GLITCH_VALUES: &str = "microseconds below 2^64, as in 2, 200ns, 2us or 1ms";

const RATE_HELP: &str = "The samples in a second of a table that has no\n\
     times, such as 4e6, 4M, 4MHz, 4MS/s or 500k, or\n\
     none (its remarks say it)";

const RATE_VALUES: &str = "samples in a second, as in 4M, 500k or 1000000, or none";

const THRESHOLD_HELP: &str = "The volts from which on a line is 1 in a table of\n\
     volts; with LOW,HIGH it is 0 below LOW, 1 from\n\
     HIGH on, and stays as it was between; or none\n\
     (cells are levels)";

const THRESHOLD_VALUES: &str = "volts, as in 1.5 or 0.8,2, or none";

const PAGE_AS_HELP: &str = "list (every mark with its place), text (lines for\n\
     a terminal), svg (a picture), png (a bitmap), pdf\n\
     (sheets to print), bytes (what a printer hears,\n\
     for raw) or script (what is run)";

const PAGE_AS_VALUES: &str = "list, text, svg, png, pdf, bytes or script";

const RAW_AS_HELP: &str = "list (every mark with its place), text (lines for\n\
     a terminal), svg (a picture), png (a bitmap) or\n\
     pdf (sheets to print)";

const RAW_AS_VALUES: &str = "list, text, svg, png or pdf";

const TRACE_AS_HELP: &str = "text (a line for each edge),\n\
     vcd (a Value Change Dump) or\n\
     script (what is run)";

const TRACE_AS_VALUES: &str = "text, vcd or script";

const REPORT_AS_HELP: &str = "frames (a line for each), story (times and\n\
     meaning) or json";

const REPORT_AS_VALUES: &str = "frames, story or json";

const READING_AS_HELP: &str = "list (each byte with its times), json (for\n\
     programs), bytes (what a printer hears, for\n\
     raw), or the pages that they print: text, svg,\n\
     png or pdf";

const READING_AS_VALUES: &str = "list, text, svg, png, pdf, json or bytes";

const EXPLAIN_HELP: &str = "Says more about a fault or a BASIC error,\n\
     on standard error";

const QUIET_HELP: &str = "Leaves out notes and progress on standard\n\
     error";

const DEVICE_HELP: &str = "4 or 5: the printer that svg, png and pdf draw\n\
     or whose bytes are written [default: all; png:\n\
     the first that printed; bytes: 4]";

const DEVICE_VALUES: &str = "4 or 5";

const RAW_DEVICE_HELP: &str = "4, which prints the bytes, or 5, whose page is\n\
     blank, for svg, png and pdf [default: 4]";

const SHEET_HELP: &str = "The sheet of 11 inches, from 1, that svg and png\n\
     draw, of one printer [default: all]";

const SHEET_VALUES: &str = "a whole number from 1";

const SCALE_HELP: &str = "The pixels of png for each dot, across and down,\n\
     1 to 8";

const SCALE_VALUES: &str = "a whole number from 1 to 8";

const TOP_HELP: &str = "The lines of 1/6 inch, 0 to 65, from the upper\n\
     edge of the paper to the first row of svg, png\n\
     and pdf";

const TOP_VALUES: &str = "a whole number from 0 to 65";

const PAPER_HELP: &str = "The paper of pdf: continuous (9.5 by 11 inches),\n\
     a4 (a sheet in true size in its middle) or\n\
     letter (the same at 95 %)";

const PAPER_VALUES: &str = "continuous, a4 or letter";

const HOLES_HELP: &str = "Draws the holes and perforations of continuous\n\
     paper in png and pdf; svg always has them";

const CHARACTERS_HELP: &str = "A file with the shapes of characters that svg,\n\
     png and pdf draw\n\
     [default: this project's own]";

const INTERVALS_HELP: &str = "Lists each byte's intervals outside the bounds,\n\
     and a table of all intervals";

const BOUNDS_HELP: &str = "Bounds of intervals and of the verdict: profile\n\
     (this project's) or guide (those of the\n\
     Programmer's Reference Guide)";

const BOUNDS_VALUES: &str = "profile or guide";

const LISTENING_HELP: &str = "4, 5 or 4,5: the printers that listen when the\n\
     recording begins, as if it began with LISTEN";

const LISTENING_VALUES: &str = "4, 5 or 4,5";

const STRICT_HELP: &str = "Ends with status 1 where pages or bytes leave out\n\
     something of the recording, as notes say it";

/// The row of an option with a value that no file's name gives.
fn valued(
    name: &'static str,
    value: &'static str,
    default: &'static str,
    values: &'static str,
    help: &'static str,
) -> OptionRow
    ensures { row_view result ≡ plain name.now default.now values.now help.now }
{
    OptionRow {
        kind: Kind::Value,
        name,
        value,
        default,
        file: "",
        endings: NO_ENDINGS,
        values,
        help,
    }
}

/// The row of an option whose value the ending of a file's name can give.
fn with_endings(row: OptionRow, file: &'static str, endings: &'static [NameEnding]) -> OptionRow
    ensures { row_view result ≡ by_file file.now (endings_view endings.now) (row_view row) }
{
    OptionRow {
        file,
        endings,
        ..row
    }
}

/// The row of an option without a value, or of one that names a file.
fn bare(kind: Kind, name: &'static str, value: &'static str, help: &'static str) -> OptionRow
    ensures { row_view result ≡ no_value kind name.now help.now }
{
    OptionRow {
        kind,
        ..valued(name, value, "", "", help)
    }
}

impl Opt {
    /// What is known of this option.
    pub(crate) fn row(self) -> OptionRow
        ensures { row_view result ≡ row self }
    {
        match self {
            Opt::ListingFrom => with_endings(
                valued(
                    "from",
                    "FORM",
                    "text",
                    LISTING_FROM_VALUES,
                    LISTING_FROM_HELP,
                ),
                INPUT_NAME,
                LISTING_ENDINGS,
            ),
            Opt::Steps => valued("steps", "NUMBER", "10000000", STEPS_VALUES, STEPS_HELP),
            Opt::From => with_endings(
                valued("from", "FORMAT", "text", FROM_VALUES, FROM_HELP),
                INPUT_NAME,
                RECORDING_ENDINGS,
            ),
            Opt::ReadingFrom => with_endings(
                valued("from", "FORMAT", "auto", FROM_VALUES, READING_FROM_HELP),
                INPUT_NAME,
                RECORDING_ENDINGS,
            ),
            Opt::Present => valued("present", "PRINTERS", "both", PRESENT_VALUES, PRESENT_HELP),
            Opt::Delays => valued("delays", "LISTS", "", DELAYS_VALUES, DELAYS_HELP),
            Opt::Status => valued("status", "MODE", "each", STATUS_VALUES, STATUS_HELP),
            Opt::Set => valued("set", "SET", "upper", SET_VALUES, SET_HELP),
            Opt::Names => valued("names", "NAMES", "ATN,CLOCK,DATA", NAMES_VALUES, NAMES_HELP),
            Opt::Invert => OptionRow {
                kind: Kind::Lines,
                ..valued("invert", "LINES", "", INVERT_VALUES, INVERT_HELP)
            },
            Opt::FromTime => valued("from-time", "TIME", "0", FROM_TIME_VALUES, FROM_TIME_HELP),
            Opt::Glitch => valued("glitch", "TIME", "0", GLITCH_VALUES, GLITCH_HELP),
            Opt::Rate => valued("rate", "RATE", "none", RATE_VALUES, RATE_HELP),
            Opt::Threshold => valued(
                "threshold",
                "VOLTS",
                "none",
                THRESHOLD_VALUES,
                THRESHOLD_HELP,
            ),
            Opt::PageAs => with_endings(
                valued("as", "FORMAT", "list", PAGE_AS_VALUES, PAGE_AS_HELP),
                OUTPUT_NAME,
                PAGE_ENDINGS,
            ),
            Opt::RawAs => with_endings(
                valued("as", "FORMAT", "list", RAW_AS_VALUES, RAW_AS_HELP),
                OUTPUT_NAME,
                PAGE_ENDINGS,
            ),
            Opt::TraceAs => with_endings(
                valued("as", "FORMAT", "text", TRACE_AS_VALUES, TRACE_AS_HELP),
                OUTPUT_NAME,
                TRACE_ENDINGS,
            ),
            Opt::ReportAs => with_endings(
                valued("as", "FORMAT", "frames", REPORT_AS_VALUES, REPORT_AS_HELP),
                OUTPUT_NAME,
                REPORT_ENDINGS,
            ),
            Opt::ReadingAs => with_endings(
                valued("as", "FORMAT", "list", READING_AS_VALUES, READING_AS_HELP),
                OUTPUT_NAME,
                READING_ENDINGS,
            ),
            Opt::Explain => bare(Kind::Flag, "explain", "", EXPLAIN_HELP),
            Opt::Quiet => bare(Kind::Flag, "quiet", "", QUIET_HELP),
            Opt::Device => valued("device", "PRINTER", "", DEVICE_VALUES, DEVICE_HELP),
            Opt::RawDevice => valued("device", "PRINTER", "", DEVICE_VALUES, RAW_DEVICE_HELP),
            Opt::Sheet => valued("sheet", "NUMBER", "", SHEET_VALUES, SHEET_HELP),
            Opt::Scale => valued("scale", "NUMBER", "2", SCALE_VALUES, SCALE_HELP),
            Opt::Top => valued("top", "LINES", "3", TOP_VALUES, TOP_HELP),
            Opt::Paper => valued("paper", "PAPER", "continuous", PAPER_VALUES, PAPER_HELP),
            Opt::Holes => bare(Kind::Flag, "holes", "", HOLES_HELP),
            Opt::Characters => bare(Kind::File, "characters", "FILE", CHARACTERS_HELP),
            Opt::Intervals => bare(Kind::Flag, "intervals", "", INTERVALS_HELP),
            Opt::Bounds => valued("bounds", "BOUNDS", "profile", BOUNDS_VALUES, BOUNDS_HELP),
            Opt::Listening => valued(
                "listening",
                "PRINTERS",
                "",
                LISTENING_VALUES,
                LISTENING_HELP,
            ),
            Opt::Strict => bare(Kind::Flag, "strict", "", STRICT_HELP),
        }
    }
}

impl Opt {
    /// What the endings of a file's name say that no format has: values that are none of this option, so that they are
    /// refused; or, of any other input, that its first bytes show the format.
    pub(crate) fn foreign(self) -> &'static [NameEnding]
        ensures { endings_view result.now ≡ foreign self }
    {
        match self {
            Opt::ListingFrom => FOREIGN_LISTINGS,
            Opt::From | Opt::ReadingFrom => FOREIGN_RECORDINGS,
            Opt::PageAs | Opt::RawAs | Opt::TraceAs | Opt::ReportAs | Opt::ReadingAs => {
                FOREIGN_OUTPUTS
            }
            _ => NO_ENDINGS,
        }
    }

    /// The letter that serves for the name of a flag, after `-`, if one does.
    pub(crate) fn letter(self) -> Option<char>
        ensures { result ≡ letter self }
    {
        match self {
            Opt::Quiet => Some('q'),
            _ => None,
        }
    }
}

/// Its name.
impl fmt::Display for Opt {
    fn fmt<W: fmt::Write>(&self, f: &mut fmt::Formatter<W>) -> fmt::Result {
        f.write_str(self.row().name)
    }
}
