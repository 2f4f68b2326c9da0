//! Calls of the library, as rows with what they write.

ghost use Rattle.std.specs.Prelude.{◌≡◌, false};
ghost use Rattle.pr_input.specs.Watched.{has_failed};

use pr_basic::StatusMode;
use pr_bus::Delays;
use pr_capture::{InputFormat, OutputFormat, Probes, Signals, TraceInput};
use pr_dots::{Scale, Shapes};
use pr_jobs::{
    CliFault, Ending, Start, Watched, bus_over, check_over, pages_over, raw_over, write_bus_trace,
    write_check_report, write_pages,
};
use pr_render::{Format, Layout, Look, Part, Size};
use pr_report::Report;
use pr_serial::Present;
use pr_wire::Choices;
use pr_wire::example::TRACE_TEXT;
use std::alloc::Global;
use std::io::{Read, Write};

pub const BOTH: Present = Present {
    four: true,
    five: true,
};

/// Paper as people put it in.
pub const LAYOUT: Layout = Layout {
    top: 3,
    size: Size::Continuous,
    holes: false,
};

/// The picture of all pages.
const SVG: Format = Format::Svg(Part {
    device: None,
    sheet: None,
    layout: LAYOUT,
    scale: Scale::Two,
});

/// A script that prints two letters.
pub const HI: &str = "OPEN 4,4\nPRINT#4,\"HI\"\n";

/// The same letters as the bytes of a printer, with the end of their line.
pub const HI_BYTES: &str = "HI\r";

/// One attention to printer 4 alone, with delays 1000 before it, 1999 to the look and 10 to the
/// answer, all others typical.
const ONE_ATTENTION: &str = "\
    0 111\n1000 001\n1010 000\n2999 010\n\
    3049 011\n3089 000\n3159 010\n3179 000\n\
    3249 010\n3269 001\n3339 011\n3359 000\n\
    3429 010\n3449 000\n3519 010\n3539 001\n\
    3609 011\n3629 000\n3699 010\n3719 000\n\
    3789 010\n3809 001\n3829 000\n3929 100\n\
";

/// The same trace as a table, as a logic analyser exports it.
const ONE_ATTENTION_TABLE: &str = "\
    Time [s],ATN,CLK,DATA\n0.000000,1,1,1\n0.001000,0,0,1\n0.001010,0,0,0\n\
    0.002999,0,1,0\n0.003049,0,1,1\n0.003089,0,0,0\n0.003159,0,1,0\n0.003179,0,0,0\n\
    0.003249,0,1,0\n0.003269,0,0,1\n0.003339,0,1,1\n0.003359,0,0,0\n0.003429,0,1,0\n\
    0.003449,0,0,0\n0.003519,0,1,0\n0.003539,0,0,1\n0.003609,0,1,1\n0.003629,0,0,0\n\
    0.003699,0,1,0\n0.003719,0,0,0\n0.003789,0,1,0\n0.003809,0,0,1\n0.003829,0,0,0\n\
    0.003929,1,0,0\n\
";

/// The same trace as a Value Change Dump.
const ONE_ATTENTION_DUMP: &str = "\
    $timescale 1 us $end\n$scope module bus $end\n$var wire 1 A ATN $end\n\
    $var wire 1 C CLOCK $end\n$var wire 1 D DATA $end\n$upscope $end\n\
    $enddefinitions $end\n#0\n1A\n1C\n1D\n#1000\n0A\n0C\n#1010\n0D\n#2999\n1C\n\
    #3049\n1D\n#3089\n0C\n0D\n#3159\n1C\n#3179\n0C\n#3249\n1C\n#3269\n0C\n1D\n\
    #3339\n1C\n#3359\n0C\n0D\n#3429\n1C\n#3449\n0C\n#3519\n1C\n#3539\n0C\n1D\n\
    #3609\n1C\n#3629\n0C\n0D\n#3699\n1C\n#3719\n0C\n#3789\n1C\n#3809\n0C\n1D\n\
    #3829\n0D\n#3929\n1A\n#4929\n\
";

/// The story of one attention to printer 4: the look is at 2999, and DATA is pulled after the last
/// bit at 3829.
const ONE_STORY: &str = "attention\n        2999         3829  $24  LISTEN 4\nlawful\n";

/// The frames of one attention to printer 4.
const ONE_COMMAND: &str = "command 36\nlawful\n";

/// The frames of the example trace, which is that of the script.
pub const EXAMPLE_LINES: &str = "command 36\ndata 72\ndata 73\ndata 13 eoi\ncommand 63\nlawful\n";

/// The story of the example trace.
const EXAMPLE_STORY: &str = "\
    attention\n        1100         1930  $24  LISTEN 4\n\
    data\n        2130         2960  $48  'H'\n        3060         3890  $49  'I'\n        \
    3990         5140  $0D  return, end-or-identify\n\
    attention\n        6240         7070  $3F  UNLISTEN\nlawful\n\
";

/// The example trace as a Value Change Dump.
const EXAMPLE_DUMP: &str = "\
    $timescale 1 us $end\n$scope module bus $end\n$var wire 1 A ATN $end\n\
    $var wire 1 C CLOCK $end\n$var wire 1 D DATA $end\n$upscope $end\n$enddefinitions $end\n\
    #0\n1A\n1C\n1D\n#100\n0A\n0C\n#200\n0D\n#1100\n1C\n#1150\n1D\n#1190\n0C\n0D\n#1260\n1C\n\
    #1280\n0C\n#1350\n1C\n#1370\n0C\n1D\n#1440\n1C\n#1460\n0C\n0D\n#1530\n1C\n#1550\n0C\n\
    #1620\n1C\n#1640\n0C\n1D\n#1710\n1C\n#1730\n0C\n0D\n#1800\n1C\n#1820\n0C\n#1890\n1C\n\
    #1910\n0C\n1D\n#1930\n0D\n#2030\n1A\n#2130\n1C\n#2180\n1D\n#2220\n0C\n0D\n#2290\n1C\n\
    #2310\n0C\n#2380\n1C\n#2400\n0C\n#2470\n1C\n#2490\n0C\n1D\n#2560\n1C\n#2580\n0C\n0D\n\
    #2650\n1C\n#2670\n0C\n#2740\n1C\n#2760\n0C\n1D\n#2830\n1C\n#2850\n0C\n0D\n#2920\n1C\n\
    #2940\n0C\n1D\n#2960\n0D\n#3060\n1C\n#3110\n1D\n#3150\n0C\n#3220\n1C\n#3240\n0C\n0D\n\
    #3310\n1C\n#3330\n0C\n#3400\n1C\n#3420\n0C\n1D\n#3490\n1C\n#3510\n0C\n0D\n#3580\n1C\n\
    #3600\n0C\n#3670\n1C\n#3690\n0C\n1D\n#3760\n1C\n#3780\n0C\n0D\n#3850\n1C\n#3870\n0C\n\
    1D\n#3890\n0D\n#3990\n1C\n#4040\n1D\n#4290\n0D\n#4370\n1D\n#4400\n0C\n#4470\n1C\n#4490\n\
    0C\n0D\n#4560\n1C\n#4580\n0C\n1D\n#4650\n1C\n#4670\n0C\n#4740\n1C\n#4760\n0C\n0D\n\
    #4830\n1C\n#4850\n0C\n#4920\n1C\n#4940\n0C\n#5010\n1C\n#5030\n0C\n#5100\n1C\n#5120\n0C\n\
    1D\n#5140\n0D\n#5240\n0A\n#6240\n1C\n#6290\n1D\n#6330\n0C\n#6400\n1C\n#6420\n0C\n#6490\n\
    1C\n#6510\n0C\n#6580\n1C\n#6600\n0C\n#6670\n1C\n#6690\n0C\n#6760\n1C\n#6780\n0C\n#6850\n\
    1C\n#6870\n0C\n0D\n#6940\n1C\n#6960\n0C\n#7030\n1C\n#7050\n0C\n1D\n#7070\n0D\n#7170\n\
    1A\n#7190\n1D\n#7270\n1C\n#8270\n\
";

/// The picture of two letters on printer 4, as tests/lib/pages.py draws it, apart from the proved code: of the pages of
/// the script, and of the page of the bytes.
const PICTURE: &str = "\
    <svg xmlns=\"http://www.w3.org/2000/svg\" version=\"1.1\" width=\"66pc\" height=\"18pc\" viewBox=\"0 0 \
    13860 3780\">\n<desc>Pages of VIC-1525 printers. Each dot is where the hammer strikes.</desc>\n<pattern \
    id=\"paper\" width=\"12600\" height=\"630\" patternUnits=\"userSpaceOnUse\"><rect width=\"12600\" \
    height=\"630\" fill=\"#fff\"/><g fill=\"#e9e6df\" stroke=\"#b4afa2\" stroke-width=\"10\"><circle cx=\"315\" \
    cy=\"315\" r=\"100\"/><circle cx=\"12285\" cy=\"315\" r=\"100\"/><path stroke-dasharray=\"35\" d=\"M630 \
    0v630M11970 0v630\"/></g></pattern>\n<pattern id=\"folds\" y=\"6930\" width=\"12600\" height=\"13860\" \
    patternUnits=\"userSpaceOnUse\"><path stroke=\"#b4afa2\" stroke-width=\"10\" stroke-dasharray=\"70\" d=\"M0 \
    6930h12600\"/></pattern>\n<rect width=\"100%\" height=\"100%\" fill=\"#e9e6df\"/>\n<defs>\n<path \
    stroke=\"#222\" id=\"u72\" d=\"M10 10h0M10 30h0M10 50h0M10 70h0M10 90h0M10 110h0M10 130h0M31 70h0M52 \
    70h0M73 70h0M94 10h0M94 30h0M94 50h0M94 70h0M94 90h0M94 110h0M94 130h0\"/>\n<path stroke=\"#222\" \
    id=\"u73\" d=\"M31 10h0M31 130h0M52 10h0M52 30h0M52 50h0M52 70h0M52 90h0M52 110h0M52 130h0M73 10h0M73 \
    130h0\"/>\n</defs>\n<g transform=\"translate(630 1050)\">\n<text font-size=\"210\" fill=\"#555\" \
    y=\"-210\">Printer 4</text>\n<rect width=\"12600\" height=\"1890\" fill=\"url(#paper)\" stroke=\"#b4afa2\" \
    stroke-width=\"10\"/>\n<rect y=\"1260\" width=\"12600\" height=\"630\" fill=\"url(#folds)\"/>\n<g \
    transform=\"translate(1260 630)\">\n<g stroke-width=\"29\" stroke-linecap=\"round\" fill-opacity=\"0\" \
    font-size=\"140\">\n<g transform=\"translate(0 0)\">\n<use href=\"#u72\" x=\"0\"/>\n<use href=\"#u73\" \
    x=\"126\"/>\n<text x=\"0\" y=\"140\" textLength=\"252\" lengthAdjust=\"spacingAndGlyphs\" \
    xml:space=\"preserve\">HI</text>\n</g>\n</g>\n</g>\n</g>\n<text font-size=\"210\" fill=\"#555\" \
    transform=\"translate(630 3150)\">\n</text>\n</svg>\n\
";

/// A call of the library over a reader and a writer. A script runs with both printers, typical delays and a status that
/// each statement clears; the signals of a recording have the usual names.
#[derive(Clone, Copy)]
pub enum Call {
    /// The page text of a script.
    PageText,
    /// The trace text of a script.
    TraceText,
    /// The pages of a script.
    Pages(Format),
    /// The trace of a script.
    Bus(OutputFormat),
    /// The frames of a trace text.
    Check,
    /// A report on a trace.
    CheckAs(InputFormat, Report),
    /// The page of a printer's bytes, in the graphic/upper case set.
    Raw(Format),
}

/// A call, its input and what it writes.
pub type Row = (Call, &'static str, &'static str);

/// Each call in each format.
static ROWS: [Row; 18] = [
    (
        Call::PageText,
        HI,
        "printer 4\nrow 0\n 0 cell 72\n 6 cell 73\nprinter 5\nstatus 0 0\nscreen\n",
    ),
    (
        Call::Pages(Format::Lines(Look::Blocks)),
        HI,
        "Printer 4\nHI\nPrinter 5\nStatuses: 0 0.\n",
    ),
    (Call::Pages(SVG), HI, PICTURE),
    (
        Call::Raw(Format::List),
        HI_BYTES,
        "printer 4\nrow 0\n 0 cell 72\n 6 cell 73\nprinter 5\nstatus\nscreen\n",
    ),
    (
        Call::Raw(Format::Lines(Look::Blocks)),
        HI_BYTES,
        "Printer 4\nHI\n",
    ),
    (Call::Raw(SVG), HI_BYTES, PICTURE),
    (Call::TraceText, HI, TRACE_TEXT),
    (Call::Bus(OutputFormat::Vcd), HI, EXAMPLE_DUMP),
    (Call::Check, ONE_ATTENTION, ONE_COMMAND),
    (Call::Check, TRACE_TEXT, EXAMPLE_LINES),
    (
        Call::CheckAs(InputFormat::Text, Report::Frames),
        ONE_ATTENTION,
        ONE_COMMAND,
    ),
    (
        Call::CheckAs(InputFormat::Text, Report::Story),
        ONE_ATTENTION,
        ONE_STORY,
    ),
    (
        Call::CheckAs(InputFormat::Text, Report::Frames),
        TRACE_TEXT,
        EXAMPLE_LINES,
    ),
    (
        Call::CheckAs(InputFormat::Text, Report::Story),
        TRACE_TEXT,
        EXAMPLE_STORY,
    ),
    (
        Call::CheckAs(InputFormat::Csv, Report::Frames),
        ONE_ATTENTION_TABLE,
        ONE_COMMAND,
    ),
    (
        Call::CheckAs(InputFormat::Csv, Report::Story),
        ONE_ATTENTION_TABLE,
        ONE_STORY,
    ),
    (
        Call::CheckAs(InputFormat::Vcd, Report::Frames),
        ONE_ATTENTION_DUMP,
        ONE_COMMAND,
    ),
    (
        Call::CheckAs(InputFormat::Vcd, Report::Story),
        ONE_ATTENTION_DUMP,
        ONE_STORY,
    ),
];

/// Those rows, for callers whose proofs do not read them.
pub fn rows() -> &'static [Row] {
    &ROWS
}

/// A trace text, from its first moment on. In another format its signals have the usual names.
pub const USUAL: TraceInput<'static> = TraceInput {
    source: InputFormat::Text,
    signals: Signals {
        atn: b"ATN",
        clock: b"CLOCK",
        line: b"DATA",
        probes: Probes {
            atn: false,
            clock: false,
            line: false,
            threshold: None,
        },
    },
    start: 0,
    pulse: 0,
    rate: None,
};

/// Delays that are all typical.
pub fn typical(alloc: Global) -> Delays {
    Delays {
        computer: Choices::new(Vec::new(alloc)),
        four: Choices::new(Vec::new(alloc)),
        five: Choices::new(Vec::new(alloc)),
    }
}

/// A run with both printers, typical delays, and status 0 before each statement.
fn started(alloc: Global) -> Start {
    Start {
        present: BOTH,
        delays: typical(alloc),
        mode: StatusMode::Each,
    }
}

/// An answer without an ending.
fn done(answer: Result<(), CliFault>) -> Result<Ending, CliFault> {
    match answer {
        Ok(()) => Ok(Ending::Done),
        Err(fault) => Err(fault),
    }
}

impl Call {
    /// Makes the call. Where it has no ending, that is [`Ending::Done`].
    pub fn make<R: Read, W: Write>(
        self,
        alloc: Global,
        input: &mut Watched<R>,
        output: &mut Watched<W>,
    ) -> Result<Ending, CliFault>
        requires input { has_failed input.old ≡ false }
        requires output { has_failed output.old ≡ false }
    {
        match self {
            Call::PageText => {
                let delays = typical(alloc);
                pages_over(alloc, input, output, BOTH, delays, StatusMode::Each)
            }
            Call::TraceText => {
                let delays = typical(alloc);
                bus_over(alloc, input, output, BOTH, delays, StatusMode::Each)
            }
            Call::Pages(format) => {
                let start = started(alloc);
                let end = write_pages(alloc, input, output, start, format, &Shapes::own())?;
                Ok(end.run.ending())
            }
            Call::Bus(format) => {
                let start = started(alloc);
                Ok(write_bus_trace(alloc, input, output, start, format)?.ending())
            }
            Call::Check => done(check_over(alloc, input, output)),
            Call::CheckAs(source, report) => {
                let trace = TraceInput { source, ..USUAL };
                done(write_check_report(alloc, input, output, trace, report))
            }
            Call::Raw(format) => {
                let end = raw_over(alloc, input, output, false, format, &Shapes::own())?;
                Ok(end.run.ending())
            }
        }
    }

    /// What the call answers for an input, and what it has written.
    pub fn answer(self, alloc: Global, input: &[u8]) -> (Result<Ending, CliFault>, Vec<u8>) {
        let mut input = Watched::new(input);
        let mut output = Watched::new(Vec::new(alloc));
        let answer = self.make(alloc, &mut input, &mut output);
        (answer, output.into_inner())
    }

    /// How often the call flushes: `bus` for the first edge and for each of two statements, and of a
    /// dump for its head and its end too, the others at the end.
    pub fn flushes(self) -> usize {
        match self {
            Call::TraceText | Call::Bus(OutputFormat::Text) => 3,
            Call::Bus(OutputFormat::Vcd) => 5,
            _ => 1,
        }
    }
}
