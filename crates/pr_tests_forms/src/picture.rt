//! Pictures and lines of papers that no run of the program gives.

use crate::text::joined;
use pr_dots::Shapes;
use pr_page::{Mark, Paper, Placed, Row, Sequence};
use pr_render::laws::{discs_are_the_dots, lines_show_each_cell, names_tell_marks};
use pr_render::{Look, svg, svg_blocks, text};
use pr_serial::Present;
use pr_system::Outcome;
use std::process::Abort;

const FOUR: Present = Present {
    four: true,
    five: false,
};

const FIVE: Present = Present {
    four: false,
    five: true,
};

const BOTH: Present = Present {
    four: true,
    five: true,
};

const NONE: Present = Present {
    four: false,
    five: false,
};

/// The beginning of a picture, up to its size.
const BEGIN: &str = "<svg xmlns=\"http://www.w3.org/2000/svg\" version=\"1.1\" ";

/// What is between its size and the definitions of marks.
const ABOUT: &str =
    ">\n<desc>Pages of VIC-1525 printers. Each dot is where the hammer strikes.</desc>\n<pattern id=\"paper\" width=\"12600\" height=\"630\" patternUnits=\"userSpaceOnUse\"><rect width=\"12600\" height=\"630\" fill=\"#fff\"/><g fill=\"#e9e6df\" stroke=\"#b4afa2\" stroke-width=\"10\"><circle cx=\"315\" cy=\"315\" r=\"100\"/><circle cx=\"12285\" cy=\"315\" r=\"100\"/><path stroke-dasharray=\"35\" d=\"M630 0v630M11970 0v630\"/></g></pattern>\n<pattern id=\"folds\" y=\"6930\" width=\"12600\" height=\"13860\" patternUnits=\"userSpaceOnUse\"><path stroke=\"#b4afa2\" stroke-width=\"10\" stroke-dasharray=\"70\" d=\"M0 6930h12600\"/></pattern>\n<rect width=\"100%\" height=\"100%\" fill=\"#e9e6df\"/>\n<defs>\n";

/// The definition of `A`.
pub const DEFINED_A: &str =
    "<path stroke=\"#222\" id=\"u65\" d=\"M10 30h0M10 50h0M10 70h0M10 90h0M10 110h0M10 130h0M31 10h0M31 70h0M52 10h0M52 70h0M73 10h0M73 70h0M94 30h0M94 50h0M94 70h0M94 90h0M94 110h0M94 130h0\"/>\n";

/// The definition of `a`.
const DEFINED_SMALL_A: &str =
    "<path stroke=\"#222\" id=\"l65\" d=\"M10 110h0M31 50h0M31 90h0M31 130h0M52 50h0M52 90h0M52 130h0M73 70h0M73 90h0M73 110h0M73 130h0M94 130h0\"/>\n";

/// The definition of a wide reversed `W`.
const DEFINED_EDGE: &str =
    "<path stroke=\"#222\" id=\"urw87\" d=\"M52 10h0M52 30h0M52 50h0M52 70h0M52 90h0M52 130h0M73 10h0M73 30h0M73 50h0M73 70h0M73 90h0M73 130h0M94 10h0M94 30h0M94 50h0M94 110h0M94 130h0M115 10h0M115 30h0M115 50h0M115 110h0M115 130h0M136 10h0M136 30h0M136 50h0M136 70h0M136 90h0M136 130h0M157 10h0M157 30h0M157 50h0M157 70h0M157 90h0M157 130h0M220 10h0M220 30h0M220 50h0M220 70h0M220 90h0M220 110h0M220 130h0M241 10h0M241 30h0M241 50h0M241 70h0M241 90h0M241 110h0M241 130h0\"/>\n";

/// The definitions of the other marks of `rows_by_their_distance`.
const DEFINED_OTHERS: &str =
    "<path stroke=\"#222\" id=\"d1\" d=\"M10 10h0\"/>\n<path stroke=\"#222\" id=\"u66\" d=\"M10 10h0M10 30h0M10 50h0M10 70h0M10 90h0M10 110h0M10 130h0M31 10h0M31 70h0M31 130h0M52 10h0M52 70h0M52 130h0M73 10h0M73 70h0M73 130h0M94 30h0M94 50h0M94 90h0M94 110h0\"/>\n<path stroke=\"#222\" id=\"u67\" d=\"M10 30h0M10 50h0M10 70h0M10 90h0M10 110h0M31 10h0M31 130h0M52 10h0M52 130h0M73 10h0M73 130h0M94 30h0M94 110h0\"/>\n";

/// The end of the definitions.
const DEFINED: &str = "</defs>\n";

/// The size of a picture of one sheet of three half inches.
const SIZE: &str = "width=\"66pc\" height=\"18pc\" viewBox=\"0 0 13860 3780\"";

/// Where the first sheet begins.
const FIRST: &str = "<g transform=\"translate(630 1050)\">\n";

/// Where a sheet below it begins.
const SECOND: &str = "<g transform=\"translate(630 3990)\">\n";

/// The sheet of printer 4 up to the marks of its only row.
const FOUR_BEGIN: &str =
    "<text font-size=\"210\" fill=\"#555\" y=\"-210\">Printer 4</text>\n<rect width=\"12600\" height=\"1890\" fill=\"url(#paper)\" stroke=\"#b4afa2\" stroke-width=\"10\"/>\n<rect y=\"1260\" width=\"12600\" height=\"630\" fill=\"url(#folds)\"/>\n<g transform=\"translate(1260 630)\">\n<g stroke-width=\"29\" stroke-linecap=\"round\" fill-opacity=\"0\" font-size=\"140\">\n<g transform=\"translate(0 0)\">\n";

/// What follows them.
const FOUR_END: &str = "</g>\n</g>\n</g>\n</g>\n";

/// The sheet of printer 5, which holds an `a`.
const FIVE_SHEET: &str =
    "<text font-size=\"210\" fill=\"#555\" y=\"-210\">Printer 5</text>\n<rect width=\"12600\" height=\"1890\" fill=\"url(#paper)\" stroke=\"#b4afa2\" stroke-width=\"10\"/>\n<rect y=\"1260\" width=\"12600\" height=\"630\" fill=\"url(#folds)\"/>\n<g transform=\"translate(1260 630)\">\n<g stroke-width=\"29\" stroke-linecap=\"round\" fill-opacity=\"0\" font-size=\"140\">\n<g opacity=\".4\" transform=\"translate(0 210)\">\n<use href=\"#l65\" x=\"0\"/>\n<text x=\"0\" y=\"140\" textLength=\"126\" lengthAdjust=\"spacingAndGlyphs\" xml:space=\"preserve\">a</text>\n</g>\n</g>\n<g transform=\"translate(0 0)\">\n<path stroke=\"#a33\" stroke-width=\"20\" stroke-dasharray=\"126\" d=\"M0 60h10080\"/>\n<text font-size=\"120\" fill=\"#a33\" x=\"7350\" y=\"200\">held by the printer, not yet printed</text>\n</g>\n</g>\n</g>\n";

/// What is below the sheets.
const BELOW: &str =
    "<text font-size=\"210\" fill=\"#555\" transform=\"translate(630 3150)\">\n</text>\n</svg>\n";

/// What is below two of them.
const BELOW_BOTH: &str =
    "<text font-size=\"210\" fill=\"#555\" transform=\"translate(630 6090)\">\n</text>\n</svg>\n";

/// What there is without a sheet.
const ALONE: &str =
    "<text font-size=\"210\" fill=\"#555\" transform=\"translate(630 210)\">\n</text>\n</svg>\n";

/// An `A` as it is drawn, and as it is searched for.
pub const A: &str = "<use href=\"#u65\" x=\"0\"/>\n";

pub const LETTER_A: &str =
    "<text x=\"0\" y=\"140\" textLength=\"126\" lengthAdjust=\"spacingAndGlyphs\" xml:space=\"preserve\">A</text>\n";

/// A reversed `W` over the edge of the paper, likewise.
const EDGE: &str = "<use href=\"#urw87\" x=\"9954\"/>\n";

const LETTER_EDGE: &str =
    "<text x=\"9954\" y=\"140\" textLength=\"252\" lengthAdjust=\"spacingAndGlyphs\" xml:space=\"preserve\">W</text>\n";

/// The sheet with rows at several distances, and what is below it.
const DISTANCES: &str =
    "<text font-size=\"210\" fill=\"#555\" y=\"-210\">Printer 4</text>\n<rect width=\"12600\" height=\"3150\" fill=\"url(#paper)\" stroke=\"#b4afa2\" stroke-width=\"10\"/>\n<rect y=\"1260\" width=\"12600\" height=\"1890\" fill=\"url(#folds)\"/>\n<g transform=\"translate(1260 630)\">\n<g stroke-width=\"29\" stroke-linecap=\"round\" fill-opacity=\"0\" font-size=\"140\">\n<g transform=\"translate(0 210)\">\n<use href=\"#u65\" x=\"0\"/>\n<text x=\"0\" y=\"140\" textLength=\"126\" lengthAdjust=\"spacingAndGlyphs\" xml:space=\"preserve\">A</text>\n</g>\n<g transform=\"translate(0 420)\">\n</g>\n<g transform=\"translate(0 560)\">\n<use href=\"#d1\" x=\"0\"/>\n</g>\n<g transform=\"translate(0 1180)\">\n<use href=\"#u66\" x=\"126\"/>\n<text x=\"126\" y=\"140\" textLength=\"126\" lengthAdjust=\"spacingAndGlyphs\" xml:space=\"preserve\">B</text>\n</g>\n<g transform=\"translate(0 1600)\">\n<use href=\"#u67\" x=\"252\"/>\n<text x=\"252\" y=\"140\" textLength=\"126\" lengthAdjust=\"spacingAndGlyphs\" xml:space=\"preserve\">C</text>\n</g>\n</g>\n</g>\n</g>\n<text font-size=\"210\" fill=\"#555\" transform=\"translate(630 4410)\">\n</text>\n</svg>\n";

/// Two empty sheets, and what is below them.
const EMPTY: &str =
    "<g transform=\"translate(630 1050)\">\n<text font-size=\"210\" fill=\"#555\" y=\"-210\">Printer 4</text>\n<rect width=\"12600\" height=\"1260\" fill=\"url(#paper)\" stroke=\"#b4afa2\" stroke-width=\"10\"/>\n<rect y=\"1260\" width=\"12600\" height=\"0\" fill=\"url(#folds)\"/>\n<g transform=\"translate(1260 630)\">\n<g stroke-width=\"29\" stroke-linecap=\"round\" fill-opacity=\"0\" font-size=\"140\">\n</g>\n</g>\n</g>\n<g transform=\"translate(630 3360)\">\n<text font-size=\"210\" fill=\"#555\" y=\"-210\">Printer 5</text>\n<rect width=\"12600\" height=\"1260\" fill=\"url(#paper)\" stroke=\"#b4afa2\" stroke-width=\"10\"/>\n<rect y=\"1260\" width=\"12600\" height=\"0\" fill=\"url(#folds)\"/>\n<g transform=\"translate(1260 630)\">\n<g stroke-width=\"29\" stroke-linecap=\"round\" fill-opacity=\"0\" font-size=\"140\">\n</g>\n</g>\n</g>\n<text font-size=\"210\" fill=\"#555\" transform=\"translate(630 4830)\">\n</text>\n</svg>\n";

/// The end of the picture of `each_growth_refused`.
const GROWN: &str =
    "<text x=\"0\" y=\"140\" textLength=\"252\" lengthAdjust=\"spacingAndGlyphs\" xml:space=\"preserve\">AB</text>\n</g>\n</g>\n<g transform=\"translate(0 0)\">\n<path stroke=\"#a33\" stroke-width=\"20\" stroke-dasharray=\"126\" d=\"M0 60h10080\"/>\n<text font-size=\"120\" fill=\"#a33\" x=\"7350\" y=\"200\">held by the printer, not yet printed</text>\n</g>\n</g>\n</g>\n<text font-size=\"210\" fill=\"#555\" transform=\"translate(630 3150)\">\n</text>\n</svg>\n";

/// A cell, neither reversed nor wide.
pub const fn cell(x: u16, code: u8, lower: bool) -> Placed {
    Placed {
        x,
        mark: Mark::Cell {
            code,
            lower,
            reverse: false,
            wide: false,
        },
    }
}

/// Some marks.
fn sequence(rt: &(impl Abort + AllocGlobal), marks: &[Placed]) -> Sequence<Placed> {
    Sequence::from_vec(Vec::from_slice(rt.alloc(), marks).expect(rt, "memory"))
}

/// Paper with rows at these distances.
pub fn paper(rt: &(impl Abort + AllocGlobal), rows: &[(u64, &[Placed])]) -> Paper {
    let mut made = Vec::new(rt.alloc());
    for (y, marks) in rows {
        let marks = sequence(rt, marks);
        made.push(Row { y: *y, marks }).expect(rt, "memory");
    }
    Paper {
        rows: Sequence::from_vec(made),
        held: Sequence::new(rt.alloc()),
    }
}

/// Paper without rows that holds these marks.
fn holding(rt: &impl AllocGlobal, held: Sequence<Placed>) -> Paper {
    Paper {
        rows: Sequence::new(rt.alloc()),
        held,
    }
}

/// What a run leaves that printed on these papers alone.
fn printed(rt: &impl AllocGlobal, paper4: Paper, held5: Sequence<Placed>) -> Outcome {
    Outcome {
        paper4,
        paper5: holding(rt, held5),
        statuses: Sequence::new(rt.alloc()),
        stop: None,
        screen: Sequence::new(rt.alloc()),
        trace: Sequence::new(rt.alloc()),
    }
}

/// The picture of what a run leaves.
fn drawn(rt: &(impl Abort + AllocGlobal), outcome: &Outcome, present: Present) -> Vec<u8> {
    svg(rt.alloc(), &Shapes::own(), 3, outcome, present).expect(rt, "memory")
}

/// Its lines.
fn said(rt: &(impl Abort + AllocGlobal), outcome: &Outcome, present: Present) -> Vec<u8> {
    text(rt.alloc(), Look::Blocks, outcome, present).expect(rt, "memory")
}

/// The picture has these parts, and the lines are these.
fn shows(
    rt: &(impl Abort + AllocGlobal),
    outcome: &Outcome,
    present: Present,
    parts: &[&str],
    lines: &str,
) {
    let wanted = joined(rt, parts);
    let is_drawn = drawn(rt, outcome, present).as_slice() == wanted.as_bytes();
    let is_said = said(rt, outcome, present).as_slice() == lines.as_bytes();
    assert!(rt; is_drawn && is_said, "{lines}");
}

/// The same of a run that printed on this paper alone.
fn shows_paper(
    rt: &(impl Abort + AllocGlobal),
    paper4: Paper,
    present: Present,
    parts: &[&str],
    lines: &str,
) {
    let outcome = printed(rt, paper4, Sequence::new(rt.alloc()));
    shows(rt, &outcome, present, parts, lines);
}

#[test]
fn rows_by_their_distance(rt: HostRuntime) {
    const DOT: Placed = Placed {
        x: 0,
        mark: Mark::Dots(1),
    };
    let rows: [(u64, &[Placed]); 5] = [
        (21, &[cell(0, 65, false)]),
        (42, &[]),
        (56, &[DOT]),
        (118, &[cell(6, 66, false)]),
        (160, &[cell(12, 67, false)]),
    ];
    shows_paper(
        &rt,
        paper(&rt, &rows),
        FOUR,
        &[
            BEGIN,
            "width=\"66pc\" height=\"24pc\" viewBox=\"0 0 13860 5040\"",
            ABOUT,
            DEFINED_A,
            DEFINED_OTHERS,
            DEFINED,
            FIRST,
            DISTANCES,
        ],
        "Printer 4\n\nA\n\n\u{2591}\n\n B\n\n  C\n",
    );
}

/// Of a wide cell in the last column the lines show its first half alone.
#[test]
fn wide_cell_at_the_edge(rt: HostRuntime) {
    const CELL: Placed = Placed {
        x: 474,
        mark: Mark::Cell {
            code: 87,
            lower: false,
            reverse: true,
            wide: true,
        },
    };
    shows_paper(
        &rt,
        paper(&rt, &[(0, &[CELL])]),
        FOUR,
        &[
            BEGIN,
            SIZE,
            ABOUT,
            DEFINED_EDGE,
            DEFINED,
            FIRST,
            FOUR_BEGIN,
            EDGE,
            LETTER_EDGE,
            FOUR_END,
            BELOW,
        ],
        "Printer 4\n                                                                               W\n",
    );
}

/// A reversed cell.
const fn reversed(x: u16, code: u8, wide: bool) -> Placed {
    Placed {
        x,
        mark: Mark::Cell {
            code,
            lower: false,
            reverse: true,
            wide,
        },
    }
}

/// Lines for a file have letters as they are, full blocks for reversed blanks, and a blank beside a wide letter; on a terminal all
/// that is reversed is in reverse video, but for dots over it.
#[test]
fn reversed_cells_in_lines(rt: HostRuntime) {
    const DOTS: Placed = Placed {
        x: 66,
        mark: Mark::Dots(127),
    };
    let marks = [
        reversed(0, 72, true),
        reversed(12, 73, true),
        reversed(24, 32, true),
        cell(48, 65, false),
        reversed(54, 66, false),
        reversed(60, 32, false),
        reversed(66, 67, false),
        DOTS,
        reversed(78, 160, false),
    ];
    let paper4 = paper(&rt, &[(0, &marks)]);
    let outcome = printed(&rt, paper4, Sequence::new(rt.alloc()));
    let rows = [
        (
            Look::Blocks,
            "Printer 4\nH I \u{2588}\u{2588}  AB\u{2588}\u{2591} \u{2588}\n",
        ),
        (
            Look::Video,
            "Printer 4\n\u{1b}[7mH I   \u{1b}[27m  A\u{1b}[7mB \u{1b}[27m\u{2591} \u{1b}[7m\u{a0}\u{1b}[27m\n",
        ),
    ];
    for (look, lines) in rows {
        let said = text(rt.alloc(), look, &outcome, FOUR).expect(&rt, "memory");
        assert!(&rt; said.as_slice() == lines.as_bytes(), "{lines}");
    }
}

/// A printer that is not there has no sheet, whatever is on its paper.
#[test]
fn printers_that_are_there(rt: HostRuntime) {
    const HIGH: &str = "width=\"66pc\" height=\"32pc\" viewBox=\"0 0 13860 6720\"";
    const LOW: &str = "width=\"66pc\" height=\"4pc\" viewBox=\"0 0 13860 840\"";
    let paper4 = paper(&rt, &[(0, &[cell(0, 65, false)])]);
    let outcome = printed(&rt, paper4, sequence(&rt, &[cell(0, 65, true)]));
    let rows: [(Present, &[&str], &str); 3] = [
        (
            BOTH,
            &[
                BEGIN,
                HIGH,
                ABOUT,
                DEFINED_A,
                DEFINED_SMALL_A,
                DEFINED,
                FIRST,
                FOUR_BEGIN,
                A,
                LETTER_A,
                FOUR_END,
                SECOND,
                FIVE_SHEET,
                BELOW_BOTH,
            ],
            "Printer 4\nA\nPrinter 5\nHeld, not yet printed:\na\n",
        ),
        (
            FIVE,
            &[
                BEGIN,
                SIZE,
                ABOUT,
                DEFINED_SMALL_A,
                DEFINED,
                FIRST,
                FIVE_SHEET,
                BELOW,
            ],
            "Printer 5\nHeld, not yet printed:\na\n",
        ),
        (NONE, &[BEGIN, LOW, ABOUT, DEFINED, ALONE], ""),
    ];
    for (present, parts, lines) in rows {
        shows(&rt, &outcome, present, parts, lines);
    }
}

/// A printer that is there and printed nothing has no sheet where another one has.
#[test]
fn printer_beside_one_that_printed(rt: HostRuntime) {
    let parts = [
        BEGIN, SIZE, ABOUT, DEFINED_A, DEFINED, FIRST, FOUR_BEGIN, A, LETTER_A, FOUR_END, BELOW,
    ];
    let paper4 = paper(&rt, &[(0, &[cell(0, 65, false)])]);
    shows_paper(&rt, paper4, BOTH, &parts, "Printer 4\nA\nPrinter 5\n");
}

/// It has one where no other has.
#[test]
fn printers_that_printed_nothing(rt: HostRuntime) {
    const TWO: &str = "width=\"66pc\" height=\"26pc\" viewBox=\"0 0 13860 5460\"";
    let parts = [BEGIN, TWO, ABOUT, DEFINED, EMPTY];
    let nothing = holding(&rt, Sequence::new(rt.alloc()));
    shows_paper(&rt, nothing, BOTH, &parts, "Printer 4\nPrinter 5\n");
}

/// The blocks of a picture, one after the other.
fn drawn_in_blocks(rt: &(impl Abort + AllocGlobal), outcome: Outcome, present: Present) -> Vec<u8> {
    let mut bytes = Vec::new(rt.alloc());
    let blocks = svg_blocks(rt.alloc(), &Shapes::own(), 3, outcome, present).expect(rt, "memory");
    for block in blocks {
        bytes.extend_from_slice(&block).expect(rt, "memory");
    }
    bytes
}

/// They are that picture.
#[test]
fn pictures_in_blocks(rt: HostRuntime) {
    let rows: [(u64, &[Placed]); 3] = [
        (0, &[cell(0, 65, false)]),
        (21, &[]),
        (42, &[cell(6, 66, false)]),
    ];
    for present in [FOUR, FIVE, BOTH, NONE] {
        let held = sequence(&rt, &[cell(12, 67, true)]);
        let outcome = printed(&rt, paper(&rt, &rows), held);
        let whole = drawn(&rt, &outcome, present);
        let blocks = drawn_in_blocks(&rt, outcome, present);
        assert!(&rt; blocks.as_slice() == whole.as_slice());
    }
}

/// The laws, with nothing to run.
#[test]
fn laws(_rt: HostRuntime) {
    discs_are_the_dots();
    lines_show_each_cell();
    names_tell_marks();
}

/// How many calls are refused memory. Each other one gives what it gives with ample memory.
fn refusals(rt: &(impl Abort + AllocGlobal), outcome: &Outcome) -> usize {
    let drawn = svg(rt.alloc(), &Shapes::own(), 3, outcome, FOUR);
    let said = text(rt.alloc(), Look::Blocks, outcome, FOUR);
    let mut refused = 0;
    match drawn {
        Ok(picture) => assert!(rt; picture.as_slice().ends_with(GROWN.as_bytes())),
        Err(_refused) => refused = 1,
    }
    match said {
        Ok(lines) => assert!(rt;
            lines.as_slice() == "Printer 4\nHeld, not yet printed:\nAB\n".as_bytes()
        ),
        Err(_refused) => refused += 1,
    }
    refused
}

/// The script that refuses each allocation in turn refuses one at most; where it refuses none, each
/// call answers.
#[test]
fn each_growth_refused(rt: HostRuntime) {
    let Ok(held) = Vec::from_slice(rt.alloc(), &[cell(0, 65, false), cell(6, 66, false)]) else {
        return;
    };
    let paper4 = holding(&rt, Sequence::from_vec(held));
    let outcome = printed(&rt, paper4, Sequence::new(rt.alloc()));
    let refused = (refusals(&rt, &outcome), refusals(&rt, &outcome));
    assert!(rt; matches!(refused, (0, 0) | (0, 1) | (1, 0)));
}
