//! Documents of papers, worked out by hand.

use crate::picture::paper;
use pr_dots::Shapes;
use pr_page::{Mark, Paper, Placed};
use pr_pdf::{LIMIT, PdfFault, pdf, sheets_draw_dots, sheets_draw_papers};
use pr_render::{Layout, Size};
use pr_serial::Present;
use std::process::Abort;

const FOUR: Present = Present {
    four: true,
    five: false,
};

const FIVE: Present = Present {
    four: false,
    five: true,
};

const BOTH: Present = Present {
    four: true,
    five: true,
};

/// A `T` at dot column 6, and the `T` of the other set right after it.
const LETTER: Placed = Placed {
    x: 6,
    mark: Mark::Cell {
        code: 84,
        lower: false,
        reverse: false,
        wide: false,
    },
};

const SMALL: Placed = Placed {
    x: 12,
    mark: Mark::Cell {
        code: 84,
        lower: true,
        reverse: false,
        wide: false,
    },
};

/// A column of dots right after them, and another one after an empty dot column.
const COLUMN: Placed = Placed {
    x: 18,
    mark: Mark::Dots(5),
};

const NEXT_COLUMN: Placed = Placed {
    x: 20,
    mark: Mark::Dots(127),
};

/// How a document of one sheet with a `T` begins.
const BEGIN: &str =
    "%PDF-1.6\n1 0 obj\n<< /Type /Catalog /ViewerPreferences << /PrintScaling /None >> /Pages 22 0 R >>\nendobj\n2 0 obj\n<< /Font << /U 10 0 R /UW 11 0 R ";

/// The fonts that have a glyph, and the first that has none.
const FONTS: &str =
    "10 0 obj\n<< /Type /Font /Subtype /Type3 /FontBBox [-8 -29 512 269] /FontMatrix [1 0 0 1 0 0] /FirstChar 0 /LastChar 255 /Encoding 3 0 R /Resources << >> /Widths 4 0 R /ToUnicode 7 0 R /CharProcs << /c84 19 0 R >> >>\nendobj\n11 0 obj\n<< /Type /Font /Subtype /Type3 /FontBBox [-8 -29 512 269] /FontMatrix [1 0 0 1 0 0] /FirstChar 0 /LastChar 255 /Encoding 3 0 R /Resources << >> /Widths 5 0 R /ToUnicode 7 0 R /CharProcs << >> >>\nendobj\n";

/// The glyph of a `T`, its sheet, the sheets, and where the table of places begins.
const SHEET: &str =
    "\n19 0 obj\n<< /Length 263 >>\nstream\n252 0 -8 -29 260 269 d1\n58 w 1 J\n21 240 m 21 240 l S\n63 240 m 63 240 l S\n105 240 m 105 240 l S\n105 200 m 105 200 l S\n105 160 m 105 160 l S\n105 120 m 105 120 l S\n105 80 m 105 80 l S\n105 40 m 105 40 l S\n105 0 m 105 0 l S\n147 240 m 147 240 l S\n189 240 m 189 240 l S\n\nendstream\nendobj\n20 0 obj\n<< /Type /Page /Parent 22 0 R /Contents [ 23 0 R 21 0 R ] >>\nendobj\n21 0 obj\n<< /Length 80 >>\nstream\n.0285714286 0 0 .0285714285 54 -8 cm\nBT\n/U 1 Tf 1 0 0 1 252 27320 Tm <54> Tj\nET\n\nendstream\nendobj\n22 0 obj\n<< /Type /Pages /MediaBox [0 0 684 792] /Resources 2 0 R /Count 1 /Kids [ 20 0 R ] >>\nendobj\n23 0 obj\n<< /Length 0 >>\nstream\n\nendstream\nendobj\nxref\n0 24\n0000000000 65535 f \n0000000009 00000 n \n";

/// A row over the fold, as a string for each font and each place: on the first sheet and on the second.
const FOLD: &str =
    "BT\n/U 1 Tf 1 0 0 1 252 140 Tm <54> Tj\n/L 1 Tf 1 0 0 1 504 140 Tm <54> Tj\n/D 1 Tf 1 0 0 1 756 140 Tm <05> Tj\n/D 1 Tf 1 0 0 1 840 140 Tm <7f> Tj\nET\n";

const AFTER_FOLD: &str =
    "BT\n/U 1 Tf 1 0 0 1 252 27860 Tm <54> Tj\n/L 1 Tf 1 0 0 1 504 27860 Tm <54> Tj\n/D 1 Tf 1 0 0 1 756 27860 Tm <05> Tj\n/D 1 Tf 1 0 0 1 840 27860 Tm <7f> Tj\nET\n";

/// An empty sheet.
const EMPTY: &str = "cm\nBT\nET\n\nendstream\n";

/// On continuous paper, with the first row at the upper edge.
const PLAIN: Layout = Layout {
    top: 0,
    size: Size::Continuous,
    holes: false,
};

/// The document on plain paper has these parts.
fn has_parts(
    rt: &(impl Abort + AllocGlobal),
    four: &Paper,
    five: &Paper,
    drawn: Present,
    parts: &[&str],
) {
    has_parts_on(rt, PLAIN, four, five, drawn, parts);
}

/// The document on this paper has these parts.
fn has_parts_on(
    rt: &(impl Abort + AllocGlobal),
    layout: Layout,
    four: &Paper,
    five: &Paper,
    drawn: Present,
    parts: &[&str],
) {
    let document = pdf(rt.alloc(), &Shapes::own(), four, five, layout, drawn).expect(rt, "memory");
    let text = str::from_utf8(document.as_slice()).expect(rt, "text");
    for part in parts {
        assert!(rt; text.contains(*part), "{part}");
    }
}

/// Where both printers have sheets, each sheet has a name and a bookmark: here one of printer 4, and two of printer 5.
#[test]
fn sheets_of_two_printers(rt: HostRuntime) {
    let four = paper(&rt, &[(21, &[LETTER])]);
    let five = paper(&rt, &[(1380, &[LETTER])]);
    let labels =
        "/PageLabels << /Nums [ 0 << /P (printer 4, sheet ) /S /D >> 1 << /P (printer 5, sheet ) /S /D >> ] >> /Outlines 28 0 R /Pages 26 0 R >>";
    let root = "\n28 0 obj\n<< /Type /Outlines /First 29 0 R /Last 31 0 R /Count 3 >>\nendobj\n";
    let first =
        "\n29 0 obj\n<< /Title (printer 4, sheet 1) /Parent 28 0 R /Dest [ 20 0 R /Fit ] /Next 30 0 R >>\nendobj\n";
    let second =
        "\n30 0 obj\n<< /Title (printer 5, sheet 1) /Parent 28 0 R /Dest [ 22 0 R /Fit ] /Prev 29 0 R /Next 31 0 R >>\nendobj\n";
    let third =
        "\n31 0 obj\n<< /Title (printer 5, sheet 2) /Parent 28 0 R /Dest [ 24 0 R /Fit ] /Prev 30 0 R >>\nendobj\n";
    has_parts(
        &rt,
        &four,
        &five,
        BOTH,
        &[labels, root, first, second, third],
    );
}

/// The paper, and what is drawn first on every sheet, of each size.
#[test]
fn papers(rt: HostRuntime) {
    let empty = paper(&rt, &[]);
    for (size, holes, parts) in [
        (
            Size::Continuous,
            false,
            ["[0 0 684 792]", "<< /Length 0 >>\nstream\n\nendstream"],
        ),
        (
            Size::Continuous,
            true,
            [
                "[0 0 684 792]",
                "stream\nq .8 G 11.4 w 1 J [.01 35.99] 0 d 18 18 m",
            ],
        ),
        (
            Size::A4,
            false,
            [
                "[0 0 595.276 841.89]",
                "stream\n1 0 0 1 -44.362 24.945 cm\n0 0 684 792 re W n\n\nendstream",
            ],
        ),
        (
            Size::Letter,
            false,
            [
                "[0 0 612 792]",
                "stream\n.95 0 0 .95 -18.9 19.8 cm\n0 0 684 792 re W n\n\nendstream",
            ],
        ),
    ] {
        let layout = Layout {
            top: 3,
            size,
            holes,
        };
        has_parts_on(&rt, layout, &empty, &empty, FOUR, &parts);
    }
}

/// A `T`, 21/126 inch down; the same of printer 5; and of a printer that is left out.
#[test]
fn document_of_a_letter(rt: HostRuntime) {
    let printed = paper(&rt, &[(21, &[LETTER])]);
    let empty = paper(&rt, &[]);
    has_parts(&rt, &printed, &empty, BOTH, &[BEGIN, FONTS, SHEET]);
    has_parts(&rt, &empty, &printed, FIVE, &[BEGIN, FONTS, SHEET]);
    has_parts(&rt, &empty, &printed, FOUR, &[EMPTY, "/Count 1 "]);
    sheets_draw_dots();
    sheets_draw_papers();
}

/// A row 1380/126 inch down is on the first sheet and on the second one; then comes the sheet of printer 5.
#[test]
fn document_of_a_row_over_a_fold(rt: HostRuntime) {
    let four = paper(&rt, &[(1380, &[LETTER, SMALL, COLUMN, NEXT_COLUMN])]);
    let five = paper(&rt, &[(21, &[LETTER])]);
    let parts = [FOLD, AFTER_FOLD, "252 27320 Tm <54> Tj\n", "/Count 3 "];
    has_parts(&rt, &four, &five, BOTH, &parts);
}

/// What refuses a document.
#[test]
fn texts_of_faults(rt: HostRuntime) {
    assert!(&rt; LIMIT == 9_999_999_999);
    let large = format!(in rt.alloc(); "{}", PdfFault::TooLarge).expect(&rt, "memory");
    assert!(&rt; large.as_str() == "document too large");
    let memory = format!(in rt.alloc(); "{}", PdfFault::NoMemory).expect(&rt, "memory");
    assert!(&rt; memory.as_str() == "out of memory");
}
