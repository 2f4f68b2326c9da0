//! The page text of an outcome, and sheets that are not there.

use crate::cli::calls::{Call, LAYOUT, typical};
use pr_basic::{StatusMode, read_script};
use pr_dots::Scale;
use pr_jobs::{CliFault, PictureFault, pages_text};
use pr_render::{Device, Format, Part};
use pr_serial::Present;
use pr_system::run;
use std::alloc::Global;

const NONE: Present = Present {
    four: false,
    five: false,
};

/// The page text of what a script gives without printers. None where memory is refused, or the script.
fn page_text(alloc: Global, script: &str) -> Option<Vec<u8>> {
    let statements = read_script(alloc, script.as_bytes()).ok()?;
    let delays = typical(alloc);
    let outcome = run(alloc, &statements, NONE, delays, StatusMode::Each).ok()?;
    pages_text(alloc, &outcome).ok()
}

#[test]
fn page_text_of_an_outcome(rt: HostRuntime) {
    let text = page_text(rt.alloc(), "OPEN 4,4\nPRINT#4,\"A\"").expect(&rt, "memory");
    let wanted = "printer 4\nprinter 5\nstatus 0 128\nscreen\nstop 5 at 2\n";
    assert!(&rt; text.as_slice() == wanted.as_bytes());
}

/// Whether this sheet of letters of printer 5 is refused with how many there are, and nothing is written.
fn is_absent(alloc: Global, format: Format) -> bool {
    let (answer, written) = Call::Pages(format).answer(alloc, b"OPEN 5,5\nPRINT#5,\"HI\"\n");
    answer == Err(CliFault::Picture(PictureFault::NoSuchSheet(1))) && written.is_empty()
}

/// No option gives the number 0.
#[test]
fn sheets_that_are_not_there(rt: HostRuntime) {
    const SECOND: Part = Part {
        device: None,
        sheet: Some(2),
        layout: LAYOUT,
        scale: Scale::Two,
    };
    const NONE_OF_ALL: Part = Part {
        device: None,
        sheet: Some(0),
        layout: LAYOUT,
        scale: Scale::Two,
    };
    const NONE_OF_FOUR: Part = Part {
        device: Some(Device::Four),
        sheet: Some(0),
        layout: LAYOUT,
        scale: Scale::Two,
    };
    for format in [
        Format::Svg(SECOND),
        Format::Svg(NONE_OF_FOUR),
        Format::Png(SECOND),
        Format::Png(NONE_OF_ALL),
    ] {
        assert!(&rt; is_absent(rt.alloc(), format));
    }
}
