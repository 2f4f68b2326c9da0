//! Inputs of about the greatest length that a caller gives, and endless ones. Those of the program's own limits are in
//! tests/rows (input_limit and million_statements).

ghost use Rattle.std.specs.Prelude.{◌≡◌, ◌^◌, ◌<◌, false};
ghost use Rattle.pr_input.specs.Watched.{has_failed};

use crate::cli::calls::{EXAMPLE_LINES, HI, HI_BYTES, USUAL};
use crate::cli::slow::SlowReader;
use pr_jobs::{BLOCK, CliFault, Watched, check_input, print_input, read_whole, report_input};
use pr_report::Report;
use pr_wire::example::TRACE_TEXT;
use std::alloc::Global;
use std::io;
use std::io::Read;
use std::process::Abort;

/// Gives zeros without end: to `check` they are an unfinished line, to a printer bytes like others.
#[derive(Drop)]
struct Endless {
    /// The most bytes that a call gives.
    most: usize,
    /// The bytes given so far.
    given: usize,
}

impl Read for Endless {
    fn read(&mut self, buf: &mut [u8]) -> io::Result<usize> {
        let count = self.most.min(buf.len());
        buf[..count].fill(b'0');
        self.given = self.given.saturating_add(count);
        Ok(count)
    }
}

/// What reads at most this many bytes.
#[derive(Clone, Copy)]
enum Reading {
    Whole,
    Raw,
    Check,
    Report,
}

/// Those that read blocks.
const READINGS: [Reading; 3] = [Reading::Raw, Reading::Check, Reading::Report];

impl Reading {
    /// What a reader with this limit gives: a text, or a sign for one row.
    fn answer<R: Read>(
        self,
        alloc: Global,
        input: &mut Watched<R>,
        limit: usize,
    ) -> Result<Vec<u8>, CliFault>
        requires fresh { has_failed input.old ≡ false }
        requires few { limit < 2 ^ 32 }
    {
        match self {
            Reading::Whole => match read_whole(alloc, input, limit) {
                Ok(bytes) => Ok(bytes),
                Err(fault) => Err(CliFault::from(fault)),
            },
            Reading::Raw => {
                let paper = print_input(alloc, input, false, limit)?;
                if paper.rows.len() == 1 {
                    Ok(b"-".to_vec(alloc)?)
                } else {
                    Ok(Vec::new(alloc))
                }
            }
            Reading::Check => check_input(alloc, input, limit),
            Reading::Report => Ok(report_input(alloc, input, USUAL, Report::Story, limit)?.lines),
        }
    }
}

/// The most bytes of a call, a limit, and how many bytes an endless reader then has given when
/// they first are more than the limit.
const ENDLESS: [(usize, usize, usize); 7] = [
    (1, 0, 1),
    (1, 1000, 1001),
    (7, 1000, 1001),
    (7, 1001, 1008),
    (BLOCK, 3 * BLOCK, 4 * BLOCK),
    (BLOCK, 3 * BLOCK - 1, 3 * BLOCK),
    (usize::MAX, BLOCK, 2 * BLOCK),
];

/// The same of input that is read whole, in pieces of 8,192 bytes.
const ENDLESS_WHOLE: [(usize, usize, usize); 7] = [
    (1, 0, 1),
    (1, 1000, 1001),
    (7, 1000, 1001),
    (7, 1001, 1008),
    (BLOCK, 3 * BLOCK, 3 * BLOCK + 8_192),
    (BLOCK, 3 * BLOCK - 1, 3 * BLOCK),
    (usize::MAX, BLOCK, BLOCK + 8_192),
];

/// With this limit an endless reader is too large as soon as it has given this many bytes.
fn too_large(
    rt: &(impl Abort + AllocGlobal),
    reading: Reading,
    (most, limit, given): (usize, usize, usize),
) {
    assert!(rt; limit < 1_000_000);
    let mut input = Watched::new(Endless { most, given: 0 });
    let answer = reading.answer(rt.alloc(), &mut input, limit);
    let is_well = answer == Err(CliFault::TooLarge)
        && !input.failed()
        && input.into_inner().given == given;
    assert!(rt; is_well, "{most} bytes a call, limit {limit}");
}

#[test]
fn too_large_by_an_endless_reader(rt: HostRuntime) {
    for row in ENDLESS_WHOLE {
        too_large(&rt, Reading::Whole, row);
    }
    for reading in READINGS {
        for row in ENDLESS {
            too_large(&rt, reading, row);
        }
    }
}

/// A reading, an input, and what is given of it.
type Input = (Reading, &'static str, &'static str);

/// Inputs by the names of their tests.
static WHOLE: [(&str, Input); 3] = [
    ("scripts_up_to_the_limit", (Reading::Whole, HI, HI)),
    (
        "traces_up_to_the_limit",
        (Reading::Check, TRACE_TEXT, EXAMPLE_LINES),
    ),
    ("bytes_up_to_the_limit", (Reading::Raw, HI_BYTES, "-")),
];

/// Those, for a caller whose proof does not read them.
fn whole() -> &'static [(&'static str, Input)] {
    &WHOLE
}

/// Whether a reader of this text gives what is wanted, where the limit lets the text in, and else its fault.
fn is_up_to<R: Read + Drop>(alloc: Global, input: R, row: Input, limit: usize) -> bool
    requires few { limit < 2 ^ 32 }
{
    let (reading, text, wanted) = row;
    let mut input = Watched::new(input);
    match reading.answer(alloc, &mut input, limit) {
        Ok(bytes) => text.len() <= limit && bytes.as_slice() == wanted.as_bytes(),
        Err(fault) => limit < text.len() && fault == CliFault::TooLarge,
    }
}

/// With each limit up to one past the input's length, at once and byte by byte.
#[test]
fn up_to_the_limit(rt: HostRuntime) {
    for (name, row) in whole() {
        let (_, text, _) = *row;
        assert!(&rt; text.len() < 1_000_000);
        for limit in 1..text.len() + 2 {
            let slow = SlowReader::new(text.as_bytes(), text.len() + 1);
            let is_well = is_up_to(rt.alloc(), text.as_bytes(), *row, limit)
                && is_up_to(rt.alloc(), slow, *row, limit);
            assert!(&rt; is_well, "{name}, {limit}");
        }
    }
}
