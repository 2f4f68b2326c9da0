//! Whole runs, whose trace is kept, and one over a bus without wires.

use crate::bus::wires::choices;
use crate::system::growths::are_refused;
use crate::system::two_letters::{
    BOTH, are_the_example, is_outcome, is_page, statements_of, typical,
};
use pr_basic::StatusMode;
use pr_bus::Delays;
use pr_channels::Stop;
use pr_serial::{Direct, Present};
use pr_system::{Outcome, RunningOver, run};
use pr_wire::{Frame, analyse};
use std::env::FillError;
use std::process::Abort;
use std::rt::Env;

/// The edges of a line that prints 255 letters: 256 bytes of 20 edges, and the two attentions.
const LINE_EDGES: usize = 5_169;

/// What a script gives with both printers and typical delays.
fn outcome_of(rt: &(impl Abort + AllocGlobal), script: &[u8]) -> Outcome {
    let statements = statements_of(rt, script);
    let delays = typical(rt.alloc());
    run(rt.alloc(), &statements, BOTH, delays, StatusMode::Each).expect(rt, "memory")
}

/// The statement after the one that stops is not performed.
#[test]
fn run_up_to_a_stop(rt: HostRuntime) {
    let script = b"OPEN 4,4\nPRINT#4,\"HI\"\nCLOSE 4\nPRINT#9,\"A\"\nPRINT \"X\"";
    let outcome = outcome_of(&rt, script);
    let stop = Some((4, Stop::FileNotOpen));
    assert!(rt; is_outcome(&outcome, &[0; 4], stop, &[], 110));
    assert!(rt; are_the_example(&rt, outcome.trace.as_slice()));
}

/// The two letters over a bus without wires, with the papers and statuses of the run on wires.
#[test]
fn two_letters_without_wires(rt: HostRuntime) {
    let bus = Direct::new(rt.alloc(), BOTH);
    let mut running = RunningOver::over(rt.alloc(), bus, StatusMode::Each);
    let statements = statements_of(&rt, b"OPEN 4,4\nPRINT#4,\"HI\"\nCLOSE 4");
    let refused = are_refused(&rt, &mut running, &statements);
    let outcome = running.finish();
    assert!(rt; !refused && is_outcome(&outcome, &[0; 3], None, &[], 0));
}

/// A run that prints nothing: its script, printers, status mode and delay numbers of the computer and of printer 4; then its
/// statuses, stop, edges, the moment of the last one, and its frames, which are commands.
#[derive(Clone, Copy)]
struct Quiet {
    script: &'static [u8],
    present: Present,
    mode: StatusMode,
    numbers: [&'static [u16]; 2],
    statuses: &'static [u8],
    stop: Option<(usize, Stop)>,
    edges: usize,
    end: u64,
    commands: &'static [u8],
}

const ONLY_FOUR: Present = Present {
    four: true,
    five: false,
};

const NOBODY: Present = Present {
    four: false,
    five: false,
};

static QUIET: [Quiet; 3] = [
    Quiet {
        script: b"OPEN 4,4\nOPEN 5,5\nPRINT#5,\"A\"\nPRINT#4,\"B\"",
        present: ONLY_FOUR,
        mode: StatusMode::Kept,
        numbers: [&[], &[]],
        statuses: &[0, 0, 128, 128],
        stop: Some((4, Stop::DeviceNotPresent)),
        edges: 74,
        end: 6390,
        commands: &[37, 63, 36],
    },
    Quiet {
        script: b"OPEN 4,4\nCMD 4,\"\";",
        present: ONLY_FOUR,
        mode: StatusMode::Each,
        numbers: [&[900, 999], &[9]],
        statuses: &[0, 0],
        stop: None,
        edges: 24,
        end: 3929,
        commands: &[36],
    },
    Quiet {
        script: b"OPEN 4,4\nPRINT#4,\"A\"",
        present: NOBODY,
        mode: StatusMode::Each,
        numbers: [&[], &[]],
        statuses: &[0, 128],
        stop: Some((2, Stop::DeviceNotPresent)),
        edges: 3,
        end: 1100,
        commands: &[],
    },
];

/// Whether the outcome is that of a quiet run.
fn is_quiet(outcome: &Outcome, wanted: &Quiet) -> bool {
    is_page(&outcome.paper4, &[])
        && is_page(&outcome.paper5, &[])
        && outcome.screen.as_slice().is_empty()
        && outcome.statuses.as_slice() == wanted.statuses
        && outcome.stop == wanted.stop
        && outcome.trace.len() == wanted.edges
        && outcome.trace.as_slice().last().map(|edge| edge.time) == Some(wanted.end)
}

/// Whether these frames are these commands.
fn are_commands(frames: &[Frame], commands: &[u8]) -> bool {
    frames.len() == commands.len()
        && frames.iter().zip(commands).all(|(frame, byte)| {
            frame.attention && !frame.eoi && frame.byte == *byte
        })
}

/// What a quiet run gives.
fn outcome_by_settings(rt: &(impl Abort + AllocGlobal), row: &Quiet) -> Outcome {
    let statements = statements_of(rt, row.script);
    let delays = Delays {
        computer: choices(rt, row.numbers[0]).expect(rt, "memory"),
        four: choices(rt, row.numbers[1]).expect(rt, "memory"),
        five: choices(rt, &[]).expect(rt, "memory"),
    };
    run(rt.alloc(), &statements, row.present, delays, row.mode).expect(rt, "memory")
}

/// Whether the trace of an outcome spells these commands.
fn spells(rt: &(impl Abort + AllocGlobal), outcome: &Outcome, commands: &[u8]) -> bool {
    let frames = analyse(rt.alloc(), outcome.trace.as_slice()).expect(rt, "a lawful trace");
    are_commands(frames.as_slice(), commands)
}

/// The quiet runs, for callers whose proofs do not read them.
fn quiet_runs() -> &'static [Quiet] {
    &QUIET
}

/// Runs, and compares what that gives.
fn runs_quietly(rt: &(impl Abort + AllocGlobal), row: &Quiet) {
    let outcome = outcome_by_settings(rt, row);
    assert!(rt; is_quiet(&outcome, row), "{} edges", row.edges);
    assert!(rt; spells(rt, &outcome, row.commands), "{} edges", row.edges);
}

/// The program steps through a run; these settings reach `run` here alone.
#[test]
fn runs_by_settings(rt: HostRuntime) {
    for row in quiet_runs() {
        runs_quietly(&rt, row);
    }
}

/// How many lines the variable RUN_LINES asks for, or 4.
fn lines_wanted(rt: &(impl Abort + Env)) -> usize {
    let mut digits = [0; 8];
    let count = match rt.var("RUN_LINES", &mut digits) {
        Err(FillError::NotPresent) => return 4,
        other => other.ok().expect(rt, "at most 8 digits"),
    };
    assert!(rt; count <= digits.len());
    let text = str::from_utf8(&digits[..count]).expect(rt, "text");
    text.parse().expect(rt, "a number")
}

/// A script that prints this many lines of 255 letters on printer 4.
fn letters(rt: &(impl Abort + AllocGlobal), lines: usize) -> Vec<u8> {
    let mut line = [65; 265];
    line[..9].copy_from_slice(b"PRINT#4,\"");
    line[264] = 10;
    let mut script = Vec::new(rt.alloc());
    script.extend_from_slice(b"OPEN 4,4\n").expect(rt, "memory");
    for _line in 0..lines {
        script.extend_from_slice(&line).expect(rt, "memory");
    }
    script
}

/// A run as long as the environment asks for, which `make bench` measures.
#[test]
fn run_of_many_lines(rt: HostRuntime) {
    let lines = lines_wanted(&rt);
    assert!(rt; lines <= 10_000);
    let script = letters(&rt, lines);
    let outcome = outcome_of(&rt, &script);
    assert!(rt; outcome.trace.len() == 1 + lines * LINE_EDGES);
    assert!(rt; outcome.paper4.rows.len() == 4 * lines);
}
