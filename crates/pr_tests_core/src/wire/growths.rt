//! Each allocation refused in turn: `tests/rows/growths` runs these tests so.

use pr_receiver::{Input, replay};
use pr_refusals::most_refusals;
use pr_wire::example::TRACE_TEXT;
use pr_wire::{Edge, Frame, TraceFault, WaveFault, analyse, read_trace, write_trace};
use std::process::Abort;

/// The trace of a printer made to listen with secondary address 7, a letter, a return with
/// end-or-identify, the LISTEN and the secondary address that close the channel, and UNLISTEN, with
/// both printers present and typical delays.
const LOWER_CASE_TEXT: &str = "\
    0 111\n100 001\n200 000\n1100 010\n\
    1150 011\n1190 000\n1260 010\n1280 000\n\
    1350 010\n1370 001\n1440 011\n1460 000\n\
    1530 010\n1550 000\n1620 010\n1640 001\n\
    1710 011\n1730 000\n1800 010\n1820 000\n\
    1890 010\n1910 001\n1930 000\n2930 010\n\
    2980 011\n3020 001\n3090 011\n3110 001\n\
    3180 011\n3200 001\n3270 011\n3290 000\n\
    3360 010\n3380 000\n3450 010\n3470 001\n\
    3540 011\n3560 001\n3630 011\n3650 000\n\
    3720 010\n3740 001\n3760 000\n3860 100\n\
    3960 110\n4010 111\n4050 101\n4120 111\n\
    4140 100\n4210 110\n4230 100\n4300 110\n\
    4320 100\n4390 110\n4410 100\n4480 110\n\
    4500 100\n4570 110\n4590 101\n4660 111\n\
    4680 100\n4750 110\n4770 101\n4790 100\n\
    4890 110\n4940 111\n5190 110\n5270 111\n\
    5300 101\n5370 111\n5390 100\n5460 110\n\
    5480 101\n5550 111\n5570 101\n5640 111\n\
    5660 100\n5730 110\n5750 100\n5820 110\n\
    5840 100\n5910 110\n5930 100\n6000 110\n\
    6020 101\n6040 100\n6140 000\n7140 010\n\
    7190 011\n7230 000\n7300 010\n7320 000\n\
    7390 010\n7410 001\n7480 011\n7500 000\n\
    7570 010\n7590 000\n7660 010\n7680 001\n\
    7750 011\n7770 000\n7840 010\n7860 000\n\
    7930 010\n7950 001\n7970 000\n8970 010\n\
    9020 011\n9060 001\n9130 011\n9150 001\n\
    9220 011\n9240 001\n9310 011\n9330 000\n\
    9400 010\n9420 000\n9490 010\n9510 001\n\
    9580 011\n9600 001\n9670 011\n9690 001\n\
    9760 011\n9780 001\n9800 000\n9900 100\n\
    10000 000\n11000 010\n11050 011\n11090 001\n\
    11160 011\n11180 001\n11250 011\n11270 001\n\
    11340 011\n11360 001\n11430 011\n11450 001\n\
    11520 011\n11540 001\n11610 011\n11630 000\n\
    11700 010\n11720 000\n11790 010\n11810 001\n\
    11830 000\n11930 100\n11950 101\n12030 111\n\
";

/// The inputs that the trace with secondary address 7 gives the device that it addresses.
static LOWER_CASE_INPUTS: [Input; 5] = [
    Input::Select(false),
    Input::Select(true),
    Input::Byte(65),
    Input::Byte(13),
    Input::Select(false),
];

/// The frames that the example trace spells.
static SPELLED: [Frame; 5] = [
    Frame {
        attention: true,
        byte: 36,
        eoi: false,
    },
    Frame {
        attention: false,
        byte: 72,
        eoi: false,
    },
    Frame {
        attention: false,
        byte: 73,
        eoi: false,
    },
    Frame {
        attention: false,
        byte: 13,
        eoi: true,
    },
    Frame {
        attention: true,
        byte: 63,
        eoi: false,
    },
];

/// The frames of the one trace and the inputs of the other, for callers whose proofs do not read them.
fn wanted() -> (&'static [Frame], &'static [Input]) {
    (&SPELLED, &LOWER_CASE_INPUTS)
}

/// What a call gives, or none where it is refused memory, which is all that may refuse it.
fn unless_refused<T: Drop, E: PartialEq + Drop>(
    rt: &impl Abort,
    given: Result<T, E>,
    refusal: E,
) -> Option<T> {
    match given {
        Ok(given) => Some(given),
        Err(fault) => {
            assert!(rt; fault == refusal);
            None
        }
    }
}

/// The edges of a text, unless reading it is refused memory.
fn try_read(rt: &(impl Abort + AllocGlobal), text: &str) -> Option<Vec<Edge>> {
    let edges = read_trace(rt.alloc(), text.as_bytes());
    unless_refused(rt, edges, TraceFault::NoMemory)
}

/// Writes the edges of the example trace, unless that is refused memory.
fn try_write(rt: &(impl Abort + AllocGlobal), edges: &[Edge]) -> Option<()> {
    let text = write_trace(rt.alloc(), edges).ok()?;
    assert!(rt; text.as_slice() == TRACE_TEXT.as_bytes());
    Some(())
}

/// Analyses the edges of the example trace, unless that is refused memory.
fn try_analyse(rt: &(impl Abort + AllocGlobal), edges: &[Edge]) -> Option<()> {
    let frames = analyse(rt.alloc(), edges);
    let frames = unless_refused(rt, frames, WaveFault::NoMemory)?;
    assert!(rt; frames.as_slice() == wanted().0);
    Some(())
}

/// Reads, writes and analyses the example trace, unless that is refused memory.
fn try_wire(rt: &(impl Abort + AllocGlobal)) -> Option<()> {
    let edges = try_read(rt, TRACE_TEXT)?;
    try_write(rt, edges.as_slice())?;
    try_analyse(rt, edges.as_slice())
}

/// Replays a trace whose fifth input makes the list grow once more, unless that is refused memory.
fn try_receiver(rt: &(impl Abort + AllocGlobal)) -> Option<()> {
    let edges = try_read(rt, LOWER_CASE_TEXT)?;
    let inputs = replay(rt.alloc(), 4, edges.as_slice());
    let inputs = unless_refused(rt, inputs, WaveFault::NoMemory)?;
    assert!(rt; inputs.as_slice() == wanted().1);
    Some(())
}

/// Whether a call is refused.
fn is_refused(rt: &(impl Abort + AllocGlobal)) -> bool {
    try_wire(rt).is_none() || try_receiver(rt).is_none()
}

/// At most one call is refused, it reports lack of memory, and the same calls again answer as usual.
/// With no allocation refused no call is.
#[test]
fn each_growth_refused(rt: HostRuntime) {
    let first = is_refused(&rt);
    let second = is_refused(&rt);
    assert!(rt; !(first && second) && (most_refusals(&rt) > 0 || !(first || second)));
}
