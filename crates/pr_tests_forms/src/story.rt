//! The lines of a story, and a story without memory. Whole stories are in tests/rows/stories.case.

use crate::text::joined;
use ByteRole::{Data, First, Second};
use pr_refusals::most_refusals;
use pr_report::{TimedFrame, push_story, push_story_line};
use pr_wire::example::TRACE_TEXT;
use pr_wire::{ByteRole, Frame, read_trace};
use std::process::Abort;

/// The moments of the frames below.
const MOMENTS: &str = "           7 1234567890123  ";

/// Frames, each by how it is sent, its byte and whether a data byte comes before it; perhaps a heading of its
/// line, and what the line says after the moments.
static LINES: [(ByteRole, u8, bool, &str, &str); 33] = [
    // command bytes
    (Second, 32, true, "", "$20  LISTEN 0"),
    (Second, 62, true, "", "$3E  LISTEN 30"),
    (Second, 63, true, "", "$3F  UNLISTEN"),
    (Second, 64, false, "", "$40  TALK 0"),
    (Second, 94, false, "", "$5E  TALK 30"),
    (Second, 95, false, "", "$5F  UNTALK"),
    (Second, 96, false, "", "$60  SECOND 0"),
    (Second, 111, false, "", "$6F  SECOND 15"),
    (Second, 112, false, "", "$70  command 112"),
    (Second, 231, false, "", "$E7  CLOSE 7"),
    (Second, 240, false, "", "$F0  OPEN 0"),
    (First, 31, true, "attention\n", "$1F  command 31"),
    (First, 37, false, "attention\n", "$25  LISTEN 5"),
    // data bytes
    (Data, 65, false, "data\n", "$41  'A'"),
    (Data, 32, true, "", "$20  ' '"),
    (Data, 34, true, "", "$22  '\"'"),
    (Data, 39, true, "", "$27  \"'\""),
    (Data, 126, true, "", "$7E  '~'"),
    (Data, 127, true, "", "$7F  byte 127"),
    (Data, 0, true, "", "$00  byte 0"),
    (Data, 193, true, "", "$C1  byte 193"),
    // the printer's control codes
    (Data, 8, true, "", "$08  graphic mode"),
    (Data, 10, true, "", "$0A  line feed"),
    (Data, 13, true, "", "$0D  return"),
    (Data, 14, true, "", "$0E  double width"),
    (Data, 15, true, "", "$0F  standard width"),
    (Data, 16, true, "", "$10  column"),
    (Data, 17, true, "", "$11  lower case"),
    (Data, 18, true, "", "$12  reverse on"),
    (Data, 26, true, "", "$1A  repeat"),
    (Data, 27, true, "", "$1B  escape"),
    (Data, 145, true, "", "$91  upper case"),
    (Data, 146, true, "", "$92  reverse off"),
];

/// The line of a frame.
fn line(
    rt: &(impl Abort + AllocGlobal),
    sending: ByteRole,
    byte: u8,
    behind_data: bool,
) -> Vec<u8> {
    let frame = TimedFrame {
        look: 7,
        acknowledged: 1_234_567_890_123,
        sending,
        byte,
        eoi: false,
    };
    let mut text = Vec::new(rt.alloc());
    push_story_line(&mut text, behind_data, frame).expect(rt, "memory");
    text
}

#[test]
fn lines(rt: HostRuntime) {
    for &(sending, byte, behind_data, heading, says) in &LINES {
        let wanted = joined(&rt, &[heading, MOMENTS, says, "\n"]);
        let is_said = line(&rt, sending, byte, behind_data).as_slice() == wanted.as_bytes();
        assert!(rt; is_said, "{says}");
    }
}

#[test]
fn frames_without_moments(rt: HostRuntime) {
    let frame = TimedFrame {
        look: 3990,
        acknowledged: 5140,
        sending: Data,
        byte: 13,
        eoi: true,
    };
    let wanted = Frame {
        attention: false,
        byte: 13,
        eoi: true,
    };
    assert!(rt; frame.frame() == wanted);
}

/// The laws, with nothing to run.
#[test]
fn laws(_rt: HostRuntime) {
    pr_report::frames_are_told();
    pr_report::stories_add_up();
}

/// Whether a call is refused memory. If not, it gives what it gives with ample memory.
fn is_refused(rt: &(impl Abort + AllocGlobal)) -> bool {
    let Ok(edges) = read_trace(rt.alloc(), TRACE_TEXT.as_bytes()) else {
        return true;
    };
    let mut text = Vec::new(rt.alloc());
    let Ok(fault) = push_story(&mut text, edges.as_slice()) else {
        return true;
    };
    let is_whole = fault.is_none() && text.as_slice().ends_with(b"  $3F  UNLISTEN\nlawful\n");
    assert!(rt; is_whole);
    false
}

/// The script that refuses each allocation in turn refuses one call at most, and the same call again
/// answers as usual. With no growth refused no call is.
#[test]
fn each_growth_refused(rt: HostRuntime) {
    let first = is_refused(&rt);
    let second = is_refused(&rt);
    let is_well = !(first && second) && (most_refusals(&rt) > 0 || !(first || second));
    assert!(rt; is_well);
}
