//! The checker of a trace text in pieces (profile).

use crate::wire::example_trace::spelled;
use pr_wire::example::TRACE_TEXT;
use pr_wire::{Checker, Frame, TraceReader};
use std::process::Abort;

/// Byte by byte, each frame comes with the end of its line.
#[test]
fn frames_come_with_their_line(rt: HostRuntime) {
    let mut checker = Checker::new();
    let (mut line, mut frames) = (0usize, 0usize);
    for byte in TRACE_TEXT.as_bytes() {
        if let Some(frame) = checker.take(*byte) {
            assert!(rt; spelled().0.get(frames) == Some(&(line, frame.byte)));
            frames = frames.saturating_add(1);
        }
        line = line.saturating_add(usize::from(*byte == b'\n'));
    }
    assert!(rt; checker.finish() == Ok(None) && frames == spelled().0.len());
}

/// A whole line is taken at once, and a part of a line byte by byte.
#[test]
fn lines_are_taken_whole(rt: HostRuntime) {
    let mut checker = Checker::new();
    let (first, frame) = checker.take_front(b"0 111\n100 001\n");
    let (second, _) = checker.take_front(b"100 001");
    let (third, _) = checker.take_front(b"00 001\n");
    assert!(rt; (first, second, third) == (6, 1, 1) && frame.is_none());
}

/// The same for a reader of edges.
#[test]
fn lines_are_read_whole(rt: HostRuntime) {
    let mut reader = TraceReader::new();
    let Ok((first, _)) = reader.take_front(b"0 111\n100 001\n") else {
        panic!(rt; "a line");
    };
    let second = reader.take_front(b"100 001").map(|taken| taken.0);
    assert!(rt; first == 6 && second == Ok(1));
}

/// How many lines are taken at once, and the byte of the frame that they end.
static PIECES: [(usize, Option<u8>); 13] = [
    (1, None),
    (1, None),
    (1, None),
    (20, Some(36)),
    (1, None),
    (20, Some(72)),
    (20, Some(73)),
    (22, Some(13)),
    (1, None),
    (20, Some(63)),
    (1, None),
    (1, None),
    (1, None),
];

/// Those, for a caller whose proof does not read them.
fn wanted_pieces() -> &'static [(usize, Option<u8>)] {
    &PIECES
}

/// How many lines end in these bytes.
fn line_ends(bytes: &[u8]) -> usize {
    let mut count: usize = 0;
    for byte in bytes {
        count = count.saturating_add(usize::from(*byte == b'\n'));
    }
    count
}

/// Whether bytes that were taken at once, and the frame that they end, are this piece.
fn is_piece(bytes: &[u8], frame: Option<Frame>, wanted: (usize, Option<u8>)) -> bool {
    let byte = match frame {
        Some(frame) => Some(frame.byte),
        None => None,
    };
    line_ends(bytes) == wanted.0 && byte == wanted.1
}

/// The lines of whole frames are taken at once, those of commands too, and two more where
/// end-or-identify is answered; other lines one by one.
#[test]
fn frames_are_taken_whole(rt: HostRuntime) {
    let text = TRACE_TEXT.as_bytes();
    assert!(rt; text.len() < 10000);
    let mut checker = Checker::new();
    let mut pieces: usize = 0;
    let mut rest = text;
    while !rest.is_empty() {
        let (len, frame) = checker.take_front(rest);
        let Some(&wanted) = wanted_pieces().get(pieces) else {
            panic!(rt; "one piece more");
        };
        assert!(rt; is_piece(&rest[..len], frame, wanted), "piece {pieces}");
        pieces = pieces.saturating_add(1);
        rest = &rest[len..];
    }
    assert!(rt; checker.finish() == Ok(None) && pieces == wanted_pieces().len());
}
