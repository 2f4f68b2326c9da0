//! Lines, BASIC numbers and lexemes at places.

use pr_basic::{basic_number, lexeme_at, line_at};

/// The number of a line, how many bytes come before it, and its bytes.
type Line<'a> = (usize, usize, &'a [u8]);

/// The line at a place of a text.
fn line(text: &[u8], place: usize) -> Option<(usize, usize, &[u8])> {
    match line_at(text, place) {
        Some(line) => Some((line.number, line.start, line.bytes)),
        None => None,
    }
}

const TEXT: &[u8] = b"REM x\r\n\r\nOPEN 4\r\n";

/// Texts, places and the lines there.
static LINES: [(&[u8], usize, Option<Line<'static>>); 11] = [
    (TEXT, 0, Some((1, 0, b"REM x\r"))),
    (TEXT, 6, Some((1, 0, b"REM x\r"))),
    (TEXT, 7, Some((2, 7, b"\r"))),
    (TEXT, 8, Some((2, 7, b"\r"))),
    (TEXT, 9, Some((3, 9, b"OPEN 4\r"))),
    (TEXT, 16, Some((3, 9, b"OPEN 4\r"))),
    (TEXT, 17, None),
    (b"", 0, None),
    (b"A", 1, Some((1, 0, b"A"))),
    (b"A", 2, None),
    (b"\n\nA", 1, Some((2, 1, b""))),
];

/// Lines and their BASIC numbers.
static NUMBERS: [(&[u8], Option<u32>); 8] = [
    (b"10 PRINT", Some(10)),
    (b"\t 63999", Some(63_999)),
    (b"64000", None),
    (b"0\r", Some(0)),
    (b"00000000000000000000007", Some(7)),
    (b"99999999999999999999999", None),
    (b"PRINT 10", None),
    (b"", None),
];

/// Bytes and the lexemes at their front.
static LEXEMES: [(&[u8], Option<&[u8]>); 11] = [
    (b"PRINT#4", Some(b"PRINT#")),
    (b"print\"A", Some(b"print")),
    (b"\"AB\"C", Some(b"\"AB\"")),
    (b"\"AB", Some(b"\"AB")),
    (b"123,4", Some(b"123")),
    (b"REM A:B", Some(b"REM A:B")),
    (b"X1", Some(b"X")),
    (b"(1)", Some(b"(")),
    (b" X", None),
    (b"\tX", None),
    (b"", None),
];

/// The lines of places, for a caller whose proof does not read them.
fn line_rows() -> &'static [(&'static [u8], usize, Option<Line<'static>>)] {
    &LINES
}

#[test]
fn lines_of_places(rt: HostRuntime) {
    for &(text, place, wanted) in line_rows() {
        assert!(rt; line(text, place) == wanted, "place {place}");
    }
}

/// The numbers, for such a caller.
fn number_rows() -> &'static [(&'static [u8], Option<u32>)] {
    &NUMBERS
}

#[test]
fn basic_numbers(rt: HostRuntime) {
    for &(line, number) in number_rows() {
        assert!(rt; basic_number(line) == number, "{line:?}");
    }
}

/// The lexemes, for such a caller.
fn lexeme_rows() -> &'static [(&'static [u8], Option<&'static [u8]>)] {
    &LEXEMES
}

#[test]
fn lexemes_at_places(rt: HostRuntime) {
    for &(bytes, lexeme) in lexeme_rows() {
        assert!(rt; lexeme_at(bytes) == lexeme, "{bytes:?}");
    }
}
