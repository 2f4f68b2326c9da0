//! Lines of a script as text: their numbers, remarks and strings, and where a line is not one line, as it seems.

use pr_basic::cut_line;
use pr_explain::begins_listing;

/// Whether a remark has a line with a number in it, behind a blank.
pub fn has_line_behind_blank(remark: &[u8]) -> bool {
    for i in 0..remark.len() {
        if remark[i] == b' ' && is_numbered_line(&remark[i..]) {
            return true;
        }
    }
    false
}

/// The number, from 1, of the first line of a script whose remark has another line end with a line behind it, as it seems.
pub fn line_with_return(script: &[u8]) -> Option<usize> {
    let mut rest = script;
    let mut number: usize = 0;
    while !rest.is_empty() {
        let (line, more) = cut_line(rest);
        number = number.wrapping_add(1);
        if has_line_behind_return(remark_of(line)) {
            return Some(number);
        }
        rest = more;
    }
    None
}

/// Whether a line ends within a string, and not in a remark.
fn ends_in_string(line: &[u8]) -> bool {
    let mut is_quoted = false;
    for byte in &line[..line.len().saturating_sub(remark_of(line).len())] {
        if *byte == b'"' {
            is_quoted = !is_quoted;
        }
    }
    is_quoted
}

/// The remark of a line; empty where it has none.
pub fn remark_of(line: &[u8]) -> &[u8] {
    let mut is_quoted = false;
    for i in 0..line.len() {
        if line[i] == b'"' {
            is_quoted = !is_quoted;
        } else if !is_quoted && begins_remark(&line[i..]) {
            return &line[i..];
        }
    }
    &line[line.len()..]
}

/// Whether bytes begin with the keyword of a remark.
fn begins_remark(bytes: &[u8]) -> bool {
    bytes.len() >= 3 && bytes[..3].eq_ignore_ascii_case(b"rem")
}

/// Whether a line end that is none here has what a line begins with behind it, maybe after blanks: a digit, a letter or
/// `?`. Such ends are the bytes 11 to 13, and UTF-8's next line and line separator; others are signs that text may have
/// for itself, so behind those it is a line's number and a word of BASIC.
fn has_line_behind_return(remark: &[u8]) -> bool {
    let mut is_behind = false;
    for i in 0..remark.len() {
        let at = &remark[i..];
        if is_numbered_line(after_end_sign(at)) {
            return true;
        }
        match at {
            [11..=13, ..] | [0xc2, 0x85, ..] | [0xe2, 0x80, 0xa8, ..] => is_behind = true,
            [b' ' | b'\t' | 0x80..=0xbf, ..] => {}
            [byte, ..] if is_behind && (byte.is_ascii_alphanumeric() || *byte == b'?') =>
                return true,
            _ => is_behind = false,
        }
    }
    false
}

/// Signs that end a line for other systems, or in the text of a program or a web page.
const END_SIGNS: [&[u8]; 11] = [
    b"\0", b"\x1e", b"\x85", b"\x8d", b"\x9b", b"^M", b"\\n", b"\\r", b"<br>", b"<br/>", b"<br />",
];

/// What is behind such a sign in front, as shifted return, ATASCII's end of a line, `\n` or `<br>`; nothing where there is
/// none.
fn after_end_sign(bytes: &[u8]) -> &[u8] {
    for sign in END_SIGNS {
        if bytes.len() >= sign.len() && bytes[..sign.len()].eq_ignore_ascii_case(sign) {
            return &bytes[sign.len()..];
        }
    }
    &[]
}

/// Whether bytes begin as a line with a number does, maybe after blanks.
fn is_numbered_line(bytes: &[u8]) -> bool {
    label_of(bytes).is_some() && begins_listing(bytes)
}

/// Whether a heading of petcat's text has another line end with a line behind it, as it seems.
pub fn has_line_in_heading(text: &[u8]) -> bool {
    let mut rest = text;
    while !rest.is_empty() {
        let (line, more) = cut_line(rest);
        if line.starts_with(b";") && has_line_behind_return(line) {
            return true;
        }
        rest = more;
    }
    false
}

/// Whether a line of a script with a number has nothing else.
pub fn is_label_alone(line: &[u8]) -> bool {
    line.iter()
        .all(|byte| matches!(*byte, b' ' | b'\t' | b'\r' | b'0'..=b'9'))
}

/// The number with which a line of a script begins, if it does; the greatest one where it is too large.
pub fn label_of(line: &[u8]) -> Option<u64> {
    let mut number: Option<u64> = None;
    for byte in line {
        match *byte {
            b' ' | b'\t' if number.is_none() => {}
            b'0'..=b'9' => {
                let digit = u64::from(*byte - b'0');
                number = Some(number.unwrap_or(0).saturating_mul(10).saturating_add(digit));
            }
            _ => break,
        }
    }
    number
}

/// The number, from 1, of the first line of a script that an editor has wrapped, as it seems.
pub fn wrapped_line(script: &[u8]) -> Option<usize> {
    let mut number: usize = 0;
    let mut before: &[u8] = &[];
    for line in script.split(|byte| *byte == b'\n') {
        if is_continued(before, line) {
            return Some(number);
        }
        number = number.wrapping_add(1);
        before = line;
    }
    None
}

/// Whether a line goes on in the next one, as it seems: it ends within a string, and the next one begins as no line of such
/// a listing does.
pub fn is_continued(line: &[u8], next: &[u8]) -> bool {
    ends_in_string(line) && !is_blank(next) && !begins_as(line, next)
}

/// Whether a line begins as one of a listing with lines as this one: with a number and BASIC, or with a statement.
fn begins_as(line: &[u8], next: &[u8]) -> bool {
    if label_of(line).is_some() {
        is_numbered_line(next)
    } else {
        label_of(next).is_some() || begins_listing(next)
    }
}

/// Whether a line has blanks alone.
fn is_blank(line: &[u8]) -> bool {
    line.iter()
        .all(|byte| matches!(*byte, b' ' | b'\t' | b'\r'))
}

/// Whether a script ends within a string and without a line end, as one that was cut does.
pub fn is_cut_off(script: &[u8]) -> bool {
    match script.iter().rposition(|byte| *byte == b'\n') {
        Some(end) => ends_in_string(&script[end..]),
        None => ends_in_string(script),
    }
}
