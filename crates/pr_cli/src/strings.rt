//! What is to be noted of the strings of a script.

use crate::script_lines::remark_of;
use pr_basic::cut_line;
use pr_explain::html_instead;

/// What is said of a script or a magazine's listing with names of keys in other brackets than braces.
const BRACKET_NAMES: &str =
    "names of keys in brackets are printed as they are: a magazine's listing (--from magazine) has them in braces, \
     as {CLR}, and in [< and >] a key that is typed with the Commodore key, as [<A>]";

/// The names of keys that some magazines print in brackets.
const KEY_NAMES: [&str; 59] = [
    "CLR",
    "CLEAR",
    "HOME",
    "UP",
    "DOWN",
    "LEFT",
    "RIGHT",
    "RVS",
    "RVSON",
    "RVSOFF",
    "SPACE",
    "SPACES",
    "SPC",
    "DEL",
    "INST",
    "RETURN",
    "SS",
    "PI",
    "EP",
    "UPARROW",
    "BACKARROW",
    "WHT",
    "WHITE",
    "BLK",
    "BLACK",
    "RED",
    "CYN",
    "CYAN",
    "PUR",
    "PURPLE",
    "GRN",
    "GREEN",
    "BLU",
    "BLUE",
    "YEL",
    "YELLOW",
    "F1",
    "F3",
    "F5",
    "F7",
    "SP",
    "OFF",
    "CLS",
    "REV",
    "RVSEIN",
    "POUND",
    "UP ARROW",
    "LEFT ARROW",
    "BACK ARROW",
    "DN",
    "RT",
    "LF",
    "CU",
    "CD",
    "C/DN",
    "C/UP",
    "INS",
    "INV",
    "NORM",
];

/// Words in front of the name of a key that is typed with another one, or has two words.
const KEY_WORDS: [&str; 14] = [
    "RVS", "REV", "REVERSE", "CRSR", "CURSOR", "CTRL", "CONTROL", "SHIFT", "SHFT", "SH", "COMD",
    "CMDR", "COMM", "CBM",
];

/// What else is in front of such a name, or of a character's code.
const KEY_SIGNS: [&str; 2] = ["C=", "CHR$("];

/// Names of keys in round brackets, which other words are more often, begin so.
const ROUND_NAMES: [&str; 8] = [
    "CLR", "CLEAR", "RVS", "CRSR", "SHIFT", "SHFT", "CTRL", "CBM",
];

/// The most bytes that stand between brackets around the name of a key: a count, a space and a name.
const LONGEST_NAME: usize = 15;

/// What is said of a script or a magazine's listing whose strings have signs that a C64 has not.
const OTHER_SIGNS: &str =
    "some signs in strings print another character: \\ a pound sign, _ a left arrow, ~ pi, or a pattern in the lower \
     case set, and ` | } graphics";

/// What is said of one with a character by its number, as HTML has it.
const HTML_NUMBERS: &str =
    "&# begins HTML's number for a character: save the listing as plain text";

/// What is said of one with the tag of a line's end.
const HTML_TAGS: &str = "<br> and </ are HTML's: save the listing as plain text";

/// What is said of one with the signs of mail.
const MAIL: &str =
    "= with two digits, as in =3D, or at the end of a line, is a sign of mail (quoted-printable): save the listing as plain text";

/// How mail writes `=`, and letters that UTF-8 has in two bytes or three.
const MAIL_SIGNS: [&str; 3] = ["=3D", "=C3=", "=E2="];

/// What is said of one with another name between `&` and `;`.
const HTML_NAME: &str =
    "a name between & and ; is HTML's for a character: save the listing as plain text";

/// What may be noted of strings.
#[derive(Clone, Copy)]
pub enum Noting {
    /// What other programs have made of the listing alone.
    Marks,
    /// All, but for braces.
    Unbraced,
    /// All.
    All,
}

/// What is to be noted of the strings of a script: names of keys in brackets, HTML's names, mail's signs, or signs that a
/// C64 has not. What is in a remark is no string.
pub fn noted_in_strings(script: &[u8], noting: Noting) -> Option<&'static str> {
    if !script.iter().any(|byte| is_noted(*byte)) {
        return None;
    }
    let mut rest = script;
    while !rest.is_empty() {
        let (line, more) = cut_line(rest);
        let before = line.len().saturating_sub(remark_of(line).len());
        let noted = noted_in_line(&line[..before], noting);
        if noted.is_some() {
            return noted;
        }
        rest = more;
    }
    None
}

/// Whether something may be noted of a byte in a string.
fn is_noted(byte: u8) -> bool {
    matches!(
        byte,
        b'[' | b'<' | b'(' | b'&' | b'=' | b'\\' | b'_' | b'`' | b'|' | b'}' | b'~'
    )
}

/// What is to be noted of the strings in the part of a line before its remark.
fn noted_in_line(front: &[u8], noting: Noting) -> Option<&'static str> {
    let mut is_quoted = false;
    for i in 0..front.len() {
        if front[i] == b'"' {
            is_quoted = !is_quoted;
        } else if is_quoted {
            let noted = noted_at(&front[i..], noting);
            if noted.is_some() {
                return noted;
            }
        }
    }
    None
}

/// What is to be noted of what is in front in a string.
fn noted_at(bytes: &[u8], noting: Noting) -> Option<&'static str> {
    let marked = marked_at(bytes);
    if marked.is_some() {
        return marked;
    }
    match noting {
        Noting::Marks => None,
        Noting::Unbraced if bytes.starts_with(b"}") => None,
        Noting::Unbraced | Noting::All => typed_at(bytes),
    }
}

/// What is to be noted of what another program has put there.
fn marked_at(bytes: &[u8]) -> Option<&'static str> {
    match bytes {
        [b'&', b'#', b'0'..=b'9' | b'x' | b'X', ..] => Some(HTML_NUMBERS),
        [b'&', name @ ..] => html_instead(bytes).or(html_name(name)),
        [b'<', b'/', letter, ..] if letter.is_ascii_alphabetic() => Some(HTML_TAGS),
        [b'<', name @ ..] if begins_with_one(name, &["BR>", "BR/>", "BR />"]) => Some(HTML_TAGS),
        [b'=', ..] if is_mail(bytes) => Some(MAIL),
        _ => None,
    }
}

/// What is to be noted of a name of letters, two at least, with a semicolon behind them.
fn html_name(name: &[u8]) -> Option<&'static str> {
    match name.iter().position(|byte| !byte.is_ascii_alphabetic()) {
        Some(end) if end > 1 && name[end] == b';' => Some(HTML_NAME),
        _ => None,
    }
}

/// Whether a sign of mail is in front.
fn is_mail(bytes: &[u8]) -> bool {
    matches!(bytes, [b'='] | [b'=', b'2', b'0'])
        || is_letter_of_mail(bytes)
        || begins_with_one(bytes, &MAIL_SIGNS)
}

/// Whether a letter of Western Europe is in front, as mail writes it.
fn is_letter_of_mail(bytes: &[u8]) -> bool {
    match bytes {
        [_, b'C'..=b'F', low, ..] => matches!(*low, b'0'..=b'9' | b'A'..=b'F'),
        _ => false,
    }
}

/// What is to be noted of what somebody has typed there.
fn typed_at(bytes: &[u8]) -> Option<&'static str> {
    match bytes {
        [b'[', name @ ..] if begins_name(name, b']') => Some(BRACKET_NAMES),
        [b'<', name @ ..] if begins_name(name, b'>') => Some(BRACKET_NAMES),
        [b'(', name @ ..] if begins_round(name) && begins_name(name, b')') => Some(BRACKET_NAMES),
        [b'\\' | b'_' | b'`' | b'|' | b'}' | b'~', ..] => Some(OTHER_SIGNS),
        _ => None,
    }
}

/// Whether bytes begin with one of these words, in capitals or not.
fn begins_with_one(bytes: &[u8], words: &[&str]) -> bool {
    for word in words {
        let word = word.as_bytes();
        if bytes.len() >= word.len() && bytes[..word.len()].eq_ignore_ascii_case(word) {
            return true;
        }
    }
    false
}

/// Whether what is in round brackets may be the name of a key: with a count, or one of [`ROUND_NAMES`].
fn begins_round(name: &[u8]) -> bool {
    matches!(name, [b'0'..=b'9', ..]) || begins_with_one(name, &ROUND_NAMES)
}

/// Whether bytes begin with the name of a key and this bracket behind it.
fn begins_name(bytes: &[u8], bracket: u8) -> bool {
    for (i, byte) in bytes.iter().enumerate() {
        if *byte == bracket {
            return is_name(&bytes[..i]);
        }
        if i == LONGEST_NAME || *byte == b'"' {
            return false;
        }
    }
    false
}

/// Whether a name between brackets is a key's, maybe with a count: a word, one byte between `<` and `>`, or one behind S
/// or C.
fn is_name(name: &[u8]) -> bool {
    if matches!(
        name,
        [b'<', _, b'>'] | [b'<', _, b' ', _, b'>'] | [b'S' | b'C', b' ', _]
    ) {
        return true;
    }
    let word = before_count(after_count(name));
    if is_typed_with(word) {
        return true;
    }
    for known in KEY_NAMES {
        if word.eq_ignore_ascii_case(known.as_bytes()) {
            return true;
        }
    }
    false
}

/// Whether a name begins with the one of a key that is held, or with what stands for one.
fn is_typed_with(name: &[u8]) -> bool {
    let letters = match name.iter().position(|byte| !byte.is_ascii_alphabetic()) {
        Some(end) => &name[..end],
        None => name,
    };
    for word in KEY_WORDS {
        if letters.eq_ignore_ascii_case(word.as_bytes()) {
            return true;
        }
    }
    begins_with_one(name, &KEY_SIGNS)
}

/// What is behind the digits and spaces in front.
fn after_count(name: &[u8]) -> &[u8] {
    match name.iter().position(|byte| !is_of_count(*byte)) {
        Some(start) => &name[start..],
        None => name,
    }
}

/// What is before the digits and spaces at the end.
fn before_count(name: &[u8]) -> &[u8] {
    match name.iter().rposition(|byte| !is_of_count(*byte)) {
        Some(last) => &name[..last + 1],
        None => name,
    }
}

/// Whether a byte may be of a count.
fn is_of_count(byte: u8) -> bool {
    byte.is_ascii_digit() || matches!(byte, b' ' | b'*')
}
