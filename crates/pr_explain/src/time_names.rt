//! Names of a table's columns that say that they have times.

/// The units of times. One with a micro sign is `s` here, since that sign is skipped as others are.
const UNITS: [&[u8]; 24] = [
    b"s",
    b"sec",
    b"second",
    b"seconds",
    b"ms",
    b"msec",
    b"millis",
    b"millisecond",
    b"milliseconds",
    b"us",
    b"usec",
    b"micros",
    b"microsecond",
    b"microseconds",
    b"ns",
    b"nsec",
    b"nanos",
    b"nanosecond",
    b"nanoseconds",
    b"ps",
    b"psec",
    b"picos",
    b"picosecond",
    b"picoseconds",
];

/// What follows a word of letters with which a line begins, but for signs and blanks.
pub fn behind_letters<'l>(line: &'l [u8], word: &[u8]) -> Option<&'l [u8]> {
    let mut count: usize = 0;
    for (i, byte) in line.iter().enumerate() {
        if byte.is_ascii_alphanumeric() {
            if count >= word.len() || !byte.eq_ignore_ascii_case(&word[count]) {
                return None;
            }
            count = count.wrapping_add(1);
            if count >= word.len() {
                return Some(&line[i + 1..]);
            }
        }
    }
    None
}

/// Whether bytes are signs and blanks alone.
fn are_signs(bytes: &[u8]) -> bool {
    bytes
        .iter()
        .all(|byte| byte.is_ascii() && !byte.is_ascii_alphanumeric())
}

/// Whether a name is this word, but for signs and blanks.
fn is_spelled(name: &[u8], word: &[u8]) -> bool {
    match behind_letters(name, word) {
        Some(rest) => are_signs(rest),
        None => false,
    }
}

/// Whether a column has a word for time as its name, without a unit.
pub fn is_time_alone(name: &[u8]) -> bool {
    is_spelled(name, b"time") || is_spelled(name, b"timestamp") || is_spelled(name, b"t")
}

/// Whether a name is that of a unit.
fn is_unit(name: &[u8]) -> bool {
    for unit in UNITS {
        if is_spelled(name, unit) {
            return true;
        }
    }
    false
}

/// Whether what follows a word is a unit, if there is such a word.
fn is_unit_behind(rest: Option<&[u8]>) -> bool {
    match rest {
        Some(rest) => is_unit(rest),
        None => false,
    }
}

/// The same behind a word that ends before a sign.
fn is_unit_apart(rest: Option<&[u8]>) -> bool {
    match rest {
        Some([byte, rest @ ..]) => !byte.is_ascii_alphanumeric() && is_unit(rest),
        _ => false,
    }
}

/// Whether a column has the unit of times as its name, or a word for time and a unit.
pub fn has_time_unit(name: &[u8]) -> bool {
    is_unit(name)
        || is_unit_behind(behind_letters(name, b"time"))
        || is_unit_behind(behind_letters(name, b"timestamp"))
        || is_unit_apart(behind_letters(name, b"t"))
}
