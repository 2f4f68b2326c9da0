//! The word at a place of a script.

ghost use Rattle.std.specs.Prelude.{◌≤◌, ◌+◌, length, IfSome};

use crate::context::{begins, last_of, without_label};
use pr_base::digit_count;
use pr_basic::lexeme_at;

/// The most letters and digits of a word that is no word of BASIC (profile).
const LETTERS: usize = 20;

/// The words of this profile, the longer ones of like beginnings first.
const KEYWORDS: [&str; 7] = ["OPEN", "CLOSE", "CMD", "PRINT#", "PRINT", "REM", "CHR$"];

/// Words of BASIC that this profile does not have, the longer ones of like beginnings first.
const WORDS: [&str; 58] = [
    "GOSUB", "GOTO", "GO", "FOR", "NEXT", "IF", "THEN", "TO", "STEP", "LET", "DIM", "READ", "DATA",
    "RESTORE", "INPUT#", "INPUT", "GET#", "GET", "RETURN", "END", "STOP", "CONT", "RUN", "LIST",
    "NEW", "CLR", "POKE", "WAIT", "SYS", "LOAD", "SAVE", "VERIFY", "DEF", "ON", "TAB(", "SPC(",
    "LEFT$", "RIGHT$", "MID$", "STR$", "VAL", "LEN", "ASC", "PEEK", "INT", "ABS", "RND", "SQR",
    "SGN", "SIN", "COS", "TAN", "ATN", "EXP", "LOG", "FRE", "POS", "USR",
];

/// What a word is.
#[derive(Clone, Copy)]
pub enum WordKind {
    /// A word of this profile, as BASIC writes it.
    Keyword(&'static str),
    /// A word of BASIC that this profile does not have, as BASIC writes it.
    Foreign(&'static str),
    /// A variable, by the mark after its letters.
    Variable,
    /// A variable without a mark, or another word.
    Letters,
    /// A number.
    Digits,
    /// A string, or one other byte, or nothing where the line ends.
    Other,
}

/// A word of a line.
#[derive(Clone, Copy)]
pub struct Word {
    pub kind: WordKind,
    /// How many bytes it has.
    pub len: usize,
}

impl Word {
    /// The word of this profile, as BASIC writes it, where spaces are in it.
    pub fn unspaced(self) -> Option<&'static str> {
        match self.kind {
            WordKind::Keyword(word) if self.len > word.len() => Some(word),
            _ => None,
        }
    }

    /// Whether it is a word of BASIC that this profile does not have.
    fn is_foreign(self) -> bool {
        matches!(self.kind, WordKind::Foreign(_))
    }

    /// Whether a statement begins with it.
    pub fn begins_statement(self) -> bool {
        matches!(self.kind, WordKind::Keyword(word) if word != "CHR$")
    }
}

/// The word in front.
pub fn word_at(rest: &[u8]) -> Word
    ensures { result.len ≤ length rest.now }
{
    let kind = match rest {
        [first, ..] if first.is_ascii_alphabetic() => {
            return match entry_at(rest) {
                Some(word) => word,
                None => other_at(rest),
            };
        }
        [b'0'..=b'9', ..] => WordKind::Digits,
        _ => WordKind::Other,
    };
    let len = match lexeme_at(rest) {
        Some(lexeme) => lexeme.len(),
        None => 0,
    };
    Word { kind, len }
}

/// Whether a line begins as one of a listing does: with a word that begins a statement, or with a line's number and any word
/// of BASIC. A separator of fields after the word makes it the name of a column. A byte order mark may come before.
pub fn begins_listing(line: &[u8]) -> bool {
    let line = match line {
        [0xef, 0xbb, 0xbf, marked @ ..] => after_blanks(marked),
        plain => after_blanks(plain),
    };
    let digits = digit_count(line);
    let rest = after_blanks(&line[digits..]);
    let word = word_at(rest);
    let is_basic = word.begins_statement() || (digits > 0 && word.is_foreign());
    match &rest[word.len..] {
        [b',' | b';' | b'\t', ..] => false,
        [next, ..] => is_basic && !next.is_ascii_alphabetic(),
        [] => is_basic,
    }
}

/// Whether there is a number in front.
pub fn is_number(rest: &[u8]) -> bool {
    matches!(rest, [b'0'..=b'9', ..] | [b'.', b'0'..=b'9', ..])
}

/// The word of BASIC in front, if there is one.
fn entry_at(rest: &[u8]) -> Option<Word>
    ensures { IfSome result (λ word. word.len ≤ length rest.now) }
{
    for word in KEYWORDS {
        if let Some(len) = spelled(rest, word.as_bytes()) {
            let kind = WordKind::Keyword(word);
            return Some(Word { kind, len });
        }
    }
    for word in WORDS {
        if let Some(len) = spelled(rest, word.as_bytes()) {
            let kind = WordKind::Foreign(word);
            return Some(Word { kind, len });
        }
    }
    None
}

/// How many bytes a word has that is spelled in front, whichever of its letters are capitals, with
/// or without spaces in it. With spaces in it, it ends where its last letters do: `T OR` is not TO.
fn spelled(rest: &[u8], word: &[u8]) -> Option<usize>
    ensures { IfSome result (λ len. len ≤ length rest.now) }
{
    let mut left = rest;
    for letter in word {
        let [byte, more @ ..] = after_blanks(left) else {
            return None;
        };
        if !letter.eq_ignore_ascii_case(byte) {
            return None;
        }
        left = more;
    }
    let len = rest.len().saturating_sub(left.len());
    match left {
        [next, ..] if len > word.len() && next.is_ascii_alphabetic() => None,
        _ => Some(len),
    }
}

/// What follows the spaces and tabs in front.
fn after_blanks(bytes: &[u8]) -> &[u8] {
    for (i, byte) in bytes.iter().enumerate() {
        if *byte != b' ' && *byte != b'\t' {
            return &bytes[i..];
        }
    }
    &[]
}

/// The letters and digits in front, at most [`LETTERS`], and a variable's mark after them.
fn other_at(rest: &[u8]) -> Word
    ensures { result.len ≤ length rest.now }
{
    let count = letter_count(rest);
    match &rest[count..] {
        [b'$' | b'%', ..] => Word {
            kind: WordKind::Variable,
            len: count + 1,
        },
        _ => Word {
            kind: WordKind::Letters,
            len: count,
        },
    }
}

/// How many letters and digits are in front, at most [`LETTERS`].
fn letter_count(rest: &[u8]) -> usize
    ensures { result ≤ length rest.now }
{
    for (i, byte) in rest.iter().enumerate() {
        if i == LETTERS || !byte.is_ascii_alphanumeric() {
            return i;
        }
    }
    rest.len()
}

/// What a message says of a variable.
const VARIABLE: &str = "variables are not supported; write the value";

/// What a message says of letters that may be a variable, or a word with a wrong letter.
const OTHER_WORDS: &str = "variables and other words are not supported";

/// What a message says of a key's name outside strings.
const KEY_OUTSIDE: &str =
    "a name of a key belongs in a string, of petcat's text (--from petcat) or a magazine's listing (--from magazine)";

/// What a message says of what a magazine prints beside a line for a program that checks the typing.
const CHECKSUM: &str =
    "letters or numbers of a checksum program before or after the lines are no BASIC: leave them out";

/// What a message says of a word processor's or a web page's text.
const TAG: &str = "this is a tag of HTML: save the listing as plain text";

/// Names of HTML's tags around a listing.
const TAGS: [&[u8]; 15] = [
    b"html", b"head", b"body", b"title", b"meta", b"pre", b"code", b"tt", b"p", b"br", b"div",
    b"span", b"font", b"table", b"td",
];

/// What a message says of mail's sign of a line that it quotes.
const QUOTED: &str = "mail puts > before the lines that it quotes: delete it";

/// What a message says of the C64's prompt.
const READY: &str = "READY. is the C64's prompt and no line of a program: delete it";

/// What a message says of a word with a sign in it that looks like its letter.
const LOOK_ALIKE: &str =
    "a sign in this word only looks like the right one, as 0 like O and 1 like I";

/// Such words, as they are read from paper.
const LOOK_ALIKES: [&[u8]; 4] = [b"0PEN", b"CL0SE", b"PR1NT", b"CHRS("];

/// What a message says of what prints in another BASIC.
const OTHER_PRINT: &str = "this prints in another BASIC; on a C64 OPEN 4,4 and then PRINT#4, do";

/// Words that print in another BASIC.
const OTHER_PRINTS: [&[u8]; 3] = [b"LPRINT", b"PR#", b"LLIST"];

/// What a message says of a remark as other languages have it.
const OTHER_REMARK: &str = "a remark begins with REM";

/// Signs of such a remark.
const OTHER_REMARKS: [&[u8]; 3] = [b"//", b"<-", b"/*"];

/// What a message says of the signs of mail.
const MAIL: &str = "this is mail's quoted-printable text: save the listing as plain text";

/// What a message says of a pound sign outside a string.
const POUND: &str = "this is a pound sign; in the place of #, as in PRINT#, type #";

/// A pound sign in UTF-8 and in one byte.
const POUNDS: [&[u8]; 2] = [b"\xc2\xa3", b"\xa3"];

/// What a message says of a number with a letter in it that looks like a digit.
const NO_DIGIT: &str = "a number has digits alone, and this letter only looks like one";

/// What a message says of what ends a line for other systems.
const OTHER_END: &str =
    "this ends a line elsewhere and not here; give the lines LF or CR LF line ends";

/// What ends a line for other systems, and in the text of a program: a vertical tab, shifted return, ATASCII's end, UTF-8's
/// next line and line separator, and `\n`.
const OTHER_ENDS: [&[u8]; 6] = [
    b"\x0b",
    b"\x8d",
    b"\x9b",
    b"\xc2\x85",
    b"\xe2\x80\xa8",
    b"\\n",
];

/// Names of keys that are as long as such letters between square brackets.
const SHORT_KEYS: [&[u8]; 3] = [b"HOME", b"DOWN", b"LEFT"];

/// What a text has that is common in BASIC or in files, and that this profile does not have.
#[derive(Clone, Copy)]
pub enum Foreign {
    /// A word of BASIC, as BASIC writes it.
    Word(&'static str),
    /// A variable, with a sentence that says so.
    Variable(&'static str),
    /// Something else, with a sentence that says what it is or what to write.
    Sentence(&'static str),
}

/// What is in front, after the bytes `before` of its line, where it is common and this profile does
/// not have it. Where a number is wanted, letters are a variable. `rest` is without the line's end:
/// byte 10, and byte 13 directly before it or before the text's end.
pub fn foreign_word(before: &[u8], rest: &[u8], wants_number: bool) -> Option<Foreign> {
    if let Some(sentence) = marked_instead(before, rest) {
        return Some(Foreign::Sentence(sentence));
    }
    let sentence = match rest {
        [b'?', after @ ..] if matches!(after_blanks(after), [b'#', ..]) => {
            "BASIC does not read ?# as PRINT#; write PRINT#"
        }
        [b'?', ..] => "the abbreviation ? is not supported; write PRINT",
        [b'+' | b'-' | b'*' | b'/' | b'^' | b'=' | b'<' | b'>', ..] => {
            "operators are not supported; write the result"
        }
        [b'\'', ..] => "a string begins and ends with \", and a remark begins with REM",
        [b'$', digits @ ..] if is_hexadecimal(digits) => {
            "hexadecimal numbers are not supported; write decimal numbers"
        }
        _ => return foreign_sentence(before, rest).or(foreign_name(rest, wants_number)),
    };
    Some(Foreign::Sentence(sentence))
}

/// What to say of bytes that are no word.
fn foreign_sentence(before: &[u8], rest: &[u8]) -> Option<Foreign> {
    let sentence = match rest {
        [b'#', ..] if parts_print(before) => {
            "write PRINT# without a space before #; ?# is not PRINT#"
        }
        [b'\r', ..] => {
            "a carriage return alone does not end a line; save the script with LF or CR LF line ends"
        }
        [1, 8, ..] if before.is_empty() => "this is a tokenised program",
        [b'{', ..] | [b'[', b'<' | b'A'..=b'Z' | b'a'..=b'z', ..] => KEY_OUTSIDE,
        [b'&', ..] => html_instead(rest)?,
        _ => typed_instead(letter_in(rest), false)?,
    };
    Some(Foreign::Sentence(sentence))
}

/// What to say of what other programs, or a reader's eyes, put into a listing.
fn marked_instead(before: &[u8], rest: &[u8]) -> Option<&'static str> {
    if is_checksum(before, rest) {
        Some(CHECKSUM)
    } else if is_tag(rest) {
        Some(TAG)
    } else if is_mail(rest) {
        Some(MAIL)
    } else if is_no_digit(before, rest) {
        Some(NO_DIGIT)
    } else if last_of(before).is_none() && rest.starts_with(b">") {
        Some(QUOTED)
    } else if last_of(before).is_none() && begins(rest, b"READY.") {
        Some(READY)
    } else {
        begun_instead(rest)
    }
}

/// What to say of such by how it begins.
fn begun_instead(rest: &[u8]) -> Option<&'static str> {
    if begins_with_one(rest, &LOOK_ALIKES) {
        Some(LOOK_ALIKE)
    } else if begins_with_one(rest, &OTHER_PRINTS) {
        Some(OTHER_PRINT)
    } else if begins_with_one(rest, &OTHER_REMARKS) {
        Some(OTHER_REMARK)
    } else if begins_with_one(rest, &POUNDS) {
        Some(POUND)
    } else if begins_with_one(rest, &OTHER_ENDS) {
        Some(OTHER_END)
    } else {
        None
    }
}

/// Whether one of these is in front, whichever of its letters are capitals.
fn begins_with_one(rest: &[u8], words: &[&[u8]]) -> bool {
    for word in words {
        if begins(rest, *word) {
            return true;
        }
    }
    false
}

/// Whether a line ends with what mail puts there, or `=` as mail writes it is in front.
fn is_mail(rest: &[u8]) -> bool {
    matches!(rest, [b'='] | [b'=', b'2', b'0']) || begins(rest, b"=3D")
}

/// Whether a tag of HTML is in front.
fn is_tag(rest: &[u8]) -> bool {
    let name = match rest {
        [b'<', b'!', ..] => return true,
        [b'<', b'/', name @ ..] => name,
        [b'<', name @ ..] => name,
        _ => return false,
    };
    let count = letter_count(name);
    matches!(&name[count..], [b'>' | b'/' | b' ', ..]) && is_name_of_tag(&name[..count])
}

/// Whether a word is the name of a tag around a listing.
fn is_name_of_tag(word: &[u8]) -> bool {
    for tag in TAGS {
        if word.eq_ignore_ascii_case(tag) {
            return true;
        }
    }
    false
}

/// Whether the letter in front, after the bytes `before` of its line, looks like a digit and is in a number: behind a digit,
/// or at the front of a line's number.
fn is_no_digit(before: &[u8], rest: &[u8]) -> bool {
    let [b'O' | b'o' | b'l' | b'I', number @ ..] = rest else {
        return false;
    };
    match before {
        [] => digit_count(number) > 0 && begins_listing(number),
        [.., digit] => digit.is_ascii_digit() && goes_on(number),
    }
}

/// Whether a number may go on so, or end.
fn goes_on(rest: &[u8]) -> bool {
    matches!(rest, [] | [b' ' | b',' | b')' | b'0'..=b'9', ..])
}

/// HTML's names for characters, with what to say of each.
const HTML_NAMES: [(&[u8], &str); 5] = [
    (
        b"&quot;",
        "&quot; is HTML's for \": save the listing as plain text",
    ),
    (
        b"&lt;",
        "&lt; is HTML's for <: save the listing as plain text",
    ),
    (
        b"&gt;",
        "&gt; is HTML's for >: save the listing as plain text",
    ),
    (
        b"&amp;",
        "&amp; is HTML's for &: save the listing as plain text",
    ),
    (
        b"&nbsp;",
        "&nbsp; is HTML's for a space: save the listing as plain text",
    ),
];

/// What to say of HTML's name for a character in front, whichever of its letters are capitals.
pub fn html_instead(rest: &[u8]) -> Option<&'static str> {
    for (name, sentence) in HTML_NAMES {
        if begins(rest, name) {
            return Some(sentence);
        }
    }
    None
}

/// Whether what is in front, after the bytes `before` of its line, is for a checksum program, as it seems: it is before the
/// line's number, or at the line's end.
fn is_checksum(before: &[u8], rest: &[u8]) -> bool {
    let len = checksum_len(rest);
    if len == 0 || word_at(rest).is_foreign() {
        return false;
    }
    let after = after_blanks(&rest[len..]);
    match last_of(before) {
        None => matches!(after, [b'0'..=b'9', ..]) && !rest.starts_with(b"*"),
        Some(last) => after.is_empty() && may_end(before, last, rest),
    }
}

/// Whether a checksum in front may be at the end of a line, after these bytes and the last of them that is no blank:
/// brackets may, and after a statement and a blank, letters and `*`; but letters after `;` are a variable.
fn may_end(before: &[u8], last: u8, rest: &[u8]) -> bool {
    if matches!(rest, [b'<' | b'[', ..]) {
        return true;
    }
    let is_apart = matches!(before, [.., b' ' | b'\t']) && !without_label(before).is_empty();
    match last {
        b'"' | b')' | b'0'..=b'9' => is_apart,
        b';' => is_apart && rest.starts_with(b"*"),
        _ => false,
    }
}

/// How many bytes a checksum in front has: two capitals, `*` and digits, or what magazines put between brackets; 0 for
/// others.
fn checksum_len(rest: &[u8]) -> usize
    ensures { result ≤ length rest.now }
{
    match rest {
        [b'A'..=b'Z', b'A'..=b'Z'] => 2,
        [b'A'..=b'Z', b'A'..=b'Z', b' ' | b'\t', ..] => 2,
        [b'*', digits @ ..] => match digit_count(digits) {
            0 => 0,
            count => 1 + count,
        },
        [b'<', code @ ..] => code_len(code, b'>'),
        [b'[', code @ ..] => code_len(code, b']'),
        _ => 0,
    }
}

/// How many bytes a checksum between brackets has, with both: a number, or four capitals; 0 for others. The first bracket
/// is before these bytes.
fn code_len(code: &[u8], end: u8) -> usize
    ensures { result ≤ length code.now + 1 }
{
    let count = letter_count(code);
    let is_code = count > 0 && (digit_count(code) == count || is_four(&code[..count]));
    match &code[count..] {
        [next, ..] if is_code && *next == end => count + 2,
        _ => 0,
    }
}

/// Whether a code is four capitals, and no key's name.
fn is_four(code: &[u8]) -> bool {
    matches!(code, [b'A'..=b'Z', b'A'..=b'Z', b'A'..=b'Z', b'A'..=b'Z'])
        && !SHORT_KEYS.contains(&code)
}

/// What to type for a letter that editors and web pages put in the place of a key of the C64, as UTF-8 has it or as one
/// byte of Windows: in a string, or outside of one.
pub fn typed_instead(letter: &[u8], is_in_string: bool) -> Option<&'static str> {
    let sentence = match letter {
        [9] => "the byte 9 is a tab; type spaces",
        [12] => "the byte 12 is a form feed; leave it out",
        [127] => "the byte 127 is a delete code; leave it out",
        [0xef, 0xbb, 0xbf] => "this is a byte order mark; save the script without it",
        [0xc2, 0xa0] | [0xe2, 0x80, 0xaf] | [0xa0] => "this is a no-break space; type a space",
        [0xc2, 0xa3] | [0xa3] => {
            "this is a pound sign, which the C64 has in the place of \\; type \\"
        }
        [0xcf, 0x80] => "this is pi, which the C64 has in the place of ~; type ~",
        [0xe2, 0x80, 0x93 | 0x94] | [0xe2, 0x88, 0x92] | [0x96 | 0x97] => {
            "this is a dash; type -"
        }
        [0xe2, 0x80, 0x98..=0x9a] | [0x91 | 0x92] if is_in_string => {
            "this is a curly quotation mark; type '"
        }
        [0xe2, 0x80, 0x9c..=0x9e] | [0x93 | 0x94] if is_in_string => {
            "this is a curly quotation mark; write it as CHR$(34)"
        }
        [0xe2, 0x80, 0x98..=0x9e] | [0x91..=0x94] => "this is a curly quotation mark; type \"",
        [0xe2, 0x80, 0xa6] | [0x85] => "these are three points in one; type ...",
        [0xe2, 0x86, 0x90] => {
            "this is an arrow to the left, which the C64 has in the place of _; type _"
        }
        [0xe2, 0x86, 0x91] => "this is an arrow up, which the C64 has in the place of ^; type ^",
        _ => return None,
    };
    Some(sentence)
}

/// What to say of the bytes in a string whose letters have two bytes each, as UTF-16 has them; its first quote is one.
pub fn wide_letter(rest: &[u8]) -> Option<&'static str> {
    match rest {
        [0, b' '..=b'~', 0, ..] => Some(
            "each letter has two bytes, as in UTF-16: save the listing as plain text, in ASCII or UTF-8",
        ),
        _ => None,
    }
}

/// Whether a curly quotation mark in front is meant to end the string that it is in: the list goes on after it, or the
/// statement ends.
pub fn ends_string(rest: &[u8]) -> bool {
    let after = match rest {
        [0xe2, 0x80, 0x9c | 0x9d, after @ ..] | [0x93 | 0x94, after @ ..] => after,
        _ => return false,
    };
    matches!(after_blanks(after), [] | [b';' | b':' | b'\r', ..])
}

/// What to say where no statement begins, after the bytes `before` of the line, and the line has control codes of the
/// printer.
pub fn printer_bytes(before: &[u8], rest: &[u8]) -> Option<&'static str> {
    match rest {
        [1, 8, ..] => None,
        _ if without_label(before).is_empty() && rest.iter().any(|byte| is_printer_code(*byte)) => {
            Some("if these are a printer's bytes and no script, the command raw prints them")
        }
        _ => None,
    }
}

/// Whether a byte is a control code that a printer knows and no text has.
fn is_printer_code(byte: u8) -> bool {
    matches!(byte, 8 | 14..=18 | 27)
}

/// The letter in front as UTF-8 has it, or else the byte; nothing at the end.
pub fn letter_in(rest: &[u8]) -> &[u8] {
    let len = match rest {
        [0xc2..=0xdf, _, ..] => 2,
        [0xe0..=0xef, _, _, ..] => 3,
        [0xf0..=0xf4, _, _, _, ..] => 4,
        _ => return &rest[..rest.len().min(1)],
    };
    match str::from_utf8(&rest[..len]) {
        Ok(_) => &rest[..len],
        Err(_) => &rest[..1],
    }
}

/// A word in front that this profile does not have, or a variable.
fn foreign_name(rest: &[u8], wants_number: bool) -> Option<Foreign> {
    match word_at(rest).kind {
        WordKind::Foreign(word) => Some(Foreign::Word(word)),
        WordKind::Variable => Some(Foreign::Variable(VARIABLE)),
        WordKind::Letters => Some(match abbreviated(rest) {
            Some(sentence) => Foreign::Sentence(sentence),
            None if wants_number => Foreign::Variable(VARIABLE),
            None if is_assigned(rest) => Foreign::Variable(OTHER_WORDS),
            None => Foreign::Sentence(OTHER_WORDS),
        }),
        WordKind::Keyword(_) | WordKind::Digits | WordKind::Other => None,
    }
}

/// Whether the letters and digits in front are a variable that gets a value.
fn is_assigned(rest: &[u8]) -> bool {
    matches!(after_blanks(&rest[letter_count(rest)..]), [b'=', ..])
}

/// What to write for the abbreviation of a word of this profile in front, whose last letter is typed with shift.
fn abbreviated(rest: &[u8]) -> Option<&'static str> {
    let sentence = match rest {
        [b'p', b'R', ..] => "the abbreviation pR is not supported; write PRINT#",
        [b'o', b'P', ..] => "the abbreviation oP is not supported; write OPEN",
        [b'c', b'l', b'O', ..] => "the abbreviation clO is not supported; write CLOSE",
        [b'c', b'M', ..] => "the abbreviation cM is not supported; write CMD",
        [b'c', b'H', ..] => "the abbreviation cH is not supported; write CHR$",
        _ => return None,
    };
    Some(sentence)
}

/// Whether there are letters and digits in front that are all hexadecimal digits.
fn is_hexadecimal(rest: &[u8]) -> bool {
    let digits = &rest[..letter_count(rest)];
    for byte in digits {
        if !byte.is_ascii_hexdigit() {
            return false;
        }
    }
    !digits.is_empty()
}

/// Whether these bytes end in PRINT and spaces after it.
fn parts_print(before: &[u8]) -> bool {
    let Some(last) = before
        .iter()
        .rposition(|byte| *byte != b' ' && *byte != b'\t')
    else {
        return false;
    };
    match last.checked_sub(4) {
        Some(start) => {
            last + 1 < before.len() && before[start..last + 1].eq_ignore_ascii_case(b"print")
        }
        None => false,
    }
}
