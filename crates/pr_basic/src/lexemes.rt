//! The lexemes of a line.

ghost use Rattle.std.specs.Prelude.{◌≡◌, ◌∷◌, [], ◌<◌, ◌≤◌, ◌+◌, length, map, suc, IfSome, MatchOption, IsTrue};
ghost use Rattle.std.specs.List.{prefix_len};
ghost use Rattle.pr_basic.specs.Lexemes.{NoSpace, is_no_quote, is_space};
ghost use Rattle.pr_base.specs.Digits.{is_digit};
ghost use Rattle.pr_basic.specs.Lexing.{IsRest, after_first, begins, front, here, later, lexemes_of, past, text_front, unspaced, word_front};
ghost use Rattle.std.specs.Char.{to_ascii_lowercase};
ghost use Rattle.pr_basic.specs.Seen.{seen};

use pr_base::{digit_count, is_digit};

/// A word of the language.
#[derive(Clone, Copy, Debug, PartialEq, Eq)]
pub enum Keyword {
    Open,
    Close,
    Cmd,
    PrintTo,
    Print,
    Chr,
}

/// A lexeme of a line.
#[derive(Clone, Copy, Debug)]
pub enum Lexeme<'a> {
    Word(Keyword),
    Remark,
    Digits(&'a [u8]),
    Quoted(&'a [u8]),
    Comma,
    Semicolon,
    Colon,
    OpenParen,
    CloseParen,
    Stray,
}

/// A space or a tab.
pub fn is_space(b: u8) -> bool
    ensures { result ≡ is_space b }
{
    b == b' ' || b == b'\t'
}

/// How many bytes come before a quote.
fn text_count(bytes: &[u8]) -> usize
    ensures count { result ≡ prefix_len is_no_quote bytes.now }
    ensures within { result ≤ length bytes.now }
{
    for (i, b) in bytes.iter().enumerate() {
        if *b == b'"' {
            return i;
        }
    }
    bytes.len()
}

/// Whether the bytes begin with a word in either case.
fn begins(bytes: &[u8], word: &[u8]) -> bool
    requires { map to_ascii_lowercase word.now ≡ word.now }
    ensures test { result ≡ begins bytes.now word.now }
    ensures within { IsTrue result → length word.now ≤ length bytes.now }
{
    bytes.len() >= word.len() && bytes[..word.len()].eq_ignore_ascii_case(word)
}

/// The string of which this is what follows its first quote, and how many bytes it has with its
/// quotes. It ends with its last quote, or with the line.
#[tactic(auto, unfolding(crate::specs::Lexing::text_front))]
fn text_front(bytes: &[u8]) -> (Lexeme<'_>, usize)
    ensures lexeme { (seen result.0, result.1) ≡ text_front bytes.now }
    ensures within { result.1 ≤ length bytes.now + 1 }
    ensures some { 0 < result.1 }
{
    let n = text_count(bytes);
    let size = if n < bytes.len() { n + 2 } else { n + 1 };
    (Lexeme::Quoted(&bytes[..n]), size)
}

/// The keyword in front, and how many bytes it has; a remark has the rest of its line.
#[tactic(auto, unfolding(crate::specs::Lexing::word_front))]
fn word_front(bytes: &[u8]) -> (Lexeme<'_>, usize)
    requires { 0 < length bytes.now }
    ensures lexeme { (seen result.0, result.1) ≡ word_front bytes.now }
    ensures within { result.1 ≤ length bytes.now }
    ensures some { 0 < result.1 }
{
    if begins(bytes, b"rem") {
        return (Lexeme::Remark, bytes.len());
    }
    if begins(bytes, b"open") {
        return (Lexeme::Word(Keyword::Open), 4);
    }
    if begins(bytes, b"close") {
        return (Lexeme::Word(Keyword::Close), 5);
    }
    if begins(bytes, b"cmd") {
        return (Lexeme::Word(Keyword::Cmd), 3);
    }
    if begins(bytes, b"print#") {
        return (Lexeme::Word(Keyword::PrintTo), 6);
    }
    if begins(bytes, b"print") {
        return (Lexeme::Word(Keyword::Print), 5);
    }
    if begins(bytes, b"chr$") {
        return (Lexeme::Word(Keyword::Chr), 4);
    }
    (Lexeme::Stray, 1)
}

/// The lexeme in front of some bytes, and how many bytes it has.
#[tactic(auto, unfolding(crate::specs::Lexing::front))]
pub fn front(bytes: &[u8]) -> (Lexeme<'_>, usize)
    requires { 0 < length bytes.now }
    ensures lexeme { (seen result.0, result.1) ≡ front bytes.now }
    ensures within { result.1 ≤ length bytes.now }
    ensures some { 0 < result.1 }
{
    let b = bytes[0];
    if is_digit(b) {
        let n = digit_count(bytes);
        return (Lexeme::Digits(&bytes[..n]), n);
    }
    match b {
        b'"' => text_front(&bytes[1..]),
        b',' => (Lexeme::Comma, 1),
        b';' => (Lexeme::Semicolon, 1),
        b':' => (Lexeme::Colon, 1),
        b'(' => (Lexeme::OpenParen, 1),
        b')' => (Lexeme::CloseParen, 1),
        _ => word_front(bytes),
    }
}

/// The next lexeme, and the bytes after it. None where only spaces are left.
pub fn next_lexeme(bytes: &[u8]) -> Option<(Lexeme<'_>, &[u8])>
    ensures next { MatchOption result (lexemes_of bytes.now ≡ [])
        (λ r. (lexemes_of bytes.now ≡ seen r.0 ∷ lexemes_of r.1.now) × (length r.1.now < length bytes.now)) }
    ensures rest { IfSome result (λ r. r.1.now ≡ after_first bytes.now) }
{
    let bytes = after_spaces(bytes);
    if bytes.is_empty() {
        return None;
    }
    let (lexeme, size) = front(bytes);
    Some((lexeme, &bytes[size..]))
}

/// The next lexeme of the statement at the front, and the bytes after it. None at its end.
pub fn next_in_part(bytes: &[u8]) -> Option<(Lexeme<'_>, &[u8])>
    ensures next { MatchOption result (here bytes.now ≡ [])
        (λ r. (here bytes.now ≡ seen r.0 ∷ here r.1.now) × (later bytes.now ≡ later r.1.now) × (length r.1.now < length bytes.now)) }
    ensures rest { IfSome result (λ r. IsRest r.1.now bytes.now) }
{
    let Some((lexeme, rest)) = next_lexeme(bytes) else {
        return None;
    };
    if let Lexeme::Colon = lexeme {
        return None;
    }
    Some((lexeme, rest))
}

/// The bytes after the colon that ends the statement at the front, if one does.
pub fn after_colon(bytes: &[u8]) -> Option<&[u8]>
    ensures later { MatchOption result (later bytes.now ≡ [])
        (λ rest. (later bytes.now ≡ lexemes_of rest.now) × (length rest.now < length bytes.now)) }
    ensures rest { IfSome result (λ rest. rest.now ≡ past (suc (length (here bytes.now))) bytes.now) }
{
    let mut rest = bytes;
    while let Some((lexeme, more)) = next_lexeme(rest) {
        if let Lexeme::Colon = lexeme {
            return Some(more);
        }
        rest = more;
    }
    None
}

/// The bytes from the first one on that is not a space.
pub fn after_spaces(bytes: &[u8]) -> &[u8]
    ensures lexemes { lexemes_of result.now ≡ lexemes_of bytes.now }
    ensures first { NoSpace result.now }
    ensures passed { result.now ≡ unspaced bytes.now }
    ensures within { length result.now ≤ length bytes.now }
{
    for (i, b) in bytes.iter().enumerate() {
        if !is_space(*b) {
            return &bytes[i..];
        }
    }
    &[]
}
