//! The symbols of a line, as the machine keeps them.

ghost use Rattle.std.specs.Prelude.{◌≡◌, ◌+◌, ◌++◌, ◌^◌, ◌<◌, ◌≤◌, length, drop, false, IfOk, IfSome, IsTrue};
ghost use Rattle.std.specs.List.{position_or_len};
ghost use Rattle.pr_listing.specs.Keywords.{is_token};
ghost use Rattle.pr_interpreter.specs.Symbols.{begins, code_of, first_code, front, is_quote, items_size, kept, keyword_at, keyword_front, keyword_or_byte, quoted_after, spelled, string_front, symbols, typed_token};

use pr_listing::token_name;
use std::alloc::{AllocError, Global};

/// The token of DATA.
const DATA: u8 = 131;

/// The token of REM.
const REM: u8 = 143;

/// The token of PRINT.
const PRINT: u8 = 153;

/// How a line is written.
#[derive(Clone, Copy, Debug, PartialEq, Eq)]
pub enum Writing {
    /// As typed: keywords are spelled, in capitals or small letters.
    Typed,
    /// As a saved program has it: a keyword is a byte, its token.
    Saved,
}

/// What the machine keeps of a part of a line.
#[derive(Clone, Copy)]
pub enum Stored {
    /// A keyword, by its token (128 to 203); or another byte, a letter as a capital (65 to 90). 0 stands for a byte
    /// that no line as typed has outside strings.
    Code(u8),
    /// A string, by the places of its first byte and of the byte after its last.
    Text { start: usize, end: usize },
    /// DATA, by the places where its items begin and end.
    Items { start: usize, end: usize },
    /// A remark.
    Remark,
}

/// A symbol of a line, and its place: the number of bytes before it in the text.
#[derive(Clone, Copy)]
pub struct Symbol {
    pub stored: Stored,
    pub place: usize,
}

impl Symbol {
    /// Returns its code; 0 if it has none.
    pub fn code(&self) -> u8
        ensures { result ≡ code_of self.now }
    {
        match self.stored {
            Stored::Code(code) => code,
            Stored::Text { .. } | Stored::Items { .. } | Stored::Remark => 0,
        }
    }
}

/// Returns the code at the front of symbols; 0 if there is none.
pub fn first_code(symbols: &[Symbol]) -> u8
    ensures { result ≡ first_code symbols.now }
{
    match symbols {
        [first, ..] => first.code(),
        [] => 0,
    }
}

/// A keyword, by its token, and how many bytes it has.
#[derive(Clone, Copy)]
pub struct Keyword {
    pub token: u8,
    pub size: usize,
}

/// What the front of a line's rest is, and how many bytes it has. A blank is nothing.
#[derive(Clone, Copy)]
pub struct Front {
    pub stored: Option<Stored>,
    pub size: usize,
}

/// Returns whether a word is at the front of a text, in capitals or small letters.
fn begins(word: &[u8], text: &[u8]) -> bool
    ensures test { result ≡ begins word.now text.now }
    ensures within { IsTrue result → length word.now ≤ length text.now }
{
    if text.len() < word.len() {
        return false;
    }
    for (i, w) in word.iter().enumerate() {
        if text[i].to_ascii_uppercase() != *w {
            return false;
        }
    }
    true
}

/// Returns the keyword at the front of a text as typed: the first in the order of tokens.
fn typed_keyword(text: &[u8]) -> Option<Keyword>
    ensures value { result ≡ spelled (typed_token text.now) }
    ensures some { IfSome result (λ k. 0 < k.size) }
    ensures within { IfSome result (λ k. k.size ≤ length text.now) }
{
    for token in 128..204 {
        let word = token_name(token);
        if begins(word, text) {
            return Some(Keyword {
                token,
                size: word.len(),
            });
        }
    }
    None
}

/// Returns the keyword at the front of a line's rest.
#[tactic(auto, unfolding(crate::specs::Symbols::keyword_at))]
fn keyword_at(writing: Writing, text: &[u8]) -> Option<Keyword>
    requires { 0 < length text.now }
    ensures value { result ≡ keyword_at writing text.now }
    ensures some { IfSome result (λ k. 0 < k.size) }
    ensures within { IfSome result (λ k. k.size ≤ length text.now) }
{
    match writing {
        Writing::Typed if text[0] == b'?' => Some(Keyword {
            token: PRINT,
            size: 1,
        }),
        Writing::Typed => typed_keyword(text),
        Writing::Saved if is_token(text[0]) => Some(Keyword {
            token: text[0],
            size: 1,
        }),
        Writing::Saved => None,
    }
}

/// Returns whether a byte is a token.
fn is_token(b: u8) -> bool
    ensures { result ≡ is_token b }
{
    128 <= b && b <= 203
}

/// Returns how many bytes the items of DATA have: they end before a colon that is in no string.
fn items_size(text: &[u8]) -> usize
    ensures value { result ≡ items_size false text.now }
    ensures within { result ≤ length text.now }
{
    let mut quoted = false;
    for (i, b) in text.iter().enumerate() {
        if *b == b':' && !quoted {
            return i;
        }
        if *b == b'"' {
            quoted = !quoted;
        }
    }
    text.len()
}

/// Returns what a keyword at a place begins: REM has the rest of the line, and DATA its items.
#[tactic(auto, unfolding(crate::specs::Symbols::keyword_front))]
fn keyword_front(place: usize, text: &[u8], keyword: Keyword) -> Front
    requires some { 0 < keyword.size }
    requires within { keyword.size ≤ length text.now }
    requires place { place + length text.now < 2 ^ 64 }
    ensures value { result ≡ keyword_front place text.now keyword }
    ensures some { 0 < result.size }
    ensures within { result.size ≤ length text.now }
{
    match keyword.token {
        REM => Front {
            stored: Some(Stored::Remark),
            size: text.len(),
        },
        DATA => {
            let size = keyword.size + items_size(&text[keyword.size..]);
            Front {
                stored: Some(Stored::Items {
                    start: place + keyword.size,
                    end: place + size,
                }),
                size,
            }
        }
        token => Front {
            stored: Some(Stored::Code(token)),
            size: keyword.size,
        },
    }
}

/// Returns how many bytes come before a quote.
fn before_quote(text: &[u8]) -> usize
    ensures value { result ≡ position_or_len is_quote text.now }
    ensures within { result ≤ length text.now }
{
    for (i, b) in text.iter().enumerate() {
        if *b == b'"' {
            return i;
        }
    }
    text.len()
}

/// Returns the string whose first quote is at a place, by the bytes after that quote.
#[tactic(auto, unfolding(crate::specs::Symbols::string_front))]
fn string_front(place: usize, text: &[u8]) -> Front
    requires { place + length text.now + 1 < 2 ^ 64 }
    ensures value { result ≡ string_front place text.now }
    ensures some { 0 < result.size }
    ensures within { result.size ≤ length text.now + 1 }
{
    let n = before_quote(text);
    Front {
        stored: Some(Stored::Text {
            start: place + 1,
            end: place + 1 + n,
        }),
        size: if n < text.len() { n + 2 } else { n + 1 },
    }
}

/// Returns a byte that is no keyword, as it is kept.
fn kept(writing: Writing, b: u8) -> u8
    ensures { result ≡ kept writing b }
{
    match writing {
        Writing::Typed if b < 128 => b.to_ascii_uppercase(),
        Writing::Typed => 0,
        Writing::Saved => b,
    }
}

/// Returns what is at the front of a line's rest at a place.
#[tactic(auto, unfolding(crate::specs::Symbols::front))]
fn front_of(writing: Writing, place: usize, text: &[u8]) -> Front
    requires some { 0 < length text.now }
    requires place { place + length text.now < 2 ^ 64 }
    ensures value { result ≡ front writing place text.now }
    ensures some { 0 < result.size }
    ensures within { result.size ≤ length text.now }
{
    match text[0] {
        b' ' => Front {
            stored: None,
            size: 1,
        },
        b'"' => string_front(place, &text[1..]),
        b => match keyword_at(writing, text) {
            Some(keyword) => keyword_front(place, text, keyword),
            None => Front {
                stored: Some(Stored::Code(kept(writing, b))),
                size: 1,
            },
        },
    }
}

/// Adds the symbol at the front of a line's rest at a place. Returns how many bytes the front has.
fn take_front(
    found: &mut Vec<Symbol>,
    writing: Writing,
    place: usize,
    text: &[u8],
) -> Result<usize, AllocError>
    requires some { 0 < length text.now }
    requires place { place + length text.now < 2 ^ 64 }
    ensures symbols { IfOk result (λ size. found.new.items ++ symbols writing (place + size) 0 (drop size text.now) ≡ found.old.items ++ symbols writing place 0 text.now) }
    ensures some { IfOk result (λ size. 0 < size) }
    ensures within { IfOk result (λ size. size ≤ length text.now) }
{
    let front = front_of(writing, place, text);
    if let Some(stored) = front.stored {
        found.push(Symbol { stored, place })?;
    }
    Ok(front.size)
}

/// Returns the symbols of a line whose first byte is at a place.
pub fn symbols_of(
    alloc: Global,
    writing: Writing,
    place: usize,
    line: &[u8],
) -> Result<Vec<Symbol>, AllocError>
    requires { place + length line.now < 2 ^ 64 }
    ensures { IfOk result (λ found. found.items ≡ symbols writing place 0 line.now) }
{
    let mut found = Vec::new(alloc);
    let mut passed = 0;
    while passed < line.len() {
        passed += take_front(&mut found, writing, place + passed, &line[passed..])?;
    }
    Ok(found)
}
