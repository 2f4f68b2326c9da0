//! The items of DATA.

ghost use Rattle.std.specs.Prelude.{◌≡◌, ◌++◌, ◌+◌, ◌<◌, ◌≤◌, ◌==◌, ◌^◌, IfOk, OnOk, length, slice_range, true};
ghost use Rattle.pr_interpreter.specs.Lines.{blanks};
ghost use Rattle.pr_interpreter.specs.Reading.{word_code};
ghost use Rattle.pr_run.specs.Data.{data_of, front_item, front_size, item_size, items, last_end, lexeme_items};
ghost use Rattle.pr_run.specs.Data.{line_items, plain_size, string_size, word_cut, word_items};

use pr_interpreter::{Lexeme, Line, Word, Writing, lexemes_of};
use std::alloc::{AllocError, Global};

/// An item of DATA.
#[derive(Clone, Copy, Debug, PartialEq, Eq)]
pub struct DataItem {
    /// The number of its line.
    pub line: u16,
    /// The place of its first byte, as the number of bytes before it in the text.
    pub start: usize,
    /// The place of the byte after its last.
    pub end: usize,
}

/// Returns the bytes of a text from a place to another one, as far as it has them.
#[tactic(auto, using(crate::proofs::DataLemmas::clamped, crate::proofs::DataLemmas::clamped_none))]
pub fn slice_of(text: &[u8], start: usize, end: usize) -> &[u8]
    ensures value { result.now ≡ slice_range text.now start end }
    ensures within { start + length result.now < 2 ^ 64 }
{
    let last = end.min(text.len());
    if start < last {
        &text[start..last]
    } else {
        &[]
    }
}

/// Returns how many blanks bytes begin with.
fn blanks(bytes: &[u8]) -> usize
    ensures value { result ≡ blanks bytes.now }
    ensures within { result ≤ length bytes.now }
{
    for (i, b) in bytes.iter().enumerate() {
        if *b != b' ' {
            return i;
        }
    }
    bytes.len()
}

/// Returns how many bytes come before a comma or a colon.
fn plain_size(bytes: &[u8]) -> usize
    ensures value { result ≡ plain_size bytes.now }
    ensures within { result ≤ length bytes.now }
{
    for (i, b) in bytes.iter().enumerate() {
        if *b == b',' || *b == b':' {
            return i;
        }
    }
    bytes.len()
}

/// Returns how many bytes of a string follow its first quote.
fn string_size(bytes: &[u8]) -> usize
    ensures value { result ≡ string_size bytes.now }
    ensures within { result ≤ length bytes.now }
{
    for (i, b) in bytes.iter().enumerate() {
        if *b == b'"' {
            return i + 1;
        }
    }
    bytes.len()
}

/// Returns how many bytes the item at the front has, which begins with no blank.
#[tactic(auto, unfolding(crate::specs::Data::item_size))]
fn item_size(bytes: &[u8]) -> usize
    ensures value { result ≡ item_size bytes.now }
    ensures within { result ≤ length bytes.now }
{
    match bytes {
        [first, rest @ ..] if *first == b'"' => {
            let size = string_size(rest);
            1 + size + plain_size(&rest[size..])
        }
        _ => plain_size(bytes),
    }
}

/// Returns how many bytes the item at the front has with the blanks before it.
#[tactic(auto, unfolding(crate::specs::Data::front_size))]
fn front_size(bytes: &[u8]) -> usize
    ensures value { result ≡ front_size bytes.now }
    ensures within { result ≤ length bytes.now }
{
    let blanks = blanks(bytes);
    blanks + item_size(&bytes[blanks..])
}

/// Returns the item of a line at the front of bytes at a place.
#[tactic(auto, unfolding(crate::specs::Data::front_item))]
fn front_item(line: u16, place: usize, bytes: &[u8]) -> DataItem
    requires { place + length bytes.now < 2 ^ 64 }
    ensures { result ≡ front_item line place bytes.now }
{
    DataItem {
        line,
        start: place + blanks(bytes),
        end: place + front_size(bytes),
    }
}

/// Adds the items of a DATA statement, whose first byte is at a place.
#[tactic(auto, unfolding(crate::specs::Data::items))]
fn put_items(
    found: &mut Vec<DataItem>,
    line: u16,
    place: usize,
    bytes: &[u8],
) -> Result<(), AllocError>
    requires { place + length bytes.now < 2 ^ 64 }
    ensures { OnOk result (found.new.items ≡ found.old.items ++ items line place bytes.now) }
{
    found.push(front_item(line, place, bytes))?;
    let mut taken = front_size(bytes);
    while taken < bytes.len() && bytes[taken] == b',' {
        taken += 1;
        found.push(front_item(line, place + taken, &bytes[taken..]))?;
        taken += front_size(&bytes[taken..]);
    }
    Ok(())
}

/// Returns where the last of items ends.
fn last_end(items: &[DataItem]) -> usize
    ensures { result ≡ last_end items.now }
{
    match items.last() {
        Some(item) => item.end,
        None => 0,
    }
}

/// Adds the items of a word of a line. Returns whether they end before the word does.
#[tactic(auto, using(crate::proofs::DataLemmas::last_joined))]
fn put_word(
    found: &mut Vec<DataItem>,
    text: &[u8],
    line: u16,
    word: Word,
) -> Result<bool, AllocError>
    ensures items { OnOk result (found.new.items ≡ found.old.items ++ word_items text.now line word) }
    ensures cut { IfOk result (λ cut. cut ≡ word_cut text.now line word) }
{
    match word {
        Word::Items { start, end } => {
            let bytes = slice_of(text, start, end);
            put_items(found, line, start, bytes)?;
            Ok(last_end(found.as_slice()) < start + bytes.len())
        }
        Word::Code(_)
        | Word::Comparison(_)
        | Word::Constant(_)
        | Word::Named(_)
        | Word::Text { .. }
        | Word::Remark => Ok(false),
    }
}

/// Returns whether a word is a colon.
fn is_colon(word: Word) -> bool
    ensures { result ≡ (word_code word == 58) }
{
    match word {
        Word::Code(code) => code == b':',
        Word::Comparison(_)
        | Word::Constant(_)
        | Word::Named(_)
        | Word::Text { .. }
        | Word::Items { .. }
        | Word::Remark => false,
    }
}

/// Adds the items of the lexemes of a line: those of a DATA that begins a statement.
fn put_lexemes(
    found: &mut Vec<DataItem>,
    text: &[u8],
    line: u16,
    lexemes: &[Lexeme],
) -> Result<(), AllocError>
    ensures { OnOk result (found.new.items ≡ found.old.items ++ lexeme_items text.now line true lexemes.now) }
{
    let mut begins = true;
    'each: for lexeme in lexemes {
        if begins && put_word(found, text, line, lexeme.word)? {
            return Ok(());
        }
        begins = is_colon(lexeme.word);
    }
    Ok(())
}

/// Adds the items of a line.
#[tactic(auto, unfolding(crate::specs::Data::line_items))]
fn put_line(
    alloc: Global,
    found: &mut Vec<DataItem>,
    text: &[u8],
    line: &Line,
) -> Result<(), AllocError>
    ensures { OnOk result (found.new.items ≡ found.old.items ++ line_items text.now line.now) }
{
    let row = slice_of(text, line.start, line.end);
    let lexemes = lexemes_of(alloc, Writing::Typed, line.start, row)?;
    put_lexemes(found, text, line.number, lexemes.as_slice())
}

/// Returns the items of the DATA statements of lines of a text.
pub fn data_of(alloc: Global, text: &[u8], rows: &[Line]) -> Result<Vec<DataItem>, AllocError>
    ensures { IfOk result (λ found. found.items ≡ data_of text.now rows.now) }
{
    let mut found = Vec::new(alloc);
    'each: for line in rows {
        put_line(alloc, &mut found, text, line)?;
    }
    Ok(found)
}
