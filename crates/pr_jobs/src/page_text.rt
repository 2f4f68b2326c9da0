//! Page texts.
//!
//! A page text has about twelve bytes for each byte that is printed, so what is added for a mark
//! is ready in tables of short texts.

ghost use Rattle.std.specs.Prelude.{◌≡◌, ◌+◌, ◌≤◌, [], ◌++◌, codes, decimal, drop, flat_map, length, take, vec_len, OnOk, IfOk, IfSome, MatchOption};
ghost use Rattle.pr_jobs.specs.PageText.{end_text, held_text, mark_text, mark_words, numbers_text, page_text, paper_text, row_text, stop_text, word_if};
ghost use Rattle.pr_jobs.specs.Tables.{HasNumbers};

use crate::short_text::{ShortText, numbers_between};
use crate::text::Text;
use pr_channels::Stop;
use pr_page::{LINE_DOTS, Mark, NoMemory, Paper, Placed, Row};
use pr_system::Outcome;
use std::alloc::{AllocError, Global};

/// The values of a byte.
const BYTES: usize = 256;

/// The most marks of a block.
const BLOCK_MARKS: usize = 32;

/// Room for the lines of these marks, each of at most two short texts.
const BLOCK: usize = 1024;

/// The most marks and numbers that are written without tables: to make the tables takes longer than to write these.
const FEW: usize = 1000;

/// The short texts of a page text. What is in no table is made anew; the tables of short pages are empty.
#[derive(Drop)]
struct Texts {
    /// A space and a dot column, or any smaller number.
    numbers: Vec<ShortText>,
    /// The rest of the line of a cell of standard width, by its code.
    cells: Vec<ShortText>,
    /// The same of a cell in the lower/upper case set.
    lower_cells: Vec<ShortText>,
    /// The rest of the line of a column of dots.
    dots: Vec<ShortText>,
    ghost numbers_right: { HasNumbers numbers.items (vec_len numbers) (codes " ") [] },
    ghost cells_right: { HasNumbers cells.items (vec_len cells) (codes " cell ") (codes "\n") },
    ghost lower_right: { HasNumbers lower_cells.items (vec_len lower_cells) (codes " cell ") (codes " lower\n") },
    ghost dots_right: { HasNumbers dots.items (vec_len dots) (codes " dots ") (codes "\n") },
}

/// Adds a word where it holds.
fn push_if(text: &mut Text, holds: bool, word: &[u8]) -> Result<(), AllocError>
    ensures { OnOk result (text.new ≡ text.old ++ word_if holds word.now) }
{
    if holds {
        text.add(word)?;
    }
    Ok(())
}

/// Adds the words on a mark.
fn push_words(text: &mut Text, mark: Mark) -> Result<(), AllocError>
    ensures { OnOk result (text.new ≡ text.old ++ mark_words mark) }
{
    match mark {
        Mark::Cell {
            code,
            lower,
            reverse,
            wide,
        } => {
            text.add(b" cell ")?;
            text.add_number(u64::from(code))?;
            push_if(text, lower, b" lower")?;
            push_if(text, reverse, b" reverse")?;
            push_if(text, wide, b" wide")
        }
        Mark::Dots(value) => {
            text.add(b" dots ")?;
            text.add_number(u64::from(value))
        }
    }
}

/// Adds the line of a mark, of any kind.
#[inline(never)]
#[tactic(auto, unfolding(crate::specs::PageText::mark_text))]
fn push_mark(text: &mut Text, placed: Placed) -> Result<(), AllocError>
    ensures { OnOk result (text.new ≡ text.old ++ mark_text placed) }
{
    text.add(b" ")?;
    text.add_number(u64::from(placed.x))?;
    push_words(text, placed.mark)?;
    text.add(b"\n")
}

/// How many marks a paper has.
fn count_marks(paper: &Paper) -> usize {
    let mut count = paper.held.len();
    for row in paper.rows.as_slice() {
        count = count.saturating_add(row.marks.len());
    }
    count
}

/// How many marks and numbers the page text of an outcome has.
fn count_written(outcome: &Outcome) -> usize {
    let marks = count_marks(&outcome.paper4).saturating_add(count_marks(&outcome.paper5));
    let numbers = outcome.statuses.len().saturating_add(outcome.screen.len());
    marks.saturating_add(numbers)
}

impl Texts {
    /// The texts with which an outcome is written soonest.
    fn for_outcome(alloc: Global, outcome: &Outcome) -> Result<Texts, AllocError> {
        if count_written(outcome) <= FEW {
            Ok(Texts::none(alloc))
        } else {
            Texts::all(alloc)
        }
    }

    /// No text is in a table. It takes no memory.
    fn none(alloc: Global) -> Texts {
        Texts {
            numbers: Vec::new(alloc),
            cells: Vec::new(alloc),
            lower_cells: Vec::new(alloc),
            dots: Vec::new(alloc),
        }
    }

    /// All texts are in tables.
    fn all(alloc: Global) -> Result<Texts, AllocError> {
        Ok(Texts {
            numbers: numbers_between(alloc, b" ", usize::from(LINE_DOTS), b"")?,
            cells: numbers_between(alloc, b" cell ", BYTES, b"\n")?,
            lower_cells: numbers_between(alloc, b" cell ", BYTES, b" lower\n")?,
            dots: numbers_between(alloc, b" dots ", BYTES, b"\n")?,
        })
    }

    /// The rest of a mark's line, if it is in a table.
    #[inline(always)]
    fn mark_end(&self, mark: Mark) -> Option<&ShortText>
        ensures { IfSome result (λ end. end.now ≡ mark_words mark ++ codes "\n") }
    {
        match mark {
            Mark::Cell {
                code,
                lower: false,
                reverse: false,
                wide: false,
            } => self.cells.get(usize::from(code)),
            Mark::Cell {
                code,
                lower: true,
                reverse: false,
                wide: false,
            } => self.lower_cells.get(usize::from(code)),
            Mark::Cell { .. } => None,
            Mark::Dots(value) => self.dots.get(usize::from(value)),
        }
    }

    /// Puts the line of a mark into a block after its first bytes, and says how many these are
    /// then; None, and the block as it was, for a mark whose line is in no table.
    #[inline(always)]
    #[tactic(auto, unfolding(crate::specs::PageText::mark_text))]
    fn put_mark(&self, block: &mut [u8], at: usize, placed: Placed) -> Option<usize>
        requires { at + 32 ≤ length block.old }
        ensures text { MatchOption result (block.new ≡ block.old) (λ end. take end block.new ≡ take at block.old ++ mark_text placed) }
        ensures within { IfSome result (λ end. end ≤ at + 32) }
        ensures length { length block.new ≡ length block.old }
    {
        let column = self.numbers.get(usize::from(placed.x))?;
        let rest = self.mark_end(placed.mark)?;
        let middle = column.put(block, at);
        Some(rest.put(block, middle))
    }

    /// Puts the lines of the first marks into a block, and says of how many marks and how many
    /// bytes these are.
    fn fill(&self, block: &mut [u8], marks: &[Placed]) -> (usize, usize)
        // the caller's part
        requires { length block.old ≡ 1024 }
        // what it gives
        ensures text { take result.1 block.new ++ flat_map mark_text (drop result.0 marks.now) ≡ flat_map mark_text marks.now }
        ensures marks { result.0 ≤ length marks.now }
        ensures few { result.0 ≤ 32 }
        ensures within { result.1 ≤ 1024 }
        ensures length { length block.new ≡ 1024 }
    {
        let mut end = 0;
        for (count, placed) in marks.iter().enumerate() {
            if count == BLOCK_MARKS {
                return (count, end);
            }
            match self.put_mark(block, end, *placed) {
                Some(next) => end = next,
                None => return (count, end),
            }
        }
        (marks.len(), end)
    }

    /// Adds the lines of marks, block by block.
    fn push_marks(&self, text: &mut Text, marks: &[Placed]) -> Result<(), AllocError>
        ensures { OnOk result (text.new ≡ text.old ++ flat_map mark_text marks.now) }
    {
        let mut block = [0u8; BLOCK];
        let mut rest = marks;
        while !rest.is_empty() {
            let (count, end) = self.fill(&mut block, rest);
            if count == 0 {
                push_mark(text, rest[0])?;
                rest = &rest[1..];
            } else {
                text.add(&block[..end])?;
                rest = &rest[count..];
            }
        }
        Ok(())
    }

    #[tactic(auto, unfolding(crate::specs::PageText::row_text))]
    fn push_row(&self, text: &mut Text, row: &Row) -> Result<(), AllocError>
        ensures { OnOk result (text.new ≡ text.old ++ row_text row.now) }
    {
        text.add(b"row ")?;
        text.add_number(row.y)?;
        text.add(b"\n")?;
        self.push_marks(text, row.marks.as_slice())
    }

    fn push_rows(&self, text: &mut Text, rows: &[Row]) -> Result<(), AllocError>
        ensures { OnOk result (text.new ≡ text.old ++ flat_map row_text rows.now) }
    {
        for row in rows {
            self.push_row(text, row)?;
        }
        Ok(())
    }

    #[tactic(auto, unfolding(crate::specs::PageText::held_text))]
    fn push_held(&self, text: &mut Text, held: &[Placed]) -> Result<(), AllocError>
        ensures { OnOk result (text.new ≡ text.old ++ held_text held.now) }
    {
        if held.is_empty() {
            return Ok(());
        }
        text.add(b"held\n")?;
        self.push_marks(text, held)
    }

    #[tactic(auto, unfolding(crate::specs::PageText::paper_text))]
    fn push_paper(&self, text: &mut Text, device: u8, paper: &Paper) -> Result<(), AllocError>
        ensures { OnOk result (text.new ≡ text.old ++ paper_text device paper.now) }
    {
        push_name(text, device)?;
        self.push_rows(text, paper.rows.as_slice())?;
        self.push_held(text, paper.held.as_slice())
    }

    /// Adds the lines of rows, and frees each row whose lines are there.
    fn move_rows(&self, text: &mut Text, rows: Vec<Row>) -> Result<(), AllocError>
        ensures { OnOk result (text.new ≡ text.old ++ flat_map row_text rows.items) }
    {
        for row in rows {
            self.push_row(text, &row)?;
        }
        Ok(())
    }

    /// Adds the part of a printer, and frees what it was made of.
    #[tactic(auto, unfolding(crate::specs::PageText::paper_text))]
    fn move_paper(&self, text: &mut Text, device: u8, paper: Paper) -> Result<(), AllocError>
        ensures { OnOk result (text.new ≡ text.old ++ paper_text device paper) }
    {
        let Paper { rows, held } = paper;
        push_name(text, device)?;
        self.move_rows(text, rows.into_vec())?;
        self.push_held(text, held.as_slice())
    }

    /// Adds a space and a number.
    fn push_spaced(&self, text: &mut Text, n: u8) -> Result<(), AllocError>
        ensures { OnOk result (text.new ≡ text.old ++ codes " " ++ decimal n) }
    {
        if let Some(ready) = self.numbers.get(usize::from(n)) {
            return ready.add_to(text);
        }
        text.add(b" ")?;
        text.add_number(u64::from(n))
    }

    /// Adds a name and numbers after it.
    #[tactic(auto, unfolding(crate::specs::PageText::numbers_text))]
    fn push_numbers(&self, text: &mut Text, name: &[u8], numbers: &[u8]) -> Result<(), AllocError>
        ensures { OnOk result (text.new ≡ text.old ++ numbers_text name.now numbers.now) }
    {
        text.add(name)?;
        for n in numbers {
            self.push_spaced(text, *n)?;
        }
        text.add(b"\n")
    }

    /// Adds what follows the printers: the statuses, the bytes of the screen and the stop.
    #[tactic(auto, unfolding(crate::specs::PageText::end_text))]
    fn push_end(
        &self,
        text: &mut Text,
        statuses: &[u8],
        screen: &[u8],
        stop: Option<(usize, Stop)>,
    ) -> Result<(), AllocError>
        ensures { OnOk result (text.new ≡ text.old ++ end_text statuses.now screen.now stop) }
    {
        self.push_numbers(text, b"status", statuses)?;
        self.push_numbers(text, b"screen", screen)?;
        push_stop(text, stop)
    }
}

/// Adds the line of a printer.
fn push_name(text: &mut Text, device: u8) -> Result<(), AllocError>
    ensures { OnOk result (text.new ≡ text.old ++ codes "printer " ++ decimal device ++ codes "\n") }
{
    text.add(b"printer ")?;
    text.add_number(u64::from(device))?;
    text.add(b"\n")
}

/// Adds the line of a stop, if there is one.
#[tactic(auto, unfolding(crate::specs::PageText::stop_text))]
fn push_stop(text: &mut Text, stop: Option<(usize, Stop)>) -> Result<(), AllocError>
    ensures { OnOk result (text.new ≡ text.old ++ stop_text stop) }
{
    let Some((place, stop)) = stop else {
        return Ok(());
    };
    text.add(b"stop ")?;
    text.add_number(u64::from(stop.number()))?;
    text.add(b" at ")?;
    text.add_number(place as u64)?;
    text.add(b"\n")
}

/// Writes the page text of an outcome (profile): for each printer its name and, row by row, a line
/// for the row and one for each of its marks, then the marks held; then the statuses, the bytes of
/// the screen, and the stop with its place from 1, if there is one. Each line ends with byte 10.
///
/// # Errors
///
/// [`NoMemory`] where memory was refused.
#[tactic(auto, unfolding(crate::specs::PageText::page_text))]
pub fn pages_text(alloc: Global, outcome: &Outcome) -> Result<Vec<u8>, NoMemory>
    ensures { IfOk result (λ text. text.items ≡ page_text outcome.now) }
{
    let texts = Texts::for_outcome(alloc, outcome)?;
    let mut text = Text::new(alloc);
    texts.push_paper(&mut text, 4, &outcome.paper4)?;
    texts.push_paper(&mut text, 5, &outcome.paper5)?;
    let statuses = outcome.statuses.as_slice();
    let screen = outcome.screen.as_slice();
    texts.push_end(&mut text, statuses, screen, outcome.stop)?;
    text.into_vec()
}

/// The page text of an outcome, in blocks. Each row is freed when its lines are there, so the
/// text takes the place of the marks.
#[tactic(auto, unfolding(crate::specs::PageText::page_text))]
pub(crate) fn text_from(alloc: Global, outcome: Outcome) -> Result<Text, NoMemory>
    ensures { IfOk result (λ text. text ≡ page_text outcome) }
{
    let texts = Texts::for_outcome(alloc, &outcome)?;
    let Outcome {
        paper4,
        paper5,
        statuses,
        stop,
        screen,
        trace: _,
    } = outcome;
    let mut text = Text::new(alloc);
    texts.move_paper(&mut text, 4, paper4)?;
    texts.move_paper(&mut text, 5, paper5)?;
    texts.push_end(&mut text, statuses.as_slice(), screen.as_slice(), stop)?;
    Ok(text)
}
