//! The last row of a table, by which rows are read that have its levels, as most have where nothing changes: it
//! is enough that their bytes after the time are its own.

ghost use Rattle.std.specs.Prelude.{◌≡◌, ◌+◌, ◌*◌, ◌<◌, ◌≤◌, ◌∷◌, ◌++◌, [], Bool, None, IfSome, Some, IsTrue, length, take, true};
ghost use Rattle.std.specs.List.{list_all};
ghost use Rattle.std.specs.Str.{bytes_eq};
ghost use Rattle.pr_capture.specs.Csv.{is_inner};
ghost use Rattle.pr_capture.specs.declared.signals.Probes.{Probes};
ghost use Rattle.pr_capture.specs.CsvSteps.{IsRepeat, IsRowOf, IsRun, KnowsLast, KnowsLevels, are_behind, copies, row_if, tail_at};

use crate::csv::{Columns, Layout, Moment, Row, RowPlace, Scale, field_len};
use crate::entries::is_word;
use crate::fault::CaptureFault;
use crate::numbers::{behind_first, digits_ahead};
use crate::times::{Instant, is_plain, plain_in, sample_at};
use pr_wire::{Edge, Levels};
use std::alloc::Global;
use std::mem;

/// The last row of a table.
#[derive(Drop)]
pub struct LastRow {
    /// Its bytes, without the end of its line.
    bytes: Vec<u8>,
    /// How many of them are in front of those that are compared.
    from: usize,
    /// Its levels; None where the last line was no row, or where the levels need more than these bytes.
    levels: Option<Levels>,
}

/// Rows that are the last row byte for byte.
#[derive(Clone, Copy)]
pub struct Copies {
    /// How many bytes they have, with the ends of their lines.
    pub len: usize,
    /// How many they are.
    pub count: usize,
    /// The last of them.
    pub row: Row,
}

/// How often the first `len` bytes of a text come, one after the other: 1, 2, 4, .., the greatest of these that holds.
fn copies_in(text: &[u8], len: usize) -> usize
    requires some { 0 < len }
    requires within { len ≤ length text.now }
    ensures copies { take (result * len) text.now ≡ copies result (take len text.now) }
    ensures some { 0 < result }
    ensures within { result * len ≤ length text.now }
{
    let mut count = 1;
    let mut end = len;
    while end <= text.len() - end {
        if !is_word(&text[end..end + end], &text[..end]) {
            return count;
        }
        count += count;
        end += end;
    }
    count
}

/// Whether levels do not depend on the first column.
fn are_behind(columns: Columns) -> bool
    ensures { result ≡ are_behind columns }
{
    !columns.has_other_first && columns.atn > 0 && columns.clock > 0 && columns.line > 0
}

/// Where the bytes of a row begin that have its levels, whatever its time is, which comes first.
fn tail_at(layout: Layout, line: &[u8]) -> Option<usize>
    ensures { result ≡ tail_at layout line.now }
{
    match layout.scale {
        Scale::Counted(_) => Some(0),
        Scale::Numbered { .. } | Scale::Timed(_) => {
            let len = field_len(layout.separator, line);
            if layout.times == 0
                && are_behind(layout.columns)
                && !is_plain(layout.separator)
                && len < line.len()
            {
                Some(len)
            } else {
                None
            }
        }
    }
}

/// Whether two texts are the same, as `is_word` says, in a loop that is inlined: mostly they have a few bytes.
#[inline(always)]
fn are_same(bytes: &[u8], others: &[u8]) -> bool
    ensures { result ≡ bytes_eq bytes.now others.now }
{
    if bytes.len() != others.len() {
        return false;
    }
    for (i, b) in bytes.iter().enumerate() {
        if *b != others[i] {
            return false;
        }
    }
    true
}

/// Whether these bytes and the end of a line are in front of a text.
#[inline(always)]
fn leads(tail: &[u8], text: &[u8]) -> bool
    ensures front { IsTrue result → take (length tail.now + 1) text.now ≡ tail.now ++ 10 ∷ [] }
    ensures within { IsTrue result → length tail.now + 1 ≤ length text.now }
{
    let len = tail.len();
    if len < text.len() {
        if text[len] == b'\n' {
            return are_same(&text[..len], tail);
        }
    }
    false
}

/// The row of a moment, if there is one, and levels.
#[inline(always)]
fn row_if(moment: Result<Moment, CaptureFault>, levels: Levels) -> Option<Row>
    ensures { result ≡ row_if moment levels }
{
    match moment {
        Ok(moment) => {
            let time = moment.before;
            let sample = Edge { time, levels };
            let moment = Moment { levels, ..moment };
            Some(Row { sample, moment })
        }
        Err(_) => None,
    }
}

impl LastRow {
    /// No row. It takes no memory.
    pub fn new(alloc: Global) -> LastRow
        ensures { result.levels ≡ None }
    {
        LastRow {
            bytes: Vec::new(alloc),
            from: 0,
            levels: None,
        }
    }

    /// Takes the bytes of a line that has ended, which has led to a place and has this sample, if it has one,
    /// and leaves none of them. It takes no memory.
    pub fn note(&mut self, place: &RowPlace, line: &mut Vec<u8>, sample: Option<Edge>)
        ensures line { line.new.items ≡ [] }
        ensures known { (probes : Probes) → list_all is_inner line.old.items ≡ true →
            IsRowOf probes place.now line.old.items sample → KnowsLast probes place.now self.new }
    {
        mem::swap(&mut self.bytes, line);
        line.clear();
        self.levels = None;
        let RowPlace::Rows(layout, _) = place else {
            return;
        };
        let (Some(sample), Some(from)) = (sample, tail_at(*layout, self.bytes.as_slice())) else {
            return;
        };
        self.from = from;
        self.levels = Some(sample.levels);
    }

    /// Whether it has these levels.
    pub fn has_levels(&self, levels: Levels) -> bool
        ensures { IsTrue result → self.now.levels ≡ Some levels }
    {
        match self.levels {
            None => false,
            Some(own) => {
                own.atn == levels.atn && own.clock == levels.clock && own.line == levels.line
            }
        }
    }

    /// The row in front of a block, with the length of its line and the line's end, if a whole row is there,
    /// its time is plain, and it goes on as the last row does.
    #[inline(always)]
    pub fn repeat(
        &self,
        layout: Layout,
        moment: Moment,
        number: usize,
        block: &[u8],
    ) -> Option<(usize, Row)>
        ensures row { (probes : Probes) → KnowsLevels probes layout moment self.now →
            IfSome result (λ r. IsRepeat probes layout number moment (take r.0 block.now) r.1) }
        ensures some { IfSome result (λ r. 0 < r.0) }
        ensures within { IfSome result (λ r. r.0 ≤ length block.now) }
        ensures levels { IfSome result (λ r. self.now.levels ≡ Some r.1.sample.levels) }
    {
        let levels = self.levels?;
        let tail = behind_first(self.bytes.as_slice(), self.from);
        match layout.scale {
            Scale::Counted(rate) => {
                if !leads(tail, block) {
                    return None;
                }
                let row = row_if(moment.next(number, rate), levels)?;
                Some((tail.len() + 1, row))
            }
            Scale::Numbered { step, rate } => {
                let digits = digits_ahead(block)?;
                if digits.len == 0 || !leads(tail, &block[digits.len..]) {
                    return None;
                }
                let sample = sample_at(step, rate, digits.number)?;
                let row = row_if(moment.at(number, Some(sample)), levels)?;
                Some((digits.len + tail.len() + 1, row))
            }
            Scale::Timed(unit) => {
                let time = plain_in(unit, block)?;
                if !leads(tail, &block[time.len..]) {
                    return None;
                }
                let instant = Instant {
                    is_negative: false,
                    micros: time.micros,
                };
                let row = row_if(moment.at(number, Some(instant)), levels)?;
                Some((time.len + tail.len() + 1, row))
            }
        }
    }

    /// The rows in front of a block that are the last row byte for byte, if a row is a sample and one is whole there. They are
    /// found by doubling, so some may be left.
    pub fn copies(
        &self,
        layout: Layout,
        moment: Moment,
        number: usize,
        block: &[u8],
    ) -> Option<Copies>
        ensures rows { (probes : Probes) → KnowsLevels probes layout moment self.now →
            IfSome result (λ c. IsRun probes layout number moment (take c.len block.now) c.count c.row) }
        ensures some { IfSome result (λ c. 0 < c.count) }
        ensures count { IfSome result (λ c. c.count ≤ c.len) }
        ensures within { IfSome result (λ c. c.len ≤ length block.now) }
        ensures levels { IfSome result (λ c. self.now.levels ≡ Some c.row.sample.levels) }
    {
        let Scale::Counted(rate) = layout.scale else {
            return None;
        };
        let (len, row) = self.repeat(layout, moment, number, block)?;
        let count = copies_in(block, len);
        if count == 1 {
            return Some(Copies { len, count, row });
        }
        let moment = row.moment.skip(rate, count - 1)?;
        let time = moment.before;
        let levels = row.sample.levels;
        let sample = Edge { time, levels };
        Some(Copies {
            len: count * len,
            count,
            row: Row {
                sample,
                moment: Moment { levels, ..moment },
            },
        })
    }
}
