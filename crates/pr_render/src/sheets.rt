//! A printer's sheet of a picture, in units of 1/1260 inch: its paper, and the marks on it.

ghost use Rattle.std.specs.Prelude.{◌≡◌, ◌+◌, ◌≤◌, ◌++◌, flat_map, OnOk};
ghost use Rattle.pr_render.specs.Sheets.{joined, sheet_back, sheet_front};
ghost use Rattle.pr_render.specs.Words.{text_if};
ghost use Rattle.pr_render.specs.Svg.{held_line, held_svg, line_svg, marks_place, name_line, paper_end, paper_svg, row_svg, rows_end, sheet_picas, sheet_room, sheet_svg};

use crate::adding::{push_number, push_small};
use crate::letters::push_letters;
use crate::parts::{
    held_begin, held_note, ink_begin, paper_folds, row_begin, sheet_begin, sheet_end, sheet_marks,
    sheet_name, sheet_paper,
};
use crate::texts::Texts;
use crate::uses::push_uses;
use pr_page::{Paper, Placed, Row};
use std::alloc::{AllocError, Global};
use std::mem;

/// Room of a block of a document, in bytes.
const BLOCK: usize = 65_536;

/// Room for a mark of a row, in bytes: its element, its letter, and a little of what is around them.
const MARK: usize = 40;

/// What else a row has takes about the room of these marks.
const AROUND: usize = 8;

/// Where rows end.
fn rows_end(rows: &[Row]) -> u128
    ensures end { result ≡ rows_end 0 rows.now }
    ensures within { result ≤ 18446744073709551636 }
{
    let mut end = 0;
    for row in rows {
        end = u128::from(row.y) + 21;
    }
    end
}

/// Where a paper's marks end.
fn paper_end(paper: &Paper) -> u128
    ensures end { result ≡ paper_end paper.now }
    ensures within { result ≤ 18446744073709551678 }
{
    let rows = rows_end(paper.rows.as_slice());
    if paper.held.is_empty() {
        rows
    } else {
        rows + 42
    }
}

/// The length of a sheet in picas: the lines above the first row, its paper and half an inch below it, in whole half inches, so
/// that the holes come out even (profile).
fn sheet_picas(top: u8, paper: &Paper) -> u128
    ensures picas { result ≡ sheet_picas top paper.now }
    ensures within { result ≤ 18446744073709551678 }
{
    3 * ((paper_end(paper) + 21 * u128::from(top) + 125) / 63)
}

/// How much of the document's height a sheet takes if it is drawn, in picas: 5 above it, for its printer's name, and its
/// length (profile).
pub fn sheet_room(drawn: bool, top: u8, paper: &Paper) -> u128
    ensures room { result ≡ sheet_room drawn top paper.now }
    ensures within { result ≤ 18446744073709551683 }
{
    if drawn {
        5 + sheet_picas(top, paper)
    } else {
        0
    }
}

/// Adds the marks of a line, and the letters over them.
#[tactic(auto, unfolding(crate::specs::Svg::line_svg))]
fn push_line(text: &mut Vec<u8>, texts: &Texts, marks: &[Placed]) -> Result<(), AllocError>
    ensures { OnOk result (text.new.items ≡ text.old.items ++ line_svg marks.now) }
{
    push_uses(text, texts, marks)?;
    push_letters(text, texts, marks)
}

/// Adds a printed line at a distance.
#[tactic(auto, unfolding(crate::specs::Svg::row_svg))]
pub fn push_row_at(
    text: &mut Vec<u8>,
    texts: &Texts,
    y: u128,
    marks: &[Placed],
) -> Result<(), AllocError>
    requires { y ≤ 18446744073709556970 }
    ensures { OnOk result (text.new.items ≡ text.old.items ++ row_svg (record { y = y; marks = marks.now })) }
{
    text.extend_from_slice(row_begin())?;
    push_number(text, 10 * y)?;
    text.extend_from_slice(b")\">\n")?;
    push_line(text, texts, marks)?;
    text.extend_from_slice(b"</g>\n")
}

/// Adds a printed line.
#[tactic(auto, unfolding(crate::specs::Svg::row_svg))]
fn push_row(text: &mut Vec<u8>, texts: &Texts, row: &Row) -> Result<(), AllocError>
    ensures { OnOk result (text.new.items ≡ text.old.items ++ row_svg row.now) }
{
    push_row_at(text, texts, u128::from(row.y), row.marks.as_slice())
}

/// Adds rows.
fn push_rows(text: &mut Vec<u8>, texts: &Texts, rows: &[Row]) -> Result<(), AllocError>
    ensures { OnOk result (text.new.items ≡ text.old.items ++ flat_map row_svg rows.now) }
{
    for row in rows {
        push_row(text, texts, row)?;
    }
    Ok(())
}

/// Adds the marks held at a distance, if there are any.
#[tactic(auto, unfolding(crate::specs::Svg::held_svg))]
fn push_held(text: &mut Vec<u8>, texts: &Texts, y: u128, held: &[Placed]) -> Result<(), AllocError>
    requires { y ≤ 18446744073709551657 }
    ensures { OnOk result (text.new.items ≡ text.old.items ++ held_svg y held.now) }
{
    if held.is_empty() {
        return Ok(());
    }
    text.extend_from_slice(held_begin())?;
    push_number(text, 10 * y)?;
    text.extend_from_slice(b")\">\n")?;
    push_line(text, texts, held)?;
    text.extend_from_slice(b"</g>\n")
}

/// Adds the line above the marks held, if there are any.
#[tactic(auto, unfolding(crate::specs::Svg::held_line))]
fn push_held_line(text: &mut Vec<u8>, y: u128, held: &[Placed]) -> Result<(), AllocError>
    requires { y ≤ 18446744073709551657 }
    ensures { OnOk result (text.new.items ≡ text.old.items ++ held_line y held.now) }
{
    if held.is_empty() {
        return Ok(());
    }
    text.extend_from_slice(row_begin())?;
    push_number(text, 10 * y)?;
    text.extend_from_slice(held_note())
}

/// Adds a sheet's place, below others that take so many picas, and the printer's name.
#[tactic(auto, unfolding(crate::specs::Svg::name_line))]
fn push_name_line(text: &mut Vec<u8>, device: u64, above: u128) -> Result<(), AllocError>
    requires { above ≤ 18446744073709551683 }
    ensures { OnOk result (text.new.items ≡ text.old.items ++ name_line device above) }
{
    text.extend_from_slice(sheet_begin())?;
    push_number(text, 210 * (above + 5))?;
    text.extend_from_slice(sheet_name())?;
    push_small(text, device)
}

/// Adds the beginning of the group of a sheet's marks.
#[tactic(auto, unfolding(crate::specs::Svg::marks_place))]
fn push_place(text: &mut Vec<u8>, top: u8) -> Result<(), AllocError>
    ensures { OnOk result (text.new.items ≡ text.old.items ++ marks_place top) }
{
    text.extend_from_slice(sheet_marks())?;
    push_small(text, 210 * u64::from(top))?;
    text.extend_from_slice(b")\">\n")
}

/// Adds a sheet's paper. The fold at its upper edge is that edge.
#[tactic(auto, unfolding(crate::specs::Svg::paper_svg))]
fn push_paper(text: &mut Vec<u8>, top: u8, picas: u128) -> Result<(), AllocError>
    requires { picas ≤ 18446744073709551678 }
    ensures { OnOk result (text.new.items ≡ text.old.items ++ paper_svg top picas) }
{
    text.extend_from_slice(sheet_paper())?;
    push_number(text, 210 * picas)?;
    text.extend_from_slice(paper_folds())?;
    push_number(text, 210 * picas.saturating_sub(6))?;
    push_place(text, top)
}

/// Adds a sheet up to its rows.
fn push_front(
    text: &mut Vec<u8>,
    top: u8,
    device: u64,
    above: u128,
    picas: u128,
) -> Result<(), AllocError>
    requires above { above ≤ 18446744073709551683 }
    requires picas { picas ≤ 18446744073709551678 }
    ensures { OnOk result (text.new.items ≡ text.old.items ++ sheet_front top device above picas) }
{
    push_name_line(text, device, above)?;
    push_paper(text, top, picas)?;
    text.extend_from_slice(ink_begin())
}

/// Adds the rest of a sheet after its rows, which end here.
fn push_back(
    text: &mut Vec<u8>,
    texts: &Texts,
    end: u128,
    held: &[Placed],
) -> Result<(), AllocError>
    requires { end ≤ 18446744073709551636 }
    ensures { OnOk result (text.new.items ≡ text.old.items ++ sheet_back end held.now) }
{
    push_held(text, texts, end + 21, held)?;
    text.extend_from_slice(b"</g>\n")?;
    push_held_line(text, end, held)?;
    text.extend_from_slice(sheet_end())
}

/// Adds a printer's sheet.
#[tactic(auto, unfolding(crate::specs::Svg::sheet_svg, crate::specs::Svg::ink_svg))]
fn push_sheet(
    text: &mut Vec<u8>,
    texts: &Texts,
    top: u8,
    device: u64,
    above: u128,
    paper: &Paper,
) -> Result<(), AllocError>
    requires { above ≤ 18446744073709551683 }
    ensures { OnOk result (text.new.items ≡ text.old.items ++ sheet_svg top device above paper.now) }
{
    let rows = paper.rows.as_slice();
    push_front(text, top, device, above, sheet_picas(top, paper))?;
    push_rows(text, texts, rows)?;
    push_back(text, texts, rows_end(rows), paper.held.as_slice())
}

/// Adds a printer's sheet if it is drawn.
pub fn push_sheet_if(
    text: &mut Vec<u8>,
    texts: &Texts,
    drawn: bool,
    top: u8,
    device: u64,
    above: u128,
    paper: &Paper,
) -> Result<(), AllocError>
    requires { above ≤ 18446744073709551683 }
    ensures { OnOk result (text.new.items ≡ text.old.items ++ text_if drawn (sheet_svg top device above paper.now)) }
{
    if drawn {
        push_sheet(text, texts, top, device, above, paper)?;
    }
    Ok(())
}

/// Begins a block where the last one may have no room for a row of this many marks. A row that takes more room goes
/// into the block all the same, which grows.
#[inline(always)]
fn make_room(
    blocks: &mut Vec<Vec<u8>>,
    alloc: Global,
    block: &mut Vec<u8>,
    marks: usize,
) -> Result<(), AllocError>
    ensures { OnOk result (joined blocks.new.items ++ block.new.items ≡ joined blocks.old.items ++ block.old.items) }
{
    let room = BLOCK.saturating_sub(block.len()) / MARK;
    if room < marks.saturating_add(AROUND) {
        let next = Vec::with_capacity(alloc, BLOCK)?;
        blocks.push(mem::replace(block, next))?;
    }
    Ok(())
}

/// Adds rows to a document in blocks, and frees each row that is drawn.
fn move_rows(
    blocks: &mut Vec<Vec<u8>>,
    alloc: Global,
    texts: &Texts,
    rows: Vec<Row>,
) -> Result<(), AllocError>
    ensures { OnOk result (joined blocks.new.items ≡ joined blocks.old.items ++ flat_map row_svg rows.items) }
{
    let mut block = Vec::with_capacity(alloc, BLOCK)?;
    for row in rows {
        make_room(blocks, alloc, &mut block, row.marks.len())?;
        push_row(&mut block, texts, &row)?;
    }
    blocks.push(block)?;
    Ok(())
}

/// Adds a printer's sheet to a document in blocks, and frees what it was made of.
#[tactic(auto, unfolding(crate::specs::Svg::sheet_svg, crate::specs::Svg::ink_svg))]
fn move_sheet(
    blocks: &mut Vec<Vec<u8>>,
    alloc: Global,
    texts: &Texts,
    top: u8,
    device: u64,
    above: u128,
    paper: Paper,
) -> Result<(), AllocError>
    requires { above ≤ 18446744073709551683 }
    ensures { OnOk result (joined blocks.new.items ≡ joined blocks.old.items ++ sheet_svg top device above paper) }
{
    let picas = sheet_picas(top, &paper);
    let Paper { rows, held } = paper;
    let end = rows_end(rows.as_slice());
    let mut front = Vec::new(alloc);
    push_front(&mut front, top, device, above, picas)?;
    blocks.push(front)?;
    move_rows(blocks, alloc, texts, rows.into_vec())?;
    let mut back = Vec::new(alloc);
    push_back(&mut back, texts, end, held.as_slice())?;
    blocks.push(back)?;
    Ok(())
}

/// The same if it is drawn.
pub fn move_sheet_if(
    blocks: &mut Vec<Vec<u8>>,
    alloc: Global,
    texts: &Texts,
    drawn: bool,
    top: u8,
    device: u64,
    above: u128,
    paper: Paper,
) -> Result<(), AllocError>
    requires { above ≤ 18446744073709551683 }
    ensures { OnOk result (joined blocks.new.items ≡ joined blocks.old.items ++ text_if drawn (sheet_svg top device above paper)) }
{
    if drawn {
        move_sheet(blocks, alloc, texts, top, device, above, paper)?;
    }
    Ok(())
}
