//! Notes: what is lawful and probably not what was meant, a line each on standard error.

use crate::lacking::{BOTH, hears, holds};
use crate::order::note_order;
use crate::script_lines::{
    has_line_behind_blank, has_line_in_heading, is_cut_off, label_of, line_with_return, remark_of,
    wrapped_line,
};
use crate::strings::{Noting, noted_in_strings};
use pr_capture::{InputFormat, Threshold, TraceInput};
use pr_explain::{Misread, misread_line, repeated_rows, unit_meant};
use pr_jobs::{HeldMarks, PagesEnd, PaperEnd, RunEnd, shown_of};
use pr_listing::{
    ListingForm, has_typed_strings, is_p00, is_t64, looks_like_disk, looks_saved, program_in,
    tape_files,
};
use pr_options::{DecodeOutput, Job, PagesOutput};
use pr_recording::{LeftOut, Overheard, Reprinted};
use pr_render::Format;
use pr_serial::Present;
use std::fmt;
use std::fmt::{Display, Formatter};

/// What is said of a script with small letters or braces in its strings.
const TYPED_STRINGS: &str =
    "strings are sent as they are: small letters print graphics, or capitals \
     after OPEN file,device,7, and {name} prints its letters; --from petcat reads both as typed, \
     and --from magazine reads names in braces among capitals";

/// What is said of a program with small letters in its strings.
const SMALL_LETTERS: &str =
    "strings are sent as they are: small letters print graphics, or capitals after OPEN file,device,7; \
     what petcat writes as a is typed here as A, and its A as {SHIFT-A}";

/// What is said of petcat's text whose strings have more capitals than small letters.
const PETCAT_CAPITALS: &str =
    "capitals in the strings of petcat's text are shifted letters, which the graphic set prints as graphics; \
     --from text sends strings as they are";

/// What is said of petcat's text whose heading seems to have other lines in it.
const HEADING_RETURNS: &str =
    "a heading of petcat's text has other line ends than LF in it, which end no line here, so what follows them is no line \
     of the program: if it was meant to be, save the text with LF or CR LF line ends";

/// What is said of a T64 file with more than one program.
const TAPE_FILES: &str =
    "this T64 file has several programs, of which the first one is read; an emulator loads another, \
     and saves that as name.prg";

/// What is said of a text that is no script, and was run.
const RUN: &str =
    "this is no script, so it was run as a program, as with --from basic; --as script writes what it prints";

/// What is said of a saved program without its load address.
const NO_ADDRESS: &str =
    "the load address, the two bytes 1 and 8, is missing in front of this program, if it is a C64's: put it there";

/// What is said of a saved program with another load address after its own, which of a T64 file is in the directory.
const TWO_ADDRESSES: &str =
    "a second load address is in front of this program: save what begins with it as name.prg";

/// The address of a BASIC program's first byte.
const BASIC_START: usize = 0x0801;

/// How many bytes a line of a saved program has beside its own: a link, a number and a 0.
const LINE_FRAME: usize = 5;

/// What is said of times that rise by 1 from row to row, and give no byte.
const COUNTED: &str =
    "the times rise by 1 from row to row, as numbers of samples do: if they are, name the column Sample, and give --rate";

/// How many such rows are hardly a chance (profile).
const COUNTED_ROWS: usize = 16;

/// A volt in microvolts.
const VOLT: u64 = 1_000_000;

/// What is said of a script that ends within a string, and without a line end.
const CUT_OFF: &str =
    "the last line ends within a string, and without a line end: see whether the listing is whole";

/// What is said of a run that a BASIC error stopped.
const STOPPED: &str = "a BASIC error stopped the run; --explain says which one, and where";

/// What is said of a printer's bytes that look like a saved program.
const SAVED_BYTES: &str =
    "this looks like a saved program, and not like a printer's bytes: pages --from prg runs one";

/// What is said of a printer's bytes that look like a disk.
const DISK_BYTES: &str = "this looks like an image of a disk, and not like a printer's bytes: \
     take a program out of it, and pages --from prg runs it";

/// What is said of a printer's bytes that begin as another file does.
const OTHER_BYTES: &str = "this looks like a file of another kind, and not like a printer's bytes";

/// How documents, pictures, archives, tapes and cartridges begin.
const OTHER_FRONTS: [&[u8]; 7] = [
    b"%PDF",
    b"\x89PNG",
    b"\xff\xd8\xff",
    b"\x1f\x8b",
    b"PK\x03\x04",
    b"C64-TAPE-RAW",
    b"C64 CARTRIDGE",
];

/// None of the printers.
const NO_PRINTER: Present = Present {
    four: false,
    five: false,
};

/// Printer 4, which has the page of a printer's bytes.
const FOUR_ALONE: Present = Present {
    four: true,
    five: false,
};

/// What is said of a blank page where another printer has printed.
const ONLY_FOUR: &str =
    "the page is blank: the output went to printer 4, whose page --device 4 draws";

/// The same where that is printer 5.
const ONLY_FIVE: &str =
    "the page is blank: the output went to printer 5, whose page --device 5 draws";

/// What is said of one where nobody answered a statement.
const UNANSWERED: &str =
    "the page is blank: a device that a statement calls does not answer; only the printers 4 and 5 do, \
     where they are present";

/// What is said of one where the screen has output.
const ON_SCREEN: &str =
    "the page is blank: the output went to the screen; PRINT# prints on paper, and so does PRINT after CMD, \
     as in OPEN 4,4:CMD 4";

/// What is said of one where no statement prints.
const NOTHING_PRINTS: &str =
    "the page is blank: no statement prints; a line on paper is printed by OPEN 4,4 and then PRINT#4,\"TEXT\"";

/// The same where there is no statement.
const NO_STATEMENT: &str =
    "the page is blank: the input has no statement; see whether it is the one that was meant";

/// The same where the first line is a remark with others behind it.
const JOINED: &str =
    "the page is blank: the remark in line 1 seems to have other lines in it; give each line of the program \
     one of its own";

/// What is said of a blank page of a printer's bytes.
const NO_PRINTED_BYTE: &str = "the page is blank: the input has no byte that prints";

/// What is said of a picture of printer 4's paper where printer 5 has printed and none of both was chosen.
const FIVE_TOO: &str =
    "this picture is printer 4's, and printer 5 has printed, too: --device 5 draws its pages";

/// What a note says to do about marks of a line that has not ended, where the bytes of a printer are all that is known.
const RETURN: &str = "a carriage return, CHR$(13), ends the line";

/// The same of printer 4 after the run of a script.
const FOUR_UNENDED: &str =
    "PRINT# without a list, before CLOSE, ends the line, as in PRINT#4:CLOSE 4 after OPEN 4,4";

/// The same of printer 5.
const FIVE_UNENDED: &str =
    "PRINT# without a list, before CLOSE, ends the line, as in PRINT#5:CLOSE 5 after OPEN 5,5";

/// What a note says to do about bytes that the list has.
const LISTED: &str = "--as list shows where";

/// What it says to do about those that come before anybody is called.
const FOUR_LISTENING: &str = "--listening 4 has printer 4 listen from the start";

/// The same where printer 5 alone is shown.
const FIVE_LISTENING: &str = "--listening 5 has printer 5 listen from the start";

/// What it says to do about one that the recording's end cuts.
const LONGER: &str = "record for longer";

/// Writes a note.
fn note(rt: &impl Eprint, text: &str) {
    let _ = rt.eprintln(format_args!("print1525: note: {text}"));
}

/// Writes what is to be noted of the text of a script that has run. The text of a listing in another form was made of it.
pub fn note_script(rt: &impl Eprint, script: &[u8], form: ListingForm) {
    let is_braced = is_script(form) && is_typed(script);
    if is_braced {
        note(rt, TYPED_STRINGS);
    }
    if form == ListingForm::Program {
        note_returns(rt, script);
        return;
    }
    if let Some(text) = noted_in_strings(script, noting_of(form, is_braced)) {
        note(rt, text);
    }
    note_returns(rt, script);
    note_lines(rt, script);
}

/// What may be noted of the strings of a script, of whose braces something was said.
fn noting_of(form: ListingForm, is_braced: bool) -> Noting {
    if is_braced {
        Noting::Unbraced
    } else if is_script(form) || form == ListingForm::Magazine {
        Noting::All
    } else {
        Noting::Marks
    }
}

/// Writes a note of a remark with another line end.
fn note_returns(rt: &impl Eprint, script: &[u8]) {
    if let Some(line) = line_with_return(script) {
        let _ = rt.eprintln(format_args!(
            "print1525: note: line {line} has a remark with other line ends than LF in it, which end no line here: \
             if lines were meant to end there, save the script with LF or CR LF line ends"
        ));
    }
}

/// Writes a note of lines that are not whole, or not in order, as it seems.
fn note_lines(rt: &impl Eprint, script: &[u8]) {
    if let Some(line) = wrapped_line(script) {
        let _ = rt.eprintln(format_args!(
            "print1525: note: line {line} ends within a string, and the next one may be its rest: join the two \
             where an editor has cut a long line"
        ));
        return;
    }
    note_order(rt, script);
    if is_cut_off(script) {
        note(rt, CUT_OFF);
    }
}

/// What is to be noted of a listing by its own bytes, before a script is made of it.
#[derive(Clone, Copy)]
pub enum ListingNote {
    /// Nothing.
    Nothing,
    /// A heading of petcat's text seems to have other lines in it.
    HeadingReturns,
    /// The strings of petcat's text have more capitals than small letters.
    PetcatCapitals,
    /// A text ends within a string, and without a line end.
    CutOff,
    /// A saved program has no load address, as it seems.
    NoAddress,
    /// It has two.
    TwoAddresses,
    /// A T64 file has more than one program.
    TapeFiles,
    /// A text is no script, and was run as a program.
    Run,
}

/// What is to be noted of petcat's text.
pub fn petcat_note(text: &[u8]) -> ListingNote {
    if has_line_in_heading(text) {
        ListingNote::HeadingReturns
    } else if has_more_capitals(text) {
        ListingNote::PetcatCapitals
    } else {
        text_note(text)
    }
}

/// What is to be noted of a listing's text in any form but a script's, whose own bytes are looked at.
pub fn text_note(text: &[u8]) -> ListingNote {
    if is_cut_off(text) {
        ListingNote::CutOff
    } else {
        ListingNote::Nothing
    }
}

/// What is to be noted of the file of a saved program.
pub fn program_note(file: &[u8]) -> ListingNote {
    match address_note(file) {
        ListingNote::Nothing if is_t64(file) && tape_files(file) > 1 => ListingNote::TapeFiles,
        noted => noted,
    }
}

/// What is to be noted of the load address of a saved program.
pub fn address_note(file: &[u8]) -> ListingNote {
    match program_in(file) {
        [_, _, 1, 8, program @ ..] if begins_line(program) => ListingNote::TwoAddresses,
        program if !is_t64(file) && begins_line(program) => ListingNote::NoAddress,
        _ => ListingNote::Nothing,
    }
}

/// Whether bytes begin with a line of a saved program, whose link is the address after it where BASIC programs begin.
fn begins_line(bytes: &[u8]) -> bool {
    let [low, high, _, _, line @ ..] = bytes else {
        return false;
    };
    let link = usize::from(*low) + 256 * usize::from(*high);
    match line.iter().position(|byte| *byte == 0) {
        Some(size) => link.checked_sub(BASIC_START + LINE_FRAME) == Some(size),
        None => false,
    }
}

/// Writes a note of a listing.
pub fn note_listing(rt: &impl Eprint, noted: ListingNote) {
    if let Some(text) = listing_text(noted) {
        note(rt, text);
    }
}

/// The text of a note of a listing.
pub fn listing_text(noted: ListingNote) -> Option<&'static str> {
    match noted {
        ListingNote::Nothing => None,
        ListingNote::HeadingReturns => Some(HEADING_RETURNS),
        ListingNote::PetcatCapitals => Some(PETCAT_CAPITALS),
        ListingNote::CutOff => Some(CUT_OFF),
        ListingNote::NoAddress => Some(NO_ADDRESS),
        ListingNote::TwoAddresses => Some(TWO_ADDRESSES),
        ListingNote::TapeFiles => Some(TAPE_FILES),
        ListingNote::Run => Some(RUN),
    }
}

/// Writes a note of a run of which nothing else is said.
pub fn note_stop(rt: &impl Eprint) {
    note(rt, STOPPED);
}

/// The marks that a printer holds, as a note counts them.
#[derive(Clone, Copy)]
struct Unprinted(HeldMarks);

impl Display for Unprinted {
    fn fmt<W: fmt::Write>(&self, f: &mut Formatter<W>) -> fmt::Result {
        let HeldMarks {
            characters,
            columns,
        } = self.0;
        match characters {
            0 => {}
            1 => write!(f, "1 character")?,
            _ => write!(f, "{characters} characters")?,
        }
        if characters > 0 && columns > 0 {
            write!(f, " and ")?;
        }
        match columns {
            0 => {}
            1 => write!(f, "1 column of dots")?,
            _ => write!(f, "{columns} columns of dots")?,
        }
        match (characters, columns) {
            (1, 0) | (0, 1) => write!(f, " that was not printed"),
            _ => write!(f, " that were not printed"),
        }
    }
}

/// What of the pages a job shows, or whose bytes in a recording it writes.
#[derive(Clone, Copy)]
pub struct View {
    /// The printers whose pages are drawn, in lines or in a picture. A list of marks draws none.
    drawn: Present,
    /// It is the paper of one of these printers, or a sheet of it.
    is_single: bool,
    /// The page is that of a printer's bytes.
    is_of_bytes: bool,
}

/// What of the pages a job shows.
pub fn view_of(job: &Job<'_>) -> View {
    match job {
        Job::Pages(_, present, _, _, PagesOutput::Pages(format)) => view_in(*format, *present),
        Job::Decode {
            output: DecodeOutput::Pages(format, _),
            ..
        } => view_in(*format, BOTH),
        Job::Decode {
            output: DecodeOutput::Bytes(device, _),
            ..
        } => whole_view(shown_of(Some(*device), BOTH)),
        Job::Raw { format, .. } => View {
            is_of_bytes: true,
            ..view_in(*format, FOUR_ALONE)
        },
        _ => whole_view(NO_PRINTER),
    }
}

/// The same of a format, with these printers connected.
fn view_in(format: Format, present: Present) -> View {
    match format {
        Format::List => whole_view(NO_PRINTER),
        Format::Lines(_) => whole_view(present),
        Format::Svg(part) => View {
            is_single: part.sheet.is_some(),
            ..whole_view(shown_of(part.device, present))
        },
        Format::Png(part) => View {
            is_single: true,
            ..whole_view(shown_of(part.device, present))
        },
        Format::Pdf(device, _) => whole_view(shown_of(device, present)),
    }
}

/// All pages of these printers.
fn whole_view(drawn: Present) -> View {
    View {
        drawn,
        is_single: false,
        is_of_bytes: false,
    }
}

/// Writes what is to be noted of pages that were written: marks that a printer holds, that the page is blank, and that another
/// printer has printed, too. Of a script its text may say why nothing prints.
pub fn note_pages(rt: &impl Eprint, pages: PagesEnd, view: View, reason: Option<&'static str>) {
    if view.is_of_bytes {
        note_held(rt, pages, view.drawn);
    } else {
        note_unended(rt, pages, view.drawn);
    }
    if let Some(text) = blank_text(pages, view, reason) {
        note(rt, text);
    }
    note_other(rt, pages, view);
}

/// What is to be noted of a page on which nothing is, if it is one. Where a BASIC error stopped the run, that is the reason,
/// and is noted.
fn blank_text(pages: PagesEnd, view: View, reason: Option<&'static str>) -> Option<&'static str> {
    let drawn = view.drawn;
    let (four, five) = (has_marks(pages.four), has_marks(pages.five));
    if !(drawn.four || drawn.five) || (drawn.four && four) || (drawn.five && five) {
        None
    } else if four {
        Some(ONLY_FOUR)
    } else if five {
        Some(ONLY_FIVE)
    } else if view.is_of_bytes {
        Some(NO_PRINTED_BYTE)
    } else if pages.run != RunEnd::Done {
        None
    } else if pages.has_unanswered {
        Some(UNANSWERED)
    } else if pages.has_screen {
        Some(ON_SCREEN)
    } else {
        Some(reason.unwrap_or(NOTHING_PRINTS))
    }
}

/// What is to be noted of a blank page by the text of a script that has run, if that shows why no statement prints.
pub fn blank_reason(script: &[u8]) -> Option<&'static str> {
    if has_no_statement(script) {
        Some(NO_STATEMENT)
    } else if has_line_behind_blank(remark_of(first_line(script))) {
        Some(JOINED)
    } else {
        None
    }
}

/// The first line of a text.
fn first_line(text: &[u8]) -> &[u8] {
    match text.iter().position(|byte| *byte == b'\n') {
        Some(end) => &text[..end],
        None => text,
    }
}

/// Whether a script that has run has no statement: blanks, colons, line ends and numbers of lines alone.
fn has_no_statement(script: &[u8]) -> bool {
    script.iter().all(|byte| matches!(*byte, b' ' | b'\t' | b'\r' | b'\n' | b':' | b'0'..=b'9'))
}

/// Whether a printer has printed a row, or holds marks.
fn has_marks(paper: PaperEnd) -> bool {
    paper.is_printed || holds(paper.held)
}

/// Writes a note where one printer's paper is drawn and the other one has printed, too.
fn note_other(rt: &impl Eprint, pages: PagesEnd, view: View) {
    let have_both = view.drawn.four
        && view.drawn.five
        && pages.four.is_printed
        && pages.five.is_printed;
    if view.is_single && have_both {
        note(rt, FIVE_TOO);
    }
}

/// Writes a note of each of these printers that holds marks of a line that has not ended.
fn note_held(rt: &impl Eprint, pages: PagesEnd, drawn: Present) {
    if drawn.four {
        note_marks(rt, 4, pages.four.held, RETURN);
    }
    if drawn.five {
        note_marks(rt, 5, pages.five.held, RETURN);
    }
}

/// Writes the same after the run of a script. PRINT# without a list sends the byte that waits in the computer, as the
/// carriage return of the last PRINT after CMD does, and then a carriage return; CLOSE sends neither.
fn note_unended(rt: &impl Eprint, pages: PagesEnd, drawn: Present) {
    if drawn.four {
        note_marks(rt, 4, pages.four.held, FOUR_UNENDED);
    }
    if drawn.five {
        note_marks(rt, 5, pages.five.held, FIVE_UNENDED);
    }
}

/// Writes a note of the marks that a printer holds, if there are any, and what to do about them.
fn note_marks(rt: &impl Eprint, printer: u8, held: HeldMarks, advice: &str) {
    if !holds(held) {
        return;
    }
    let marks = Unprinted(held);
    let _ = rt.eprintln(format_args!("print1525: note: printer {printer} holds {marks}; {advice}"));
}

/// Writes a note of a recording's pulses that are at most one microsecond long, if there are any, and what to do about
/// them. A trace text is no recording of an analyser, whose cross-talk could be left out.
pub fn note_brief(rt: &impl Eprint, count: u64, source: InputFormat) {
    let (are, them) = match count {
        0 => return,
        1 => ("pulse of a line is", "it"),
        _ => ("pulses of a line are", "them"),
    };
    let _ = match source {
        InputFormat::Text => rt.eprintln(format_args!(
            "print1525: note: {count} {are} at most 1 microsecond long; no KERNAL makes such pulses"
        )),
        InputFormat::Vcd | InputFormat::Csv => rt.eprintln(format_args!(
            "print1525: note: {count} {are} at most 1 microsecond long; --glitch 1us leaves {them} out"
        )),
    };
}

/// Writes what the pages of these printers lack that a recording has, and that another printer has printed, too.
pub fn note_reprinted(rt: &impl Eprint, said: Reprinted, view: View) {
    let drawn = view.drawn;
    note_left(rt, said.left, drawn);
    note_nothing(rt, drawn, said.present);
    note_held(rt, said.end, drawn);
    note_other(rt, said.end, view);
}

/// Writes what the bytes of this printer lack that a recording has.
pub fn note_overheard(rt: &impl Eprint, said: Overheard, view: View) {
    let drawn = view.drawn;
    note_left(rt, said.left, drawn);
    let heard = if said.has_byte { BOTH } else { NO_PRINTER };
    note_nothing(rt, drawn, heard);
}

/// Writes a note of each kind of bytes that are left out.
fn note_left(rt: &impl Eprint, left: LeftOut, drawn: Present) {
    let lost = ("byte is", "bytes are");
    note_count(
        rt,
        left.unacknowledged,
        lost,
        " that nobody acknowledged",
        LISTED,
    );
    let glitches = (
        "incomplete byte (glitch) is",
        "incomplete bytes (glitches) are",
    );
    note_count(rt, left.incomplete, glitches, "", LISTED);
    let cut = if left.has_cut { 1 } else { 0 };
    note_count(rt, cut, lost, " that the recording's end cuts", LONGER);
    let data = ("data byte is", "data bytes are");
    let listening = if drawn.four {
        FOUR_LISTENING
    } else {
        FIVE_LISTENING
    };
    note_count(rt, left.early, data, ", from before any LISTEN", listening);
}

/// Writes a note of bytes that are left out, if there are any: how many, which, why, and what to do.
fn note_count(rt: &impl Eprint, count: u64, which: (&str, &str), why: &str, advice: &str) {
    let which = match count {
        0 => return,
        1 => which.0,
        _ => which.1,
    };
    let _ = rt.eprintln(format_args!("print1525: note: {count} {which} left out{why}; {advice}"));
}

/// Writes a note where none of these printers hears a byte.
fn note_nothing(rt: &impl Eprint, drawn: Present, heard: Present) {
    if hears(drawn, heard) {
        return;
    }
    let printers = match (drawn.four, drawn.five) {
        (true, true) => "printer 4 or 5",
        (true, false) => "printer 4",
        (false, true) => "printer 5",
        (false, false) => return,
    };
    let _ = rt.eprintln(format_args!(
        "print1525: note: nothing is for {printers}; --as list shows what the recording has"
    ));
}

/// Writes what is to be noted of bytes that a printer hardly gets.
pub fn note_bytes(rt: &impl Eprint, bytes: &[u8]) {
    if looks_saved(bytes) || is_p00(bytes) || is_t64(bytes) {
        note(rt, SAVED_BYTES);
    } else if looks_like_disk(bytes) {
        note(rt, DISK_BYTES);
    } else if is_other_file(bytes) {
        note(rt, OTHER_BYTES);
    }
}

/// Whether bytes begin as a document, a picture, an archive, a tape or a cartridge does.
fn is_other_file(bytes: &[u8]) -> bool {
    for front in OTHER_FRONTS {
        if bytes.starts_with(front) {
            return true;
        }
    }
    false
}

/// Notes in which unit the times of a table may be, where they are read in another and no byte comes; and gives whether
/// that is so.
pub fn note_unit(rt: &(impl Eprint + AllocGlobal), table: &[u8], input: TraceInput<'_>) -> bool {
    let Ok(Some(unit)) = unit_meant(rt.alloc(), table, input) else {
        return false;
    };
    if counts_up(table) {
        note(rt, COUNTED);
        return true;
    }
    let (word, sign) = (unit.word, unit.sign);
    let _ = rt.eprintln(format_args!(
        "print1525: note: the times may be {word}: name the column Time [{sign}]"
    ));
    true
}

/// Whether the rows of a table begin with whole numbers that rise by 1, as those of samples do.
fn counts_up(table: &[u8]) -> bool {
    let mut before: Option<u64> = None;
    let mut count: usize = 0;
    for line in table.split(|byte| *byte == b'\n') {
        if let Some(number) = label_of(line) {
            if let Some(last) = before {
                if number != last.wrapping_add(1) {
                    return false;
                }
                count = count.wrapping_add(1);
            }
            before = Some(number);
        }
    }
    count > COUNTED_ROWS
}

/// Notes how many rows of a table have the time of the row before and other levels, where levels are lost; and gives
/// whether that is so.
pub fn note_repeats(rt: &(impl Eprint + AllocGlobal), table: &[u8], input: TraceInput<'_>) -> bool {
    let count = repeated_rows(rt.alloc(), table, input).unwrap_or(0);
    let rows = match count {
        0 => return false,
        1 => "row has",
        _ => "rows have",
    };
    let _ = rt.eprintln(format_args!(
        "print1525: note: {count} {rows} the time of the row before and other levels, and only the last of them counts: \
         save the table with more digits"
    ));
    true
}

/// Notes a line of a table that is probably not meant as it is read; and gives whether there is one.
pub fn note_misread(rt: &impl Eprint, table: &[u8], input: TraceInput<'_>) -> bool {
    let Some(misread) = misread_line(table, input) else {
        return false;
    };
    let (number, said) = misread_text(misread);
    let _ = rt.eprintln(format_args!("print1525: note: line {number} {said}"));
    true
}

/// The number of such a line, and what is noted of it.
fn misread_text(misread: Misread) -> (usize, &'static str) {
    match misread {
        Misread::Names(number) => (
            number,
            "is read as the names of the columns, and looks like a row: put a line of names in front",
        ),
        Misread::Millivolts(number) => (
            number,
            "has mV, and --threshold compares the numbers as they are written: give it in that unit, such as 1500",
        ),
        Misread::Rate(number) => (
            number,
            "has a rate behind the names, which counts for nothing: make what follows it a recording of its own",
        ),
        Misread::Remark(number) => (
            number,
            "is left out as a remark, since it begins with ; or #, and has as many cells as the names: write its first cell",
        ),
        Misread::Blank(number) => (
            number,
            "is blank, and counts for no sample: delete it, or fill it in",
        ),
        Misread::Surplus(number) => (
            number,
            "has more cells than there are names, and those are left out: see whether a comma in a number separates it",
        ),
        Misread::Instant(number) => (
            number,
            "has another month or another offset from UTC than the row before, and neither is read",
        ),
    }
}

/// Notes what two voltages mean that look like one with a decimal comma.
pub fn note_threshold(rt: &impl Eprint, threshold: Option<Threshold>) {
    let Some(Threshold { low, high }) = threshold else {
        return;
    };
    if low.is_negative
        || low.micros == high.micros
        || low.micros % VOLT != 0
        || high.micros % VOLT != 0
    {
        return;
    }
    let (low, high) = (low.micros / VOLT, high.micros / VOLT);
    let _ = rt.eprintln(format_args!(
        "print1525: note: --threshold {low},{high} is two voltages: 0 below {low} V and 1 from {high} V on; \
         a decimal is written with a point, as in {low}.{high}"
    ));
}

/// Whether a listing in this form is a script's text, or may be.
pub fn is_script(form: ListingForm) -> bool {
    matches!(form, ListingForm::Text | ListingForm::Auto)
}

/// Whether a string of a script has a small letter or a brace. Most scripts have none at all, which is soon seen.
pub fn is_typed(script: &[u8]) -> bool {
    has_typed_byte(script) && has_typed_strings(script)
}

/// Whether there is a small letter or a brace.
fn has_typed_byte(bytes: &[u8]) -> bool {
    for byte in bytes {
        if byte.is_ascii_lowercase() || *byte == b'{' {
            return true;
        }
    }
    false
}

/// Whether the strings of petcat's text have more capitals than small letters.
fn has_more_capitals(text: &[u8]) -> bool {
    let (capitals, smalls) = letters_in_strings(text);
    capitals > smalls
}

/// Writes what is to be noted of the text of a program that was run.
pub fn note_program(rt: &impl Eprint, text: &[u8]) {
    let (_, smalls) = letters_in_strings(text);
    if smalls > 0 {
        note(rt, SMALL_LETTERS);
    }
}

/// How many capitals and small letters the strings of a text have. What is between braces is a name.
fn letters_in_strings(text: &[u8]) -> (usize, usize) {
    let mut capitals: usize = 0;
    let mut smalls: usize = 0;
    let mut is_quoted = false;
    let mut is_name = false;
    for byte in text {
        match *byte {
            b'\n' | b'\r' => {
                is_quoted = false;
                is_name = false;
            }
            b'"' => is_quoted = !is_quoted,
            b'{' => is_name = true,
            b'}' => is_name = false,
            b'A'..=b'Z' if is_quoted && !is_name => capitals = capitals.wrapping_add(1),
            b'a'..=b'z' if is_quoted && !is_name => smalls = smalls.wrapping_add(1),
            _ => {}
        }
    }
    (capitals, smalls)
}
