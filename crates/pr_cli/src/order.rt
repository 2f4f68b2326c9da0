//! The order of a script's lines by their numbers.

use crate::script_lines::{is_label_alone, label_of};
use pr_basic::cut_line;

/// How many line numbers BASIC has.
const LABELS: usize = 64000;

/// Line numbers of a script, a bit for each.
#[derive(Drop)]
struct Labels {
    bits: [u8; LABELS / 8],
}

impl Labels {
    /// None.
    fn new() -> Labels {
        Labels {
            bits: [0; LABELS / 8],
        }
    }

    /// Whether a number is one of them.
    fn has(&self, number: u64) -> bool {
        match self.bits.get((number / 8) as usize) {
            Some(bits) => *bits & bit_of(number) != 0,
            None => false,
        }
    }

    /// Adds a number, if BASIC has it.
    fn add(&mut self, number: u64) {
        if let Some(bits) = self.bits.get_mut((number / 8) as usize) {
            *bits |= bit_of(number);
        }
    }
}

/// The bit of a number in its byte.
fn bit_of(number: u64) -> u8 {
    1 << (number % 8) as u32
}

/// A line of a script that a C64 has elsewhere, or has not; each line by its place, from 1, and its number.
#[derive(Clone, Copy)]
enum Misplaced {
    /// The later line has no greater number.
    Unsorted {
        first: (usize, u64),
        second: (usize, u64),
    },
    /// A number alone, which a line before it has.
    Deleting {
        place: usize,
        number: u64,
    },
}

/// Says which line has a number that is not greater than the one before it, or is a number alone that a line has, if one
/// does.
pub fn note_order(rt: &impl Eprint, script: &[u8]) {
    let _ = match misplaced_in(script) {
        None => return,
        Some(Misplaced::Unsorted { first, second }) => {
            let (at, before) = first;
            let (line, number) = second;
            rt.eprintln(format_args!(
                "print1525: note: line {line} has the number {number}, after {before} in line {at}: \
                 lines run in the order of the file, where a C64 sorts them and keeps the last of each number; \
                 put them in order, or leave one out"
            ))
        }
        Some(Misplaced::Deleting { place, number }) => rt.eprintln(format_args!(
            "print1525: note: line {place} is the number {number} alone: on a C64 it deletes the line of that number, \
             and here it does nothing; leave out both"
        )),
    };
}

/// The first line of a script with a number that is not greater than the last one before it, or that is a number alone
/// which a line before it has. Any other number alone does nothing, here and on a C64.
fn misplaced_in(script: &[u8]) -> Option<Misplaced> {
    let mut rest = script;
    let mut place: usize = 0;
    let mut last: Option<(usize, u64)> = None;
    let mut seen = Labels::new();
    while !rest.is_empty() {
        let (line, more) = cut_line(rest);
        place = place.wrapping_add(1);
        if let Some(number) = label_of(line) {
            let this = (place, number);
            let found = misplaced_at(this, is_label_alone(line), last, &seen);
            if found.is_some() {
                return found;
            }
            if !is_label_alone(line) {
                seen.add(number);
                last = Some(this);
            }
        }
        rest = more;
    }
    None
}

/// What is wrong with a line that has a number, after this one and those of these numbers.
fn misplaced_at(
    line: (usize, u64),
    is_alone: bool,
    last: Option<(usize, u64)>,
    seen: &Labels,
) -> Option<Misplaced> {
    match last {
        _ if is_alone => {
            let (place, number) = line;
            if seen.has(number) {
                Some(Misplaced::Deleting { place, number })
            } else {
                None
            }
        }
        Some(first) if line.1 <= first.1 => Some(Misplaced::Unsorted {
            first,
            second: line,
        }),
        _ => None,
    }
}
