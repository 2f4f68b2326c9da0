//! The delays of the bus, in microseconds.

ghost use Rattle.std.specs.Prelude.{◌≡◌, ◌+◌, ◌≤◌, drop, length};
ghost use Rattle.pr_wire.specs.Choices.{left};
ghost use Rattle.pr_wire.specs.Delays.{bounds_of, delay_at};
ghost use Rattle.pr_wire.specs.Laws.{DelaysLieWithinBounds};

use std::marker::Model;

/// From which moment to which a delay goes, and whose it is (profile, after the serial bus timing
/// of the Programmer's Reference Guide).
#[derive(Clone, Copy, Debug, PartialEq, Eq)]
pub enum Kind {
    /// Computer: the end of the last element to the look before a data byte, or to ATN pulled.
    Bb,
    /// Computer: ATN pulled, or the first command's acknowledgement, to the look.
    Aw,
    /// Computer: DATA released to CLOCK pulled, without end-or-identify.
    Ne,
    /// Computer: the end of the answer to end-or-identify to CLOCK pulled.
    Ry,
    /// Computer: DATA set to CLOCK released.
    S,
    /// Computer: CLOCK released to CLOCK pulled in a bit.
    V,
    /// Computer: the last acknowledgement to ATN released.
    R,
    /// Computer: ATN released after UNLISTEN to CLOCK released.
    Cr,
    /// Printer: ATN pulled to DATA pulled.
    At,
    /// Printer: CLOCK released to DATA released.
    H,
    /// Printer: DATA released to the answer to end-or-identify.
    Ye,
    /// Printer: the length of the answer to end-or-identify.
    Ei,
    /// Printer: the last pull of CLOCK to DATA pulled, the acknowledgement.
    F,
    /// Printer: ATN released to DATA released by one that does not listen.
    Dr,
}

/// Returns the least, the typical and the greatest delay of a kind, in microseconds. It takes no
/// memory.
pub fn bounds(kind: Kind) -> (u16, u16, u16)
    ensures { result ≡ bounds_of kind }
{
    match kind {
        Kind::Bb => (100, 100, 1000),
        Kind::Aw => (1000, 1000, 2000),
        Kind::Ne => (1, 40, 199),
        Kind::Ry => (1, 30, 60),
        Kind::S => (20, 70, 200),
        Kind::V => (20, 20, 200),
        Kind::R | Kind::Cr => (100, 100, 200),
        Kind::At => (1, 100, 1000),
        Kind::H => (1, 50, 10000),
        Kind::Ye => (200, 250, 250),
        Kind::Ei => (80, 80, 200),
        Kind::F => (1, 20, 90),
        Kind::Dr => (1, 20, 60),
    }
}

/// How long after DATA's release an answer to end-or-identify ends that two printers may make
/// together, in microseconds: at least the least wait and the least length, at most the greatest wait
/// and the greatest length.
#[inline(always)]
pub(crate) fn answer_bounds() -> (u64, u64)
    ensures { result ≡ ((bounds_of Kind.Ye).0 + (bounds_of Kind.Ei).0, (bounds_of Kind.Ye).2 + (bounds_of Kind.Ei).2) }
{
    let (least_wait, _, greatest_wait) = bounds(Kind::Ye);
    let (least, _, greatest) = bounds(Kind::Ei);
    let earliest = u64::from(least_wait) + u64::from(least);
    let latest = u64::from(greatest_wait) + u64::from(greatest);
    (earliest, latest)
}

/// A party's list of raw numbers, each of which makes one delay. Contracts see all the numbers,
/// which never change, and how many have been taken; `left` is the list of the others, the next one
/// first.
#[derive(Drop)]
pub struct Choices {
    numbers: Vec<u16>,
    taken: usize,
}

impl Model for Choices {
    ghost use Rattle.std.specs.Prelude.{length, ◌≤◌};
    ghost use Rattle.pr_wire.specs.Choices.{RawNumbers};

    ghost Value = { RawNumbers };

    ghost view = { λ c. record { numbers = c.numbers.items; taken = c.taken } };

    ghost invariant = { λ c. c.taken ≤ length c.numbers.items };
}

impl Choices {
    /// Makes a list of these numbers, of which none has been taken. It takes no memory.
    pub fn new(numbers: Vec<u16>) -> Choices
        ensures all { result.numbers ≡ numbers.items }
        ensures left { left result ≡ numbers.items }
    {
        Choices { numbers, taken: 0 }
    }

    /// Returns how many numbers have been taken. It takes no memory.
    pub fn taken(&self) -> usize
        ensures count { result ≡ self.now.taken }
        ensures within { result ≤ length self.now.numbers }
    {
        self.taken
    }

    /// Takes the next number and returns the delay of this kind that it makes, in microseconds: the
    /// least one plus the number's remainder by the count of delays allowed. Past the list's end it
    /// is the typical one. It takes no memory.
    pub fn next(&mut self, kind: Kind) -> u16
        ensures delay { result ≡ delay_at kind (left self.old) 0 }
        ensures left { left self.new ≡ drop 1 (left self.old) }
        ensures numbers { self.new.numbers ≡ self.old.numbers }
    {
        let (least, typical, greatest) = bounds(kind);
        let Some(number) = self.numbers.get(self.taken) else {
            return typical;
        };
        let number = *number;
        self.taken += 1;
        least + number % (greatest - least + 1)
    }
}

/// A law, with nothing to run: whatever the numbers, a delay lies within the bounds of its kind.
pub fn delays_within_bounds()
    ensures { DelaysLieWithinBounds }
{}
