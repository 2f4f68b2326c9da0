//! Marks, rows and the paper.

ghost use Rattle.std.specs.Prelude.{◌≡◌, ◌↔◌, [], ◌∷◌, ◌++◌, length, take, IsTrue, OnOk, OnErr, IfErr, IfOk};

use std::alloc::{AllocError, AllocFailed, Global};
use std::marker::Model;

/// A character cell, or one column of dots.
#[derive(Clone, Copy, Debug, PartialEq, Eq)]
pub enum Mark {
    /// A character cell, 6 dots wide, or 12 if `wide`.
    Cell {
        /// The character's code, 32 to 127 or 160 to 255 on a page.
        code: u8,
        /// From the lower/upper case set, else from the graphic/upper case set.
        lower: bool,
        /// White on black.
        reverse: bool,
        /// Double width.
        wide: bool,
    },
    /// One column of seven dots, one bit a dot: bit 0 is the top dot, bit 6 the bottom one.
    Dots(u8),
}

/// A mark, and the dot column (0 to 479 on a page) at which it begins.
#[derive(Clone, Copy, Debug, PartialEq, Eq)]
pub struct Placed {
    pub x: u16,
    pub mark: Mark,
}

/// A list kept in a vector. Contracts see the list alone, not room or place in memory. Its calls
/// take no memory.
#[derive(Debug, Drop)]
pub struct Sequence<T> {
    items: Vec<T>,
}

impl<T> Model for Sequence<T> {
    ghost use Rattle.std.specs.Prelude.{List};

    ghost Value = { List T };

    ghost view = { λ s. s.items.items };
}

impl<T> Sequence<T> {
    /// Makes an empty list. It takes no memory.
    pub fn new(alloc: Global) -> Self
        ensures { result ≡ [] }
    {
        Sequence {
            items: Vec::new(alloc),
        }
    }

    /// Makes a list of a vector's items, in order. It takes no memory.
    pub fn from_vec(items: Vec<T>) -> Self
        ensures { result ≡ items.items }
    {
        Self { items }
    }

    /// Turns the list into a vector of its items, in order. It takes no memory.
    pub fn into_vec(self) -> Vec<T>
        ensures { result.items ≡ self }
    {
        let Sequence { items } = self;
        items
    }

    /// Returns the items, in order.
    pub fn as_slice(&self) -> &[T]
        ensures { result.now ≡ self.now }
    {
        self.items.as_slice()
    }

    /// Returns the number of items.
    pub fn len(&self) -> usize
        ensures { result ≡ length self.now }
    {
        self.items.len()
    }

    /// Returns whether there is no item.
    pub fn is_empty(&self) -> bool
        ensures { IsTrue result ↔ (length self.now ≡ 0) }
    {
        self.items.is_empty()
    }

    /// The empty list, with room for this many items.
    pub(crate) fn with_capacity(alloc: Global, capacity: usize) -> Result<Self, AllocError>
        ensures { IfOk result (λ s. s ≡ []) }
    {
        Ok(Sequence {
            items: Vec::with_capacity(alloc, capacity)?,
        })
    }

    /// A copy that has just the room it needs.
    pub(crate) fn copy(&self, alloc: Global) -> Result<Self, AllocError>
    where
        T: Copy,
        ensures { IfOk result (λ s. s ≡ self.now) }
    {
        Ok(Sequence {
            items: Vec::from_slice(alloc, self.items.as_slice())?,
        })
    }

    /// Adds an item at the end. Refused, it leaves the list as it was and gives the item back.
    #[inline(always)]
    pub(crate) fn push(&mut self, value: T) -> Result<(), AllocFailed<T>>
        ensures ok { OnOk result (self.new ≡ self.old ++ value ∷ []) }
        ensures err { OnErr result (self.new ≡ self.old) }
        ensures given_back { IfErr result (λ failed. failed.value ≡ value) }
    {
        self.items.push(value)
    }

    /// Keeps the first `count` items.
    pub(crate) fn truncate(&mut self, count: usize)
    where
        T: Drop,
        ensures { self.new ≡ take count self.old }
    {
        self.items.truncate(count);
    }

    /// Lets all items go and keeps the room.
    pub(crate) fn clear(&mut self)
    where
        T: Drop,
        ensures { self.new ≡ [] }
    {
        self.items.clear();
    }
}

impl<T: PartialEq> PartialEq for Sequence<T> {
    ghost use Rattle.std.specs.Cmp.Lexicographic.{pointwise, lists_per};

    ghost eq = { λ x y. pointwise T.eq x y };

    ghost laws = { lists_per T.laws };

    fn eq(&self, other: &Self) -> bool {
        self.items == other.items
    }
}

/// A printed line.
#[derive(Debug, Drop, PartialEq)]
pub struct Row {
    /// The distance from the top, in 1/126 inch (profile: 21 a line in character mode, 14 in
    /// graphic mode).
    pub y: u64,
    /// The marks, in the order in which they were placed.
    pub marks: Sequence<Placed>,
}

/// What a printer has put on its paper.
#[derive(Debug, Drop, PartialEq)]
pub struct Paper {
    /// The lines that have ended, from the top.
    pub rows: Sequence<Row>,
    /// The marks of the line that has not ended, in the order in which they were placed.
    pub held: Sequence<Placed>,
}
