//! Short texts that are ready in tables: an element of a mark is two of them, and its letter is one.

ghost use Rattle.std.specs.Prelude.{◌≡◌, ◌+◌, ◌≤◌, ◌++◌, length, take};

use std::marker::Model;

/// The most bytes of a short text.
const SHORT: usize = 16;

/// A text of at most 16 bytes. Contracts see the text alone.
///
/// It is added to a longer one by a copy of all 16 bytes, which is a single move.
#[derive(Drop)]
pub struct ShortText {
    bytes: [u8; SHORT],
    len: usize,
}

impl Model for ShortText {
    ghost use Rattle.std.specs.Prelude.{List, ℕ, take, ◌≤◌};

    ghost Value = { List ℕ };

    ghost view = { λ s. take s.len s.bytes };

    ghost invariant = { λ s. s.len ≤ 16 };
}

impl ShortText {
    /// A short text of these bytes.
    pub fn new(text: &[u8]) -> ShortText
        requires { length text.now ≤ 16 }
        ensures { result ≡ text.now }
    {
        let mut bytes = [0u8; SHORT];
        bytes[..text.len()].copy_from_slice(text);
        ShortText {
            bytes,
            len: text.len(),
        }
    }

    /// Puts the text into a block after its first bytes, and says how many these are then.
    #[inline(always)]
    pub fn put(&self, block: &mut [u8], at: usize) -> usize
        requires { at + 16 ≤ length block.old }
        ensures text { take result block.new ≡ take at block.old ++ self.now }
        ensures within { result ≤ at + 16 }
        ensures length { length block.new ≡ length block.old }
    {
        block[at..at + SHORT].copy_from_slice(&self.bytes);
        at + self.len
    }
}
