//! Short texts that are ready in tables.

ghost use Rattle.std.specs.Prelude.{◌≡◌, ◌+◌, ◌≤◌, ◌++◌, length, take, vec_len, OnOk, IfOk};
ghost use Rattle.pr_jobs.specs.Tables.{HasNumbers};

use crate::text::Text;
use pr_render::push_small;
use std::alloc::{AllocError, Global};
use std::marker::Model;

/// The most bytes of a short text.
const SHORT: usize = 16;

/// A text of at most 16 bytes. Contracts see the text alone.
///
/// It is added to a longer one by a copy of all 16 bytes, which is a single move.
#[derive(Drop)]
pub struct ShortText {
    bytes: [u8; SHORT],
    len: usize,
}

impl Model for ShortText {
    ghost use Rattle.std.specs.Prelude.{List, ℕ, take, ◌≤◌};

    ghost Value = { List ℕ };

    ghost view = { λ s. take s.len s.bytes };

    ghost invariant = { λ s. s.len ≤ 16 };
}

impl ShortText {
    /// A short text of these bytes.
    pub fn new(text: &[u8]) -> ShortText
        requires { length text.now ≤ 16 }
        ensures { result ≡ text.now }
    {
        let mut bytes = [0u8; SHORT];
        bytes[..text.len()].copy_from_slice(text);
        ShortText {
            bytes,
            len: text.len(),
        }
    }

    /// Adds the text at the end of another.
    pub fn add_to(&self, text: &mut Text) -> Result<(), AllocError>
        ensures { OnOk result (text.new ≡ text.old ++ self.now) }
    {
        text.add_front(&self.bytes, self.len)
    }

    /// Puts the text into a block after its first bytes, and says how many these are then.
    #[inline(always)]
    pub fn put(&self, block: &mut [u8], at: usize) -> usize
        requires { at + 16 ≤ length block.old }
        ensures text { take result block.new ≡ take at block.old ++ self.now }
        ensures within { result ≤ at + 16 }
        ensures length { length block.new ≡ length block.old }
    {
        block[at..at + SHORT].copy_from_slice(&self.bytes);
        at + self.len
    }
}

/// The numbers below a count, each between two texts.
pub fn numbers_between(
    alloc: Global,
    before: &[u8],
    count: usize,
    after: &[u8],
) -> Result<Vec<ShortText>, AllocError>
    requires short { length before.now + length after.now ≤ 13 }
    requires few { count ≤ 1000 }
    ensures count { IfOk result (λ v. vec_len v ≡ count) }
    ensures texts { IfOk result (λ v. HasNumbers v.items count before.now after.now) }
{
    let mut texts = Vec::with_capacity(alloc, count)?;
    let mut text = Vec::new(alloc);
    for n in 0..count {
        text.clear();
        text.extend_from_slice(before)?;
        push_small(&mut text, n as u64)?;
        text.extend_from_slice(after)?;
        texts.push(ShortText::new(text.as_slice()))?;
    }
    Ok(texts)
}
