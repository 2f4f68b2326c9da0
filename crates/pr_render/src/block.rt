//! Short texts in a block of bytes: one copy adds them to a longer one.

ghost use Rattle.std.specs.Prelude.{◌≡◌, ◌+◌, ◌≤◌, ◌++◌, decimal, length, take};
ghost use Rattle.pr_render.specs.Words.{text_if};

use itoa::Buffer;

/// Puts a part into a block after its first bytes, and says how many these are then.
#[inline(always)]
pub fn put(block: &mut [u8], at: usize, part: &[u8]) -> usize
    requires { at + length part.now ≤ length block.old }
    ensures text { take result block.new ≡ take at block.old ++ part.now }
    ensures end { result ≡ at + length part.now }
    ensures length { length block.new ≡ length block.old }
{
    let end = at + part.len();
    block[at..end].copy_from_slice(part);
    end
}

/// The same where a test holds, else nothing.
#[inline(always)]
pub fn put_if(block: &mut [u8], at: usize, holds: bool, part: &[u8]) -> usize
    requires { at + length part.now ≤ length block.old }
    ensures text { take result block.new ≡ take at block.old ++ text_if holds part.now }
    ensures within { result ≤ at + length part.now }
    ensures length { length block.new ≡ length block.old }
{
    if holds { put(block, at, part) } else { at }
}

/// The same of a number in decimal, which has at most 20 digits.
#[inline(always)]
pub fn put_small(block: &mut [u8], at: usize, n: u64) -> usize
    requires { at + 20 ≤ length block.old }
    ensures text { take result block.new ≡ take at block.old ++ decimal n }
    ensures within { result ≤ at + 20 }
    ensures length { length block.new ≡ length block.old }
{
    let mut buffer = Buffer::new();
    put(block, at, buffer.format(n).as_bytes())
}
