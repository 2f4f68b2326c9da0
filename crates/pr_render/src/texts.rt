//! The short texts of a picture, which are made once: what it has for a mark is ready in tables.

ghost use Rattle.std.specs.Prelude.{◌≡◌, ◌+◌, ◌≤◌, [], ◌++◌, codes, false, length, take, true, vec_len, IfOk, IfSome, MatchOption};
ghost use Rattle.pr_render.specs.Svg.{name_svg, use_svg};
ghost use Rattle.pr_render.specs.Parts.{use_begin};
ghost use Rattle.pr_render.specs.Tables.{HasLetters, HasPlaces, HasUses, letter_of};

use crate::adding::push_small;
use crate::characters::character;
use crate::letters::push_character;
use crate::parts::{use_begin, use_end, use_place};
use crate::short_text::ShortText;
use pr_page::{LINE_DOTS, Mark, Placed};
use std::alloc::{AllocError, Global};

/// The values of a byte.
const BYTES: usize = 256;

/// The short texts of a picture.
#[derive(Drop)]
pub struct Texts {
    /// The use of a plain cell in the graphic/upper case set, up to its place, by its code.
    upper_uses: Vec<ShortText>,
    /// The same in the lower/upper case set.
    lower_uses: Vec<ShortText>,
    /// The same of a column of dots, by its value.
    dots_uses: Vec<ShortText>,
    /// The rest of a use, by its dot column.
    places: Vec<ShortText>,
    /// The letter of a cell in the graphic/upper case set, by its code.
    upper_letters: Vec<ShortText>,
    /// The same in the lower/upper case set.
    lower_letters: Vec<ShortText>,
    ghost upper_uses_count: { vec_len upper_uses ≡ 256 },
    ghost upper_uses_right: { HasUses upper_uses.items (codes "u") },
    ghost lower_uses_count: { vec_len lower_uses ≡ 256 },
    ghost lower_uses_right: { HasUses lower_uses.items (codes "l") },
    ghost dots_uses_count: { vec_len dots_uses ≡ 256 },
    ghost dots_uses_right: { HasUses dots_uses.items (codes "d") },
    ghost places_count: { vec_len places ≡ 480 },
    ghost places_right: { HasPlaces places.items },
    ghost upper_letters_count: { vec_len upper_letters ≡ 256 },
    ghost upper_letters_right: { HasLetters upper_letters.items false },
    ghost lower_letters_count: { vec_len lower_letters ≡ 256 },
    ghost lower_letters_right: { HasLetters lower_letters.items true },
}

/// The uses of marks of a kind, up to their places, by code or value.
fn uses_of(alloc: Global, kind: &[u8]) -> Result<Vec<ShortText>, AllocError>
    requires { length kind.now ≤ 1 }
    ensures count { IfOk result (λ v. vec_len v ≡ 256) }
    ensures texts { IfOk result (λ v. HasUses v.items kind.now) }
{
    let mut texts = Vec::with_capacity(alloc, BYTES)?;
    let mut text = Vec::new(alloc);
    for n in 0..BYTES {
        text.clear();
        text.extend_from_slice(use_begin())?;
        text.extend_from_slice(kind)?;
        push_small(&mut text, n as u64)?;
        texts.push(ShortText::new(text.as_slice()))?;
    }
    Ok(texts)
}

/// The rests of uses, by their dot columns.
fn places(alloc: Global) -> Result<Vec<ShortText>, AllocError>
    ensures count { IfOk result (λ v. vec_len v ≡ 480) }
    ensures texts { IfOk result (λ v. HasPlaces v.items) }
{
    let mut texts = Vec::with_capacity(alloc, usize::from(LINE_DOTS))?;
    let mut text = Vec::new(alloc);
    for x in 0..LINE_DOTS {
        text.clear();
        text.extend_from_slice(use_place())?;
        push_small(&mut text, 21 * u64::from(x))?;
        text.extend_from_slice(use_end())?;
        texts.push(ShortText::new(text.as_slice()))?;
    }
    Ok(texts)
}

/// The letters of a character set, by their codes.
fn letters(alloc: Global, lower: bool) -> Result<Vec<ShortText>, AllocError>
    ensures count { IfOk result (λ v. vec_len v ≡ 256) }
    ensures texts { IfOk result (λ v. HasLetters v.items lower) }
{
    let mut texts = Vec::with_capacity(alloc, BYTES)?;
    let mut text = Vec::new(alloc);
    for n in 0..BYTES {
        text.clear();
        push_character(&mut text, character(n as u8, lower))?;
        texts.push(ShortText::new(text.as_slice()))?;
    }
    Ok(texts)
}

impl Texts {
    /// Makes them.
    pub fn new(alloc: Global) -> Result<Texts, AllocError> {
        Ok(Texts {
            upper_uses: uses_of(alloc, b"u")?,
            lower_uses: uses_of(alloc, b"l")?,
            dots_uses: uses_of(alloc, b"d")?,
            places: places(alloc)?,
            upper_letters: letters(alloc, false)?,
            lower_letters: letters(alloc, true)?,
        })
    }

    /// The use of a mark up to its place, if it is in a table.
    #[inline(always)]
    #[tactic(auto, unfolding(crate::specs::Svg::name_svg))]
    fn use_front(&self, mark: Mark) -> Option<&ShortText>
        ensures { IfSome result (λ front. front.now ≡ use_begin ++ name_svg mark) }
    {
        match mark {
            Mark::Cell {
                code,
                lower,
                reverse: false,
                wide: false,
            } => {
                let uses = if lower {
                    &self.lower_uses
                } else {
                    &self.upper_uses
                };
                Some(&uses[usize::from(code)])
            }
            Mark::Cell { .. } => None,
            Mark::Dots(value) => Some(&self.dots_uses[usize::from(value)]),
        }
    }

    /// Puts the use of a mark into a block after its first bytes, and says how many these are
    /// then; None, and the block as it was, for a mark whose use is in no table.
    #[inline(always)]
    #[tactic(auto, unfolding(crate::specs::Svg::use_svg))]
    pub fn put_use(&self, block: &mut [u8], at: usize, placed: Placed) -> Option<usize>
        requires { at + 32 ≤ length block.old }
        ensures text { MatchOption result (block.new ≡ block.old) (λ end. take end block.new ≡ take at block.old ++ use_svg placed) }
        ensures within { IfSome result (λ end. end ≤ at + 32) }
        ensures length { length block.new ≡ length block.old }
    {
        let rest = self.places.get(usize::from(placed.x))?;
        let front = self.use_front(placed.mark)?;
        let middle = front.put(block, at);
        Some(rest.put(block, middle))
    }

    /// Puts the letter of a mark into a block after its first bytes, if it has one, and says how many these are then.
    #[inline(always)]
    pub fn put_letter(&self, block: &mut [u8], at: usize, mark: Mark) -> usize
        requires { at + 16 ≤ length block.old }
        ensures text { take result block.new ≡ take at block.old ++ letter_of mark }
        ensures within { result ≤ at + 16 }
        ensures length { length block.new ≡ length block.old }
    {
        match mark {
            Mark::Cell { code, lower, .. } => {
                let letters = if lower {
                    &self.lower_letters
                } else {
                    &self.upper_letters
                };
                letters[usize::from(code)].put(block, at)
            }
            Mark::Dots(_) => at,
        }
    }
}
