//! A document as its objects come.

ghost use Rattle.std.specs.Prelude.{◌≡◌, ◌+◌, ◌<◌, ◌∷◌, ◌++◌, [], decimal, flat_map, length, replicate, IfOk, OnOk};
ghost use Rattle.pr_pdf.specs.Parts.{object_begin};
ghost use Rattle.pr_pdf.specs.Pdf.{place_pdf, stream_pdf, table_pdf, trailer_pdf};
ghost use Rattle.pr_pdf.specs.Linked.{Adds, HasBodies};

use crate::adding::push_between;
use crate::parts::{
    header, object_begin, object_end, place_end, stream_begin, stream_bytes, stream_end,
    table_begin, table_free, trailer_begin, trailer_end, trailer_root,
};
use itoa::Buffer;
use pr_render::push_small;
use std::alloc::{AllocError, Global};

/// The objects so far, and where each begins.
#[derive(Drop)]
pub struct Document {
    pub text: Vec<u8>,
    pub places: Vec<u64>,
}

/// Adds zeros.
fn push_zeros(text: &mut Vec<u8>, count: usize) -> Result<(), AllocError>
    ensures { OnOk result (text.new.items ≡ text.old.items ++ replicate count 48) }
{
    for _zero in 0..count {
        text.push(b'0')?;
    }
    Ok(())
}

/// Adds a place in ten digits.
#[tactic(auto, unfolding(crate::specs::Pdf::place_pdf))]
fn push_place(text: &mut Vec<u8>, place: u64) -> Result<(), AllocError>
    ensures { OnOk result (text.new.items ≡ text.old.items ++ place_pdf place) }
{
    let mut buffer = Buffer::new();
    let digits = buffer.format(place).as_bytes();
    push_zeros(text, 10_usize.saturating_sub(digits.len()))?;
    text.extend_from_slice(digits)?;
    text.extend_from_slice(place_end())
}

/// Adds places.
fn push_places(text: &mut Vec<u8>, places: &[u64]) -> Result<(), AllocError>
    ensures { OnOk result (text.new.items ≡ text.old.items ++ flat_map place_pdf places.now) }
{
    for place in places {
        push_place(text, *place)?;
    }
    Ok(())
}

/// Adds the table of places.
#[tactic(auto, unfolding(crate::specs::Pdf::table_pdf))]
fn push_table(text: &mut Vec<u8>, places: &[u64]) -> Result<(), AllocError>
    ensures { OnOk result (text.new.items ≡ text.old.items ++ table_pdf places.now) }
{
    let count = places.len() as u64 + 1;
    push_between(text, table_begin(), count, table_free())?;
    push_places(text, places)
}

/// Adds the trailer.
#[tactic(auto, unfolding(crate::specs::Pdf::trailer_pdf))]
fn push_trailer(text: &mut Vec<u8>, count: u64, table: u64) -> Result<(), AllocError>
    requires { count < 18446744073709551615 }
    ensures { OnOk result (text.new.items ≡ text.old.items ++ trailer_pdf count table) }
{
    push_between(text, trailer_begin(), count + 1, trailer_root())?;
    push_small(text, table)?;
    text.extend_from_slice(trailer_end())
}

/// Adds a stream of bytes.
#[tactic(auto, unfolding(crate::specs::Pdf::stream_pdf))]
fn push_stream(text: &mut Vec<u8>, bytes: &[u8]) -> Result<(), AllocError>
    ensures { OnOk result (text.new.items ≡ text.old.items ++ stream_pdf bytes.now) }
{
    push_between(text, stream_begin(), bytes.len() as u64, stream_bytes())?;
    text.extend_from_slice(bytes)?;
    text.extend_from_slice(stream_end())
}

impl Document {
    /// A document without objects.
    #[tactic(auto, unfolding(crate::specs::Pdf::front_pdf))]
    pub fn new(alloc: Global) -> Result<Document, AllocError>
        ensures { IfOk result (λ d. HasBodies [] d) }
    {
        Ok(Document {
            text: Vec::from_slice(alloc, header())?,
            places: Vec::new(alloc),
        })
    }

    /// Begins the next object.
    fn begin(&mut self) -> Result<(), AllocError>
        ensures text { OnOk result (self.new.text.items ≡ self.old.text.items ++ (decimal (length self.old.places.items + 1) ++ object_begin)) }
        ensures places { OnOk result (self.new.places.items ≡ self.old.places.items ++ length self.old.text.items ∷ []) }
    {
        self.places.push(self.text.len() as u64)?;
        push_small(&mut self.text, self.places.len() as u64)?;
        self.text.extend_from_slice(object_begin())
    }

    /// Adds an object.
    pub fn add(&mut self, body: &[u8]) -> Result<(), AllocError>
        ensures { OnOk result (Adds (body.now ∷ []) self.old self.new) }
    {
        self.begin()?;
        self.text.extend_from_slice(body)?;
        self.text.extend_from_slice(object_end())?;
        Ok(())
    }

    /// Adds an object that is a stream.
    pub fn add_stream(&mut self, bytes: &[u8]) -> Result<(), AllocError>
        ensures { OnOk result (Adds (stream_pdf bytes.now ∷ []) self.old self.new) }
    {
        self.begin()?;
        push_stream(&mut self.text, bytes)?;
        self.text.extend_from_slice(object_end())?;
        Ok(())
    }

    /// The document as a file: the objects, the table of their places and the trailer.
    pub fn finish(self) -> Result<Vec<u8>, AllocError>
        ensures { IfOk result (λ file. file.items ≡ self.text.items ++ table_pdf self.places.items ++ trailer_pdf (length self.places.items) (length self.text.items)) }
    {
        let Document { mut text, places } = self;
        let table = text.len() as u64;
        push_table(&mut text, places.as_slice())?;
        push_trailer(&mut text, places.len() as u64, table)?;
        Ok(text)
    }
}
