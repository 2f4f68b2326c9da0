//! A decoder of recordings that sits on the wire: what a recording says edge by edge, between calls in the
//! caller's memory.

ghost use Rattle.std.specs.Prelude.{◌≡◌, ◌++◌, ◌∷◌, [], List, Option, Result, OnErr};
ghost use Rattle.pr_decode.specs.declared.decoder.GoesBack.{GoesBack};
ghost use Rattle.pr_decode.specs.declared.reading.Reading.{Reading};
ghost use Rattle.pr_ear.specs.declared.WireEdge.{WireEdge};
ghost use Rattle.pr_ear.specs.Decoding.{TellsCut, TellsNext, decoder_answer_of, reading_numbers, reading_of, settled_answer};
ghost use Rattle.pr_ear.specs.DecoderLeft.{LeavesOf};
ghost use Rattle.pr_ear.specs.DecoderTaken.{HasDecoded};

use crate::decoder_numbers::{WireDecoder, WireReading, numbers_of_reading, restore, store};
use crate::{Answer, WireEdge, edge_for, plain};
use pr_decode::{Decoder, GoesBack, Reading, readings_add_up};

/// Begins a decoder, which has taken no edge. It takes no memory.
pub fn begin_decoder(decoder: &mut WireDecoder)
    ensures { HasDecoded [] [] decoder.new }
{
    *decoder = store(&Decoder::new());
}

/// Gives a decoder the next edge of a recording, and returns the reading that it settles, if it
/// settles one. It takes no memory.
///
/// # Errors
///
/// [`GoesBack`] exactly where the edge is earlier than the one taken last. The decoder is then as it
/// was.
pub fn decode_edge(decoder: &mut WireDecoder, edge: WireEdge) -> Result<Option<Reading>, GoesBack>
    ensures tells { (edges : List WireEdge) (given : List Reading) → HasDecoded edges given decoder.old → TellsNext edges edge result }
    ensures takes { (edges : List WireEdge) (given : List Reading) → HasDecoded edges given decoder.old →
        LeavesOf edges given edge result decoder.old decoder.new }
    ensures back { OnErr result (decoder.new ≡ decoder.old) }
{
    readings_add_up();
    let mut restored = restore(decoder);
    let reading = restored.take(edge_for(edge))?;
    *decoder = store(&restored);
    Ok(reading)
}

/// Returns the reading that the end of a recording cuts, if it cuts one; with those given before,
/// it is all that the recording says. The decoder is only read, and may be given more edges. It
/// takes no memory.
pub fn end_decoder(decoder: &WireDecoder) -> Option<Reading>
    ensures { (edges : List WireEdge) (given : List Reading) → HasDecoded edges given decoder.now → TellsCut edges given result }
{
    restore(decoder).finish()
}

/// How many readings there are, as the answer of a call that succeeded.
fn settled(reading: Option<Reading>) -> Answer
    ensures { result ≡ settled_answer reading }
{
    match reading {
        None => plain(0, 0),
        Some(_) => plain(0, 1),
    }
}

/// What a decoder answers to an edge, as numbers.
fn answer(told: Result<Option<Reading>, GoesBack>) -> Answer
    ensures { result ≡ decoder_answer_of told }
{
    match told {
        Ok(reading) => settled(reading),
        Err(GoesBack) => Answer {
            code: 2,
            fault: 12,
            place: 0,
            length: 0,
        },
    }
}

/// The reading that an edge settles, as numbers.
fn reading(told: Result<Option<Reading>, GoesBack>) -> WireReading
    ensures { result ≡ reading_of told }
{
    match told {
        Ok(reading) => numbers_of_reading(reading),
        Err(GoesBack) => numbers_of_reading(None),
    }
}

/// Begins a decoder, which has taken no edge. It takes no memory.
#[unsafe(no_mangle)]
pub extern "C" fn print1525_decode_begin(decoder: &mut WireDecoder)
    ensures { HasDecoded [] [] decoder.new }
{
    begin_decoder(decoder);
}

/// Gives a decoder the next edge of a recording, and puts the reading that it settles into `out`,
/// if it settles one. `told` gets what [`decode_edge`] answers, in plain numbers. Whatever numbers
/// the decoder has, they mean some decoder. It takes no memory.
#[unsafe(no_mangle)]
pub extern "C" fn print1525_decode_edge(
    decoder: &mut WireDecoder,
    edge: &WireEdge,
    out: &mut WireReading,
    told: &mut Answer,
)
    ensures tells { (edges : List WireEdge) (given : List Reading) → HasDecoded edges given decoder.old →
        (said : Result (Option Reading) GoesBack) × TellsNext edges edge.now said
        × LeavesOf edges given edge.now said decoder.old decoder.new
        × (out.new ≡ reading_of said) × (told.new ≡ decoder_answer_of said) }
    ensures any { (said : Result (Option Reading) GoesBack) × OnErr said (decoder.new ≡ decoder.old)
        × (out.new ≡ reading_of said) × (told.new ≡ decoder_answer_of said) }
{
    let said = decode_edge(decoder, *edge);
    *out = reading(said);
    *told = answer(said);
}

/// Puts the reading that the end of a recording cuts into `out`, if it cuts one. `told` gets how many
/// there are, 0 or 1. Whatever numbers the decoder has, they mean some decoder. It takes no memory.
#[unsafe(no_mangle)]
pub extern "C" fn print1525_decode_end(
    decoder: &WireDecoder,
    out: &mut WireReading,
    told: &mut Answer,
)
    ensures tells { (edges : List WireEdge) (given : List Reading) → HasDecoded edges given decoder.now →
        (cut : Option Reading) × TellsCut edges given cut × (out.new ≡ reading_numbers cut) × (told.new ≡ settled_answer cut) }
    ensures any { (cut : Option Reading) × (out.new ≡ reading_numbers cut) × (told.new ≡ settled_answer cut) }
{
    let cut = end_decoder(decoder);
    *out = numbers_of_reading(cut);
    *told = settled(cut);
}
