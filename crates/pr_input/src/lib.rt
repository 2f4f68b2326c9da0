//! Inputs and outputs: bytes read whole or block by block, and text written whole.
//!
//! [`Watched`] wraps a reader or a writer and remembers whether a call through it has failed;
//! [`TeeReader`] keeps a copy of the bytes that it reads. [`read_whole`] reads an input up to a limit,
//! [`write_whole`] writes a text and flushes, [`write_piece`] writes a piece of one.
#![tactic(auto)]

mod read_write;
mod tee_reader;
mod watched;

pub use read_write::{BLOCK, ReadFault, WriteFault, flush, read_whole, write_piece, write_whole};
pub use tee_reader::TeeReader;
pub use watched::Watched;
