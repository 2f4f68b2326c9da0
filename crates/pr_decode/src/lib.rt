//! What any recording of the serial bus says, whoever made it and however it begins.
//!
//! The headline is on [`Decoder`]: of any edges it gives exactly the readings that
//! `specs/Readings.antt` defines: each byte with its moments, and where a byte was begun and not
//! ended. No recording is refused; only a time may not go back.
//!
//! - `reading` has the types of what a recording says of its bytes.
//! - `clock_phase` is the time in which CLOCK stays as it is, by its first edge, its last and the changes
//!   of DATA in it, four at most. `decoder` keeps the phase that has not ended and the byte that has begun.
//! - `frame` gives the frame of a byte that was acknowledged. `laws` has the laws of the definitions.
//!
//! `specs/ClockPhases.antt` and `specs/Readings.antt` define the readings over whole phases,
//! `specs/PieceReadings.antt` what that is on lawful traces. A decoder keeps no history (`HasReadings`):
//! an edge that settles a byte is taken as if no byte had begun (`proofs/Moving.antt`), each other edge is
//! one step (`proofs/DecoderSteps.antt`); whole bits are such steps two at a time (`proofs/Passing.antt`).
//! `proofs/FrameRead.antt` and `PiecesRead.antt` go over the pieces of lawful traces by the same two.
#![tactic(auto)]

mod clock_phase;
mod decoder;
mod frame;
mod laws;
mod reading;

pub use clock_phase::{ClockPhase, DataTransitions};
pub use decoder::{Decoder, GoesBack};
pub use frame::acknowledged_frame;
pub use laws::{moments_decide, readings_add_up, traces_are_read};
pub use reading::{FrameEnd, Halves, IncompleteEnd, Opening, Pulse, Reading, Transfer};
