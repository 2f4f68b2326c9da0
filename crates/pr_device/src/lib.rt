//! A device on the serial bus that hears and answers: what it pulls and releases, and when.
//!
//! The headline is on [`Device::step`]: whatever the lines do, it gives the event that the definition of
//! hearing says (`specs/Following.antt`, `specs/Events.antt`), and does to DATA what the rule says
//! (`specs/Data.antt`). The laws of [`laws`] say what that means: a device hears of any talker whose
//! moves are those of `specs/Talkers.antt`, among them the KERNAL's, the bytes that it sends, and of a
//! lawful trace what a receiver of pr_receiver hears of it. The law of the pair,
//! [`laws::pairs_make_traces`], says that the talker of pr_bus and two devices on one line make the timed
//! trace of any items, and [`laws::wakes_suffice`] that a device does so if it is called at its wakes.
//!
//! An emulator or an adapter keeps a [`Device`] for each printer. It calls [`Device::step`] at each change of a
//! line and at each wake, pulls DATA where the step says so, and gives [`Event::input`] of what the device hears
//! to a printer of `pr_page`. Where printing is to take time, it calls [`Device::busy`] with [`printing_time`].
//!
//! - `timing` has a device's delays, `event` what it hears of a byte, `place` how the lines lead from one
//!   byte to the next.
//! - `state` has all that a device keeps: it follows the lines, hears, and answers.
//! - `printing` has how long a printer prints, for [`Device::busy`].
//! - `device` is the public face, with the relation `HasSeen` in its contracts.
//! - `laws` has the laws. Their proofs: `Walking`, `Bits` and `Talking` go over moves, `Sharing` says what
//!   devices do together, `Making` makes a frame, `Calling` an attention, `Items` an item, `Traces` all
//!   items; `Shown` has the calls at wakes, `Numbering` the numbers that make delays; `Forward` goes over the
//!   moments of lawful traces, and `PairCalls` has the calls of the pair.
//!
//! A device keeps no history. In contracts a history is the list of all moments that a device was shown,
//! the latest first.
#![tactic(auto)]

mod device;
mod event;
pub mod laws;
mod place;
mod printing;
mod state;
mod timing;

pub use device::Device;
pub use event::Event;
pub use place::Place;
pub use printing::{Speed, printing_time};
pub use state::{State, Step};
pub use timing::Timing;
