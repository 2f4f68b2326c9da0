//! Room for what printers hear.

use crate::bus::wires::{LISTEN_FOUR, ONLY_FOUR, put, wires};
use pr_bus::Wires;
use pr_refusals::most_refusals;
use pr_serial::Item::Sent;
use std::process::Abort;

/// Sends a LISTEN to printer 4 and forty bytes, up to a refusal, and returns whether there was none.
fn sends_forty(rt: &impl Abort, bus: &mut Wires) -> bool {
    let mut is_sent = put(rt, bus, LISTEN_FOUR).is_ok();
    for byte in 0..40 {
        is_sent = is_sent && put(rt, bus, Sent(byte, false)).is_ok();
    }
    is_sent
}

/// Whether memory is refused where printer 5 is absent.
fn is_refused(rt: &(impl Abort + AllocGlobal)) -> bool {
    match wires(rt, ONLY_FOUR) {
        Ok(mut bus) => !sends_forty(rt, &mut bus),
        Err(_refused) => true,
    }
}

/// An item gets room for two inputs of a present printer, not for as many as it has edges, and none for an absent one. So
/// `tests/rows/growths` runs this with each growth refused, and needs their number: more room takes fewer growths, room
/// for printer 5 takes more.
#[test]
fn room_for_inputs(rt: HostRuntime) {
    assert!(rt; usize::from(is_refused(&rt)) <= most_refusals(&rt));
}
