//! As many bytes over the wires as the environment asks for, which `make bench` measures.

use crate::bus::wires::{BOTH, LISTEN_FOUR, put, wires};
use pr_bus::Wires;
use pr_serial::Serial;
use std::env::FillError;
use std::process::Abort;
use std::rt::Env;

/// How many bytes are sent before their edges are forgotten.
const ROUND_BYTES: u64 = 1000;

/// How many times 1,000 bytes the variable BUS_ROUNDS asks for, or 1.
fn rounds_wanted(rt: &(impl Abort + Env)) -> u64 {
    let mut digits = [0; 8];
    let count = match rt.var("BUS_ROUNDS", &mut digits) {
        Err(FillError::NotPresent) => return 1,
        other => other.ok().expect(rt, "at most 8 digits"),
    };
    assert!(rt; count <= digits.len());
    let text = str::from_utf8(&digits[..count]).expect(rt, "text");
    text.parse().expect(rt, "a number")
}

/// Sends 1,000 bytes, which are answered, and forgets their edges.
fn send_round(rt: &impl Abort, bus: &mut Wires) -> bool {
    let mut is_well = true;
    for _byte in 0..ROUND_BYTES {
        assert!(rt; bus.items() < 4_000_000_000);
        is_well = is_well && bus.send(72, false) == Ok(true);
    }
    is_well = is_well
        && bus.trace().len() == 20 * ROUND_BYTES as usize
        && bus.heard(4).len() == ROUND_BYTES as usize;
    bus.forget();
    is_well
}

/// Both printers hear each byte's 20 edges, in 930 microseconds; printer 4 listens.
#[test]
fn many_bytes_over_the_wires(rt: HostRuntime) {
    let rounds = rounds_wanted(&rt);
    assert!(rt; rounds <= 1_000_000);
    let mut bus = wires(&rt, BOTH).expect(&rt, "memory");
    let is_well = put(&rt, &mut bus, LISTEN_FOUR) == Ok(true) && bus.now() == 2030;
    assert!(rt; is_well);
    bus.forget();
    for _round in 0..rounds {
        let is_sent = send_round(&rt, &mut bus);
        assert!(rt; is_sent);
    }
    let is_on_time = bus.now() == 2030 + 930 * ROUND_BYTES * rounds;
    assert!(rt; is_on_time);
}
