//! A bus on wires without memory.

use crate::bus::wires::{BOTH, LISTEN_FIVE, LISTEN_FOUR_SEVENTH, put, take_all, wires};
use Input::{Byte, Select};
use Item::Sent;
use pr_bus::Wires;
use pr_refusals::most_refusals;
use pr_serial::{Input, Item, Serial};
use pr_wire::Edge;
use std::process::Abort;
use std::rt::Env;

/// LISTEN to printer 4 with secondary address 7, LISTEN to printer 5, and then bytes.
static SCRIPT: [Item; 6] = [
    LISTEN_FOUR_SEVENTH,
    LISTEN_FIVE,
    Sent(2, false),
    Sent(3, false),
    Sent(4, false),
    Sent(5, false),
];

/// What printer 4 hears of the script: the first attention selects twice.
static FOUR_HEARS: [Input; 6] = [
    Select(false),
    Select(true),
    Byte(2),
    Byte(3),
    Byte(4),
    Byte(5),
];

/// What printer 5 hears of the script.
static FIVE_HEARS: [Input; 5] = [Select(false), Byte(2), Byte(3), Byte(4), Byte(5)];

/// After this many items of the script: its end, the edges so far, and how many inputs printers 4 and 5 have
/// heard.
///
/// The look takes 1100 and each frame of an attention 830, a second look 1000 more, ATN's release 100; a
/// byte 930. The start is an edge; the first attention has 43, the second 22, each byte 20.
static SHOWN: [(u64, usize, usize, usize); 7] = [
    (0, 1, 0, 0),
    (3860, 44, 2, 0),
    (5890, 66, 2, 1),
    (6820, 86, 3, 2),
    (7750, 106, 4, 3),
    (8680, 126, 5, 4),
    (9610, 146, 6, 5),
];

/// A bus with both printers. Where one growth is refused, a second try is not.
fn bus_of_both(rt: &(impl Abort + AllocGlobal)) -> Wires {
    match wires(rt, BOTH) {
        Ok(bus) => bus,
        Err(_) => wires(rt, BOTH).expect(rt, "memory"),
    }
}

/// What is shown, and what both printers hear, for callers whose proofs do not read it.
fn wanted() -> (
    &'static [(u64, usize, usize, usize)],
    &'static [Input],
    &'static [Input],
) {
    (&SHOWN, &FOUR_HEARS, &FIVE_HEARS)
}

/// Whether both printers heard so many inputs of the script.
fn are_heard(bus: &Wires, four: usize, five: usize) -> bool {
    let (_shown, four_hears, five_hears) = wanted();
    four_hears.get(..four) == Some(bus.heard(4)) && five_hears.get(..five) == Some(bus.heard(5))
}

/// Whether the bus shows what came of this many items of the script, and no more.
fn shows(bus: &Wires, answered: usize) -> bool {
    let Some(&(end, edges, four, five)) = wanted().0.get(answered) else {
        return false;
    };
    bus.items() == answered as u64
        && bus.now() == end
        && bus.trace().len() == edges
        && take_all(bus, BOTH, edges)
        && are_heard(bus, four, five)
}

/// Sends the script, and returns how many items were answered. After the first that is refused each is
/// refused, and the bus shows what it showed before.
fn items_answered(rt: &impl Abort, bus: &mut Wires) -> usize {
    let mut answered = 0;
    for (number, item) in SCRIPT.iter().enumerate() {
        let answer = put(rt, bus, *item);
        let is_answered = answered == number && answer.is_ok();
        if is_answered {
            answered = number + 1;
        }
        let is_well = (answer == Ok(true)) == is_answered
            && answer.is_err() != is_answered
            && bus.failed() != is_answered
            && shows(bus, answered);
        assert!(rt; is_well, "item {number}");
    }
    answered
}

/// Whether this many items of two runs may be answered. Since one growth at most is refused, one run at least
/// is answered whole, and both where none may be.
fn may_be_answered(rt: &impl Env, answered: usize, again: usize) -> bool {
    let is_first_whole = answered == SCRIPT.len();
    let is_second_whole = again == SCRIPT.len();
    is_first_whole && is_second_whole
        || (is_first_whole || is_second_whole) && most_refusals(rt) > 0
}

/// Whether one trace is a front of the other.
fn is_front(first: &[Edge], second: &[Edge]) -> bool {
    first.starts_with(second) || second.starts_with(first)
}

/// `tests/rows/growths` runs this with each growth in turn refused.
#[test]
fn each_growth_refused(rt: HostRuntime) {
    let mut first = bus_of_both(&rt);
    let mut second = bus_of_both(&rt);
    let answered = items_answered(&rt, &mut first);
    let again = items_answered(&rt, &mut second);
    let is_well = may_be_answered(&rt, answered, again) && is_front(first.trace(), second.trace());
    assert!(rt; is_well);
}
