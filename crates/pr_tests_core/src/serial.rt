//! What printers answer and hear on a bus without wires.

use pr_refusals::most_refusals;
use pr_serial::Input::{self, Byte, Select};
use pr_serial::{Direct, NoMemory, Present, Serial};
use std::process::Abort;
use std::rt::Env;

const NONE: Present = Present {
    four: false,
    five: false,
};

const ONLY_FOUR: Present = Present {
    four: true,
    five: false,
};

const BOTH: Present = Present {
    four: true,
    five: true,
};

/// The graphic/upper case set is selected.
const UPPER: Input = Select(false);

/// The lower/upper case set is selected.
const LOWER: Input = Select(true);

/// A call.
#[derive(Clone, Copy)]
enum Call {
    ListenFour,
    /// With secondary address 7.
    ListenFourLower,
    ListenFive,
    Unlisten,
    Send(u8, bool),
    Forget,
}

/// A call and whether a printer answers it, and what is seen after it: the number of items, the
/// mark, and what printers 4 and 5 heard.
type Row = (
    Call,
    bool,
    u64,
    Option<u64>,
    &'static [Input],
    &'static [Input],
);

/// What is seen of a new bus.
const NEW: Row = (Call::Forget, true, 0, None, &[], &[]);

/// Makes a call, and returns whether a printer answers it; forgetting needs none.
fn answer(rt: &impl Abort, bus: &mut Direct, call: Call) -> Result<bool, NoMemory> {
    assert!(rt; bus.items() < 1000);
    match call {
        Call::ListenFour => bus.attention(36, None),
        Call::ListenFourLower => bus.attention(36, Some(103)),
        Call::ListenFive => bus.attention(37, None),
        Call::Unlisten => bus.attention(63, None),
        Call::Send(byte, eoi) => bus.send(byte, eoi),
        Call::Forget => {
            bus.forget();
            Ok(true)
        }
    }
}

/// Whether the bus shows what a row says.
fn shows(bus: &Direct, row: Row) -> bool {
    let (_call, _answer, items, mark, four, five) = row;
    bus.items() == items && bus.mark() == mark && bus.heard(4) == four && bus.heard(5) == five
}

/// Makes a call, and returns whether it is done; it is then answered as its row says. The bus fails with one that is refused.
fn is_done(rt: &impl Abort, bus: &mut Direct, row: &Row) -> bool {
    match answer(rt, bus, row.0) {
        Ok(is_answered) => {
            assert!(rt; is_answered == row.1 && !bus.failed());
            true
        }
        Err(_refused) => {
            assert!(rt; bus.failed());
            false
        }
    }
}

/// Makes calls on a new bus, and returns how many were done. After the first that is refused each call
/// is refused, and the bus shows what it showed before.
fn calls_done(rt: &(impl Abort + AllocGlobal), present: Present, rows: &[Row]) -> usize {
    let mut bus = Direct::new(rt.alloc(), present);
    let mut seen = NEW;
    let mut done: usize = 0;
    for (number, row) in rows.iter().enumerate() {
        if is_done(rt, &mut bus, row) {
            assert!(rt; done == number, "call {number}");
            done = done.saturating_add(1);
            seen = *row;
        }
        assert!(rt; shows(&bus, seen), "call {number}");
    }
    done
}

/// Nobody is there.
const NOBODY: [Row; 4] = [
    (Call::ListenFour, false, 1, None, &[], &[]),
    (Call::Send(65, false), false, 2, None, &[], &[]),
    (Call::Send(13, true), false, 3, None, &[], &[]),
    (Call::Unlisten, false, 4, None, &[], &[]),
];

/// Printer 4 alone is there, and 5 is called.
const ABSENT_FIVE: [Row; 4] = [
    (Call::ListenFive, true, 1, None, &[], &[]),
    (Call::Send(65, false), false, 2, None, &[], &[]),
    (Call::Send(13, true), false, 3, None, &[], &[]),
    (Call::Unlisten, true, 4, None, &[], &[]),
];

/// Printer 4 alone is there, and it is called.
const PRESENT_FOUR: [Row; 4] = [
    (Call::ListenFour, true, 1, None, &[UPPER], &[]),
    (
        Call::Send(65, false),
        true,
        2,
        None,
        &[UPPER, Byte(65)],
        &[],
    ),
    (
        Call::Send(13, true),
        true,
        3,
        None,
        &[UPPER, Byte(65), Byte(13)],
        &[],
    ),
    (
        Call::Unlisten,
        true,
        4,
        None,
        &[UPPER, Byte(65), Byte(13)],
        &[],
    ),
];

/// Both printers listen, one with secondary address 7.
const BOTH_HEAR: [Row; 7] = [
    (Call::ListenFourLower, true, 1, None, &[UPPER, LOWER], &[]),
    (Call::ListenFive, true, 2, None, &[UPPER, LOWER], &[UPPER]),
    (
        Call::Send(88, true),
        true,
        3,
        None,
        &[UPPER, LOWER, Byte(88)],
        &[UPPER, Byte(88)],
    ),
    (
        Call::Unlisten,
        true,
        4,
        None,
        &[UPPER, LOWER, Byte(88)],
        &[UPPER, Byte(88)],
    ),
    (
        Call::Send(89, true),
        false,
        5,
        None,
        &[UPPER, LOWER, Byte(88)],
        &[UPPER, Byte(88)],
    ),
    (Call::Forget, true, 5, Some(5), &[], &[]),
    (Call::ListenFive, true, 6, Some(5), &[], &[UPPER]),
];

/// Both listen, and hear so many bytes that each list grows.
static GROWING: [Row; 6] = [
    (Call::ListenFourLower, true, 1, None, &[UPPER, LOWER], &[]),
    (Call::ListenFive, true, 2, None, &[UPPER, LOWER], &[UPPER]),
    (
        Call::Send(2, false),
        true,
        3,
        None,
        &[UPPER, LOWER, Byte(2)],
        &[UPPER, Byte(2)],
    ),
    (
        Call::Send(3, false),
        true,
        4,
        None,
        &[UPPER, LOWER, Byte(2), Byte(3)],
        &[UPPER, Byte(2), Byte(3)],
    ),
    (
        Call::Send(4, false),
        true,
        5,
        None,
        &[UPPER, LOWER, Byte(2), Byte(3), Byte(4)],
        &[UPPER, Byte(2), Byte(3), Byte(4)],
    ),
    (
        Call::Send(5, false),
        true,
        6,
        None,
        &[UPPER, LOWER, Byte(2), Byte(3), Byte(4), Byte(5)],
        &[UPPER, Byte(2), Byte(3), Byte(4), Byte(5)],
    ),
];

/// Calls on a new bus with these printers.
struct Worked {
    name: &'static str,
    present: Present,
    rows: &'static [Row],
}

static WORKED: [Worked; 4] = [
    Worked {
        name: "nobody",
        present: NONE,
        rows: &NOBODY,
    },
    Worked {
        name: "5 is called, and 4 is there",
        present: ONLY_FOUR,
        rows: &ABSENT_FIVE,
    },
    Worked {
        name: "4 is called, and alone",
        present: ONLY_FOUR,
        rows: &PRESENT_FOUR,
    },
    Worked {
        name: "both_hear_until_unlisten",
        present: BOTH,
        rows: &BOTH_HEAR,
    },
];

/// Those, the calls of printer 4 alone, and those under which each list grows, for callers whose proofs do not read them.
fn worked_rows() -> (&'static [Worked], &'static [Row], &'static [Row]) {
    (&WORKED, &PRESENT_FOUR, &GROWING)
}

#[test]
fn answers_by_presence(rt: HostRuntime) {
    for calls in worked_rows().0 {
        let done = calls_done(&rt, calls.present, calls.rows);
        assert!(rt; done == calls.rows.len(), "{}", calls.name);
    }
}

/// `tests/rows/growths` runs this with each growth in turn refused. Since only one is, at least one of two
/// runs of the rows is done whole. With no growth refused both are.
#[test]
fn each_growth_refused(rt: HostRuntime) {
    let rows = worked_rows().2;
    let done = calls_done(&rt, BOTH, rows);
    let again = calls_done(&rt, BOTH, rows);
    let refusals = usize::from(done < rows.len()) + usize::from(again < rows.len());
    assert!(rt; refusals <= most_refusals(&rt));
}

/// An absent printer has no room for inputs: of the three growths one is that of the items, and two
/// are those of what printer 4 hears. `tests/rows/growths` runs this with each one refused.
#[test]
fn room_for_inputs(rt: HostRuntime) {
    let is_done = calls_done(&rt, ONLY_FOUR, worked_rows().1) == 4;
    let mut text = [0; 8];
    let is_digit = matches!(rt.var("FAULT_ALLOC", &mut text), Ok(1));
    let is_growth = is_digit && text[0] >= b'1' && text[0] <= b'3';
    assert!(rt; is_done != is_growth);
}
