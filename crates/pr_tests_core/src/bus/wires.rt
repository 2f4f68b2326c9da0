//! Worked runs of items over the wires (profile): what each is answered, when it ends, and what the bus keeps of it.

ghost use Rattle.std.specs.Prelude.{◌≡◌, ◌≤◌};
ghost use Rattle.pr_bus.specs.Sums.{edge_share, time_share};

use Input::{Byte, Select};
use Item::{Attention, Sent};
use pr_bus::{Delays, Wires};
use pr_serial::{Input, Item, NoMemory, Present, Serial};
use pr_wire::example::TRACE_TEXT;
use pr_wire::{Choices, read_trace};
use std::process::Abort;

const NONE: Present = Present {
    four: false,
    five: false,
};

pub const ONLY_FOUR: Present = Present {
    four: true,
    five: false,
};

pub const BOTH: Present = Present {
    four: true,
    five: true,
};

pub const LISTEN_FOUR: Item = Attention(36, None);

pub const LISTEN_FIVE: Item = Attention(37, None);

const UNLISTEN: Item = Attention(63, None);

/// LISTEN to printer 4 with secondary address 7.
pub const LISTEN_FOUR_SEVENTH: Item = Attention(36, Some(103));

/// An item, whether it is answered, and the moment at which it ends.
type Step = (Item, bool, u64);

/// Items, and what the bus keeps of them.
struct Part {
    steps: &'static [Step],
    edges: usize,
    /// Stretches of these edges as text, each after the number of its first.
    trace: &'static [(usize, &'static str)],
    /// What printer 4 hears.
    four: &'static [Input],
    /// What printer 5 hears.
    five: &'static [Input],
}

/// A run on a new bus.
struct Run {
    name: &'static str,
    present: Present,
    /// The numbers that the computer, printer 4 and printer 5 draw on.
    numbers: [&'static [u16]; 3],
    /// The bus forgets between two parts.
    parts: &'static [Part],
}

/// All delays are typical.
const TYPICAL: [&[u16]; 3] = [&[], &[], &[]];

/// LISTEN to printer 4, two letters, a return and UNLISTEN.
const TWO_LETTERS: [Step; 5] = [
    (LISTEN_FOUR, true, 2030),
    (Sent(72, false), true, 2960),
    (Sent(73, false), true, 3890),
    (Sent(13, true), true, 5140),
    (UNLISTEN, true, 7270),
];

/// LISTEN to printer 5 with only printer 4 present, as trace text, after the start.
const LISTEN_TO_ANOTHER: &str = "\
    100 001\n200 000\n1100 010\n\
    1150 011\n1190 001\n1260 011\n1280 000\n\
    1350 010\n1370 001\n1440 011\n1460 000\n\
    1530 010\n1550 000\n1620 010\n1640 001\n\
    1710 011\n1730 000\n1800 010\n1820 000\n\
    1890 010\n1910 001\n1930 000\n2030 100\n\
";

/// The byte dropped after it.
const DROPPED: &str = "2050 101\n2130 111\n";

/// The UNLISTEN after two such bytes.
const UNLISTEN_AT_REST: &str = "\
    2330 001\n2430 000\n3330 010\n3380 011\n\
    3420 001\n3490 011\n3510 001\n3580 011\n\
    3600 001\n3670 011\n3690 001\n3760 011\n\
    3780 001\n3850 011\n3870 001\n3940 011\n\
    3960 000\n4030 010\n4050 000\n4120 010\n\
    4140 001\n4160 000\n4260 100\n4280 101\n\
    4360 111\n\
";

/// LISTEN to printer 4. The wait before ATN is 1000, the look 1999 after it, the answer 10.
const CHOSEN: &str = "\
    0 111\n1000 001\n1010 000\n2999 010\n\
    3049 011\n3089 000\n3159 010\n3179 000\n\
    3249 010\n3269 001\n3339 011\n3359 000\n\
    3429 010\n3449 000\n3519 010\n3539 001\n\
    3609 011\n3629 000\n3699 010\n3719 000\n\
    3789 010\n3809 001\n3829 000\n3929 100\n\
";

/// LISTEN to printer 4, which answers in the microsecond of the look.
const ANSWER_AT_THE_LOOK: &str = "\
    0 111\n100 001\n1100 010\n\
    1150 011\n1190 000\n1260 010\n1280 000\n\
    1350 010\n1370 001\n1440 011\n1460 000\n\
    1530 010\n1550 000\n1620 010\n1640 001\n\
    1710 011\n1730 000\n1800 010\n1820 000\n\
    1890 010\n1910 001\n1930 000\n2030 100\n\
";

/// Two printers with lists of their own, of which only printer 4 listens: who takes which number. It is worked out in
/// tests/rows/numbers_of_one_listener.case.
const ONE_LISTENER: &str = "\
    0 111\n100 001\n103 000\n1100 010\n\
    1120 011\n1160 000\n1230 010\n1250 000\n\
    1320 010\n1340 001\n1410 011\n1430 000\n\
    1500 010\n1520 000\n1590 010\n1610 001\n\
    1680 011\n1700 000\n1770 010\n1790 000\n\
    1860 010\n1880 001\n1881 000\n1981 100\n\
    2081 110\n2181 111\n2388 110\n2473 111\n\
    2503 101\n2573 111\n2593 100\n2663 110\n\
    2683 100\n2753 110\n2773 100\n2843 110\n\
    2863 100\n2933 110\n2953 100\n3023 110\n\
    3043 101\n3113 111\n3133 100\n3203 110\n\
    3223 101\n3225 100\n\
    3325 000\n4325 010\n4385 011\n4425 001\n\
    4495 011\n4515 001\n4585 011\n4605 001\n\
    4675 011\n4695 001\n4765 011\n4785 001\n\
    4855 011\n4875 001\n4945 011\n4965 000\n\
    5035 010\n5055 000\n5125 010\n5145 001\n\
    5147 000\n5247 100\n5269 101\n5347 111\n\
";

/// The computer's greatest delays of LISTEN, a return with end-or-identify and UNLISTEN.
const GREATEST: [u16; 59] = [
    900, 1000, 198, 180, 180, 180, 180, 180, 180, 180, 180, 180, 180, 180, 180, 180, 180, 180, 180,
    100, 900, 59, 180, 180, 180, 180, 180, 180, 180, 180, 180, 180, 180, 180, 180, 180, 180, 180,
    900, 1000, 198, 180, 180, 180, 180, 180, 180, 180, 180, 180, 180, 180, 180, 180, 180, 180, 180,
    100, 100,
];

/// The computer's greatest delays of LISTEN with a secondary address.
const GREATEST_OF_TWO: [u16; 38] = [
    900, 1000, 198, 180, 180, 180, 180, 180, 180, 180, 180, 180, 180, 180, 180, 180, 180, 180, 180,
    1000, 198, 180, 180, 180, 180, 180, 180, 180, 180, 180, 180, 180, 180, 180, 180, 180, 180, 100,
];

/// The runs.
static RUNS: [Run; 15] = [
    Run {
        name: "nobody_on_the_wires, nothing sent",
        present: NONE,
        numbers: TYPICAL,
        parts: &[Part {
            steps: &[],
            edges: 1,
            trace: &[(0, "0 111\n")],
            four: &[],
            five: &[],
        }],
    },
    Run {
        name: "nobody_on_the_wires, LISTEN",
        present: NONE,
        numbers: TYPICAL,
        parts: &[Part {
            steps: &[(LISTEN_FOUR, false, 1100)],
            edges: 3,
            trace: &[(0, "0 111\n100 001\n1100 111\n")],
            four: &[],
            five: &[],
        }],
    },
    Run {
        name: "nobody_on_the_wires",
        present: NONE,
        numbers: TYPICAL,
        parts: &[Part {
            steps: &[(LISTEN_FOUR, false, 1100), (Sent(65, false), false, 1200)],
            edges: 3,
            trace: &[(0, "0 111\n100 001\n1100 111\n")],
            four: &[],
            five: &[],
        }],
    },
    Run {
        name: "one_printer_not_addressed",
        present: ONLY_FOUR,
        numbers: TYPICAL,
        parts: &[Part {
            steps: &[
                (LISTEN_FIVE, true, 2030),
                (Sent(65, false), false, 2130),
                (Sent(13, true), false, 2230),
                (UNLISTEN, true, 4360),
            ],
            edges: 51,
            trace: &[
                (0, "0 111\n"),
                (1, LISTEN_TO_ANOTHER),
                (24, DROPPED),
                (26, UNLISTEN_AT_REST),
            ],
            four: &[],
            five: &[],
        }],
    },
    Run {
        name: "edges_of_each_step",
        present: ONLY_FOUR,
        numbers: TYPICAL,
        parts: &[
            Part {
                steps: &[],
                edges: 1,
                trace: &[(0, "0 111\n")],
                four: &[],
                five: &[],
            },
            Part {
                steps: &[(LISTEN_FIVE, true, 2030)],
                edges: 23,
                trace: &[(0, LISTEN_TO_ANOTHER)],
                four: &[],
                five: &[],
            },
            Part {
                steps: &[(Sent(65, false), false, 2130)],
                edges: 2,
                trace: &[(0, DROPPED)],
                four: &[],
                five: &[],
            },
            Part {
                steps: &[(Sent(13, true), false, 2230)],
                edges: 0,
                trace: &[],
                four: &[],
                five: &[],
            },
            Part {
                steps: &[(UNLISTEN, true, 4360)],
                edges: 25,
                trace: &[(0, UNLISTEN_AT_REST)],
                four: &[],
                five: &[],
            },
        ],
    },
    Run {
        name: "one_printer_addressed",
        present: ONLY_FOUR,
        numbers: TYPICAL,
        parts: &[Part {
            steps: &TWO_LETTERS,
            edges: 110,
            trace: &[(0, TRACE_TEXT)],
            four: &[Select(false), Byte(72), Byte(73), Byte(13)],
            five: &[],
        }],
    },
    Run {
        name: "trace_of_two_letters",
        present: BOTH,
        numbers: TYPICAL,
        parts: &[Part {
            steps: &TWO_LETTERS,
            edges: 110,
            trace: &[(0, TRACE_TEXT)],
            four: &[Select(false), Byte(72), Byte(73), Byte(13)],
            five: &[],
        }],
    },
    Run {
        name: "inputs_since_the_mark",
        present: BOTH,
        numbers: TYPICAL,
        parts: &[
            Part {
                steps: &[(LISTEN_FOUR, true, 2030), (Sent(72, false), true, 2960)],
                edges: 44,
                trace: &[],
                four: &[Select(false), Byte(72)],
                five: &[],
            },
            Part {
                steps: &[(Sent(73, false), true, 3890)],
                edges: 20,
                trace: &[],
                four: &[Byte(73)],
                five: &[],
            },
            Part {
                steps: &[(Sent(13, true), true, 5140), (UNLISTEN, true, 7270)],
                edges: 46,
                trace: &[],
                four: &[Byte(13)],
                five: &[],
            },
        ],
    },
    Run {
        name: "one_attention_with_chosen_delays",
        present: ONLY_FOUR,
        numbers: [&[900, 999], &[9], &[]],
        parts: &[Part {
            steps: &[(LISTEN_FOUR, true, 3929)],
            edges: 24,
            trace: &[(0, CHOSEN)],
            four: &[Select(false)],
            five: &[],
        }],
    },
    Run {
        name: "answer_in_the_microsecond_of_the_look",
        present: ONLY_FOUR,
        numbers: [&[], &[999], &[]],
        parts: &[Part {
            steps: &[(LISTEN_FOUR, true, 2030)],
            edges: 23,
            trace: &[(0, ANSWER_AT_THE_LOOK)],
            four: &[Select(false)],
            five: &[],
        }],
    },
    Run {
        name: "all_least_delays",
        present: ONLY_FOUR,
        numbers: [&[0; 100], &[0; 100], &[0; 100]],
        parts: &[Part {
            steps: &[
                (LISTEN_FOUR, true, 1523),
                (Sent(13, true), true, 2226),
                (UNLISTEN, true, 3849),
            ],
            edges: 70,
            trace: &[
                (23, "1523 100\n"),
                (26, "1824 110\n1904 111\n"),
                (45, "2226 100\n"),
                (67, "3749 100\n3750 101\n3849 111\n"),
            ],
            four: &[Select(false), Byte(13)],
            five: &[],
        }],
    },
    Run {
        name: "all_greatest_delays",
        present: ONLY_FOUR,
        numbers: [
            &GREATEST,
            &[999, 9999, 79, 9999, 50, 120, 79, 999, 9999, 79, 59],
            &[],
        ],
        parts: &[Part {
            steps: &[
                (LISTEN_FOUR, true, 16679),
                (Sent(13, true), true, 31469),
                (UNLISTEN, true, 48348),
            ],
            edges: 70,
            trace: &[
                (23, "16679 100\n"),
                (26, "27929 110\n28129 111\n"),
                (45, "31469 100\n"),
                (67, "48148 100\n48208 101\n48348 111\n"),
            ],
            four: &[Select(false), Byte(13)],
            five: &[],
        }],
    },
    // The time and the edges are the most that an item may have.
    Run {
        name: "time_bound_is_met",
        present: ONLY_FOUR,
        numbers: [&GREATEST_OF_TWO, &[999, 9999, 89, 9999, 89], &[]],
        parts: &[Part {
            steps: &[(LISTEN_FOUR_SEVENTH, true, 32178)],
            edges: 44,
            trace: &[(43, "32178 100\n")],
            four: &[Select(false), Select(true)],
            five: &[],
        }],
    },
    // Printer 4 has the least delays; printer 5 answers after 969 microseconds (AT and H), acknowledges and
    // releases after 9 (F and DR), and has 250 and 80 for end-or-identify.
    Run {
        name: "two_printers_with_extreme_delays",
        present: BOTH,
        numbers: [&[198; 200], &[0; 200], &[968; 200]],
        parts: &[Part {
            steps: &[
                (LISTEN_FOUR, true, 3454),
                (LISTEN_FIVE, true, 6908),
                (Sent(88, false), true, 8967),
                (Sent(13, true), true, 11176),
                (UNLISTEN, true, 14827),
            ],
            edges: 112,
            trace: &[
                (68, "10434 110\n10564 111\n"),
                (109, "14630 100\n14639 101\n14827 111\n"),
            ],
            four: &[Select(false), Byte(88), Byte(13)],
            five: &[Select(false), Byte(88), Byte(13)],
        }],
    },
    Run {
        name: "numbers_of_one_listener",
        present: BOTH,
        numbers: [
            &[],
            &[4, 9, 0, 99, 7, 5, 1, 29, 3, 11, 21],
            &[2, 19, 7, 40, 8, 59, 1, 6],
        ],
        parts: &[Part {
            steps: &[
                (LISTEN_FOUR, true, 1981),
                (Sent(65, true), true, 3225),
                (UNLISTEN, true, 5347),
            ],
            edges: 70,
            trace: &[(0, ONE_LISTENER)],
            four: &[Select(false), Byte(65)],
            five: &[],
        }],
    },
];

/// Those runs, for callers whose proofs do not read them.
fn all_runs() -> &'static [Run] {
    &RUNS
}

/// The delays of a party that draws on these numbers.
pub fn choices(rt: &impl AllocGlobal, numbers: &[u16]) -> Result<Choices, NoMemory> {
    let mut list = Vec::new(rt.alloc());
    list.extend_from_slice(numbers)?;
    Ok(Choices::new(list))
}

/// A bus whose parties draw on these numbers: the computer, printer 4 and printer 5.
fn wires_with(
    rt: &impl AllocGlobal,
    present: Present,
    numbers: [&[u16]; 3],
) -> Result<Wires, NoMemory> {
    let [computer, four, five] = numbers;
    let delays = Delays {
        computer: choices(rt, computer)?,
        four: choices(rt, four)?,
        five: choices(rt, five)?,
    };
    Wires::new(rt.alloc(), present, delays)
}

/// A bus whose delays are typical.
pub fn wires(rt: &impl AllocGlobal, present: Present) -> Result<Wires, NoMemory> {
    wires_with(rt, present, TYPICAL)
}

/// Sends an item.
pub fn put(rt: &impl Abort, bus: &mut Wires, item: Item) -> Result<bool, NoMemory> {
    assert!(rt; bus.items() < 1000);
    match item {
        Attention(first, None) => {
            assert!(rt; first >= 32 && first <= 63);
            bus.attention(first, None)
        }
        Attention(first, Some(second)) => {
            assert!(rt; first >= 32 && first < 63 && second >= 96 && second <= 111);
            bus.attention(first, Some(second))
        }
        Sent(byte, eoi) => bus.send(byte, eoi),
    }
}

/// How many edges the device's receiver has taken, if it is there.
fn taken(bus: &Wires, device: u8) -> Option<usize> {
    let receiver = bus.receiver(device)?;
    Some(receiver.taken())
}

/// The longest time of an item in microseconds: its wait, and the greatest delays of its frames.
fn longest(item: Item) -> u64
    ensures share { result ≡ time_share item }
    ensures within { result ≤ 32178 }
{
    match item {
        Sent(_, _) => 1000 + 10_000 + 250 + 200 + 60 + 8 * 400 + 90,
        Attention(_, _) => 1000 + 2 * (2000 + 10_000 + 199 + 8 * 400 + 90) + 200,
    }
}

/// The most edges of an item.
fn most_edges(item: Item) -> usize
    ensures share { result ≡ edge_share item }
    ensures within { result ≤ 44 }
{
    match item {
        Sent(_, _) => 22,
        Attention(_, _) => 44,
    }
}

/// Whether an item that was sent at this moment, after so many edges, kept to its own share of time and edges.
fn keeps_to_share(bus: &Wires, item: Item, now: u64, edges: usize) -> bool {
    bus.now().saturating_sub(now) <= longest(item)
        && bus.trace().len().saturating_sub(edges) <= most_edges(item)
}

/// Sends an item. Returns whether it is answered and ends as wanted, and keeps to its share.
fn is_sent(rt: &impl Abort, bus: &mut Wires, step: &Step) -> bool {
    let (now, edges) = (bus.now(), bus.trace().len());
    put(rt, bus, step.0) == Ok(step.1)
        && bus.now() == step.2
        && keeps_to_share(bus, step.0, now, edges)
}

/// Sends items. Returns whether each is answered and ends as wanted, and keeps to its share.
fn sends(rt: &impl Abort, bus: &mut Wires, steps: &[Step]) -> bool {
    let mut is_well = true;
    for step in steps {
        is_well &= is_sent(rt, bus, step);
    }
    is_well
}

/// Whether the trace has these edges from an index on.
fn traces(rt: &(impl Abort + AllocGlobal), bus: &Wires, first: usize, text: &str) -> bool {
    let wanted = read_trace(rt.alloc(), text.as_bytes()).expect(rt, "a trace");
    match bus.trace().get(first..) {
        Some(rest) => rest.starts_with(wanted.as_slice()),
        None => false,
    }
}

/// Whether the bus keeps what a part says.
fn keeps(rt: &(impl Abort + AllocGlobal), bus: &Wires, part: &Part) -> bool {
    let mut is_well = bus.trace().len() == part.edges;
    for &(first, text) in part.trace {
        is_well &= traces(rt, bus, first, text);
    }
    is_well && bus.heard(4) == part.four && bus.heard(5) == part.five
}

/// Forgets, whereupon the bus keeps nothing, and the mark is after the items sent.
fn forgets(bus: &mut Wires) -> bool {
    let items = bus.items();
    bus.forget();
    bus.mark() == Some(items)
        && bus.trace().is_empty()
        && bus.heard(4).is_empty()
        && bus.heard(5).is_empty()
}

/// Whether the receivers of the printers that are there have taken this many edges.
pub fn take_all(bus: &Wires, present: Present, edges: usize) -> bool {
    taken(bus, 4) == present.four.then_some(edges) && taken(bus, 5) == present.five.then_some(edges)
}

/// Plays a run: whether each part shows what it says, and each printer that is there takes all edges.
fn plays(rt: &(impl Abort + AllocGlobal), run: &Run) -> bool {
    let mut bus = wires_with(rt, run.present, run.numbers).expect(rt, "memory");
    let mut marked = None;
    let mut is_well = bus.mark() == marked;
    let mut edges = 0usize;
    for (number, part) in run.parts.iter().enumerate() {
        if number > 0 {
            is_well = is_well && forgets(&mut bus);
            marked = Some(bus.items());
        }
        is_well = is_well
            && sends(rt, &mut bus, part.steps)
            && keeps(rt, &bus, part)
            && bus.mark() == marked;
        edges = edges.saturating_add(part.edges);
    }
    is_well && take_all(&bus, run.present, edges)
}

#[test]
fn runs(rt: HostRuntime) {
    for run in all_runs() {
        let is_well = plays(&rt, run);
        assert!(rt; is_well, "{}", run.name);
    }
}

/// The bounds of each item make the sums of all; and bounds_of_the_longest_attention.
#[test]
fn bounds_of_two_letters(rt: HostRuntime) {
    let (mut time, mut edges) = (0u64, 1usize);
    for (item, _, _) in TWO_LETTERS {
        time = time.saturating_add(longest(item));
        edges = edges.saturating_add(most_edges(item));
    }
    let is_longest = longest(LISTEN_FOUR_SEVENTH) == 32178 && most_edges(LISTEN_FOUR_SEVENTH) == 44;
    assert!(rt; time == 108_756 && edges == 155 && is_longest);
}
