//! The rows that may follow at a place, against the step of the table.

use pr_explain::{Row, rows_from};
use pr_wire::example::TRACE_TEXT;
use pr_wire::{BusState, ByteRole, Edge, Levels, read_trace};
use std::process::Abort;

/// Whether a row takes an edge.
fn is_in_row(row: Row, edge: Edge) -> bool {
    let (one, other) = (row.levels, edge.levels);
    let is_late = match row.latest {
        Some(latest) => edge.time > latest,
        None => false,
    };
    one.atn == other.atn
        && one.clock == other.clock
        && one.line == other.line
        && edge.time >= row.earliest
        && !is_late
}

/// Edges to all levels at this moment are taken at the place exactly if a row takes them. The edge before
/// them is earlier and has other levels.
fn agrees_at(rt: &impl Abort, place: &BusState, time: u64) {
    for number in 0..8 {
        let levels = Levels {
            atn: number >= 4,
            clock: number % 4 >= 2,
            line: number % 2 == 1,
        };
        let edge = Edge { time, levels };
        let last = Edge {
            time: time.saturating_sub(1),
            levels: Levels {
                atn: !levels.atn,
                clock: levels.clock,
                line: levels.line,
            },
        };
        let mut is_taken = false;
        for row in rows_from(place) {
            if let Some(row) = row {
                is_taken = is_taken || is_in_row(row, edge);
            }
        }
        assert_eq!(rt;
            place.after(last, edge).is_ok(),
            is_taken,
            "{time} {number}"
        );
    }
}

/// So they are at both ends of each interval, and beside them.
fn agrees(rt: &impl Abort, place: &BusState) {
    for row in rows_from(place) {
        let Some(row) = row else {
            continue;
        };
        let latest = row.latest.unwrap_or(row.earliest);
        let moments = [
            row.earliest.saturating_sub(1),
            row.earliest,
            latest,
            latest.saturating_add(1),
            latest.saturating_add(99_999),
        ];
        for time in moments {
            if time > 0 {
                agrees_at(rt, place, time);
            }
        }
    }
}

/// The places of the example trace: commands and data bytes with all their bits, end-or-identify, and
/// attentions that end with UNLISTEN and without.
#[test]
fn places_of_the_example(rt: HostRuntime) {
    let edges = read_trace(rt.alloc(), TRACE_TEXT.as_bytes()).expect(&rt, "edges");
    let [first, others @ ..] = edges.as_slice() else {
        assert!(rt; false, "the example has edges");
        return;
    };
    let mut place = BusState::Idle(0);
    let mut last = *first;
    for edge in others {
        agrees(&rt, &place);
        assert!(rt; place.advance(last, *edge).is_ok());
        last = *edge;
    }
    agrees(&rt, &place);
}

#[test]
fn other_places(rt: HostRuntime) {
    for sending in [ByteRole::First, ByteRole::Second, ByteRole::Data] {
        agrees(&rt, &BusState::Ready(5, sending));
        agrees(&rt, &BusState::Free(5, sending));
        agrees(&rt, &BusState::Ack(5, sending, 36));
        agrees(&rt, &BusState::Ack(5, sending, 63));
    }
    for is_pulled in [false, true] {
        agrees(&rt, &BusState::Call(7, is_pulled));
        for data_released in [false, true] {
            agrees(
                &rt,
                &BusState::Freed {
                    since: 9,
                    unlistened: is_pulled,
                    data_released,
                },
            );
        }
    }
    agrees(&rt, &BusState::Pulse(300, 50));
    agrees(&rt, &BusState::Pulse(400, 50));
    agrees(&rt, &BusState::After(11));
}

/// A moment past 2^64 - 1 is no edge's: a row that begins there is left out, and one that ends there has
/// no end before it.
#[test]
fn the_last_moments(rt: HostRuntime) {
    let end = u64::MAX;
    assert!(rt; rows_from(&BusState::Idle(end - 99))[0].is_none());
    let (Some(idle), Some(after)) = (
        rows_from(&BusState::Idle(end - 100))[0],
        rows_from(&BusState::After(end - 1))[0],
    ) else {
        assert!(rt; false, "a row that ends or begins at the last moment");
        return;
    };
    assert!(rt; idle.earliest == end);
    assert!(rt; after.earliest == end && after.latest == Some(end));
    agrees_at(&rt, &BusState::Idle(end - 100), end);
    agrees_at(&rt, &BusState::Call(end - 1000, false), end);
}
