//! The rows of the table of lawful traces at a place.

ghost use Rattle.std.specs.Prelude.{◌≡◌, ◌+◌, ◌^◌, ◌<◌, ◌&&◌, IfSome, Some, false, true, length, List, Bool, ℕ};
ghost use Rattle.pr_wire.specs.declared.Edge.{Edge};
ghost use Rattle.pr_wire.specs.declared.bus_state.ByteRole.{ByteRole};
ghost use Rattle.pr_wire.specs.Delays.{bounds_of};
ghost use Rattle.std.specs.List.{list_all};
ghost use Rattle.pr_explain.specs.Followed.{KeepsLevels};
ghost use Rattle.pr_explain.specs.Rows.{AreRows, AreRowsBehind, all_lead_apart, comes_after, has_moment, lies, takes};
ghost use Rattle.pr_explain.specs.TracePlaces.{missed_by, row_to};

use pr_wire::{BusState, ByteRole, Edge, Kind, Levels, bounds};

/// The index of a byte's last bit, the highest.
const LAST_BIT: usize = 7;

/// An edge that may come next: its levels and its interval, both ends included. A moment of 2^64
/// microseconds or more is left out, since no edge has one: near the last moment a row ends there,
/// or is none.
#[derive(Clone, Copy, Debug, PartialEq, Eq)]
pub struct Row {
    /// The levels after the edge.
    pub levels: Levels,
    /// The least moment, in microseconds.
    pub earliest: u64,
    /// The greatest moment, in microseconds, if there is one.
    pub latest: Option<u64>,
}

/// By how many microseconds an edge misses an interval.
#[derive(Clone, Copy, Debug, PartialEq, Eq)]
pub enum Miss {
    /// It comes too early.
    Early(u64),
    /// It comes too late.
    Late(u64),
}

/// The row to these levels, if there is one.
pub fn row_to(levels: Levels, rows: &[Option<Row>]) -> Option<Row>
    ensures { result ≡ row_to levels rows.now }
{
    let mut rest = rows;
    while let [row, more @ ..] = rest {
        if row.is_some_and(|row| row.levels == levels) {
            return *row;
        }
        rest = more;
    }
    None
}

/// By how much an edge at this moment misses the interval of its row, if it has one and misses it.
pub fn missed_by(row: Option<Row>, time: u64) -> Option<Miss>
    ensures { result ≡ missed_by row time }
{
    let row = row?;
    if time < row.earliest {
        return Some(Miss::Early(row.earliest - time));
    }
    match row.latest {
        Some(latest) if latest < time => Some(Miss::Late(time - latest)),
        _ => None,
    }
}

/// The row of an edge to these levels that comes at least so long after one moment and at most so
/// long after another; None, where no moment does.
fn between(levels: Levels, since: u64, least: u64, other: u64, greatest: u64) -> Option<Row>
    ensures takes { (e : Edge) → e.time < 2 ^ 64 → takes result e ≡ lies levels (since + least) (Some (other + greatest)) e }
    ensures moments { has_moment result ≡ true }
    ensures levels { IfSome result (λ row. row.levels ≡ levels) }
{
    let earliest = since.checked_add(least)?;
    let latest = other.saturating_add(greatest);
    if latest < earliest {
        return None;
    }
    Some(Row {
        levels,
        earliest,
        latest: Some(latest),
    })
}

/// The row of an edge to these levels of ATN, CLOCK and DATA that comes a delay of this kind after
/// a moment.
fn by_kind(atn: bool, clock: bool, line: bool, since: u64, kind: Kind) -> Option<Row>
    ensures takes { (e : Edge) → e.time < 2 ^ 64 →
        takes result e ≡ lies (record { atn = atn; clock = clock; line = line })
        (since + (bounds_of kind).0) (Some (since + (bounds_of kind).2)) e }
    ensures moments { has_moment result ≡ true }
    ensures levels { IfSome result (λ row. row.levels ≡ record { atn = atn; clock = clock; line = line }) }
{
    let (least, _, greatest) = bounds(kind);
    let levels = Levels { atn, clock, line };
    between(levels, since, u64::from(least), since, u64::from(greatest))
}

/// All lines are released: ATN is pulled.
fn after_idle(since: u64) -> [Option<Row>; 3]
    ensures rows { AreRows result (BusState.Idle since) }
    ensures moments { list_all has_moment result ≡ true }
    ensures levels { all_lead_apart result ≡ true }
    ensures three { length result ≡ 3 }
{
    let (least, _, _) = bounds(Kind::Bb);
    let levels = Levels {
        atn: false,
        clock: false,
        line: true,
    };
    let earliest = since.checked_add(u64::from(least));
    let row = earliest.map(|earliest| Row {
        levels,
        earliest,
        latest: None,
    });
    [row, None, None]
}

/// ATN is pulled, and no printer pulls DATA: one answers, or the computer looks, and goes on or
/// gives up.
fn after_call(since: u64) -> [Option<Row>; 3]
    ensures rows { AreRows result (BusState.Call since false) }
    ensures moments { list_all has_moment result ≡ true }
    ensures levels { all_lead_apart result ≡ true }
    ensures three { length result ≡ 3 }
{
    let (look, _, _) = bounds(Kind::Aw);
    let levels = Levels {
        atn: false,
        clock: true,
        line: false,
    };
    let look = u64::from(look);
    [
        by_kind(false, false, false, since, Kind::At),
        between(levels, since, look, since, look),
        by_kind(true, true, true, since, Kind::Aw),
    ]
}

/// ATN is pulled, and a printer pulls DATA: the computer looks.
fn after_answered_call(since: u64) -> [Option<Row>; 3]
    ensures rows { AreRows result (BusState.Call since true) }
    ensures moments { list_all has_moment result ≡ true }
    ensures levels { all_lead_apart result ≡ true }
    ensures three { length result ≡ 3 }
{
    let row = by_kind(false, true, false, since, Kind::Aw);
    [row, None, None]
}

/// Each hearer is to release DATA.
fn after_ready(since: u64, sending: ByteRole) -> [Option<Row>; 3]
    ensures rows { AreRows result (BusState.Ready since sending) }
    ensures moments { list_all has_moment result ≡ true }
    ensures levels { all_lead_apart result ≡ true }
    ensures three { length result ≡ 3 }
{
    let row = by_kind(sending.atn(), true, true, since, Kind::H);
    [row, None, None]
}

/// CLOCK is pulled with the first bit, or before a data byte DATA is pulled in answer to
/// end-or-identify.
fn after_free(since: u64, sending: ByteRole) -> [Option<Row>; 3]
    ensures rows { AreRows result (BusState.Free since sending) }
    ensures moments { list_all has_moment result ≡ true }
    ensures levels { all_lead_apart result ≡ true }
    ensures three { length result ≡ 3 }
{
    let atn = sending.atn();
    let low = by_kind(atn, false, false, since, Kind::Ne);
    let high = by_kind(atn, false, true, since, Kind::Ne);
    let answer = match sending {
        ByteRole::First | ByteRole::Second => None,
        ByteRole::Data => by_kind(true, true, false, since, Kind::Ye),
    };
    [low, high, answer]
}

/// DATA is released again, at the latest the greatest wait and the greatest answer after its
/// release before.
fn after_pulse(since: u64, free: u64) -> [Option<Row>; 3]
    ensures rows { AreRows result (BusState.Pulse since free) }
    ensures moments { list_all has_moment result ≡ true }
    ensures levels { all_lead_apart result ≡ true }
    ensures three { length result ≡ 3 }
{
    let (least, _, greatest) = bounds(Kind::Ei);
    let (_, _, wait) = bounds(Kind::Ye);
    let levels = Levels {
        atn: true,
        clock: true,
        line: true,
    };
    let end = u64::from(wait) + u64::from(greatest);
    let row = between(levels, since, u64::from(least), free, end);
    [row, None, None]
}

/// CLOCK is pulled with the first bit.
fn after_answer(since: u64) -> [Option<Row>; 3]
    ensures rows { AreRows result (BusState.After since) }
    ensures moments { list_all has_moment result ≡ true }
    ensures levels { all_lead_apart result ≡ true }
    ensures three { length result ≡ 3 }
{
    let low = by_kind(true, false, false, since, Kind::Ry);
    let high = by_kind(true, false, true, since, Kind::Ry);
    [low, high, None]
}

/// CLOCK is released, and DATA keeps the bit.
fn after_bit(since: u64, sending: ByteRole, bit: bool) -> [Option<Row>; 3]
    ensures rows { (eoi : Bool) (seen : List Bool) → AreRows result (BusState.Bit since sending eoi seen bit) }
    ensures moments { list_all has_moment result ≡ true }
    ensures levels { all_lead_apart result ≡ true }
    ensures three { length result ≡ 3 }
{
    let row = by_kind(sending.atn(), true, bit, since, Kind::S);
    [row, None, None]
}

/// CLOCK is pulled with the next bit.
fn after_high(since: u64, sending: ByteRole) -> [Option<Row>; 3]
    ensures rows { (eoi : Bool) (seen : List Bool) (bit : Bool) → length seen < 7 → AreRows result (BusState.High since sending eoi seen bit) }
    ensures moments { list_all has_moment result ≡ true }
    ensures levels { all_lead_apart result ≡ true }
    ensures three { length result ≡ 3 }
{
    let low = by_kind(sending.atn(), false, false, since, Kind::V);
    let high = by_kind(sending.atn(), false, true, since, Kind::V);
    [low, high, None]
}

/// CLOCK is pulled after the last bit, and DATA is released.
fn after_last_bit(since: u64, sending: ByteRole) -> [Option<Row>; 3]
    ensures rows { (eoi : Bool) (seen : List Bool) (bit : Bool) → length seen ≡ 7 → AreRows result (BusState.High since sending eoi seen bit) }
    ensures moments { list_all has_moment result ≡ true }
    ensures levels { all_lead_apart result ≡ true }
    ensures three { length result ≡ 3 }
{
    let row = by_kind(sending.atn(), false, true, since, Kind::V);
    [row, None, None]
}

/// More bits than a byte has.
fn after_too_many() -> [Option<Row>; 3]
    ensures rows { (since : ℕ) (sending : ByteRole) (eoi : Bool) (seen : List Bool) (bit : Bool) → 7 < length seen →
        AreRows result (BusState.High since sending eoi seen bit) }
    ensures moments { list_all has_moment result ≡ true }
    ensures levels { all_lead_apart result ≡ true }
    ensures three { length result ≡ 3 }
{
    [None, None, None]
}

/// DATA is pulled: the byte is acknowledged.
fn after_last(since: u64, sending: ByteRole) -> [Option<Row>; 3]
    ensures rows { (eoi : Bool) (seen : List Bool) → AreRows result (BusState.Last since sending eoi seen) }
    ensures moments { list_all has_moment result ≡ true }
    ensures levels { all_lead_apart result ≡ true }
    ensures three { length result ≡ 3 }
{
    let row = by_kind(sending.atn(), false, false, since, Kind::F);
    [row, None, None]
}

/// The computer goes on with the next byte, or ATN is released or pulled.
fn after_ack(since: u64, sending: ByteRole) -> [Option<Row>; 3]
    ensures rows { (byte : ℕ) → AreRows result (BusState.Ack since sending byte) }
    ensures moments { list_all has_moment result ≡ true }
    ensures levels { all_lead_apart result ≡ true }
    ensures three { length result ≡ 3 }
{
    let (next, other) = match sending {
        ByteRole::First => (
            by_kind(false, true, false, since, Kind::Aw),
            by_kind(true, false, false, since, Kind::R),
        ),
        ByteRole::Second => (None, by_kind(true, false, false, since, Kind::R)),
        ByteRole::Data => (
            by_kind(true, true, false, since, Kind::Bb),
            by_kind(false, false, false, since, Kind::Bb),
        ),
    };
    [next, other, None]
}

/// ATN is released after an attention, and DATA is still pulled.
fn after_freed(since: u64, unlistened: bool) -> [Option<Row>; 3]
    ensures rows { AreRows result (BusState.Freed since unlistened false) }
    ensures moments { list_all has_moment result ≡ true }
    ensures levels { all_lead_apart result ≡ true }
    ensures three { length result ≡ 3 }
{
    let release = by_kind(true, false, true, since, Kind::Dr);
    if unlistened {
        return [release, None, None];
    }
    let next = by_kind(true, true, false, since, Kind::Bb);
    let other = by_kind(false, false, false, since, Kind::Bb);
    [release, next, other]
}

/// ATN is released after an attention, and DATA too.
fn after_released(since: u64, unlistened: bool) -> [Option<Row>; 3]
    ensures rows { AreRows result (BusState.Freed since unlistened true) }
    ensures moments { list_all has_moment result ≡ true }
    ensures levels { all_lead_apart result ≡ true }
    ensures three { length result ≡ 3 }
{
    if unlistened {
        let row = by_kind(true, true, true, since, Kind::Cr);
        return [row, None, None];
    }
    let idle = by_kind(true, true, true, since, Kind::Bb);
    let other = by_kind(false, false, true, since, Kind::Bb);
    [idle, other, None]
}

/// Returns the rows of the table of lawful traces at a place: at most three edges may follow there.
/// An edge is taken at the place exactly if one of the rows has its levels and its moment is
/// within that row's. Each row has a moment: its earliest is no later than its latest. No two rows have the
/// same levels. It takes no memory.
pub fn rows_from(place: &BusState) -> [Option<Row>; 3]
    ensures rows { AreRows result place.now }
    ensures moments { list_all has_moment result ≡ true }
    ensures levels { all_lead_apart result ≡ true }
    ensures three { length result ≡ 3 }
{
    match place {
        BusState::Idle(since) => after_idle(*since),
        BusState::Call(since, false) => after_call(*since),
        BusState::Call(since, true) => after_answered_call(*since),
        BusState::Ready(since, sending) => after_ready(*since, *sending),
        BusState::Free(since, sending) => after_free(*since, *sending),
        BusState::Pulse(since, free) => after_pulse(*since, *free),
        BusState::After(since) => after_answer(*since),
        BusState::Bit {
            since,
            sending,
            bit,
            ..
        } => after_bit(*since, *sending, *bit),
        BusState::High {
            since,
            sending,
            seen,
            ..
        } => {
            if seen.len() < LAST_BIT {
                after_high(*since, *sending)
            } else if seen.len() == LAST_BIT {
                after_last_bit(*since, *sending)
            } else {
                after_too_many()
            }
        }
        BusState::Last(since, sending, _, _) => after_last(*since, *sending),
        BusState::Ack(since, sending, _) => after_ack(*since, *sending),
        BusState::Freed {
            since,
            unlistened,
            data_released: false,
        } => after_freed(*since, *unlistened),
        BusState::Freed {
            since,
            unlistened,
            data_released: true,
        } => after_released(*since, *unlistened),
    }
}

/// A row without the moments that are not later than the last edge; None, where that leaves no
/// moment, or the last edge has its levels.
fn behind(row: Option<Row>, last: Edge) -> Option<Row>
    ensures takes { (e : Edge) → e.time < 2 ^ 64 → takes result e ≡ (takes row e && comes_after last e) }
    ensures moments { has_moment result ≡ true }
    ensures levels { KeepsLevels result row }
{
    let row = row?;
    if row.levels == last.levels {
        return None;
    }
    let earliest = row.earliest.max(last.time.checked_add(1)?);
    if row.latest.is_some_and(|latest| latest < earliest) {
        return None;
    }
    Some(Row { earliest, ..row })
}

/// Returns the rows at a place of the table of lawful traces, after an edge `last`: [`rows_from`],
/// but for the moments that are not later than that edge, and for a row with its levels. An edge
/// may follow there exactly if one of the rows has its levels and its moment is within that row's.
/// Each row has a moment, and no two rows have the same levels. It takes no memory.
pub fn rows_behind(place: &BusState, last: Edge) -> [Option<Row>; 3]
    ensures rows { AreRowsBehind result last place.now }
    ensures moments { list_all has_moment result ≡ true }
    ensures levels { all_lead_apart result ≡ true }
{
    let [first, second, third] = rows_from(place);
    [
        behind(first, last),
        behind(second, last),
        behind(third, last),
    ]
}
