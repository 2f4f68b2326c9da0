//! How a device on the bus is held in plain numbers, which a caller of another language can own.

ghost use Rattle.std.specs.Prelude.{◌≡◌};
ghost use Rattle.pr_exports.specs.Numbers.{flag};
ghost use Rattle.pr_exports.specs.DeviceKept.{DevicesComeBack, change_by, numbers_of_delays, place_by, state_by, stored, with_change, with_place};
ghost use Rattle.pr_exports.specs.Devices.{or_usual, delays_by, event_numbers, step_numbers};

use pr_device::{Event, Place, State, Step, Timing};
use pr_receiver::Listener;

/// How long a device waits before each thing that it does to DATA, in microseconds, as [`Timing`] has them.
#[repr(C)]
#[derive(Clone, Copy)]
pub struct WireTiming {
    pub attention: u16,
    pub hold: u16,
    pub wait: u16,
    pub answer: u16,
    pub accept: u16,
    pub leave: u16,
}

/// What a caller keeps of a device between two moments. The numbers are this library's: a caller writes none of
/// them. A flag that is not 1 is 0.
#[repr(C)]
#[derive(Clone, Copy)]
pub struct WireDevice {
    /// The last moment that it was shown, in microseconds; 0 before the first.
    pub last: u64,
    /// The moment of ATN's last change.
    pub since: u64,
    /// With place 1 CLOCK's last pull in the byte that has come; with 2 and 3 CLOCK's release before a byte; else 0.
    pub clock_moment: u64,
    /// With place 3 the first moment after that at which DATA is released; else 0.
    pub free: u64,
    /// It prints until then, and holds DATA.
    pub until: u64,
    pub timing: WireTiming,
    /// The version of these numbers: 1.
    pub version: u8,
    /// The number of the device.
    pub device: u8,
    /// 1: it was called, and no UNLISTEN has come since.
    pub listens: u8,
    /// 1: the last byte called it.
    pub called: u8,
    /// 1: it pulls DATA.
    pub pulls: u8,
    /// 1: ATN is released.
    pub atn: u8,
    /// 1: CLOCK is released.
    pub clock: u8,
    /// 1: ATN has changed.
    pub changed: u8,
    /// Where the lines are: 0 no byte has begun, 1 a byte has come, 2 CLOCK is released before a byte, 3 DATA too, 4
    /// bits come.
    pub place: u8,
    /// 1: the byte has end-or-identify.
    pub eoi: u8,
    /// How many bits of the byte have come.
    pub count: u8,
    /// Their byte: each bit has come in at the top and moved the others down.
    pub byte: u8,
}

/// What a device does at a moment, and what it hears then, as numbers.
#[repr(C)]
#[derive(Clone, Copy)]
pub struct WireStep {
    /// The moment at which it wants to be shown the lines again, if none changes before; 2^64 - 1: at none.
    pub wake: u64,
    /// 1: it pulls DATA from this moment on; 0: it does not.
    pub pulls_data: u8,
    /// What it hears: 0 nothing, 1 a byte, 2 a secondary address, 3 LISTEN, 4 UNLISTEN, 5 the secondary address of
    /// OPEN, 6 that of CLOSE.
    pub kind: u8,
    /// With kind 1 the byte; with 2, 5 and 6 the secondary address, 0 to 15; else 0.
    pub byte: u8,
    /// With kind 1 whether the byte has end-or-identify, 0 or 1; else 0.
    pub eoi: u8,
}

/// The numbers of a step in which nothing is done and nothing is heard.
pub const NO_STEP: WireStep = WireStep {
    wake: u64::MAX,
    pulls_data: 0,
    kind: 0,
    byte: 0,
    eoi: 0,
};

/// The version of the numbers of a device.
pub const VERSION: u8 = 1;

/// Yes as 1, no as 0.
fn bit(value: bool) -> u8
    ensures { result ≡ flag value }
{
    if value { 1 } else { 0 }
}

/// A delay that a caller asks for: 0 is the typical one.
fn delay_for(number: u16, typical: u16) -> u16
    ensures { result ≡ or_usual number typical }
{
    if number == 0 { typical } else { number }
}

/// The delays that numbers ask for.
pub fn delays_for(numbers: &WireTiming) -> Timing
    ensures { result ≡ delays_by numbers.now }
{
    let typical = Timing::typical();
    Timing {
        attention: delay_for(numbers.attention, typical.attention),
        hold: delay_for(numbers.hold, typical.hold),
        wait: delay_for(numbers.wait, typical.wait),
        answer: delay_for(numbers.answer, typical.answer),
        accept: delay_for(numbers.accept, typical.accept),
        leave: delay_for(numbers.leave, typical.leave),
    }
}

/// Where numbers say that the lines are.
fn place_for(numbers: &WireDevice) -> Place
    ensures { result ≡ place_by numbers.now }
{
    let (look, eoi) = (numbers.clock_moment, numbers.eoi == 1);
    match numbers.place {
        1 => Place::Sent(look),
        2 => Place::Opening {
            look,
            free: None,
            eoi,
        },
        3 => Place::Opening {
            look,
            free: Some(numbers.free),
            eoi,
        },
        4 => Place::Bits {
            eoi,
            count: numbers.count,
            byte: numbers.byte,
        },
        _ => Place::Between,
    }
}

/// The moment of ATN's last change that numbers mean.
fn change_for(numbers: &WireDevice) -> Option<u64>
    ensures { result ≡ change_by numbers.now }
{
    if numbers.changed == 1 {
        Some(numbers.since)
    } else {
        None
    }
}

/// What numbers mean that a device keeps.
pub fn restore(numbers: &WireDevice) -> State
    ensures { result ≡ state_by numbers.now }
{
    let WireTiming {
        attention,
        hold,
        wait,
        answer,
        accept,
        leave,
    } = numbers.timing;
    State {
        timing: Timing {
            attention,
            hold,
            wait,
            answer,
            accept,
            leave,
        },
        listener: Listener {
            device: numbers.device,
            listens: numbers.listens == 1,
            called: numbers.called == 1,
        },
        until: numbers.until,
        pulls: numbers.pulls == 1,
        atn: numbers.atn == 1,
        clock: numbers.clock == 1,
        since: change_for(numbers),
        place: place_for(numbers),
    }
}

/// The numbers with those of where the lines are.
fn with_place(numbers: WireDevice, place: Place) -> WireDevice
    ensures { result ≡ with_place numbers place }
{
    match place {
        Place::Between => numbers,
        Place::Sent(pull) => WireDevice {
            place: 1,
            clock_moment: pull,
            ..numbers
        },
        Place::Opening {
            look,
            free: None,
            eoi,
        } => WireDevice {
            place: 2,
            clock_moment: look,
            eoi: bit(eoi),
            ..numbers
        },
        Place::Opening {
            look,
            free: Some(free),
            eoi,
        } => WireDevice {
            place: 3,
            clock_moment: look,
            free,
            eoi: bit(eoi),
            ..numbers
        },
        Place::Bits { eoi, count, byte } => WireDevice {
            place: 4,
            eoi: bit(eoi),
            count,
            byte,
            ..numbers
        },
    }
}

/// The numbers with the moment of ATN's last change.
fn with_change(numbers: WireDevice, since: Option<u64>) -> WireDevice
    ensures { result ≡ with_change numbers since }
{
    match since {
        None => numbers,
        Some(since) => WireDevice {
            changed: 1,
            since,
            ..numbers
        },
    }
}

/// The numbers of delays.
fn numbers_of_delays(timing: Timing) -> WireTiming
    ensures { result ≡ numbers_of_delays timing }
{
    let Timing {
        attention,
        hold,
        wait,
        answer,
        accept,
        leave,
    } = timing;
    WireTiming {
        attention,
        hold,
        wait,
        answer,
        accept,
        leave,
    }
}

/// The numbers of what a device keeps, which was shown the lines last at this moment.
pub fn store(last: u64, state: &State) -> WireDevice
    ensures { result ≡ stored last state.now }
{
    let numbers = WireDevice {
        last,
        since: 0,
        clock_moment: 0,
        free: 0,
        until: state.until,
        timing: numbers_of_delays(state.timing),
        version: VERSION,
        device: state.listener.device,
        listens: bit(state.listener.listens),
        called: bit(state.listener.called),
        pulls: bit(state.pulls),
        atn: bit(state.atn),
        clock: bit(state.clock),
        changed: 0,
        place: 0,
        eoi: 0,
        count: 0,
        byte: 0,
    };
    with_change(with_place(numbers, state.place), state.since)
}

/// What is heard, as a kind, a byte or a secondary address, and whether it has end-or-identify.
fn event_numbers(event: Option<Event>) -> (u8, u8, u8)
    ensures { result ≡ event_numbers event }
{
    match event {
        None => (0, 0, 0),
        Some(Event::Byte { byte, eoi }) => (1, byte, bit(eoi)),
        Some(Event::Second(number)) => (2, number, 0),
        Some(Event::Listen) => (3, 0, 0),
        Some(Event::Unlisten) => (4, 0, 0),
        Some(Event::Open(number)) => (5, number, 0),
        Some(Event::Close(number)) => (6, number, 0),
    }
}

/// What a device does, as numbers.
pub fn numbers_of_step(step: Step) -> WireStep
    ensures { result ≡ step_numbers step }
{
    let (kind, byte, eoi) = event_numbers(step.event);
    WireStep {
        wake: step.wake.unwrap_or(u64::MAX),
        pulls_data: bit(step.pulls_data),
        kind,
        byte,
        eoi,
    }
}

/// A law: the device that is restored is the one that was stored.
pub fn devices_come_back()
    ensures { DevicesComeBack }
{}
