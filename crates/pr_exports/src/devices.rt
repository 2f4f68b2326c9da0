//! A device on the bus that hears and answers: what it does to DATA moment by moment, between calls in the caller's
//! memory.

ghost use Rattle.std.specs.Prelude.{◌≡◌, ◌↔◌, IsTrue, List, Result, IfSome, IsSome};
ghost use Rattle.pr_wire.specs.declared.Edge.{Edge};
ghost use Rattle.pr_device.specs.declared.state.Step.{Step};
ghost use Rattle.pr_exports.specs.DeviceKept.{IsKept, WasShown, state_by};
ghost use Rattle.pr_exports.specs.Devices.{IsAddress, IsAnyStep, TellsBegun, TellsStep, begin_answer, delays_by, moment_of, told_answer, told_numbers};
ghost use Rattle.pr_exports.specs.declared.devices.NotBegun.{NotBegun};
ghost use Rattle.pr_exports.specs.declared.devices.NotShown.{NotShown};

use crate::answer::{Answer, plain, refused};
use crate::device_numbers::{
    NO_STEP, VERSION, WireDevice, WireStep, WireTiming, delays_for, numbers_of_step, restore, store,
};
use pr_device::{Device, Step, Timing};
use pr_wire::{Edge, Levels};

/// Moments are less than this, in microseconds.
const MOMENTS: u64 = 1 << 63;

/// Why a device was not begun.
#[derive(Clone, Copy)]
pub enum NotBegun {
    /// There is no such device: 4 to 30 are devices.
    NoDevice,
    /// A delay lies outside its bounds.
    NoTiming,
}

/// Why a device was not shown a moment.
#[derive(Clone, Copy)]
pub enum NotShown {
    /// The numbers are those of no device, or of another version of this library.
    NoDevice,
    /// The moment is earlier than the last one, or is 2^63 microseconds or more.
    GoesBack,
}

/// Whether there is such a device.
fn is_address(address: u8) -> bool
    ensures { IsTrue result ↔ IsAddress address }
{
    4 <= address && address <= 30
}

/// The device that numbers mean, if they are those of one and of this version.
fn restored(numbers: &WireDevice) -> Option<Device>
    ensures device { IfSome result (λ device. device ≡ state_by numbers.now) }
    ensures kept { IsSome result ↔ IsKept numbers.now }
{
    if numbers.version != VERSION {
        return None;
    }
    Device::from_state(restore(numbers))
}

/// The lines at a moment.
fn moment_for(now: u64, atn: u8, clock: u8, line: u8) -> Edge
    ensures { result ≡ moment_of now atn clock line }
{
    Edge {
        time: now,
        levels: Levels {
            atn: atn != 0,
            clock: clock != 0,
            line: line != 0,
        },
    }
}

/// Begins a device, which was shown no moment: all lines are released, it does not listen, and it pulls nothing. It
/// takes no memory.
///
/// # Errors
///
/// [`NotBegun`] exactly where the device is not one of 4 to 30, or else a delay lies outside its bounds. All is then as
/// it was.
pub fn begin_device(device: &mut WireDevice, address: u8, timing: Timing) -> Result<(), NotBegun>
    ensures tells { TellsBegun address timing device.old device.new result }
{
    if !is_address(address) {
        return Err(NotBegun::NoDevice);
    }
    if !timing.is_within_bounds() {
        return Err(NotBegun::NoTiming);
    }
    *device = store(0, &Device::new(address, timing).state());
    Ok(())
}

/// Shows a device the lines at a moment, DATA's level being that of the wire, which others may pull too. Returns what
/// [`Device::step`] returns. It takes no memory.
///
/// # Errors
///
/// [`NotShown`] exactly where the numbers are those of no device, or else the moment is earlier than the last one or is
/// 2^63 or more. All is then as it was.
pub fn show_device(device: &mut WireDevice, edge: Edge) -> Result<Step, NotShown>
    ensures tells { (history : List Edge) → WasShown history device.old →
        TellsStep history edge device.old device.new result }
    ensures any { IsAnyStep device.old device.new result }
{
    let Some(mut shown) = restored(device) else {
        return Err(NotShown::NoDevice);
    };
    if edge.time < device.last || edge.time >= MOMENTS {
        return Err(NotShown::GoesBack);
    }
    let step = shown.step(edge.time, edge.levels);
    *device = store(edge.time, &shown.state());
    Ok(step)
}

/// The answer of a beginning, as numbers.
fn begin_answer(told: Result<(), NotBegun>) -> Answer
    ensures { result ≡ begin_answer told }
{
    match told {
        Ok(()) => plain(0, 0),
        Err(NotBegun::NoDevice) => refused(21, 0),
        Err(NotBegun::NoTiming) => refused(26, 0),
    }
}

/// What a device does and hears, as numbers; where it was shown nothing, nothing.
fn told_numbers(told: Result<Step, NotShown>) -> WireStep
    ensures { result ≡ told_numbers told }
{
    match told {
        Ok(step) => numbers_of_step(step),
        Err(_) => NO_STEP,
    }
}

/// The answer to a moment, as numbers.
fn told_answer(told: Result<Step, NotShown>) -> Answer
    ensures { result ≡ told_answer told }
{
    match told {
        Ok(_) => plain(0, 0),
        Err(NotShown::NoDevice) => refused(21, 0),
        Err(NotShown::GoesBack) => refused(17, 0),
    }
}

/// Begins a device with these delays, in microseconds, each 0 for the typical one. The answer is that of
/// [`begin_device`], in plain numbers. It takes no memory.
#[unsafe(no_mangle)]
pub extern "C" fn print1525_device_begin(
    device: &mut WireDevice,
    address: u8,
    timing: &WireTiming,
    answer: &mut Answer,
)
    ensures tells { (told : Result (Unit {0}) NotBegun) ×
        TellsBegun address (delays_by timing.now) device.old device.new told × (answer.new ≡ begin_answer told) }
{
    *answer = begin_answer(begin_device(device, address, delays_for(timing)));
}

/// Shows a device the lines at a moment, in microseconds: a line is 0 where it is pulled, and any other number where it
/// is released. `step` gets what the device does and hears, or nothing where the moment is refused. The answer is that
/// of [`show_device`], in plain numbers. It takes no memory.
#[unsafe(no_mangle)]
pub extern "C" fn print1525_device_step(
    device: &mut WireDevice,
    now: u64,
    atn: u8,
    clock: u8,
    line: u8,
    step: &mut WireStep,
    answer: &mut Answer,
)
    ensures tells { (history : List Edge) → WasShown history device.old → (told : Result Step NotShown)
        × TellsStep history (moment_of now atn clock line) device.old device.new told
        × (step.new ≡ told_numbers told) × (answer.new ≡ told_answer told) }
    ensures any { (told : Result Step NotShown) × IsAnyStep device.old device.new told
        × (step.new ≡ told_numbers told) × (answer.new ≡ told_answer told) }
{
    let told = show_device(device, moment_for(now, atn, clock, line));
    *step = told_numbers(told);
    *answer = told_answer(told);
}

/// Lets a device print until a moment, in microseconds: before the next byte it holds DATA until then. It takes no
/// memory.
#[unsafe(no_mangle)]
pub extern "C" fn print1525_device_busy(device: &mut WireDevice, until: u64)
    ensures busy { device.new ≡ record device.old { until = until } }
    ensures shown { (history : List Edge) → WasShown history device.old → WasShown history device.new }
{
    device.until = until;
}
