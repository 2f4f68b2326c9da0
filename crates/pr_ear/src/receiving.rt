//! A receiver that sits on any bus, lawful by the profile or not: what comes to its device edge by edge, between
//! calls in the caller's memory.

ghost use Rattle.std.specs.Prelude.{◌≡◌, ◌≤◌, ◌↔◌, [], ℕ, true, false, List, Option, Result, IsOk, OnErr, OnOk};
ghost use Rattle.pr_decode.specs.declared.decoder.GoesBack.{GoesBack};
ghost use Rattle.pr_ear.specs.declared.WireEdge.{WireEdge};
ghost use Rattle.pr_ear.specs.declared.receiving.Received.{Received};
ghost use Rattle.pr_ear.specs.Hearing.{IsDevice, begin_answer_of};
ghost use Rattle.pr_ear.specs.Receiving.{ReceiversHearLawfulTraces, ReceiversHearWhatIsPrinted, TellsReceived, came_answer, came_with, received_numbers, receiver_answer_of};
ghost use Rattle.pr_ear.specs.ReceiverLeft.{ReceiverLeaves};
ghost use Rattle.pr_ear.specs.ReceiverTaken.{HasReceived, Hears, listener_by, received_at};

use crate::decoder_numbers::WireDecoder;
use crate::decoding::{begin_decoder, decode_edge};
use crate::numbers::bit;
use crate::{Answer, LAST_DEVICE, NoSuchDevice, WireEdge, begun, is_device, plain, refused};
use pr_base::{LISTEN, SECONDARY, UNLISTEN};
use pr_decode::{GoesBack, Reading, acknowledged_frame, readings_add_up, traces_are_read};
use pr_receiver::Listener;
use pr_wire::Frame;

/// The last command that is a secondary address.
const LAST_SECONDARY: u8 = 127;

/// What comes to a device on the bus (Programmer's Reference Guide, serial bus).
#[derive(Clone, Copy, Debug, PartialEq, Eq)]
pub enum Received {
    /// A data byte, while the device listens; with end-or-identify, if it is the last of its sender.
    Byte { byte: u8, eoi: bool },
    /// A secondary address directly after LISTEN to the device, by its number, 0 to 31. To a VIC-1525
    /// number 7 selects the lower/upper case set.
    Select(u8),
    /// LISTEN to the device. To a VIC-1525 this selects the graphic/upper case set.
    Listen,
    /// UNLISTEN, while the device listens.
    Unlisten,
}

/// What a caller keeps of a device on a bus between two edges. The numbers are this library's: a
/// caller writes none of them. All numbers mean some receiver: a `device` above 30 is 30, and a
/// `listens` or `called` that is not 1 is 0.
#[repr(C)]
#[derive(Clone, Copy, Debug, PartialEq, Eq)]
pub struct WireReceiver {
    pub decoder: WireDecoder,
    /// The number of the device.
    pub device: u8,
    /// 1: it was called, and no UNLISTEN has come since.
    pub listens: u8,
    /// 1: the last acknowledged byte called it.
    pub called: u8,
}

/// What came to a device, as numbers.
#[repr(C)]
#[derive(Clone, Copy, Debug, PartialEq, Eq)]
pub struct WireReceived {
    /// 0 nothing, 1 a byte, 2 a secondary address, 3 LISTEN, 4 UNLISTEN.
    pub kind: u8,
    /// With kind 1 the byte, with kind 2 the number of the secondary address, else 0.
    pub byte: u8,
    /// With kind 1 whether the byte has end-or-identify, 0 or 1; else 0.
    pub eoi: u8,
}

/// What a frame has for a device, by what the device keeps of the frames before it.
fn comes_with(listener: &Listener, frame: Frame) -> Option<Received>
    requires { listener.now.device ≤ 30 }
    ensures { result ≡ received_at listener.now frame }
{
    let Frame {
        attention,
        byte,
        eoi,
    } = frame;
    if attention && byte == LISTEN + listener.device {
        Some(Received::Listen)
    } else if attention && byte == UNLISTEN && listener.listens {
        Some(Received::Unlisten)
    } else if attention && SECONDARY <= byte && byte <= LAST_SECONDARY && listener.called {
        Some(Received::Select(byte - SECONDARY))
    } else if !attention && listener.listens {
        Some(Received::Byte { byte, eoi })
    } else {
        None
    }
}

/// Hears the frame of a reading, if there is one, and gives what it has for the device.
fn hear(listener: &mut Listener, reading: Option<Reading>) -> Option<Received>
    requires { listener.old.device ≤ 30 }
    ensures { Hears reading result listener.old listener.new }
{
    let frame = acknowledged_frame(reading?)?;
    let received = comes_with(listener, frame);
    listener.hear(frame);
    received
}

/// What a receiver keeps of frames.
fn listener_for(receiver: &WireReceiver) -> Listener
    ensures { result ≡ listener_by receiver.now.device receiver.now.listens receiver.now.called }
{
    Listener {
        device: receiver.device.min(LAST_DEVICE),
        listens: receiver.listens == 1,
        called: receiver.called == 1,
    }
}

/// Begins a receiver for a device, to which no edge has come; it does not listen. It takes no
/// memory.
///
/// # Errors
///
/// [`NoSuchDevice`] exactly where the device is not one of 4 to 30. The receiver is then as it was.
pub fn begin_receiver(receiver: &mut WireReceiver, device: u8) -> Result<(), NoSuchDevice>
    ensures begun { OnOk result (HasReceived device [] receiver.new) }
    ensures device { IsOk result ↔ IsDevice device }
    ensures no_device { OnErr result (receiver.new ≡ receiver.old) }
{
    if is_device(device) {
        begin_decoder(&mut receiver.decoder);
        receiver.device = device;
        receiver.listens = 0;
        receiver.called = 0;
        Ok(())
    } else {
        Err(NoSuchDevice)
    }
}

/// Gives a receiver the next edge of a bus, and returns what comes to the device with it, if
/// anything does: with the edge that acknowledges a byte. No bus is refused, wherever its edges
/// begin. It takes no memory.
///
/// # Errors
///
/// [`GoesBack`] exactly where the edge is earlier than the one taken last. The receiver is then as it
/// was.
pub fn receive_edge(
    receiver: &mut WireReceiver,
    edge: WireEdge,
) -> Result<Option<Received>, GoesBack>
    ensures tells { (device : ℕ) (edges : List WireEdge) → HasReceived device edges receiver.old → TellsReceived device edges edge result }
    ensures takes { (device : ℕ) (edges : List WireEdge) → HasReceived device edges receiver.old →
        ReceiverLeaves device edges edge result receiver.old receiver.new }
    ensures back { OnErr result (receiver.new ≡ receiver.old) }
{
    readings_add_up();
    let mut listener = listener_for(receiver);
    let reading = decode_edge(&mut receiver.decoder, edge)?;
    let received = hear(&mut listener, reading);
    receiver.device = listener.device;
    receiver.listens = bit(listener.listens);
    receiver.called = bit(listener.called);
    Ok(received)
}

/// A law: what comes to a printer on any bus is what it prints of the recording; of a lawful trace it
/// is what a device hears of the frames that the trace spells.
pub fn receivers_hear_what_is_printed()
    ensures printed { ReceiversHearWhatIsPrinted }
    ensures lawful { ReceiversHearLawfulTraces }
{
    traces_are_read();
}

/// What came, as numbers.
fn numbers_of_received(received: Option<Received>) -> WireReceived
    ensures { result ≡ received_numbers received }
{
    let (kind, byte, eoi) = match received {
        None => (0, 0, 0),
        Some(Received::Byte { byte, eoi }) => (1, byte, bit(eoi)),
        Some(Received::Select(secondary)) => (2, secondary, 0),
        Some(Received::Listen) => (3, 0, 0),
        Some(Received::Unlisten) => (4, 0, 0),
    };
    WireReceived { kind, byte, eoi }
}

/// Whether something came, as the answer of a call that succeeded.
fn came(received: Option<Received>) -> Answer
    ensures { result ≡ came_answer received }
{
    match received {
        None => plain(0, 0),
        Some(_) => plain(0, 1),
    }
}

/// Begins a receiver for a device. The answer is that of [`begin_receiver`], in plain numbers. It
/// takes no memory.
#[unsafe(no_mangle)]
pub extern "C" fn print1525_receiver_begin(
    receiver: &mut WireReceiver,
    device: u8,
    answer: &mut Answer,
)
    ensures begun { IsDevice device → HasReceived device [] receiver.new × (answer.new ≡ begin_answer_of true) }
    ensures no_device { (IsDevice device → ⊥) → (receiver.new ≡ receiver.old) × (answer.new ≡ begin_answer_of false) }
{
    *answer = begun(begin_receiver(receiver, device).is_ok());
}

/// Gives a receiver the next edge of a bus, and puts what comes to the device with it into `out`.
/// `answer` is what [`receive_edge`] answers, in plain numbers. Whatever numbers the receiver has,
/// they mean some receiver. It takes no memory.
#[unsafe(no_mangle)]
pub extern "C" fn print1525_receiver_edge(
    receiver: &mut WireReceiver,
    edge: &WireEdge,
    out: &mut WireReceived,
    answer: &mut Answer,
)
    ensures tells { (device : ℕ) (edges : List WireEdge) → HasReceived device edges receiver.old →
        (told : Result (Option Received) GoesBack) × TellsReceived device edges edge.now told
        × ReceiverLeaves device edges edge.now told receiver.old receiver.new
        × (out.new ≡ came_with told) × (answer.new ≡ receiver_answer_of told) }
    ensures any { (told : Result (Option Received) GoesBack) × OnErr told (receiver.new ≡ receiver.old)
        × (out.new ≡ came_with told) × (answer.new ≡ receiver_answer_of told) }
{
    match receive_edge(receiver, *edge) {
        Ok(received) => {
            *out = numbers_of_received(received);
            *answer = came(received);
        }
        Err(GoesBack) => {
            *out = numbers_of_received(None);
            *answer = refused(12, 0);
        }
    }
}
