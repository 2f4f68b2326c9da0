//! What goes out on the bus: a byte is held back until it is known whether it is the last one.

ghost use Rattle.std.specs.Prelude.{◌≡◌, ◌+◌, ◌≤◌, ◌<◌, ◌^◌, ◌⊎◌, false, true, None, Some, [], ◌∷◌, ◌++◌, length, OnOk, OnErr, IsSome, IsNone, if◌then◌else◌};
ghost use Rattle.pr_base.specs.Bytes as command;
ghost use Rattle.pr_serial.specs.Sendable.{MaySend};
ghost use Rattle.pr_serial.specs.declared.Item.TheVariants as item;
ghost use Rattle.pr_serial.specs.Elements.{Attention, Byte};
ghost use Rattle.pr_serial.specs.Answers.{is_lacking};
ghost use Rattle.pr_channels.specs.Commands.{unlisten};
ghost use Rattle.pr_channels.specs.Sending.{putting, flushed_as, SenderKeepsBus};

use pr_base::{CLOSE, LISTEN, UNLISTEN};
use pr_serial::laws::{answers_add_up, elements_send_items};
use pr_serial::{NoMemory, Serial};
use std::alloc::AllocError;
use std::marker::Model;

/// The status where an item was not answered (Programmer's Reference Guide, READST, bit 7).
const NOT_PRESENT: u8 = 128;

/// A bus, the byte that waits for a next one, and whether an item was not answered.
#[derive(Drop)]
pub struct Sender<S: Serial> {
    bus: S,
    held: Option<u8>,
    unanswered: bool,
}

impl<S: Serial> Model for Sender<S> {
    ghost use Rattle.pr_channels.specs.Seen.{elements_from};
    ghost use Rattle.pr_channels.specs.Sending.{Sending, HoldsBack, status_at};

    ghost Value = { Sending };

    ghost view = { λ s. record {
      present = S.printers s.bus;
      delays = S.delays s.bus;
      mark = S.marked s.bus;
      failed = S.has_failed s.bus;
      sent = S.sent s.bus;
      elements = elements_from (S.sent s.bus) s.held;
      held = s.held;
      status = status_at s.unanswered;
    } };

    ghost invariant = { λ s. HoldsBack (S.has_failed s.bus) (S.sent s.bus) s.held };
}

/// Sends the byte that was held back, if there is one.
fn flush<S: Serial>(
    bus: &mut S,
    unanswered: &mut bool,
    held: Option<u8>,
    eoi: bool,
) -> Result<(), NoMemory>
    // the caller's part
    requires { IsSome held → length (S.sent bus.old) < 2 ^ 32 }
    // what never changes
    ensures printers { S.printers bus.new ≡ S.printers bus.old }
    ensures delays { S.delays bus.new ≡ S.delays bus.old }
    ensures mark { S.marked bus.new ≡ S.marked bus.old }
    // what it does
    ensures sent { OnOk result (S.sent bus.new ≡ S.sent bus.old ++ flushed_as held eoi) }
    ensures unanswered { OnOk result (unanswered.new ≡
        (if is_lacking (S.printers bus.old) (length (S.sent bus.old)) (S.sent bus.new) then true else unanswered.old)) }
    ensures failed { OnOk result (S.has_failed bus.new ≡ S.has_failed bus.old) }
    // what a refusal leaves
    ensures err { OnErr result (S.has_failed bus.new ≡ true) }
    // how much is sent
    ensures room { length (S.sent bus.new) ≤ length (S.sent bus.old) + 1 }
    ensures nothing { IsNone held → length (S.sent bus.new) ≤ length (S.sent bus.old) }
{
    // For the prover alone: a law, with nothing to run.
    answers_add_up();
    let Some(byte) = held else {
        return Ok(());
    };
    if !bus.send(byte, eoi)? {
        *unanswered = true;
    }
    Ok(())
}

/// Sends an attention.
fn send_attention<S: Serial>(
    bus: &mut S,
    unanswered: &mut bool,
    first: u8,
    second: Option<u8>,
) -> Result<(), NoMemory>
    // the caller's part
    requires may_send { MaySend first second }
    requires room { length (S.sent bus.old) < 2 ^ 32 }
    // what never changes
    ensures printers { S.printers bus.new ≡ S.printers bus.old }
    ensures delays { S.delays bus.new ≡ S.delays bus.old }
    ensures mark { S.marked bus.new ≡ S.marked bus.old }
    // what it does
    ensures sent { OnOk result (S.sent bus.new ≡ S.sent bus.old ++ item.Attention first second ∷ []) }
    ensures unanswered { OnOk result (unanswered.new ≡
        (if is_lacking (S.printers bus.old) (length (S.sent bus.old)) (S.sent bus.new) then true else unanswered.old)) }
    ensures works { OnOk result ((S.has_failed bus.old ≡ false) × (S.has_failed bus.new ≡ false)) }
    // what a refusal leaves
    ensures err { OnErr result (S.has_failed bus.new ≡ true) }
    // how much is sent
    ensures room { length (S.sent bus.new) ≤ length (S.sent bus.old) + 1 }
{
    // For the prover alone: a law, with nothing to run.
    answers_add_up();
    if !bus.attention(first, second)? {
        *unanswered = true;
    }
    Ok(())
}

impl<S: Serial> Sender<S> {
    ghost use Rattle.pr_serial.specs.Items.{items_of};
    ghost use Rattle.pr_serial.specs.Steps.{held_of};
    ghost use Rattle.pr_channels.specs.Seen.{elements_from};

    /// Nothing is held back, and nothing lacks an answer.
    pub fn new(bus: S) -> Sender<S>
        // the caller's part
        requires { S.sent bus ≡ [] }
        // the bus as it is
        ensures present { result.present ≡ S.printers bus }
        ensures delays { result.delays ≡ S.delays bus }
        ensures mark { result.mark ≡ S.marked bus }
        ensures failed { result.failed ≡ S.has_failed bus }
        // nothing sent, nothing unanswered
        ensures empty { (result.sent ≡ []) × (result.elements ≡ []) }
        ensures status { result.status ≡ 0 }
    {
        Sender {
            bus,
            held: None,
            unanswered: false,
        }
    }

    /// Sends the byte that was held back, as the last one, and then an attention.
    pub fn attention(&mut self, first: u8, second: Option<u8>) -> Result<(), NoMemory>
        // the caller's part
        requires may_send { MaySend first second }
        requires room { length self.old.sent < 2 ^ 32 }
        requires held_room { IsSome self.old.held → length self.old.sent + 1 < 2 ^ 32 }
        // what it does
        ensures ok { OnOk result (self.new ≡ putting (Attention first second) self.old) }
        ensures works { OnOk result (self.old.failed ≡ false) }
        // what a refusal leaves
        ensures err { OnErr result (self.new.failed ≡ true) }
        // how much is sent, and what never changes
        ensures room { length self.new.sent ≤ length self.old.sent + 2 }
        ensures free_room { IsNone self.old.held → length self.new.sent ≤ length self.old.sent + 1 }
        ensures keeps { SenderKeepsBus self.old self.new }
    {
        // For the prover alone: laws, with nothing to run.
        elements_send_items();
        answers_add_up();
        flush(&mut self.bus, &mut self.unanswered, self.held, true)?;
        send_attention(&mut self.bus, &mut self.unanswered, first, second)?;
        self.held = None;
        Ok(())
    }

    /// Sends the byte that was held back, as one that another follows, and holds back this one.
    pub fn byte(&mut self, byte: u8) -> Result<(), NoMemory>
        // the caller's part
        requires { length self.old.sent < 2 ^ 32 }
        // what it does
        ensures ok { OnOk result (self.new ≡ putting (Byte byte) self.old) }
        ensures works { OnOk result (self.old.failed ≡ false) }
        // what a refusal leaves
        ensures err { OnErr result (self.new.failed ≡ true) }
        // how much is sent, and what never changes
        ensures room { length self.new.sent ≤ length self.old.sent + 1 }
        ensures keeps { SenderKeepsBus self.old self.new }
    {
        // For the prover alone: a law, with nothing to run.
        elements_send_items();
        if self.bus.failed() {
            return Err(AllocError);
        }
        flush(&mut self.bus, &mut self.unanswered, self.held, false)?;
        self.held = Some(byte);
        Ok(())
    }

    /// Sends UNLISTEN.
    pub fn unlisten(&mut self) -> Result<(), NoMemory>
        // the caller's part
        requires room { length self.old.sent < 2 ^ 32 }
        requires held_room { IsSome self.old.held → length self.old.sent + 1 < 2 ^ 32 }
        // what it does
        ensures ok { OnOk result (self.new ≡ putting unlisten self.old) }
        ensures works { OnOk result (self.old.failed ≡ false) }
        // what a refusal leaves
        ensures err { OnErr result (self.new.failed ≡ true) }
        // how much is sent, and what never changes
        ensures room { length self.new.sent ≤ length self.old.sent + 2 }
        ensures free_room { IsNone self.old.held → length self.new.sent ≤ length self.old.sent + 1 }
        ensures keeps { SenderKeepsBus self.old self.new }
    {
        self.attention(UNLISTEN, None)
    }

    /// Informs a device that the channel of a secondary address is closed, and sends UNLISTEN.
    pub fn close_channel(&mut self, device: u8, second: u8) -> Result<(), NoMemory>
        // the caller's part
        requires device { device ≤ 30 }
        requires second { second ≤ 15 }
        requires room { length self.old.sent + 3 ≤ 2 ^ 32 }
        // what it does
        ensures ok { OnOk result (self.new ≡
            putting unlisten (putting (Attention (command.listen + device) (Some (command.close + second))) self.old)) }
        ensures works { OnOk result (self.old.failed ≡ false) }
        // what a refusal leaves
        ensures err { OnErr result (self.new.failed ≡ true) }
        // how much is sent, and what never changes
        ensures room { length self.new.sent ≤ length self.old.sent + 3 }
        ensures keeps { SenderKeepsBus self.old self.new }
    {
        self.attention(LISTEN + device, Some(CLOSE + second))?;
        self.unlisten()
    }

    /// The status: 128 where an item was not answered, else 0.
    pub fn status(&self) -> u8
        ensures value { result ≡ self.now.status }
        ensures values { (result ≡ 0) ⊎ (result ≡ 128) }
    {
        if self.unanswered { NOT_PRESENT } else { 0 }
    }

    /// Makes the status 0.
    pub fn clear_status(&mut self)
        ensures status { self.new ≡ record self.old { status = 0 } }
    {
        self.unanswered = false;
    }

    /// Marks the items so far.
    pub fn forget(&mut self)
        ensures mark { self.new ≡ record self.old { mark = Some (length self.old.sent) } }
    {
        self.bus.forget();
    }

    /// The bus.
    pub fn bus(&self) -> &S
        // the bus that the sender is seen with
        ensures present { S.printers result.now ≡ self.now.present }
        ensures delays { S.delays result.now ≡ self.now.delays }
        ensures mark { S.marked result.now ≡ self.now.mark }
        ensures failed { S.has_failed result.now ≡ self.now.failed }
        ensures sent { S.sent result.now ≡ self.now.sent }
        // how its items go with the elements
        ensures in_step { self.now.failed ≡ false → self.now.sent ≡ items_of self.now.elements }
        ensures elements { self.now.failed ≡ false → self.now.elements ≡ elements_from self.now.sent (held_of self.now.elements) }
    {
        &self.bus
    }

    /// Gives the bus back; the sender is gone.
    pub fn into_bus(self) -> S
        // the bus that the sender was seen with
        ensures present { S.printers result ≡ self.present }
        ensures delays { S.delays result ≡ self.delays }
        ensures mark { S.marked result ≡ self.mark }
        ensures failed { S.has_failed result ≡ self.failed }
        ensures sent { S.sent result ≡ self.sent }
        // how its items go with the elements
        ensures in_step { self.failed ≡ false → self.sent ≡ items_of self.elements }
        ensures elements { self.failed ≡ false → self.elements ≡ elements_from self.sent (held_of self.elements) }
    {
        self.bus
    }
}
