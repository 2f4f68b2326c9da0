//! The law of a serial bus.

ghost use Rattle.std.specs.Prelude.{◌≡◌, ℕ, ◌<◌, ◌^◌, Bool, true, false, Option, Some, List, [], ◌∷◌, ◌++◌, length, IfOk, OnOk, OnErr};
ghost use Rattle.pr_serial.specs.declared.Present.{Present};
ghost use Rattle.pr_serial.specs.declared.Item.{Item};
ghost use Rattle.pr_serial.specs.declared.Item.TheVariants.{Attention, Sent};
ghost use Rattle.pr_serial.specs.Bus.{DelayNumbers};
ghost use Rattle.pr_serial.specs.Sendable.{MaySend};
ghost use Rattle.pr_serial.specs.Answers.{is_answered};

use crate::NoMemory;

/// A serial bus with a computer that talks and printers 4 and 5 that listen, by what was sent on it.
///
/// Its content, in the clauses: the printers that are present and the raw delay numbers of each
/// party, neither of which changes; the items sent, in order; how many of them there were at the
/// last [`Serial::forget`]; and whether the bus has failed. Once it has failed it has failed for
/// good.
///
/// Whether an item was answered is not stored: it follows from the items before it, and each call's
/// clauses say that its answer is that.
pub trait Serial {
    /// Which printers are present.
    ghost printers: { Self → Present };

    /// The raw delay numbers that each party draws on.
    ghost delays: { Self → DelayNumbers };

    /// What was sent, in order.
    ghost sent: { Self → List Item };

    /// How many items were sent at the last `forget`, or none before the first.
    ghost marked: { Self → Option ℕ };

    /// The bus has failed.
    ghost has_failed: { Self → Bool };

    /// Sends one or two command bytes under attention, and answers whether a device acknowledged
    /// them.
    ///
    /// The first byte is a LISTEN or UNLISTEN; a second comes only after a LISTEN, and is a
    /// secondary address that selects a channel or closes it. Fewer than 2^32 items were sent
    /// before.
    ///
    /// # Errors
    ///
    /// [`NoMemory`] where memory was refused, in this call or in an earlier one. Nothing was sent
    /// by this call, and printers, delays, items and mark are as before. The bus has failed for
    /// good: each later call of `attention` and [`Serial::send`] answers the same.
    fn attention(&mut self, first: u8, second: Option<u8>) -> Result<bool, NoMemory>
        // the caller's part
        requires may_send { MaySend first second }
        requires room { length (sent self.old) < 2 ^ 32 }
        // what never changes
        ensures printers { printers self.new ≡ printers self.old }
        ensures delays { delays self.new ≡ delays self.old }
        ensures mark { marked self.new ≡ marked self.old }
        // what it does
        ensures ok { OnOk result (sent self.new ≡ sent self.old ++ Attention first second ∷ []) }
        ensures answer { IfOk result (λ answered. answered ≡ is_answered (printers self.old) (sent self.old) (Attention first second)) }
        ensures works { OnOk result ((has_failed self.old ≡ false) × (has_failed self.new ≡ false)) }
        // what a refusal leaves
        ensures err { OnErr result ((sent self.new ≡ sent self.old) × (has_failed self.new ≡ true)) };

    /// Sends a byte to the devices that listen, with or without end-or-identify, and answers
    /// whether one acknowledged it. Fewer than 2^32 items were sent before.
    ///
    /// # Errors
    ///
    /// As [`Serial::attention`].
    fn send(&mut self, byte: u8, eoi: bool) -> Result<bool, NoMemory>
        // the caller's part
        requires room { length (sent self.old) < 2 ^ 32 }
        // what never changes
        ensures printers { printers self.new ≡ printers self.old }
        ensures delays { delays self.new ≡ delays self.old }
        ensures mark { marked self.new ≡ marked self.old }
        // what it does
        ensures ok { OnOk result (sent self.new ≡ sent self.old ++ Sent byte eoi ∷ []) }
        ensures answer { IfOk result (λ answered. answered ≡ is_answered (printers self.old) (sent self.old) (Sent byte eoi)) }
        ensures works { OnOk result ((has_failed self.old ≡ false) × (has_failed self.new ≡ false)) }
        // what a refusal leaves
        ensures err { OnErr result ((sent self.new ≡ sent self.old) × (has_failed self.new ≡ true)) };

    /// Marks the items so far, so that the bus shows only what came of later ones. The items
    /// themselves stay, and nothing else changes. It takes no memory and never fails.
    fn forget(&mut self)
        ensures printers { printers self.new ≡ printers self.old }
        ensures delays { delays self.new ≡ delays self.old }
        ensures sent { sent self.new ≡ sent self.old }
        ensures failed { has_failed self.new ≡ has_failed self.old }
        ensures mark { marked self.new ≡ Some (length (sent self.old)) };

    /// Returns how many items there were at the last [`Serial::forget`], or none before the first.
    /// It takes no memory.
    fn mark(&self) -> Option<u64>
        ensures { result ≡ marked self.now };

    /// Returns the number of items sent. It takes no memory.
    fn items(&self) -> u64
        ensures { result ≡ length (sent self.now) };

    /// Returns whether the bus has failed. Each later [`Serial::attention`] and [`Serial::send`] is
    /// then refused. It takes no memory.
    fn failed(&self) -> bool
        ensures { result ≡ has_failed self.now };
}
