//! The channel calls.

ghost use Rattle.std.specs.Prelude.{◌≡◌, ◌+◌, ◌≤◌, ◌<◌, ◌^◌, ◌⊎◌, true, false, None, Some, [], ◌∷◌, ◌++◌, length, ◌≢◌, Err, IfErr, IsOk, OnOk, OnErr};
ghost use Rattle.std.specs.Option.{ForSome};
ghost use Rattle.pr_base.specs.Bytes as command;
ghost use Rattle.pr_channels.specs.Files.{file_at, open_stop, without_file};
ghost use Rattle.pr_channels.specs.Calls.{adding};
ghost use Rattle.pr_channels.specs.Commands.{second_from, closing};

use crate::faults::{Fault, Stop};
use crate::file_table::FileTable;
use crate::laws::elements_add_up;
use crate::sender::Sender;
use pr_base::{LISTEN, SECONDARY};
use pr_serial::{NoMemory, Serial};
use std::alloc::Global;
use std::marker::Model;

/// The device number of the screen.
const SCREEN: u8 = 3;

/// The file table, the output device and the status over a serial bus (Programmer's Reference
/// Guide, KERNAL calls OPEN, CHKOUT, CHROUT, CLRCHN, CLOSE and READST).
///
/// A byte for a serial device is held back until the next element: it goes out without
/// end-or-identify before another byte, with it before an attention. Contracts see the elements,
/// which are those of the bus's items and then the byte held back; as long as the bus works, the
/// items are those that the elements send. [`Channels::serial`] shows this of any channels, by the
/// name `IsInStep` of `specs/Seen.antt`.
///
/// A call that reaches the bus asks for room for 3 items: that `items()` of the bus and 3 are at
/// most 2^32. These are `chkout` of an open file, `chrout` and `clrchn` to a device of the bus, and
/// `close_file` of a file with a secondary address. Once the bus has refused a call for lack of
/// memory, each later call that reaches it answers [`NoMemory`], and nothing else is said of the
/// state.
#[derive(Drop)]
pub struct Channels<S: Serial> {
    sender: Sender<S>,
    files: FileTable,
    output: u8,
    screen: Vec<u8>,
}

impl<S: Serial> Model for Channels<S> {
    ghost use Rattle.std.specs.Prelude.{◌≤◌};
    ghost use Rattle.pr_channels.specs.Seen.{Seen};
    ghost use Rattle.pr_channels.specs.Sending.{seen_of};

    ghost Value = { Seen };

    ghost view = { λ c. seen_of c.sender c.files c.output c.screen.items };

    ghost invariant = { λ c. (3 ≤ c.output) × (c.output ≤ 30) };
}

/// The second command for a secondary address.
fn second_command(second: Option<u8>) -> Option<u8>
    requires { ForSome second (λ s. s ≤ 15) }
    ensures { result ≡ second_from command.secondary second }
{
    match second {
        Some(address) => Some(SECONDARY + address),
        None => None,
    }
}

impl<S: Serial> Channels<S> {
    ghost use Rattle.pr_channels.specs.Seen.{IsInStep, KeepsBus};
    ghost use Rattle.pr_channels.specs.Calls.{chkout_of, chrout_of, clrchn_of, close_of, IsFault};

    /// Makes channels over a bus that has sent nothing yet: no file is open, the screen (device 3)
    /// is the output device, the status is 0. It takes no memory.
    pub fn new(alloc: Global, serial: S) -> Channels<S>
        // the caller's part
        requires { S.sent serial ≡ [] }
        // the bus as it is
        ensures present { result.present ≡ S.printers serial }
        ensures delays { result.delays ≡ S.delays serial }
        ensures mark { result.mark ≡ S.marked serial }
        ensures failed { result.failed ≡ S.has_failed serial }
        // nothing open, sent or printed
        ensures empty { (result.sent ≡ []) × (result.elements ≡ []) × (result.files ≡ []) × (result.screen ≡ []) }
        ensures screen { result.output ≡ 3 }
        ensures status { result.status ≡ 0 }
    {
        Channels {
            sender: Sender::new(serial),
            files: FileTable::new(),
            output: SCREEN,
            screen: Vec::new(alloc),
        }
    }

    /// OPEN: opens a file on a device of 4 to 30, with a secondary address of 0 to 15 or none. It
    /// sends nothing and takes no memory.
    ///
    /// # Errors
    ///
    /// Those of [`FileTable::open`], the first that applies; nothing is changed then.
    pub fn open_file(&mut self, file: u8, device: u8, second: Option<u8>) -> Result<(), Stop>
        requires low { 4 ≤ device }
        requires high { device ≤ 30 }
        requires second { ForSome second (λ s. s ≤ 15) }
        ensures ok { OnOk result ((open_stop self.old.files file ≡ None)
            × (self.new ≡ record self.old { files = self.old.files ++ record { number = file; device = device; second = second } ∷ [] })) }
        ensures err { IfErr result (λ stop. (open_stop self.old.files file ≡ Some stop) × (self.new ≡ self.old)) }
    {
        self.files.open(file, device, second)
    }

    /// CHKOUT: sends LISTEN to a file's device, with its secondary address, and makes it the output
    /// device. The byte held back goes out before.
    ///
    /// # Errors
    ///
    /// - [`Stop::FileNotOpen`] exactly where the file is not open: nothing is sent and nothing
    ///   changed. The bus is not reached, so this comes also after it has failed.
    /// - [`Stop::DeviceNotPresent`] exactly where the status is 128 after the LISTEN, also if it
    ///   was before: the output device is as before (profile).
    /// - [`Fault::NoMemory`] where the bus refused, in this call or an earlier one; it has then
    ///   failed for good.
    pub fn chkout(&mut self, file: u8) -> Result<(), Fault>
        // the caller's part
        requires room { file_at self.old.files file ≢ None → length self.old.sent + 3 ≤ 2 ^ 32 }
        // what it does
        ensures ok { OnOk result (chkout_of (file_at self.old.files file) self.old ≡ (self.new, None)) }
        ensures bus { OnOk result (3 < self.new.output) }
        ensures works { OnOk result (self.old.failed ≡ false) }
        // what a refusal leaves
        ensures err { IfErr result (λ fault. IsFault fault (chkout_of (file_at self.old.files file) self.old) self.new) }
        ensures not_open { file_at self.old.files file ≡ None → (result ≡ Err (Fault.Stop Stop.FileNotOpen)) × (self.new ≡ self.old) }
        ensures refused { file_at self.old.files file ≢ None → self.old.failed ≡ true → result ≡ Err Fault.NoMemory }
        // how much is sent, and what never changes
        ensures room { length self.new.sent ≤ length self.old.sent + 2 }
        ensures keeps { KeepsBus self.old self.new }
    {
        let Some(entry) = self.files.get(file) else {
            return Err(Fault::Stop(Stop::FileNotOpen));
        };
        let second = second_command(entry.second);
        match self.sender.attention(LISTEN + entry.device, second) {
            Ok(()) => (),
            Err(_refused) => return Err(Fault::NoMemory),
        }
        if self.sender.status() != 0 {
            return Err(Fault::Stop(Stop::DeviceNotPresent));
        }
        self.output = entry.device;
        Ok(())
    }

    /// CHROUT: writes a byte to the output device. On the screen it is added to the screen's list.
    /// For a serial device it is held back, and a byte held back before goes out without
    /// end-or-identify.
    ///
    /// # Errors
    ///
    /// [`NoMemory`]: on the screen where the growth of its list was refused, which changes nothing;
    /// for a serial device where the bus refused, in this call or an earlier one: it has then
    /// failed for good, so that no byte is held back that cannot go out.
    pub fn chrout(&mut self, byte: u8) -> Result<(), NoMemory>
        // the caller's part
        requires room { 3 < self.old.output → length self.old.sent + 3 ≤ 2 ^ 32 }
        // what it does
        ensures ok { OnOk result (self.new ≡ chrout_of byte self.old) }
        ensures works { 3 < self.old.output → OnOk result (self.old.failed ≡ false) }
        // what a refusal leaves
        ensures screen { self.old.output ≤ 3 → OnErr result (self.new ≡ self.old) }
        ensures err { 3 < self.old.output → OnErr result (self.new.failed ≡ true) }
        // how much is sent, and what never changes
        ensures failed { OnOk result (self.new.failed ≡ self.old.failed) }
        ensures room { length self.new.sent ≤ length self.old.sent + 1 }
        ensures keeps { KeepsBus self.old self.new }
    {
        if self.output > SCREEN {
            self.sender.byte(byte)
        } else {
            self.screen.push(byte)?;
            Ok(())
        }
    }

    /// CLRCHN: sends UNLISTEN where the output device is a serial one, and makes the screen the
    /// output device. The byte held back goes out before, with end-or-identify.
    ///
    /// # Errors
    ///
    /// [`NoMemory`] where the bus refused, in this call or an earlier one; it has then failed for
    /// good. Never where the screen is the output device, since then nothing is sent.
    pub fn clrchn(&mut self) -> Result<(), NoMemory>
        // the caller's part
        requires room { 3 < self.old.output → length self.old.sent + 3 ≤ 2 ^ 32 }
        // what it does
        ensures ok { OnOk result (self.new ≡ clrchn_of self.old) }
        ensures works { 3 < self.old.output → OnOk result (self.old.failed ≡ false) }
        // when it is refused, and what that leaves
        ensures screen { self.old.output ≤ 3 → IsOk result }
        ensures err { OnErr result (self.new.failed ≡ true) }
        // how much is sent, and what never changes
        ensures room { length self.new.sent ≤ length self.old.sent + 2 }
        ensures keeps { KeepsBus self.old self.new }
    {
        if self.output > SCREEN {
            self.sender.unlisten()?;
        }
        self.output = SCREEN;
        Ok(())
    }

    /// Notifies the device of an open file with a secondary address that the file is closed.
    fn tell_closed(&mut self, file: u8) -> Result<(), NoMemory>
        // the caller's part
        requires room { closing (file_at self.old.files file) ≢ [] → length self.old.sent + 3 ≤ 2 ^ 32 }
        // what it does
        ensures ok { OnOk result (self.old.failed ≡ false → self.new ≡ adding (closing (file_at self.old.files file)) self.old) }
        ensures works { self.old.failed ≡ true → OnOk result (closing (file_at self.old.files file) ≡ []) }
        ensures quiet { closing (file_at self.old.files file) ≡ [] → IsOk result × (self.new ≡ self.old) }
        // what a refusal leaves
        ensures err { OnErr result (self.new.failed ≡ true) }
        // how much is sent, and what never changes
        ensures failed { OnOk result (self.new.failed ≡ self.old.failed) }
        ensures room { length self.new.sent ≤ length self.old.sent + 3 }
        ensures keeps { KeepsBus self.old self.new }
    {
        // For the prover alone: a law, with nothing to run.
        elements_add_up();
        // For the prover alone: the items are those of the elements.
        let _bus = self.sender.bus();
        let Some(entry) = self.files.get(file) else {
            return Ok(());
        };
        let Some(second) = entry.second else {
            return Ok(());
        };
        self.sender.close_channel(entry.device, second)
    }

    /// CLOSE: takes a file out of the table. Where it has a secondary address, LISTEN to its device
    /// with that address's close command and UNLISTEN go out, after the byte held back. The output
    /// device stays. It does nothing where the file is not open.
    ///
    /// # Errors
    ///
    /// [`NoMemory`] where the bus refused, in this call or an earlier one; it has then failed for
    /// good. Never where nothing is sent.
    pub fn close_file(&mut self, file: u8) -> Result<(), NoMemory>
        // the caller's part
        requires room { closing (file_at self.old.files file) ≢ [] → length self.old.sent + 3 ≤ 2 ^ 32 }
        // what it does
        ensures ok { OnOk result (self.old.failed ≡ false → self.new ≡ close_of file self.old) }
        ensures works { self.old.failed ≡ true → OnOk result (closing (file_at self.old.files file) ≡ []) }
        ensures quiet { closing (file_at self.old.files file) ≡ [] → IsOk result
            × (self.new ≡ record self.old { files = without_file file self.old.files }) }
        ensures unsent { OnOk result (self.old.failed ≡ true → self.new.sent ≡ self.old.sent) }
        ensures failed { OnOk result (self.new.failed ≡ self.old.failed) }
        // what a refusal leaves
        ensures err { OnErr result (self.new.failed ≡ true) }
        // how much is sent, and what never changes
        ensures room { length self.new.sent ≤ length self.old.sent + 3 }
        ensures keeps { KeepsBus self.old self.new }
    {
        self.tell_closed(file)?;
        self.files.close(file);
        Ok(())
    }

    /// READST: returns the status, 128 where an item sent since the last [`Channels::clear_status`]
    /// was not answered, else 0.
    pub fn readst(&self) -> u8
        ensures status { result ≡ self.now.status }
        ensures values { (result ≡ 0) ⊎ (result ≡ 128) }
    {
        self.sender.status()
    }

    /// Makes the status 0; nothing else changes.
    pub fn clear_status(&mut self)
        ensures status { self.new ≡ record self.old { status = 0 } }
    {
        self.sender.clear_status();
    }

    /// Marks the items so far, as [`Serial::forget`]; nothing else changes. It takes no memory.
    pub fn forget(&mut self)
        ensures mark { self.new ≡ record self.old { mark = Some (length self.old.sent) } }
    {
        self.sender.forget();
    }

    /// Returns the bytes that went to the screen, in order.
    pub fn screen(&self) -> &[u8]
        ensures { result.now ≡ self.now.screen }
    {
        &self.screen
    }

    /// Returns the output device: 3 for the screen, or 4 to 30.
    pub fn output(&self) -> u8
        ensures value { result ≡ self.now.output }
        ensures low { 3 ≤ result }
        ensures high { result ≤ 30 }
    {
        self.output
    }

    /// Returns the open files.
    pub fn files(&self) -> &FileTable
        ensures { result.now ≡ self.now.files }
    {
        &self.files
    }

    /// Returns the bus. As long as it works, its items are those that the elements send, and the
    /// elements are those of its items and then the byte held back.
    pub fn serial(&self) -> &S
        // the bus that the channels are seen with
        ensures present { S.printers result.now ≡ self.now.present }
        ensures delays { S.delays result.now ≡ self.now.delays }
        ensures mark { S.marked result.now ≡ self.now.mark }
        ensures failed { S.has_failed result.now ≡ self.now.failed }
        ensures sent { S.sent result.now ≡ self.now.sent }
        // how its items go with the elements
        ensures in_step { IsInStep self.now }
    {
        self.sender.bus()
    }

    /// Turns the channels into the bus and the bytes that went to the screen. A byte still held
    /// back stays unsent (profile). It takes no memory.
    pub fn into_parts(self) -> (S, Vec<u8>)
        // the bus that the channels were seen with
        ensures present { S.printers result.0 ≡ self.present }
        ensures delays { S.delays result.0 ≡ self.delays }
        ensures mark { S.marked result.0 ≡ self.mark }
        ensures failed { S.has_failed result.0 ≡ self.failed }
        ensures sent { S.sent result.0 ≡ self.sent }
        // the screen's bytes
        ensures screen { result.1.items ≡ self.screen }
        // how the items go with the elements
        ensures in_step { IsInStep self }
    {
        (self.sender.into_bus(), self.screen)
    }
}
