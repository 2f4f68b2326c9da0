//! The bytes among the inputs that a device hears, and what they do not say.

ghost use Rattle.std.specs.Prelude.{◌≡◌, [], List, OnOk};
ghost use Rattle.pr_page.specs.declared.input.Input.{Input};
ghost use Rattle.pr_recording.specs.Logged.{AreHeard, HasLogged, LogsInput};

use pr_page::{Input, NoMemory};
use std::alloc::Global;

/// What the bytes that a printer hears do not say: the character set that the secondary address selects.
#[derive(Clone, Copy, Debug, PartialEq, Eq)]
pub struct Heard {
    /// The first byte comes in the lower/upper case set, so `raw` needs `--set lower` for the bytes. Without a
    /// byte it is false.
    pub lower: bool,
    /// Bytes come in both sets, so `raw` prints some of them in the wrong one.
    pub reselected: bool,
}

/// The bytes that a device has heard, in order, and what they do not say.
#[derive(Drop)]
pub struct HeardBytes {
    pub bytes: Vec<u8>,
    pub heard: Heard,
}

/// The bytes among the inputs taken so far.
#[derive(Drop)]
pub struct ByteLog {
    bytes: Vec<u8>,
    /// The lower/upper case set is selected.
    lower: bool,
    /// The set of the first byte.
    first: Option<bool>,
    /// A byte has come in the lower/upper case set.
    in_lower: bool,
    /// A byte has come in the graphic/upper case set.
    in_upper: bool,
}

impl ByteLog {
    /// A log that has taken no input. It takes no memory.
    pub fn new(alloc: Global) -> ByteLog
        ensures { HasLogged [] result }
    {
        ByteLog {
            bytes: Vec::new(alloc),
            lower: false,
            first: None,
            in_lower: false,
            in_upper: false,
        }
    }

    /// Takes the next input: keeps a byte, and remembers the set that a selection selects.
    ///
    /// # Errors
    ///
    /// [`NoMemory`] where a growth of the list of bytes was refused. Nothing is said of the log then.
    pub fn take(&mut self, input: Input) -> Result<(), NoMemory>
        ensures { OnOk result (LogsInput input self.old self.new) }
    {
        match input {
            Input::Select(lower) => self.lower = lower,
            Input::Byte(byte) => {
                self.first = self.first.or(Some(self.lower));
                self.in_lower |= self.lower;
                self.in_upper |= !self.lower;
                self.bytes.push(byte)?;
            }
        }
        Ok(())
    }

    /// Returns the bytes, and what they do not say. It takes no memory.
    pub fn finish(self) -> HeardBytes
        ensures { (inputs : List Input) → HasLogged inputs self → AreHeard inputs result }
    {
        let heard = Heard {
            lower: self.first.unwrap_or(false),
            reselected: self.in_lower && self.in_upper,
        };
        HeardBytes {
            bytes: self.bytes,
            heard,
        }
    }
}
