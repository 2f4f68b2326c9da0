//! The computer's end of the wires, and the printers' delays.

ghost use Rattle.std.specs.Prelude.{◌≡◌, ◌++◌, ◌∷◌, [], ◌<◌, ◌^◌, ◌+◌, drop, map, cond, ◌≤◌, ◌||◌, ◌&&◌, true, false, List, OnOk, IfOk, OnErr};
ghost use Rattle.pr_serial.specs.declared.Item.{Item};
ghost use Rattle.pr_serial.specs.declared.Item.TheVariants.{Attention, Sent};
ghost use Rattle.pr_bus.specs.Timed.{item_edges, done, edges_done, dropped_piece, answer_at, taking};
ghost use Rattle.pr_bus.specs.Printers.{printer_list, after_byte, after_freed};
ghost use Rattle.pr_wire.specs.Choices.{left};
ghost use Rattle.pr_wire.specs.Levels.{edge_at};
ghost use Rattle.pr_wire.specs.Pieces.{frame_edges, answer_edges, second_edges, ending_edges, last_ack};
ghost use Rattle.pr_bus.specs.Talk.{state_of, IsTuned, IsSameTalker, IsSameTuned, heard_frame, command_frame, printers_of, ending_of, end_of, rest_of, second_of, second_takes, second_taking, tuned_to};
ghost use Rattle.pr_bus.specs.Talking.{lines_of};
ghost use Rattle.pr_serial.specs.Sendable.{MaySend};

use crate::frame::push_frame;
use crate::lines::{Lines, greatest, least, push, push_answer, push_call, push_due};
use crate::printer::TimedPrinter;
use crate::timing::wired_and;
use pr_base::UNLISTEN;
use pr_serial::NoMemory;
use pr_serial::laws::items_make_listeners;
use pr_wire::{Choices, Edge, Kind};

/// The wires between two items, and the edges of the last one.
#[derive(Drop)]
pub struct Talker {
    /// The end of the last item, in microseconds; 0 before the first.
    pub time: u64,
    /// What is on CLOCK and DATA.
    pub lines: Lines,
    /// The numbers that make the computer's delays.
    pub computer: Choices,
    /// Printer 4.
    pub four: TimedPrinter,
    /// Printer 5.
    pub five: TimedPrinter,
    /// The edges of the last item, with DATA's release that was due before it.
    pub edges: Vec<Edge>,
}

impl Talker {
    /// Whether an attention is answered: by any printer that is present.
    fn is_answered(&self) -> bool
        ensures { result ≡ (self.now.four.present || self.now.five.present) }
    {
        self.four.present || self.five.present
    }

    /// Whether a byte is answered: by a printer that is present and listens.
    pub fn is_heard(&self) -> bool
        ensures { result ≡ ((self.now.four.present && self.now.four.listens) || (self.now.five.present && self.now.five.listens)) }
    {
        (self.four.present && self.four.listens) || (self.five.present && self.five.listens)
    }

    /// Sends a data byte, and makes its edges.
    ///
    /// # Errors
    ///
    /// [`NoMemory`] where memory was refused. The time is then as before; edges, lines and numbers
    /// may not be.
    pub fn send(&mut self, byte: u8, eoi: bool) -> Result<(), NoMemory>
        requires { self.old.time < 2 ^ 60 }
        // what it does
        ensures edges { OnOk result ((before : List Item) → IsTuned before self.old →
            self.new.edges.items ≡ item_edges (state_of before self.old) (Sent byte eoi)) }
        ensures state { OnOk result ((before : List Item) → IsTuned before self.old →
            state_of (before ++ Sent byte eoi ∷ []) self.new ≡ (done (state_of before self.old) (Sent byte eoi)).wires) }
        ensures tuned { OnOk result ((before : List Item) → IsTuned before self.old → IsTuned (before ++ Sent byte eoi ∷ []) self.new) }
        // what never changes
        ensures same { IsSameTalker self.old self.new }
        // what a refusal leaves
        ensures err { OnErr result (self.new.time ≡ self.old.time) }
    {
        // For the prover alone.
        items_make_listeners();
        self.edges.clear();
        push_due(&mut self.edges, self.lines)?;
        let look = self.time + u64::from(self.computer.next(Kind::Bb));
        if self.is_heard() {
            self.frame(look, byte, eoi)?;
            return Ok(());
        }
        self.drop_byte(look)?;
        Ok(())
    }

    /// Sends an attention, and makes its edges.
    ///
    /// # Errors
    ///
    /// [`NoMemory`] where memory was refused, as in [`Talker::send`].
    pub fn attention(&mut self, first: u8, second: Option<u8>) -> Result<(), NoMemory>
        requires room { self.old.time < 2 ^ 60 }
        requires may_send { MaySend first second }
        requires devices { (self.old.four.device ≡ 4) × (self.old.five.device ≡ 5) }
        // what it does
        ensures edges { OnOk result ((before : List Item) → IsTuned before self.old →
            self.new.edges.items ≡ item_edges (state_of before self.old) (Attention first second)) }
        ensures state { OnOk result ((before : List Item) → IsTuned before self.old →
            state_of (before ++ Attention first second ∷ []) self.new
            ≡ (done (state_of before self.old) (Attention first second)).wires) }
        ensures tuned { OnOk result ((before : List Item) → IsTuned before self.old →
            IsTuned (before ++ Attention first second ∷ []) self.new) }
        // what never changes
        ensures same { IsSameTalker self.old self.new }
        // what a refusal leaves
        ensures err { OnErr result (self.new.time ≡ self.old.time) }
    {
        // For the prover alone.
        items_make_listeners();
        self.edges.clear();
        push_due(&mut self.edges, self.lines)?;
        let time = self.time + u64::from(self.computer.next(Kind::Bb));
        let look = time + u64::from(self.computer.next(Kind::Aw));
        push_call(&mut self.edges, self.lines, time)?;
        if !self.is_answered() {
            push(&mut self.edges, look, true, true, true)?;
            self.time = look;
            self.lines = Lines::Free;
            self.tune(first);
            return Ok(());
        }
        self.answer(time, look)?;
        let ack = self.command(look, first)?;
        let ack = self.second(ack, second)?;
        self.tune(first);
        self.release(ack, first == UNLISTEN)?;
        Ok(())
    }

    /// Both printers take the first command byte: a LISTEN, an UNLISTEN, or one that changes nothing.
    fn tune(&mut self, first: u8)
        requires { (self.old.four.device < 31) × (self.old.five.device < 31) }
        ensures { self.new ≡ record self.old { four = tuned_to first self.old.four; five = tuned_to first self.old.five } }
    {
        self.four.tune(first);
        self.five.tune(first);
    }

    /// Makes the edges of a second command, if there is one, and returns when the last command is
    /// acknowledged, in microseconds.
    fn second(&mut self, ack: u64, second: Option<u8>) -> Result<u64, NoMemory>
        requires { ack < 2 ^ 61 }
        // what it does
        ensures edges { OnOk result (self.new.edges.items ≡ self.old.edges.items ++ second_edges (second_of self.old ack second)) }
        ensures ack { IfOk result (λ last. last ≡ last_ack ack (second_of self.old ack second)) }
        ensures soon { IfOk result (λ last. last ≤ ack + 2 ^ 35) }
        // how many delay numbers it takes
        ensures computer { OnOk result (left self.new.computer ≡ drop (second_takes second) (left self.old.computer)) }
        ensures four { OnOk result (printer_list self.new.four ≡ second_taking second (printer_list self.old.four)) }
        ensures five { OnOk result (printer_list self.new.five ≡ second_taking second (printer_list self.old.five)) }
        // what never changes
        ensures lines { self.new.lines ≡ self.old.lines }
        ensures same { IsSameTalker self.old self.new }
        ensures listens { IsSameTuned self.old self.new }
        ensures now { self.new.time ≡ self.old.time }
    {
        let Some(byte) = second else {
            return Ok(ack);
        };
        let look = ack + u64::from(self.computer.next(Kind::Aw));
        push(&mut self.edges, look, false, true, false)?;
        let last = self.command(look, byte)?;
        Ok(last)
    }

    /// Makes the edge of a byte that nobody hears: CLOCK's release at the look, unless it is released.
    fn drop_byte(&mut self, look: u64) -> Result<(), NoMemory>
        ensures edges { OnOk result (self.new.edges.items
            ≡ self.old.edges.items ++ edges_done (lines_of self.old.lines) (dropped_piece (lines_of self.old.lines) look)) }
        ensures state { OnOk result (self.new ≡ record self.old { time = look; lines = Lines.Free; edges = self.new.edges }) }
        ensures err { OnErr result (self.new ≡ record self.old { edges = self.new.edges }) }
    {
        if self.lines != Lines::Free {
            push(&mut self.edges, look, true, true, true)?;
        }
        self.time = look;
        self.lines = Lines::Free;
        Ok(())
    }

    /// Makes the edges of a byte that a printer hears, from the look on.
    fn frame(&mut self, look: u64, byte: u8, eoi: bool) -> Result<(), NoMemory>
        requires { look < 2 ^ 62 }
        // what it does
        ensures edges { OnOk result (self.new.edges.items
            ≡ self.old.edges.items ++ (edge_at look true true false ∷ frame_edges true (heard_frame self.old look eoi byte))) }
        ensures now { OnOk result (self.new.time ≡ (heard_frame self.old look eoi byte).ack) }
        ensures lines { OnOk result (self.new.lines ≡ Lines.Pulled) }
        // how many delay numbers it takes
        ensures computer { OnOk result (left self.new.computer ≡ drop 17 (left self.old.computer)) }
        ensures four { OnOk result (printer_list self.new.four ≡ after_byte eoi self.old.four) }
        ensures five { OnOk result (printer_list self.new.five ≡ after_byte eoi self.old.five) }
        // what never changes
        ensures same { IsSameTalker self.old self.new }
        ensures listens { IsSameTuned self.old self.new }
        // what a refusal leaves
        ensures err { OnErr result (self.new.time ≡ self.old.time) }
    {
        push(&mut self.edges, look, true, true, false)?;
        let hearers = wired_and(self.four.byte(eoi), self.five.byte(eoi));
        let now = push_frame(
            &mut self.edges,
            &mut self.computer,
            true,
            look,
            eoi,
            byte,
            hearers,
        )?;
        self.time = now;
        self.lines = Lines::Pulled;
        Ok(())
    }

    /// Makes the edges of DATA's pull in answer to ATN, and of CLOCK's release.
    fn answer(&mut self, time: u64, look: u64) -> Result<(), NoMemory>
        requires { time < 2 ^ 62 }
        // what it does
        ensures edges { OnOk result (self.new.edges.items
            ≡ self.old.edges.items ++ answer_edges (answer_at (lines_of self.old.lines) time (printers_of self.old)) look) }
        // how many delay numbers it takes
        ensures four { OnOk result (printer_list self.new.four ≡ map (taking 1) (printer_list self.old.four)) }
        ensures five { OnOk result (printer_list self.new.five ≡ map (taking 1) (printer_list self.old.five)) }
        // what never changes
        ensures lines { self.new.lines ≡ self.old.lines }
        ensures computer { self.new.computer ≡ self.old.computer }
        ensures same { IsSameTalker self.old self.new }
        ensures listens { IsSameTuned self.old self.new }
        ensures now { self.new.time ≡ self.old.time }
    {
        let delay = least(self.four.attention(), self.five.attention());
        push_answer(&mut self.edges, self.lines, time + u64::from(delay), look)
    }

    /// Makes the edges of a command's frame after the look, and returns when it is acknowledged, in
    /// microseconds.
    fn command(&mut self, look: u64, byte: u8) -> Result<u64, NoMemory>
        requires { look < 2 ^ 62 }
        // what it does
        ensures edges { OnOk result (self.new.edges.items ≡ self.old.edges.items ++ frame_edges false (command_frame self.old look byte)) }
        ensures ack { IfOk result (λ ack. ack ≡ (command_frame self.old look byte).ack) }
        ensures soon { IfOk result (λ ack. ack ≤ look + 2 ^ 34) }
        // how many delay numbers it takes
        ensures computer { OnOk result (left self.new.computer ≡ drop 17 (left self.old.computer)) }
        ensures four { OnOk result (printer_list self.new.four ≡ map (taking 2) (printer_list self.old.four)) }
        ensures five { OnOk result (printer_list self.new.five ≡ map (taking 2) (printer_list self.old.five)) }
        // what never changes
        ensures lines { self.new.lines ≡ self.old.lines }
        ensures same { IsSameTalker self.old self.new }
        ensures listens { IsSameTuned self.old self.new }
        ensures now { self.new.time ≡ self.old.time }
    {
        let hearers = wired_and(self.four.command(), self.five.command());
        push_frame(
            &mut self.edges,
            &mut self.computer,
            false,
            look,
            false,
            byte,
            hearers,
        )
    }

    /// Makes the edges of an attention's end, after the last acknowledgement: ATN's release, and after
    /// UNLISTEN those of DATA and CLOCK.
    fn release(&mut self, ack: u64, unlisten: bool) -> Result<(), NoMemory>
        requires room { ack < 2 ^ 62 }
        requires ended { unlisten ≡ true → (self.old.four.listens ≡ false) × (self.old.five.listens ≡ false) }
        // what it does
        ensures edges { OnOk result (self.new.edges.items ≡ self.old.edges.items ++ ending_edges (ending_of self.old ack unlisten)) }
        ensures now { OnOk result (self.new.time ≡ end_of self.old ack unlisten) }
        ensures lines { OnOk result (lines_of self.new.lines ≡ rest_of self.old ack unlisten) }
        // how many delay numbers it takes
        ensures computer { OnOk result (left self.new.computer ≡ drop (cond unlisten 2 1) (left self.old.computer)) }
        ensures four { OnOk result (printer_list self.new.four ≡ after_freed self.old.four) }
        ensures five { OnOk result (printer_list self.new.five ≡ after_freed self.old.five) }
        // what never changes
        ensures same { IsSameTalker self.old self.new }
        ensures listens { IsSameTuned self.old self.new }
        // what a refusal leaves
        ensures err { OnErr result (self.new.time ≡ self.old.time) }
    {
        let freed = ack + u64::from(self.computer.next(Kind::R));
        let due = freed + u64::from(greatest(self.four.freed(), self.five.freed()));
        push(&mut self.edges, freed, true, false, false)?;
        if !unlisten {
            self.time = freed;
            self.lines = if self.is_heard() {
                Lines::Pulled
            } else {
                Lines::Due(due)
            };
            return Ok(());
        }
        let closed = freed + u64::from(self.computer.next(Kind::Cr));
        push(&mut self.edges, due, true, false, true)?;
        push(&mut self.edges, closed, true, true, true)?;
        self.time = closed;
        self.lines = Lines::Free;
        Ok(())
    }
}
