//! What was sent, and what came of it since the last `forget`.

ghost use Rattle.std.specs.Prelude.{◌≡◌, ◌++◌, ◌∷◌, [], ◌+◌, ◌<◌, ◌^◌, true, length, IfOk, OnOk, OnErr, vec_len, vec_capacity};
ghost use Rattle.pr_wire.specs.Levels.{start};
ghost use Rattle.pr_receiver.specs.Taken.{number_taken};
ghost use Rattle.pr_bus.specs.PortState.{ForgetsAs, Hears, IsSamePort, HasRoom, ListensAs, MayHear};

use crate::laws::timed_traces_spell;
use crate::lines::push;
use crate::port::WiredPort;
use pr_receiver::fronts_are_allowed;
use pr_serial::{Item, NoMemory, Present};
use pr_wire::Edge;
use std::alloc::Global;

/// All items, the edges since the last [`Log::forget`], and the printers' ports.
#[derive(Drop)]
pub struct Log {
    pub items: Vec<Item>,
    pub trace: Vec<Edge>,
    pub four: WiredPort,
    pub five: WiredPort,
}

impl Log {
    /// Nothing was sent; all lines are released, and the printers have heard that.
    pub fn new(alloc: Global, present: Present) -> Result<Log, NoMemory>
        ensures items { IfOk result (λ log. log.items.items ≡ []) }
        ensures trace { IfOk result (λ log. log.trace.items ≡ start ∷ []) }
        ensures four { IfOk result (λ log. Hears 4 present.four [] (start ∷ []) log.four) }
        ensures five { IfOk result (λ log. Hears 5 present.five [] (start ∷ []) log.five) }
    {
        // For the prover alone.
        timed_traces_spell();
        fronts_are_allowed();
        let mut trace = Vec::new(alloc);
        push(&mut trace, 0, true, true, true)?;
        let mut four = WiredPort::new(alloc, 4, present.four);
        let mut five = WiredPort::new(alloc, 5, present.five);
        four.listen(&trace);
        five.listen(&trace);
        Ok(Log {
            items: Vec::new(alloc),
            trace,
            four,
            five,
        })
    }

    /// Makes room for an item and its inputs, and adds its edges. All room is made before anything
    /// is added, so a refusal leaves items and inputs as they were.
    pub fn grow(&mut self, edges: &[Edge]) -> Result<(), NoMemory>
        // what never changes
        ensures items { self.new.items.items ≡ self.old.items.items }
        ensures four { IsSamePort self.old.four self.new.four }
        ensures five { IsSamePort self.old.five self.new.five }
        // what it does
        ensures trace { OnOk result (self.new.trace.items ≡ self.old.trace.items ++ edges.now) }
        ensures room { OnOk result (vec_len self.new.items < vec_capacity self.new.items) }
        ensures four_room { OnOk result (HasRoom self.new.four) }
        ensures five_room { OnOk result (HasRoom self.new.five) }
        // what a refusal leaves
        ensures err { OnErr result (self.new.trace.items ≡ self.old.trace.items) }
    {
        self.items.reserve(1)?;
        self.four.make_room()?;
        self.five.make_room()?;
        self.trace.extend_from_slice(edges)?;
        Ok(())
    }

    /// Adds an item, and lets the printers hear its edges. There is room for what comes of it.
    pub fn add(&mut self, item: Item, edges: &[Edge])
        requires room { vec_len self.old.items < vec_capacity self.old.items }
        requires four_may { self.old.four.present ≡ true → MayHear edges.now self.old.four }
        requires five_may { self.old.five.present ≡ true → MayHear edges.now self.old.five }
        requires four_taken { number_taken self.old.four.receiver + length edges.now < 2 ^ 63 }
        requires five_taken { number_taken self.old.five.receiver + length edges.now < 2 ^ 63 }
        // what it does
        ensures items { self.new.items.items ≡ self.old.items.items ++ item ∷ [] }
        ensures trace { self.new.trace.items ≡ self.old.trace.items }
        ensures four { ListensAs 4 edges.now self.old.four self.new.four }
        ensures five { ListensAs 5 edges.now self.old.five self.new.five }
    {
        self.items.push_reserved(item);
        self.four.listen_with(&mut self.five, edges);
    }

    /// Forgets the edges and the inputs, and keeps the room.
    pub fn forget(&mut self)
        ensures items { self.new.items.items ≡ self.old.items.items }
        ensures trace { self.new.trace.items ≡ [] }
        ensures four { ForgetsAs 4 self.old.four self.new.four }
        ensures five { ForgetsAs 5 self.old.five self.new.five }
    {
        self.trace.clear();
        self.four.forget();
        self.five.forget();
    }
}
