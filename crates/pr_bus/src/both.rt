//! What two present printers hear on the wires together.

ghost use Rattle.std.specs.Prelude.{◌≡◌, ◌+◌, ◌≤◌, ◌<◌, ◌^◌, true, length};
ghost use Rattle.pr_receiver.specs.Taken.{number_taken};
ghost use Rattle.pr_bus.specs.PortState.{MayHear};
ghost use Rattle.pr_bus.specs.Together.{HearsMore, Listens};

use crate::port::{WiredPort, push_given};
use pr_receiver::{fronts_are_allowed, inputs_add_up};
use pr_wire::Edge;

impl WiredPort {
    /// Hears edges from the front, and so does another printer: for their inputs there is room.
    /// Returns how many: the edges of a whole frame at once, tested once for both, where both find
    /// it next, and else one.
    #[inline(always)]
    fn hear_front_with(&mut self, other: &mut WiredPort, edges: &[Edge]) -> usize
        requires some { 0 < length edges.now }
        requires taken { number_taken self.old.receiver + length edges.now < 2 ^ 63 }
        requires other_taken { number_taken other.old.receiver + length edges.now < 2 ^ 63 }
        requires may { MayHear edges.now self.old }
        requires other_may { MayHear edges.now other.old }
        // what it does
        ensures some { 0 < result }
        ensures within { result ≤ length edges.now }
        ensures hears { HearsMore edges.now result self.old self.new }
        ensures other_hears { HearsMore edges.now result other.old other.new }
    {
        // For the prover alone.
        fronts_are_allowed();
        inputs_add_up();
        let passed = self.receiver.pass_frame_with(&mut other.receiver, edges);
        if passed.count > 0 {
            push_given(&mut self.inputs, Ok(passed.input));
            push_given(&mut other.inputs, Ok(passed.other));
            return passed.count;
        }
        self.hear_one(edges[0]);
        other.hear_one(edges[0]);
        1
    }

    /// Hears edges, and so does another printer: for their inputs there is room.
    fn hear_with(&mut self, other: &mut WiredPort, edges: &[Edge])
        requires taken { number_taken self.old.receiver + length edges.now < 2 ^ 63 }
        requires other_taken { number_taken other.old.receiver + length edges.now < 2 ^ 63 }
        requires may { MayHear edges.now self.old }
        requires other_may { MayHear edges.now other.old }
        // what it does
        ensures hears { HearsMore edges.now (length edges.now) self.old self.new }
        ensures other_hears { HearsMore edges.now (length edges.now) other.old other.new }
    {
        // For the prover alone.
        fronts_are_allowed();
        let mut at = 0;
        while at < edges.len() {
            at += self.hear_front_with(other, &edges[at..]);
        }
    }

    /// Hears edges as [`WiredPort::listen`] does, and so does another printer.
    pub fn listen_with(&mut self, other: &mut WiredPort, edges: &[Edge])
        requires taken { number_taken self.old.receiver + length edges.now < 2 ^ 63 }
        requires other_taken { number_taken other.old.receiver + length edges.now < 2 ^ 63 }
        requires may { self.old.present ≡ true → MayHear edges.now self.old }
        requires other_may { other.old.present ≡ true → MayHear edges.now other.old }
        // what it does
        ensures listens { Listens edges.now self.old self.new }
        ensures other_listens { Listens edges.now other.old other.new }
    {
        if self.present && other.present {
            self.hear_with(other, edges);
        } else {
            self.listen(edges);
            other.listen(edges);
        }
    }
}
