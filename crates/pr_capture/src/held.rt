//! The edges that a filter of pulses holds back.

ghost use Rattle.std.specs.Prelude.{◌≡◌, ◌<◌, ◌≤◌, ◌++◌, ◌∷◌, [], length, IfNone, IfSome, OnOk};

use pr_wire::Edge;
use std::alloc::{AllocError, Global};
use std::marker::Model;

/// At most 16 edges, one after the other. Contracts see their list.
#[derive(Drop)]
pub struct Held {
    edges: Vec<Edge>,
}

impl Model for Held {
    ghost use Rattle.std.specs.Prelude.{List, length, ◌≤◌};
    ghost use Rattle.pr_wire.specs.declared.Edge.{Edge};

    ghost Value = { List Edge };

    ghost view = { λ h. h.edges.items };

    ghost invariant = { λ h. length h.edges.items ≤ 16 };
}

impl Held {
    /// No edge. It takes no memory.
    pub fn new(alloc: Global) -> Held
        ensures { result ≡ [] }
    {
        Held {
            edges: Vec::new(alloc),
        }
    }

    /// The edges.
    pub fn as_slice(&self) -> &[Edge]
        ensures value { result.now ≡ self.now }
        ensures few { length result.now ≤ 16 }
    {
        self.edges.as_slice()
    }

    /// Adds an edge behind the others.
    ///
    /// # Errors
    ///
    /// `AllocError` where memory was refused.
    pub fn push(&mut self, edge: Edge) -> Result<(), AllocError>
        requires { length self.old < 16 }
        ensures { OnOk result (self.new ≡ self.old ++ edge ∷ []) }
    {
        self.edges.push(edge)?;
        Ok(())
    }

    /// Takes the first edge, if there is one.
    pub fn pop_front(&mut self) -> Option<Edge>
        ensures first { IfSome result (λ edge. self.old ≡ edge ∷ self.new) }
        ensures none { IfNone result (self.old ≡ []) }
        ensures empty { IfNone result (self.new ≡ []) }
    {
        if self.edges.is_empty() {
            return None;
        }
        Some(self.edges.remove(0))
    }
}
