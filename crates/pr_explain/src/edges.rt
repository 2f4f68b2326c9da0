//! Where the edges of a trace stop being lawful.

ghost use Rattle.std.specs.Prelude.{◌≡◌, List, None, true};
ghost use Rattle.std.specs.List.{list_all};
ghost use Rattle.pr_wire.specs.declared.Edge.{Edge};
ghost use Rattle.pr_wire.specs.declared.Frame.{Frame};
ghost use Rattle.pr_wire.specs.Following.{HasAccepted};
ghost use Rattle.pr_explain.specs.Followed.{Follows};
ghost use Rattle.pr_explain.specs.Rows.{all_lead_apart, has_moment};
ghost use Rattle.pr_explain.specs.TracePlaces.{AreRowsAfter, StopsAt};

use crate::rows::{Miss, Row, missed_by, row_to, rows_behind};
use pr_wire::{Edge, Levels, TraceFollower, WaveFault, allowed_traces};

/// Where the edges of a trace stop being lawful.
#[derive(Clone, Copy, Debug, PartialEq, Eq)]
pub struct EdgePlace {
    /// The index of the first edge that is not allowed, from 0; or how many there are, where they
    /// end too soon.
    pub index: usize,
    /// The first fault.
    pub fault: WaveFault,
    /// The edges that may follow those that are allowed. Each row has a moment, and no two rows
    /// have the same levels.
    pub expected: [Option<Row>; 3],
    /// By how much the edge misses the interval of its levels, if an edge to these levels may
    /// follow.
    pub missed: Option<Miss>,
}

/// An edge that is not allowed.
#[derive(Clone, Copy)]
pub struct Refused {
    pub edge: Edge,
    pub fault: WaveFault,
}

/// How far edges are allowed.
#[derive(Drop)]
pub struct Followed {
    /// It has accepted the edges that are.
    pub follower: TraceFollower,
    /// The edge after them, which is not, if there is one.
    pub refused: Option<Refused>,
}

/// Follows edges to the first that is not allowed.
pub fn follow(edges: &[Edge]) -> Followed
    ensures { Follows edges.now result }
{
    allowed_traces();
    let mut follower = TraceFollower::new();
    let mut rest = edges;
    while let [edge, more @ ..] = rest {
        match follower.take(*edge) {
            Ok(_frame) => rest = more,
            Err(fault) => {
                let refused = Some(Refused { edge: *edge, fault });
                return Followed { follower, refused };
            }
        }
    }
    Followed {
        follower,
        refused: None,
    }
}

/// The edges that may follow those that a follower has accepted: rows that each have a moment, and lead to
/// other levels.
fn rows_after(follower: &TraceFollower) -> [Option<Row>; 3]
    ensures rows { (edges : List Edge) (frames : List Frame) → HasAccepted edges frames follower.now
        → AreRowsAfter result edges }
    ensures moments { list_all has_moment result ≡ true }
    ensures levels { all_lead_apart result ≡ true }
{
    allowed_traces();
    match follower.last {
        Some(last) => rows_behind(&follower.state, last),
        None => {
            let levels = Levels {
                atn: true,
                clock: true,
                line: true,
            };
            let first = Row {
                levels,
                earliest: 0,
                latest: Some(0),
            };
            [Some(first), None, None]
        }
    }
}

/// Where edges stop being lawful, if they do. Where more edges may follow them, they do not stop at
/// their end.
pub fn place_in(followed: &Followed, is_whole: bool) -> Option<EdgePlace>
    ensures { (edges : List Edge) → Follows edges followed.now → StopsAt is_whole edges result }
{
    allowed_traces();
    let Some(refused) = followed.refused else {
        return place_at_end(followed, is_whole);
    };
    let expected = rows_after(&followed.follower);
    let row = row_to(refused.edge.levels, &expected);
    let missed = missed_by(row, refused.edge.time);
    Some(EdgePlace {
        index: followed.follower.taken,
        fault: refused.fault,
        expected,
        missed,
    })
}

/// The same of edges that are all allowed.
fn place_at_end(followed: &Followed, is_whole: bool) -> Option<EdgePlace>
    ensures { followed.now.refused ≡ None
        → (edges : List Edge) → Follows edges followed.now → StopsAt is_whole edges result }
{
    allowed_traces();
    if !is_whole {
        return None;
    }
    let expected = rows_after(&followed.follower);
    match followed.follower.finish() {
        Ok(()) => None,
        Err(fault) => Some(EdgePlace {
            index: followed.follower.taken,
            fault,
            expected,
            missed: None,
        }),
    }
}
