ghost use Rattle.std.specs.Prelude.{◌≡◌, [], ◌∷◌, ◌++◌, IfOk, OnErr};

use crate::NoMemory;
use std::alloc::Global;
use std::marker::Model;

/// What a search looked at: a block of a quadtree, a pair of blocks of two, the exact geometry of an
/// object or of a pair of objects, or a node of an R-tree. A block is its quadtree's number, its code and
/// its level; a node is its R-tree's number and its page.
#[derive(Clone, Copy, Debug, PartialEq, Eq)]
pub enum Visit {
    Block {
        tree: u32,
        z: u64,
        level: u8,
    },
    Pair {
        left: (u32, u64, u8),
        right: (u32, u64, u8),
    },
    Geometry {
        id: u32,
    },
    GeometryPair {
        left: u32,
        right: u32,
    },
    Tree {
        tree: u32,
        page: u64,
    },
}

/// The visits that were noted, in their order. Contracts see the list.
#[derive(Drop)]
pub struct VisitLog {
    visits: Vec<Visit>,
}

impl Model for VisitLog {
    ghost use Rattle.std.specs.Prelude.{List};
    ghost use Rattle.sand_base.specs.declared.visit.Visit.{Visit};

    ghost Value = { List Visit };

    ghost view = { λ log. log.visits.items };
}

impl VisitLog {
    /// No visit was noted yet.
    pub fn new(alloc: Global) -> VisitLog
        ensures { result ≡ [] }
    {
        VisitLog {
            visits: Vec::new(alloc),
        }
    }

    /// The visits, oldest first.
    pub fn visits(&self) -> &[Visit]
        ensures { result.now ≡ self.now }
    {
        &self.visits
    }

    /// Notes a visit. The first one takes room for 16, and after a refusal the log is as it was.
    pub fn push(&mut self, visit: Visit) -> Result<(), NoMemory>
        ensures noted { IfOk result (λ _. self.new ≡ self.old ++ visit ∷ []) }
        ensures kept { OnErr result (self.new ≡ self.old) }
    {
        if self.visits.is_empty() {
            self.visits.reserve(16)?;
        }
        self.visits.push(visit)?;
        Ok(())
    }
}
