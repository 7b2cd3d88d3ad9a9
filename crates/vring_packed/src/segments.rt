//! The segments of a chain that is followed.
ghost use Rattle.std.specs.Prelude.{◌≡◌, ◌≤◌, ◌<◌, ◌+◌, [], ◌∷◌, ◌++◌, length, IfOk};
ghost use Rattle.vring_walk.specs.Chain.{any_writable};

use std::alloc::{AllocError, Global};
use std::marker::Model;
use vring_split::Segment;

/// How many segments a room has places for, and a chain at most.
pub const MAX_SEGMENTS: usize = 1024;

/// The segments of a chain that is followed.
#[derive(Debug, Drop)]
pub struct Gathered {
    items: Vec<Segment>,
    writable: bool,
}

impl Model for Gathered {
    ghost use Rattle.std.specs.Prelude.{◌≡◌, List, vec_len, vec_capacity, ◌≤◌};
    ghost use Rattle.vring_split.specs.declared.segment.Segment.{Segment as OneSegment};
    ghost use Rattle.vring_walk.specs.Chain.{any_writable};

    ghost Value = { List OneSegment };

    ghost view = { λ g. g.items.items };

    ghost invariant = { λ g. (vec_len g.items ≤ 1024) × (1024 ≤ vec_capacity g.items)
        × (g.writable ≡ any_writable g.items.items) };
}

impl Gathered {
    /// No segments, with memory for as many as a chain may have.
    pub fn new(alloc: Global) -> Result<Gathered, AllocError>
        ensures { IfOk result (λ g. g ≡ []) }
    {
        Ok(Gathered {
            items: Vec::with_capacity(alloc, MAX_SEGMENTS)?,
            writable: false,
        })
    }

    /// How many segments there are.
    pub fn count(&self) -> usize
        ensures count { result ≡ length self.now }
        ensures few { length self.now ≤ 1024 }
    {
        self.items.len()
    }

    /// Whether one of them is writable.
    pub fn any_writable(&self) -> bool
        ensures { result ≡ any_writable self.now }
    {
        self.writable
    }

    /// The segments, in the order in which they came.
    pub fn list(&self) -> &[Segment]
        ensures { result.now ≡ self.now }
    {
        self.items.as_slice()
    }

    /// Takes one more.
    pub fn push(&mut self, segment: Segment)
        requires { length self.old < 1024 }
        ensures { self.new ≡ self.old ++ segment ∷ [] }
    {
        self.items.push_reserved(segment);
        self.writable |= segment.write;
    }

    /// Begins again with none.
    pub fn clear(&mut self)
        ensures { self.new ≡ [] }
    {
        self.items.clear();
        self.writable = false;
    }
}
