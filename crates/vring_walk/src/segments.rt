//! The room for segments.
ghost use Rattle.std.specs.Prelude.{◌≡◌, ◌<◌, ◌≤◌, [], ◌∷◌, ◌++◌, length, take, IfOk};

use std::alloc::{AllocError, Global};
use std::marker::Model;
use vring_split::Segment;

/// How many segments a room has places for, and a chain at most.
pub const MAX_SEGMENTS: usize = 1024;

/// A room for the segments of chains, with 1,024 places.
#[derive(Debug, Drop)]
pub struct Segments {
    items: Vec<Segment>,
}

impl Model for Segments {
    ghost use Rattle.std.specs.Prelude.{List, vec_len, vec_capacity, ◌≤◌};
    ghost use Rattle.vring_split.specs.declared.segment.Segment.{Segment as OneSegment};

    ghost Value = { List OneSegment };

    ghost view = { λ s. s.items.items };

    ghost invariant = { λ s. (vec_len s.items ≤ 1024) × (1024 ≤ vec_capacity s.items) };
}

impl Segments {
    /// An empty room, with memory for all its places.
    pub fn new(alloc: Global) -> Result<Segments, AllocError>
        ensures { IfOk result (λ s. s ≡ []) }
    {
        Ok(Segments {
            items: Vec::with_capacity(alloc, MAX_SEGMENTS)?,
        })
    }

    /// Frees all places.
    pub fn clear(&mut self)
        ensures { self.new ≡ [] }
    {
        self.items.clear();
    }

    /// The segments, in the order in which they came.
    pub fn list(&self) -> &[Segment]
        ensures list { result.now ≡ self.now }
        ensures few { length self.now ≤ 1024 }
    {
        self.items.as_slice()
    }

    /// Takes a segment; a place is left.
    pub fn push(&mut self, segment: Segment)
        requires { length self.old < 1024 }
        ensures { self.new ≡ self.old ++ segment ∷ [] }
    {
        self.items.push_reserved(segment);
    }

    /// Takes a segment, if a place is left.
    pub(crate) fn add(&mut self, segment: Segment)
        ensures { self.new ≡ take 1024 (self.old ++ segment ∷ []) }
    {
        if self.items.len() < MAX_SEGMENTS {
            self.items.push_reserved(segment);
        }
    }

    /// Keeps the first `len` segments, or all where there are fewer.
    pub fn truncate(&mut self, len: usize)
        ensures { self.new ≡ take len self.old }
    {
        self.items.truncate(len);
    }
}
