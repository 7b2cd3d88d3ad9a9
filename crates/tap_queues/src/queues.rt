//! The rows of a device, and what attaching and detaching a file does to them.

ghost use Rattle.std.specs.Prelude.{◌≡◌, ℕ, ◌+◌, ◌<◌, ◌≤◌, ◌↔◌, [], length, vec_len, vec_capacity, slice_get, IsTrue, IsSome, IsNone, IfOk, IfSome};
ghost use Rattle.tap_queues.specs.declared.queues.Row.{Row};
ghost use Rattle.tap_queues.specs.Rows.{index_of, detached};

use std::alloc::{AllocError, Global};
use std::marker::Model;

/// How many rows a device has at most.
pub const MAX_QUEUES: usize = 256;

/// The queue at one index.
#[derive(Clone, Copy, Debug, PartialEq, Eq)]
pub struct Row {
    /// The number of the file whose queue this is.
    pub file: u16,

    /// The epoch at which the file was attached.
    pub epoch: u16,
}

/// What a detach did.
#[derive(Clone, Copy, Debug, PartialEq, Eq)]
pub struct Moved {
    /// The index that the detached file had.
    pub hole: u16,

    /// The file whose row stands there now. None where the detached file stood last.
    pub moved: Option<u16>,
}

/// The rows of one device, in the order of their indices.
#[derive(Drop)]
pub struct Queues {
    rows: Vec<Row>,
}

// Clauses see the rows.
impl Model for Queues {
    ghost use Rattle.std.specs.Prelude.{◌≤◌, List, vec_capacity};
    ghost use Rattle.tap_queues.specs.declared.queues.TheConstants.{MAX_QUEUES};
    ghost use Rattle.tap_queues.specs.declared.queues.Row.{Row};

    ghost Value = { List Row };

    ghost use Rattle.tap_queues.specs.Rows.{AreRows};

    ghost view = { λ q. q.rows.items };

    ghost invariant = { λ q. AreRows q.rows.items × (MAX_QUEUES ≤ vec_capacity q.rows) };
}

impl Queues {
    ghost use Rattle.tap_queues.specs.Rows.{AreRows, IsRowOf, index_of, attached, detached, moved_to};

    /// No rows, with memory for all that may come.
    pub fn new(alloc: Global) -> Result<Self, AllocError>
        ensures { IfOk result (λ queues. queues ≡ []) }
    {
        Ok(Queues {
            rows: Vec::with_capacity(alloc, MAX_QUEUES)?,
        })
    }

    /// How many rows there are.
    pub fn len(&self) -> u16
        ensures len { result ≡ length self.now }
        ensures sound { AreRows self.now }
    {
        self.rows.len() as u16
    }

    /// Whether there are no rows.
    pub fn is_empty(&self) -> bool
        ensures { IsTrue result ↔ (self.now ≡ []) }
    {
        self.rows.is_empty()
    }

    /// Whether there are as many rows as there may be.
    pub fn is_full(&self) -> bool
        ensures full { IsTrue result ↔ (length self.now ≡ MAX_QUEUES) }
        ensures within { length self.now ≤ MAX_QUEUES }
    {
        self.rows.len() == MAX_QUEUES
    }

    /// The row at an index, in one step.
    pub fn at(&self, index: u16) -> Option<Row>
        ensures { result ≡ slice_get self.now index }
    {
        self.rows.get(usize::from(index)).copied()
    }

    /// The index of a file's row.
    pub fn index_of(&self, file: u16) -> Option<u16>
        ensures index { result ≡ index_of self.now file }
        ensures exact { (i : ℕ) → (result ≡ Some i) ↔ IsRowOf self.now file i }
    {
        let index = place_of(&self.rows, file)?;
        Some(index as u16)
    }

    /// Whether a file has a row.
    pub fn contains(&self, file: u16) -> bool
        ensures { IsTrue result ↔ IsSome (index_of self.now file) }
    {
        self.index_of(file).is_some()
    }

    /// Appends a row and answers its index. Takes no memory.
    pub fn attach(&mut self, file: u16, epoch: u16) -> u16
        requires room { length self.old < MAX_QUEUES }
        requires absent { IsNone (index_of self.old file) }
        ensures index { result ≡ length self.old }
        ensures rows { self.new ≡ attached self.old file epoch }
        ensures sound { AreRows self.new }
    {
        let index = self.rows.len() as u16;
        self.rows.push_reserved(Row { file, epoch });
        index
    }

    /// Writes the last row over the file's row, drops the last, and says which file moved where.
    pub fn detach(&mut self, file: u16) -> Moved
        requires present { IsSome (index_of self.old file) }
        ensures hole { Some result.hole ≡ index_of self.old file }
        ensures moved { result.moved ≡ moved_to self.old result.hole }
        ensures rows { self.new ≡ detached self.old result.hole }
        ensures sound { AreRows self.new }
    {
        let hole = self.index_of(file).unwrap();
        fill_hole(&mut self.rows, usize::from(hole));
        Moved {
            hole,
            moved: self.at(hole).map(|row| row.file),
        }
    }
}

/// The place of a file's row.
fn place_of(rows: &[Row], file: u16) -> Option<usize>
    ensures place { result ≡ index_of rows.now file }
    ensures within { IfSome result (λ place. place < length rows.now) }
{
    rows.iter().position(|row| row.file == file)
}

/// Writes the last row over the one at `hole`, and drops the last.
#[tactic(auto, using(crate::proofs::RowLemmas::swap_removed))]
fn fill_hole(rows: &mut Vec<Row>, hole: usize)
    requires { hole < vec_len rows.old }
    ensures rows { rows.new.items ≡ detached rows.old.items hole }
    ensures capacity { vec_capacity rows.new ≡ vec_capacity rows.old }
{
    let _ = rows.swap_remove(hole);
}
