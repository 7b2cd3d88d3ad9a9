//! Files by number.

ghost use Rattle.std.specs.Prelude.{◌≡◌, ◌++◌, ◌∷◌, [], IsSome, OnErr, OnOk, Some, is_some};
ghost use Rattle.std.specs.Borrow.{sem};
ghost use Rattle.tap_world.specs.ByNumber.{at};
ghost use Rattle.tap_lines.specs.Files.{OneChanges, SameNumbers};

use crate::side::FileSide;
use std::alloc::{AllocError, Global};
use std::marker::Model;

/// Files by number, of which some aren't there.
///
/// To a contract it is the list of them. They have frames, so they can't be dropped: [`Files::abandon`] ends them.
pub struct Files {
    sides: Vec<Option<FileSide>>,
}

impl Model for Files {
    ghost use Rattle.std.specs.Prelude.{List, Option};
    ghost use Rattle.tap_lines.specs.Placed.{Placed};

    ghost Value = { List (Option Placed) };

    ghost view = { λ f. f.sides.items };
}

impl Files {
    ghost use Rattle.tap_lines.specs.Lending.{LendsSide};

    /// No files.
    pub fn new(alloc: Global) -> Files
        ensures { result ≡ [] }
    {
        Files {
            sides: Vec::new(alloc),
        }
    }

    /// One file more, or a number that has none. Where memory runs out, the frames of the file are ended.
    pub fn push(&mut self, side: Option<FileSide>) -> Result<(), AllocError>
        ensures ok { OnOk result (self.new ≡ self.old ++ side ∷ []) }
        ensures err { OnErr result (self.new ≡ self.old) }
    {
        match self.sides.reserve(1) {
            Ok(()) => {
                self.sides.push_reserved(side);
                Ok(())
            }
            Err(error) => {
                if let Some(side) = side {
                    side.abandon();
                }
                Err(error)
            }
        }
    }

    /// The files, by number.
    pub fn sides(&self) -> &[Option<FileSide>]
        ensures { result.now ≡ self.now }
    {
        &self.sides
    }

    /// Whether there is a file of this number.
    pub fn has(&self, file: u16) -> bool
        ensures { result ≡ is_some (at self.now file) }
    {
        match self.sides.get(usize::from(file)) {
            Some(side) => side.is_some(),
            None => false,
        }
    }

    /// The file of a number.
    pub fn side(&self, file: u16) -> &FileSide
        requires { IsSome (at self.now file) }
        ensures { at self.now file ≡ Some result.now }
    {
        self.sides[usize::from(file)].as_ref().unwrap()
    }

    /// The file of a number, to be changed.
    pub fn side_mut(&mut self, file: u16) -> &mut FileSide
        requires { IsSome (at self.old file) }
        ensures* lends { sem 𝓛 (LendsSide self.entry file result) }
        ensures value { at self.old file ≡ Some result.now }
    {
        self.sides[usize::from(file)].as_mut().unwrap()
    }

    /// Ends each frame that they have.
    pub fn abandon(self) {
        let Files { mut sides } = self;
        while let Some(slot) = sides.pop() {
            if let Some(side) = slot {
                side.abandon();
            }
        }
        sides.destroy_empty();
    }
}

/// Where one file changes by a change of its own, the files are those after it.
pub fn one_changes()
    ensures { OneChanges }
{}

/// A file has the same number with its frames as without them.
pub fn same_numbers()
    ensures { SameNumbers }
{}
