//! An actor.

ghost use Rattle.std.specs.Prelude.{◌≡◌, OnErr, OnOk, slice_get};
ghost use Rattle.core_actors.specs.Acting.{ending, going, idle, with_place};
ghost use Rattle.core_shared.specs.declared.doing.Doing.TheVariants.{Begun};

use core_shared::Doing;
use std::alloc::{AllocError, Global};
use std::collections::VecDeque;
use std::marker::Model;
use std::mem::replace;

/// An actor: the newest version that it has seen, its commands that haven't ended, as places among the lines of the
/// phase, and how far the first of them has come.
///
/// Its command may carry a frame, so it can't be dropped: [`Actor::abandon`] ends it.
pub struct Actor {
    seen: u64,
    script: VecDeque<u32>,
    doing: Doing,
}

impl Model for Actor {
    ghost use Rattle.core_actors.specs.Acting.{Acting};
    ghost use Rattle.core_actors.specs.Kept.{acting_of};

    ghost Value = { Acting };

    ghost view = { acting_of };
}

impl Actor {
    /// An actor without commands that has seen this version.
    pub fn new(alloc: Global, seen: u64) -> Actor
        ensures { result ≡ idle seen }
    {
        Actor {
            seen,
            script: VecDeque::new(alloc),
            doing: Doing::Begun,
        }
    }

    /// One command more, behind the others: the one at this place.
    pub fn push(&mut self, place: u32) -> Result<(), AllocError>
        ensures ok { OnOk result (self.new ≡ with_place place self.old) }
        ensures err { OnErr result (self.new ≡ self.old) }
    {
        self.script.push_back(place)?;
        Ok(())
    }

    /// The newest version that it has seen.
    pub fn seen(&self) -> u64
        ensures { result ≡ self.now.seen }
    {
        self.seen
    }

    /// The place of its first command among the lines of the phase.
    pub fn current(&self) -> Option<u32>
        ensures { result ≡ slice_get self.now.script 0 }
    {
        self.script.front().copied()
    }

    /// How far its first command has come.
    pub fn doing(&self) -> &Doing
        ensures { result.now ≡ self.now.doing }
    {
        &self.doing
    }

    /// How far its first command has come, taken out of it: to be put back by [`Actor::go_on`] or [`Actor::end`].
    pub fn take(&mut self) -> Doing
        ensures taken { result ≡ self.old.doing }
        ensures rest { self.new ≡ record self.old { doing = Begun } }
    {
        replace(&mut self.doing, Doing::Begun)
    }

    /// Its first command goes on as far as this, and it has seen this version.
    pub fn go_on(&mut self, seen: u64, doing: Doing)
        ensures { self.new ≡ going seen doing self.old }
    {
        self.seen = seen;
        replace(&mut self.doing, doing).abandon();
    }

    /// Its first command has ended, and it has seen this version.
    pub fn end(&mut self, seen: u64)
        ensures { self.new ≡ ending seen self.old }
    {
        self.seen = seen;
        self.script.pop_front();
        replace(&mut self.doing, Doing::Begun).abandon();
    }

    /// Ends the frame that its command carries, if it carries one.
    pub fn abandon(self) {
        let Actor {
            seen: _,
            script: _,
            doing,
        } = self;
        doing.abandon();
    }
}
