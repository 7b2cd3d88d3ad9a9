//! Phases that begin, and the trace.

ghost use Rattle.std.specs.Prelude.{◌≡◌, ◌+◌, true, IfOk, IfSome, IsSome, slice_get};
ghost use Rattle.tap_world.specs.Project.{project as project_of};
ghost use Rattle.tap_world.specs.Runs.{begins, has_ended};
ghost use Rattle.tap_world.specs.Setup.{setup_of};

use crate::run::Core;
use core_actors::Actors;
use core_shared::Shared;
use std::alloc::{AllocError, Global};
use tap_told::project;
use tap_trace::Trace;

impl<'s> Core<'s> {
    /// The next phase begins: its actors have seen the newest table.
    ///
    /// Where memory runs out the run is given up.
    pub fn begin_phase(self, alloc: Global) -> Result<Core<'s>, AllocError>
        requires left { IsSome (slice_get self.scenario.phases self.begun) }
        requires ended { has_ended self.world ≡ true }
        ensures { let old = self.entry in
            IfOk result (λ core. IfSome (slice_get old.scenario.phases old.begun) (λ phase. core
            ≡ record old { begun = old.begun + 1; world = begins old.begun phase old.world })) }
    {
        tap_sound::worlds_go_on();
        let Core {
            scenario,
            mut shared,
            actors,
            said,
            begun,
        } = self;
        actors.abandon();
        shared.phase = begun;
        let seen = shared.ops.newest() as u64;
        let phase = &scenario.phases.as_slice()[begun as usize];
        match Actors::of_phase(alloc, phase, seen) {
            Ok(actors) => Ok(Core {
                scenario,
                shared,
                actors,
                said,
                begun: begun + 1,
            }),
            Err(error) => {
                shared.abandon();
                Err(error)
            }
        }
    }

    /// The trace of what happened so far: of the whole run, once each phase has ended.
    ///
    /// Frames that the run still has are ended, also where memory runs out, which is the only error.
    pub fn project(self, alloc: Global) -> Result<Trace, AllocError>
        ensures { IfOk result (λ trace. trace ≡ project_of (setup_of self.entry.scenario) self.entry.world) }
    {
        tap_sound::worlds_go_on();
        tap_steady::runs_are_steady();
        tap_told::only_parts_are_told();
        tap_told::steady_can_be_told();
        let Core {
            scenario,
            shared,
            actors,
            said,
            begun: _,
        } = self;
        actors.abandon();
        let Shared {
            ops,
            files,
            guests,
            vhosts,
            hosted: _,
            dropped: _,
            writer: _,
            phase: _,
        } = shared;
        let trace = project(
            alloc,
            scenario,
            ops.ops(),
            said,
            files,
            guests.into_items(),
            vhosts.sides(),
        );
        vhosts.abandon();
        trace
    }
}
