//! One more operation of the table.

ghost use Rattle.std.specs.Prelude.{◌≡◌, ◌+◌, length, None, OnOk, IfOk};
ghost use Rattle.tap_steer.specs.Named.{IsNamed};
ghost use Rattle.tap_steer.specs.Rules.{refuse};
ghost use Rattle.tap_lines.specs.Told.{told_more};

use core_shared::{Asked, Shared};
use std::alloc::AllocError;
use tap_steer::Op;
use tap_world::Published;

// Publishes an operation of a command, and says which version it made.
pub(crate) fn publish(shared: &mut Shared, asked: &Asked<'_>, op: Op) -> Result<u64, AllocError>
    requires named { IsNamed shared.old.ops.table op }
    requires lawful { refuse shared.old.ops.table op ≡ None }
    ensures version { IfOk result (λ version. version ≡ length shared.old.ops.ops + 1) }
    ensures told { OnOk result (shared.new ≡ record shared.old {
      ops = told_more (record { phase = shared.old.phase; actor = asked.now.actor; command = asked.now.number; op = op })
          shared.old.ops;
    }) }
{
    shared.ops.publish(Published {
        phase: shared.phase,
        actor: asked.actor(),
        command: asked.number(),
        op,
    })?;
    Ok(shared.ops.newest() as u64)
}
