//! What several events do to what actors share.

ghost use Rattle.std.specs.Prelude.{◌≡◌, ◌+◌, IfOk, IfSome, IsSome, None, false, length};
ghost use Rattle.core_calls.specs.Turned.{turned};
ghost use Rattle.tap_guests.specs.Side.{is_served};
ghost use Rattle.tap_lines.specs.Told.{told_more};
ghost use Rattle.tap_steer.specs.Named.{IsNamed};
ghost use Rattle.tap_steer.specs.Rules.{refuse};
ghost use Rattle.tap_world.specs.ByNumber.{at};

use core_shared::{Asked, Shared};
use std::alloc::AllocError;
use tap_steer::Op;
use tap_world::Published;

// The command's operation, which isn't refused, makes the next version, which is told.
pub(crate) fn publish(shared: &mut Shared, asked: &Asked<'_>, op: Op) -> Result<u64, AllocError>
    requires named { IsNamed shared.old.ops.table op }
    requires lawful { refuse shared.old.ops.table op ≡ None }
    ensures shared { IfOk result (λ version. shared.new ≡ record shared.old {
      ops = told_more (record { phase = shared.old.phase; actor = asked.now.actor; command = asked.now.number; op = op })
          shared.old.ops;
    }) }
    ensures version { IfOk result (λ version. version ≡ length shared.old.ops.ops + 1) }
{
    shared.ops.publish(Published {
        phase: shared.phase,
        actor: asked.actor(),
        command: asked.number(),
        op,
    })?;
    Ok(shared.ops.newest() as u64)
}

// Somebody holds the turn of a ring of a vhost, which no worker serves, or nobody does.
pub(crate) fn turn(shared: &mut Shared, vhost: u16, ring: u16, holder: Option<u32>)
    requires there { IsSome (at shared.old.vhosts vhost) }
    requires unserved { IfSome (at shared.old.vhosts vhost) (λ v. is_served ring v ≡ false) }
    ensures { shared.new ≡ record shared.old { vhosts = turned vhost ring holder shared.old.vhosts } }
{
    shared.vhosts.side_mut(vhost).set_turn(ring, holder);
}

// A command on a backend gives back its ring's turn and the writer.
pub(crate) fn give_back(shared: &mut Shared, vhost: u16, ring: u16)
    requires there { IsSome (at shared.old.vhosts vhost) }
    requires unserved { IfSome (at shared.old.vhosts vhost) (λ v. is_served ring v ≡ false) }
    ensures { shared.new ≡ record shared.old { vhosts = turned vhost ring None shared.old.vhosts; writer = None } }
{
    turn(shared, vhost, ring, None);
    shared.writer = None;
}
