//! Publications of backends.

ghost use Rattle.std.specs.Prelude.{◌≡◌, IfOk, IfSome, IsSome, None, false};
ghost use Rattle.core_calls.specs.Ended.{HasEnded};
ghost use Rattle.core_shared.specs.Did.{Went};
ghost use Rattle.core_shared.specs.MayDo.{MayGo};
ghost use Rattle.core_shared.specs.declared.doing.Doing.TheVariants as doing;
ghost use Rattle.tap_guests.specs.Side.{is_served};
ghost use Rattle.tap_steer.specs.Named.{IsFile};
ghost use Rattle.tap_steer.specs.declared.operation.Op.TheVariants as op;
ghost use Rattle.tap_world.specs.ByNumber.{at};
ghost use Rattle.tap_world.specs.StepBackend.{side_of as side_of_ring};

use crate::shares::{give_back, publish};
use core_shared::{Asked, Doing, Onward, Shared};
use std::alloc::AllocError;
use tap_steer::{Op, Side};
use tap_trace::Answer;
use tap_world::Found;

// The side of a file that a ring's backend is.
pub(crate) fn side_of(ring: u16) -> Side
    ensures { result ≡ side_of_ring ring }
{
    if ring == 0 { Side::Rx } else { Side::Tx }
}

/// A file that was set as a ring's backend is the table's from now on. A receive ring's command goes on to the file's
/// owner; a transmit ring's ends, and gives back the writer and its ring's turn.
///
/// # Errors
///
/// Only where memory runs out.
pub fn publish_back(
    shared: &mut Shared,
    asked: &Asked<'_>,
    vhost: u16,
    ring: u16,
    file: u16,
) -> Result<Onward, AllocError>
    requires may { MayGo asked.now (doing.Backed vhost ring file) shared.old }
    ensures went { IfOk result (λ on. Went asked.now (doing.Backed vhost ring file) shared.old shared.new on) }
{
    let version = publish(
        shared,
        asked,
        Op::Back {
            file,
            side: side_of(ring),
            vhost: Some(vhost),
        },
    )?;
    if ring == 0 {
        Ok(Onward::Goes {
            seen: version,
            doing: Doing::Owns {
                vhost,
                file,
                version,
            },
            found: Found::Version(version),
        })
    } else {
        give_back(shared, vhost, ring);
        Ok(Onward::Ends {
            seen: version,
            answer: Answer::Version(version),
        })
    }
}

// A file is no ring's backend on this side any more. The command ends, and gives back the writer and its ring's turn.
fn publish_unset(
    shared: &mut Shared,
    asked: &Asked<'_>,
    vhost: u16,
    ring: u16,
    file: u16,
) -> Result<Onward, AllocError>
    requires named { IsFile shared.old.ops.table file }
    requires there { IsSome (at shared.old.vhosts vhost) }
    requires unserved { IfSome (at shared.old.vhosts vhost) (λ v. is_served ring v ≡ false) }
    ensures { IfOk result (λ o. HasEnded asked.now vhost ring (op.Back file (side_of_ring ring) None)
        shared.old shared.new o) }
{
    let version = publish(
        shared,
        asked,
        Op::Back {
            file,
            side: side_of(ring),
            vhost: None,
        },
    )?;
    give_back(shared, vhost, ring);
    Ok(Onward::Ends {
        seen: version,
        answer: Answer::Version(version),
    })
}

/// A file that was given back by a receive ring is no such ring's backend any more. The command ends, and gives back
/// the writer and its ring's turn.
///
/// # Errors
///
/// Only where memory runs out.
pub fn publish_disowned(
    shared: &mut Shared,
    asked: &Asked<'_>,
    vhost: u16,
    file: u16,
) -> Result<Onward, AllocError>
    requires may { MayGo asked.now (doing.Disowned vhost file) shared.old }
    ensures went { IfOk result (λ on. Went asked.now (doing.Disowned vhost file) shared.old shared.new on) }
{
    publish_unset(shared, asked, vhost, 0, file)
}

/// A file that was taken off a transmit ring is no such ring's backend any more. The command ends, and gives back the
/// writer and its ring's turn.
///
/// # Errors
///
/// Only where memory runs out.
pub fn publish_released(
    shared: &mut Shared,
    asked: &Asked<'_>,
    vhost: u16,
    file: u16,
) -> Result<Onward, AllocError>
    requires may { MayGo asked.now (doing.Released vhost file) shared.old }
    ensures went { IfOk result (λ on. Went asked.now (doing.Released vhost file) shared.old shared.new on) }
{
    publish_unset(shared, asked, vhost, 1, file)
}
