//! Commands that change the table by an operation of their own.

ghost use Rattle.std.specs.Prelude.{◌≡◌, ◌+◌, length, IfOk, None, OnOk};
ghost use Rattle.core_shared.specs.declared.onward.Onward.TheVariants as on;
ghost use Rattle.core_table.specs.Course.{course_of};
ghost use Rattle.tap_lines.specs.Told.{told_more};
ghost use Rattle.tap_steer.specs.Named.{IsNamed};
ghost use Rattle.tap_steer.specs.Rules.{refuse};
ghost use Rattle.tap_trace.specs.declared.answer.Answer.TheVariants as answer;
ghost use Rattle.core_shared.specs.Did.{Went};
ghost use Rattle.core_shared.specs.MayDo.{MayGo};
ghost use Rattle.core_shared.specs.Suiting.{IsItsOp};
ghost use Rattle.core_shared.specs.declared.doing.Doing.TheVariants as doing;

use crate::publish::publish;
use core_shared::{Asked, Doing, Onward, Shared};
use std::alloc::AllocError;
use tap_steer::{IFF_ATTACH_QUEUE, Op, Steer};
use tap_trace::Answer;
use tap_world::Found;

/// The first look of a command with an operation, while nobody holds the writer. It ends with the table's refusal, or
/// holds the writer from now on.
pub fn begin_change(shared: &mut Shared, asked: &Asked<'_>, op: Op) -> Onward
    requires may { MayGo asked.now doing.Begun shared.old }
    requires op { IsItsOp asked.now op }
    ensures went { Went asked.now doing.Begun shared.old shared.new result }
{
    let seen = shared.ops.newest() as u64;
    if let Some(refusal) = shared.ops.table().refuse(&op) {
        return Onward::Ends {
            seen,
            answer: Answer::Tap(refusal),
        };
    }
    shared.writer = Some(asked.actor());
    Onward::Goes {
        seen,
        doing: course(shared.ops.table(), op),
        found: Found::Version(seen),
    }
}

// How a lawful operation's command goes on: an attach, a detach, a resize, or a change of the table alone.
fn course(table: &Steer, op: Op) -> Doing
    requires { IsNamed table.now op }
    ensures { result ≡ course_of table.now op }
{
    match op {
        Op::SetIff { file, .. } => Doing::Opens { file, op },
        Op::SetQueue { file, flags } => {
            if flags & IFF_ATTACH_QUEUE != 0 {
                Doing::Opens { file, op }
            } else {
                Doing::Withdraws { file, op }
            }
        }
        Op::Shut { file } => {
            if table.is_enabled(file) {
                Doing::Withdraws { file, op }
            } else {
                Doing::Changes { op }
            }
        }
        Op::Resize { file, capacity } => Doing::Resizes { file, capacity },
        Op::HdrSize { .. }
        | Op::Persist { .. }
        | Op::Learn { .. }
        | Op::Tick { .. }
        | Op::Steering { .. }
        | Op::Filter { .. }
        | Op::Back { .. } => Doing::Changes { op },
    }
}

/// A change of the table alone, whose actor holds the writer, is published: the command ends with its version, and
/// gives back the writer.
///
/// # Errors
///
/// Only where memory runs out.
pub fn publish_change(shared: &mut Shared, asked: &Asked<'_>, op: Op) -> Result<Onward, AllocError>
    requires may { MayGo asked.now (doing.Changes op) shared.old }
    ensures went { IfOk result (λ on. Went asked.now (doing.Changes op) shared.old shared.new on) }
{
    publish_last(shared, asked, op)
}

/// An attach whose gate is open, and whose actor holds the writer, is published: the command ends with its version, and
/// gives back the writer.
///
/// # Errors
///
/// Only where memory runs out.
pub fn publish_attach(
    shared: &mut Shared,
    asked: &Asked<'_>,
    file: u16,
    op: Op,
) -> Result<Onward, AllocError>
    requires may { MayGo asked.now (doing.Opened file op) shared.old }
    ensures went { IfOk result (λ on. Went asked.now (doing.Opened file op) shared.old shared.new on) }
{
    publish_last(shared, asked, op)
}

// A command's last operation is published: it ends with its version, and gives back the writer.
fn publish_last(shared: &mut Shared, asked: &Asked<'_>, op: Op) -> Result<Onward, AllocError>
    requires named { IsNamed shared.old.ops.table op }
    requires lawful { refuse shared.old.ops.table op ≡ None }
    ensures ends { IfOk result (λ how.
        how ≡ on.Ends (length shared.old.ops.ops + 1) (answer.Version (length shared.old.ops.ops + 1))) }
    ensures told { OnOk result (shared.new ≡ record shared.old {
      ops = told_more (record { phase = shared.old.phase; actor = asked.now.actor; command = asked.now.number; op = op })
          shared.old.ops;
      writer = None;
    }) }
{
    let version = publish(shared, asked, op)?;
    shared.writer = None;
    Ok(Onward::Ends {
        seen: version,
        answer: Answer::Version(version),
    })
}

/// A detach is published; next its gate is shut.
///
/// # Errors
///
/// Only where memory runs out.
pub fn publish_detach(
    shared: &mut Shared,
    asked: &Asked<'_>,
    file: u16,
    op: Op,
) -> Result<Onward, AllocError>
    requires may { MayGo asked.now (doing.Withdraws file op) shared.old }
    ensures went { IfOk result (λ on. Went asked.now (doing.Withdraws file op) shared.old shared.new on) }
{
    let version = publish(shared, asked, op)?;
    Ok(Onward::Goes {
        seen: version,
        doing: Doing::Withdrawn { file, version },
        found: Found::Version(version),
    })
}
