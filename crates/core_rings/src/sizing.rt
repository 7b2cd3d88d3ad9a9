//! Rings that get another capacity.

ghost use Rattle.std.specs.Prelude.{IfOk};
ghost use Rattle.core_shared.specs.Did.{Did, Went};
ghost use Rattle.core_shared.specs.MayDo.{MayDo, MayGo};
ghost use Rattle.core_shared.specs.declared.doing.Doing.TheVariants as doing;
ghost use Rattle.tap_world.specs.declared.event.EventKind.TheVariants as kind;

use core_shared::{Asked, Doing, Onward, Shared};
use std::alloc::AllocError;
use tap_steer::Op;
use tap_trace::Answer;
use tap_world::{Found, Published};

/// A resize gives the ring of its file another capacity. It is to cut what is over that next; how many places were given
/// out is found.
pub fn resize(shared: &mut Shared, asked: &Asked<'_>, file: u16, capacity: u16) -> Onward
    requires may { MayGo asked.now (doing.Resizes file capacity) shared.old }
    ensures went { Went asked.now (doing.Resizes file capacity) shared.old shared.new result }
{
    let side = shared.files.side_mut(file);
    let claimed = side.claimed();
    side.resize(capacity);
    Onward::Goes {
        seen: asked.seen(),
        doing: Doing::Shrinks {
            file,
            capacity,
            claimed,
            cuts: 0,
        },
        found: Found::Claimed(claimed),
    }
}

/// A resize with a new capacity, which found so many places given out and has cut so many frames: it cuts the ring's
/// last frame while more wait than the ring holds; then it publishes its operation, gives the writer back, and answers.
pub fn shrink(
    shared: &mut Shared,
    asked: &Asked<'_>,
    file: u16,
    capacity: u16,
    claimed: u64,
    cuts: u64,
) -> Result<Onward, AllocError>
    requires may { MayGo asked.now (doing.Shrinks file capacity claimed cuts) shared.old }
    ensures went { IfOk result (λ on.
        Went asked.now (doing.Shrinks file capacity claimed cuts) shared.old shared.new on) }
{
    if shared.files.side(file).is_over() {
        Ok(cut(shared, asked, file, capacity, claimed, cuts))
    } else {
        publish(shared, asked, file, capacity, claimed, cuts)
    }
}

// Cut: the ring's last frame is cut.
fn cut(
    shared: &mut Shared,
    asked: &Asked<'_>,
    file: u16,
    capacity: u16,
    claimed: u64,
    cuts: u64,
) -> Onward
    requires may { MayDo asked.now (doing.Shrinks file capacity claimed cuts) kind.Cut shared.old }
    ensures did { Did asked.now (doing.Shrinks file capacity claimed cuts) kind.Cut shared.old shared.new result }
{
    let name = shared.files.side_mut(file).cut().end();
    Onward::Goes {
        seen: asked.seen(),
        doing: Doing::Shrinks {
            file,
            capacity,
            claimed,
            cuts: cuts + 1,
        },
        found: Found::Moved(name),
    }
}

// Publish: the resize is published, and the writer given back.
fn publish(
    shared: &mut Shared,
    asked: &Asked<'_>,
    file: u16,
    capacity: u16,
    claimed: u64,
    cuts: u64,
) -> Result<Onward, AllocError>
    requires may { MayDo asked.now (doing.Shrinks file capacity claimed cuts) kind.Publish shared.old }
    ensures did { IfOk result (λ on.
        Did asked.now (doing.Shrinks file capacity claimed cuts) kind.Publish shared.old shared.new on) }
{
    let published = Published {
        phase: shared.phase,
        actor: asked.actor(),
        command: asked.number(),
        op: Op::Resize { file, capacity },
    };
    shared.ops.publish(published)?;
    shared.writer = None;
    let version = shared.ops.newest() as u64;
    Ok(Onward::Ends {
        seen: version,
        answer: Answer::Resized {
            version,
            claimed,
            freed: shared.files.side(file).freed(),
            cut: cuts,
        },
    })
}
