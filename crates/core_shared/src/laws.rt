//! That an event which was done is a step of the world.

ghost use Rattle.core_shared.specs.Steps.{EventsMakeSteps};

/// An allowed event of an actor that was done is a step of the world, with the detach that ends by it.
pub fn events_make_steps()
    ensures { EventsMakeSteps }
{}
