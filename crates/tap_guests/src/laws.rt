//! What holds of refusals, of callers and of a world, as contracts of functions that do nothing.

ghost use Rattle.tap_guests.specs.Laws.{CallersMeetNone, FreeIsUnserved, SetsInWorld, UnsetsInWorld};
ghost use Rattle.tap_guests.specs.Words.{DriversTell, VhostsTell};

/// No refusal of a vhost's calls is want of memory: each has words in a trace.
pub fn vhosts_tell()
    ensures { VhostsTell }
{}

/// Nor is one of a driver's calls.
pub fn drivers_tell()
    ensures { DriversTell }
{}

/// A ring whose turn is free has no worker. So somebody who holds no turn of a vhost, and may call, meets none.
pub fn callers_meet_no_worker()
    ensures free { FreeIsUnserved }
    ensures callers { CallersMeetNone }
{}

/// Drive of a backend is what the definitions of a world say of it.
pub fn backs_are_the_worlds()
    ensures sets { SetsInWorld }
    ensures unsets { UnsetsInWorld }
{}
