//! What actors share.

use crate::guests::Guests;
use crate::vhosts::Vhosts;
use tap_frame::Name;
use tap_lines::{Files, Ops};

/// What the actors of a scenario share: the world without them and without their answers.
///
/// It has frames, so it can't be dropped: [`Shared::abandon`] ends them.
pub struct Shared {
    /// The operations that were published, and the newest table.
    pub ops: Ops,
    /// The files by number.
    pub files: Files,
    /// The guests by number.
    pub guests: Guests,
    /// The vhosts by number, with the workers of the turns that are under way.
    pub vhosts: Vhosts,
    /// The names of the frames that were given to the host, in order.
    pub hosted: Vec<Name>,
    /// The names of the frames that were dropped, in order.
    pub dropped: Vec<Name>,
    /// The actor that holds the writer of the table.
    pub writer: Option<u16>,
    /// The number of the phase, from 0.
    pub phase: u32,
}

impl Shared {
    /// Ends each frame that it has.
    pub fn abandon(self) {
        let Shared {
            ops: _,
            files,
            guests: _,
            vhosts,
            hosted: _,
            dropped: _,
            writer: _,
            phase: _,
        } = self;
        files.abandon();
        vhosts.abandon();
    }
}
