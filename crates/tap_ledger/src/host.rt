//! The host to which a worker gives frames.

ghost use Rattle.std.specs.Prelude.{◌≡◌, ◌<◌};
ghost use Rattle.tap_ledger.specs.Host.{HostState, with_given};

use tap_frame::Frame;

/// Where the frames go that a guest sends.
///
/// To a contract it is the frames that it was given, in their order, and how many more it takes.
pub trait HostIn {
    // What it is to a contract.
    ghost host: { Self → HostState };

    /// How many more frames it takes.
    fn room(&self) -> u32
        ensures { result ≡ (host self.now).room };

    /// Gives it a frame, whose fate that is.
    fn give(&mut self, frame: Frame)
        requires room { 0 < (host self.old).room }
        ensures given { host self.new ≡ with_given frame (host self.old) };
}
