//! Why an operation on the table of a tap is refused.

ghost use Rattle.std.specs.Prelude.{◌≡◌};

use thiserror::Error;

/// Why an operation is refused, by the names of Linux's errors.
#[derive(Clone, Copy, Debug, PartialEq, Eq, Error)]
pub enum TapErr {
    /// The file has a device.
    #[error("the file has a device")]
    EEXIST,
    /// What is asked for makes no sense.
    #[error("invalid: {0}")]
    EINVAL(Invalid),
    /// What is asked for is taken.
    #[error("busy: {0}")]
    EBUSY(Busy),
    /// There is no room for one more.
    #[error("too big: {0}")]
    E2BIG(TooBig),
    /// The file has no device.
    #[error("the file has no device")]
    EBADFD,
    /// A flag asks for what this device hasn't.
    #[error("a flag is not supported")]
    ENOTSUP,
    /// There are as many devices as there may be.
    #[error("no more devices")]
    ENFILE,
}

/// What makes no sense.
#[derive(Clone, Copy, Debug, PartialEq, Eq, Error)]
pub enum Invalid {
    /// The device isn't asked for as a tap.
    #[error("the flags name no tap")]
    Kind,
    /// The device is asked for with several queues and has one, or the other way round.
    #[error("one queue or several, other than the device has")]
    Multi,
    /// The queue to be attached isn't detached.
    #[error("the queue isn't detached")]
    NotDetached,
    /// The file has no device whose queue could be detached.
    #[error("the file has no device")]
    NoDevice,
    /// The device has one queue for good.
    #[error("the device has one queue")]
    NotMulti,
    /// The queue is detached already.
    #[error("the queue is detached")]
    Detached,
    /// Neither attach nor detach is asked for.
    #[error("neither attach nor detach")]
    NoFlag,
    /// No header has this size.
    #[error("no such header size")]
    HdrSize,
    /// The clock is past this time.
    #[error("a time that is past")]
    Clock,
}

/// What is taken.
#[derive(Clone, Copy, Debug, PartialEq, Eq, Error)]
pub enum Busy {
    /// The device is asked for alone, and exists.
    #[error("the device is wanted alone and exists")]
    Exclusive,
    /// The device has the one queue that it may have.
    #[error("the device has its one queue")]
    OneQueue,
    /// A ring has the file as its backend.
    #[error("the file is the backend of a ring")]
    Backed,
}

/// What there is no room for.
#[derive(Clone, Copy, Debug, PartialEq, Eq, Error)]
pub enum TooBig {
    /// One more queue of a device.
    #[error("one more queue")]
    Queues,
    /// One more attachment of a file.
    #[error("one more attachment")]
    Epochs,
    /// One more resize of a file.
    #[error("one more resize")]
    Resizes,
}

impl TapErr {
    ghost use Rattle.tap_ledger.specs.Refusals.{number_of};

    /// Its number.
    pub fn number(&self) -> u8
        ensures { result ≡ number_of self.now }
    {
        match self {
            TapErr::EEXIST => 1,
            TapErr::EINVAL(_) => 2,
            TapErr::EBUSY(_) => 3,
            TapErr::E2BIG(_) => 4,
            TapErr::EBADFD => 5,
            TapErr::ENOTSUP => 6,
            TapErr::ENFILE => 7,
        }
    }
}
