//! What the table keeps of a file.

ghost use Rattle.std.specs.Prelude.{◌≡◌, ◌<◌};

use tap_ledger::Side;

/// How a file stands to the devices.
#[derive(Clone, Copy, Debug, PartialEq, Eq)]
pub enum Attachment {
    /// It has no device.
    Unattached,
    /// Its queue is enabled: it is a row of this device.
    Enabled(u16),
    /// Its queue is disabled: it is no row, and still belongs to this device.
    Disabled(u16),
}

/// What the table keeps of a file.
#[derive(Clone, Copy, Debug, PartialEq, Eq)]
pub struct File {
    /// How it stands to the devices.
    pub attachment: Attachment,
    /// How often it was attached.
    pub epoch: u16,
    /// The vhost whose receive ring has it as its backend.
    pub rx: Option<u16>,
    /// The vhost whose transmit ring has it as its backend.
    pub tx: Option<u16>,
    /// How many frames its ring holds.
    pub capacity: u16,
    /// How often that was changed.
    pub resizes: u8,
}

impl Attachment {
    ghost use Rattle.tap_steer.specs.Table.{home, is_disabled, is_enabled};

    /// The device to which the file belongs.
    pub(crate) fn home(self) -> Option<u16>
        ensures { result ≡ home self }
    {
        match self {
            Attachment::Unattached => None,
            Attachment::Enabled(device) | Attachment::Disabled(device) => Some(device),
        }
    }

    /// Whether the file's queue is disabled.
    pub(crate) fn is_disabled(self) -> bool
        ensures { result ≡ is_disabled self }
    {
        matches!(self, Attachment::Disabled(_))
    }

    /// Whether it is enabled.
    pub(crate) fn is_enabled(self) -> bool
        ensures { result ≡ is_enabled self }
    {
        matches!(self, Attachment::Enabled(_))
    }
}

impl File {
    ghost use Rattle.tap_steer.specs.Table.{new_file};
    ghost use Rattle.tap_steer.specs.Rules.{backer, is_backed};
    ghost use Rattle.tap_steer.specs.After.{attached_file, standing, backed, resized};

    /// A file that was never attached.
    pub(crate) fn new(capacity: u16) -> File
        ensures { result ≡ new_file capacity }
    {
        File {
            attachment: Attachment::Unattached,
            epoch: 0,
            rx: None,
            tx: None,
            capacity,
            resizes: 0,
        }
    }

    /// The same file, attached once more.
    pub(crate) fn attached(self, device: u16) -> File
        requires { self.epoch < 65535 }
        ensures { result ≡ attached_file self device }
    {
        File {
            attachment: Attachment::Enabled(device),
            epoch: self.epoch + 1,
            ..self
        }
    }

    /// The same file where it stands otherwise.
    pub(crate) fn standing(self, attachment: Attachment) -> File
        ensures { result ≡ standing attachment self }
    {
        File { attachment, ..self }
    }

    /// The vhost that has a side of it.
    pub(crate) fn backer(self, side: Side) -> Option<u16>
        ensures { result ≡ backer side self }
    {
        match side {
            Side::Rx => self.rx,
            Side::Tx => self.tx,
        }
    }

    /// Whether a ring has it as its backend.
    pub(crate) fn is_backed(self) -> bool
        ensures { result ≡ is_backed self }
    {
        self.rx.is_some() || self.tx.is_some()
    }

    /// The same file with a side that belongs to a vhost, or to none.
    pub(crate) fn backed(self, side: Side, vhost: Option<u16>) -> File
        ensures { result ≡ backed side vhost self }
    {
        match side {
            Side::Rx => File { rx: vhost, ..self },
            Side::Tx => File { tx: vhost, ..self },
        }
    }

    /// The same file with another capacity, resized once more.
    pub(crate) fn resized(self, capacity: u16) -> File
        requires { self.resizes < 127 }
        ensures { result ≡ resized capacity self }
    {
        File {
            capacity,
            resizes: self.resizes + 1,
            ..self
        }
    }
}
