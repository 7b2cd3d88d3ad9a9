//! What holds of the table after any lawful operations.

ghost use Rattle.tap_steer.specs.Examples.{QueuesComeAndGo, NoQueueIsLeft, FlagsAreRefused, RepliesComeBack, FlowsGo, ProgramsSteerAndCut, ProgramsDrop, DevicesPersist, ResizesEnd};
ghost use Rattle.tap_steer.specs.Laws.{ReachedIsSound, EpochsNeverFall, EpochsRiseByOne, ResizesRiseByOne, FilesAreInUse, RowsAreEnabled, NumbersAreLeft, DevicesHaveFiles, StaysOverClose, IsFoundAgain, NamesStay};

/// After lawful operations a file's queue stands in the rows of one device, once and at its own epoch, where it is
/// enabled, and else nowhere. A device has at most 256 queues, and its flows lead to its rows.
pub fn reached_is_sound()
    ensures { ReachedIsSound }
{}

/// Epochs never fall.
pub fn epochs_never_fall()
    ensures { EpochsNeverFall }
{}

/// An operation leaves a file's epoch and doesn't enable its queue, or enables it under the next epoch: so each epoch is
/// enabled once and ended once.
pub fn epochs_rise_by_one()
    ensures { EpochsRiseByOne }
{}

/// An operation leaves a file's capacity and the number of its resizes, or that number rises by one.
pub fn resizes_rise_by_one()
    ensures { ResizesRiseByOne }
{}

/// After lawful operations a file with a device has an epoch of at least 1, and a backend has a device.
pub fn files_are_in_use()
    ensures { FilesAreInUse }
{}

/// The row that a frame gets is that of an enabled queue at its own epoch, and no more of the frame is kept than
/// there is.
pub fn rows_are_enabled()
    ensures { RowsAreEnabled }
{}

/// An attachment that isn't refused has an epoch below 65,535 before it, and a resize fewer than 127 before it.
pub fn numbers_are_left()
    ensures { NumbersAreLeft }
{}

/// A device without files that isn't persistent doesn't exist.
pub fn devices_have_files()
    ensures { DevicesHaveFiles }
{}

/// What a persistent device keeps while no file belongs to it.
pub fn persistent_devices_stay()
    ensures closed { StaysOverClose }
    ensures found { IsFoundAgain }
{}

/// Files, names and programs stay.
pub fn names_stay()
    ensures { NamesStay }
{}

/// Worked examples.
pub fn worked_examples()
    ensures queues { QueuesComeAndGo }
    ensures no_queue { NoQueueIsLeft }
    ensures flags { FlagsAreRefused }
    ensures replies { RepliesComeBack }
    ensures flows { FlowsGo }
    ensures programs { ProgramsSteerAndCut }
    ensures drops { ProgramsDrop }
    ensures persistence { DevicesPersist }
    ensures resizes { ResizesEnd }
{}
