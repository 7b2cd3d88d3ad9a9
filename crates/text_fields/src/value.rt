//! What a field says.

use crate::device_name::DeviceName;
use crate::shared::SharedBytes;

/// What a field says. Contracts see a name and bytes as their lists.
#[derive(Debug, Drop)]
pub enum Value {
    /// `-`: no value.
    None,
    Number(u64),
    Name(DeviceName),
    Bytes(SharedBytes),
}
