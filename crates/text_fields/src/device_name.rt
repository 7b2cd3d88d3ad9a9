//! The name of a device.

ghost use Rattle.std.specs.Prelude.{◌≡◌, ◌≤◌, IsTrue, length, take};
ghost use Rattle.std.specs.List.{list_all};
ghost use Rattle.std.specs.Option.{option_map};
ghost use Rattle.text_fields.specs.Names.{is_name, is_name_byte, name_of};

use std::fmt;
use std::marker::Model;

/// The greatest number of bytes of a name.
const MOST: usize = 15;

/// The name of a device, as in Linux: 1 to 15 letters, digits, `_`, `-` or `.`, and not `-` alone. It
/// takes no memory. Contracts see its bytes.
#[derive(Debug, Drop)]
pub struct DeviceName {
    bytes: [u8; MOST],
    len: usize,
}

impl Model for DeviceName {
    ghost use Rattle.std.specs.Prelude.{List, ℕ, take, ◌≤◌, IsTrue};
    ghost use Rattle.text_fields.specs.Names.{is_name};

    ghost Value = { List ℕ };

    ghost view = { λ n. take n.len n.bytes };

    ghost invariant = { λ n. (n.len ≤ 15) × IsTrue (is_name (take n.len n.bytes)) };
}

fn is_name_bytes(field: &[u8]) -> bool
    ensures { result ≡ list_all is_name_byte field.now }
{
    field.iter().all(|b| b.is_ascii_alphanumeric() || *b == b'_' || *b == b'-' || *b == b'.')
}

fn is_name(field: &[u8]) -> bool
    ensures { result ≡ is_name field.now }
{
    if !is_name_bytes(field) || field.is_empty() || field.len() > MOST {
        return false;
    }
    field != b"-".as_slice()
}

// The bytes with zeros behind them.
fn filled(field: &[u8]) -> [u8; MOST]
    requires { length field.now ≤ 15 }
    ensures { take (length field.now) result ≡ field.now }
{
    let mut bytes = [0; MOST];
    bytes[..field.len()].copy_from_slice(field);
    bytes
}

impl DeviceName {
    /// The name that a field is, where it is one.
    pub fn of(field: &[u8]) -> Option<DeviceName>
        ensures { result ≡ name_of field.now }
    {
        if !is_name(field) {
            return None;
        }
        Some(DeviceName {
            bytes: filled(field),
            len: field.len(),
        })
    }

    pub fn as_bytes(&self) -> &[u8]
        ensures value { result.now ≡ self.now }
        ensures name { IsTrue (is_name self.now) }
    {
        &self.bytes[..self.len]
    }

    /// Its characters.
    pub fn as_str(&self) -> &str
        ensures { result.now ≡ self.now }
    {
        match std::str::from_utf8(self.as_bytes()) {
            Ok(name) => name,
            Err(_) => unreachable!(),
        }
    }

    /// The same name once more. It takes no memory.
    pub fn duplicate(&self) -> DeviceName
        ensures { result ≡ self.now }
    {
        DeviceName {
            bytes: self.bytes,
            len: self.len,
        }
    }
}

impl fmt::Display for DeviceName {
    ghost use Rattle.std.specs.Prelude.{Some};

    ghost output = { λ n. Some n };

    fn fmt<W: fmt::Write>(&self, f: &mut fmt::Formatter<W>) -> fmt::Result {
        f.write_str(self.as_str())
    }
}
