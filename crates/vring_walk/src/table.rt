//! Tables of descriptors.
ghost use Rattle.std.specs.Prelude.{◌≡◌, ◌≤◌};
ghost use Rattle.vring_walk.specs.Chain.{own_table, table_of};

use vring_split::{Desc, Layout};

/// A table of descriptors.
#[derive(Clone, Copy, Debug, PartialEq, Eq)]
pub struct Table {
    /// Where it starts, as an address of the guest.
    pub addr: u64,
    /// How many entries it has.
    pub entries: u16,
    /// Whether a descriptor refers to it, and it is not the ring's own.
    pub indirect: bool,
}

impl Table {
    /// The ring's own table.
    pub(crate) fn own(ring: &Layout) -> Table
        ensures { result ≡ own_table ring.now }
    {
        Table {
            addr: ring.desc,
            entries: ring.num,
            indirect: false,
        }
    }

    /// The table that an indirect descriptor refers to.
    pub(crate) fn of(desc: &Desc) -> Table
        requires { desc.now.len ≤ 16384 }
        ensures { result ≡ table_of desc.now }
    {
        Table {
            addr: desc.addr,
            entries: (desc.len / 16) as u16,
            indirect: true,
        }
    }
}
