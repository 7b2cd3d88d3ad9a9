//! Places in a packed ring.
ghost use Rattle.std.specs.Prelude.{◌≡◌, ◌<◌, ◌≤◌};
ghost use Rattle.vring_packed.specs.Packed.{first_place, place_after};

/// A place in a packed ring: an entry, and the wrap counter with which it is reached.
#[derive(Clone, Copy, Debug, PartialEq, Eq)]
pub struct Place {
    /// The entry.
    pub at: u16,
    /// The wrap counter, which turns whenever the end of the ring is passed.
    pub wrap: bool,
}

impl Place {
    /// The place at which driver and device begin.
    pub fn first() -> Place
        ensures { result ≡ first_place }
    {
        Place { at: 0, wrap: true }
    }

    /// The place that is so many places on in a ring of so many entries.
    pub fn after(&self, num: u16, count: u16) -> Place
        requires inside { self.now.at < num }
        requires most { num ≤ 32768 }
        requires few { count ≤ num }
        ensures place { result ≡ place_after num self.now count }
        ensures inside { result.at < num }
    {
        let at = self.at + count;
        if at < num {
            Place {
                at,
                wrap: self.wrap,
            }
        } else {
            Place {
                at: at - num,
                wrap: !self.wrap,
            }
        }
    }
}
