//! The heads of the rings, which stand behind the nodes.

ghost use Rattle.std.specs.Prelude.{◌≡◌, ◌≤◌};
ghost use Rattle.tap_flows.specs.Heads.{bucket_head, free_head};
ghost use Rattle.tap_flows.specs.declared.heads.TheConstants.{MAX_LIMIT};

use crate::links::Place;

/// How many flows a device may keep at most.
pub const MAX_LIMIT: u32 = 65_536;

/// How many buckets there are.
pub(crate) const BUCKETS: u32 = 1024;

/// How many heads stand in the rings by bucket: the buckets', and that of the free nodes.
pub(crate) const CHAIN_HEADS: u32 = BUCKETS + 1;

/// How many flows there may be, and so how many nodes.
#[derive(Clone, Copy, Debug)]
pub(crate) struct Limit {
    pub nodes: u32,
    pub ghost in_range: { nodes ≤ MAX_LIMIT },
}

impl Limit {
    /// The head of the ring of a hash's bucket.
    pub fn bucket(self, hash: u32) -> Place
        ensures { result.number ≡ bucket_head self.nodes hash }
    {
        Place {
            number: self.nodes + hash % BUCKETS,
        }
    }

    /// The head of the ring of free nodes, behind those of the buckets.
    pub fn free(self) -> Place
        ensures { result.number ≡ free_head self.nodes }
    {
        Place {
            number: self.nodes + BUCKETS,
        }
    }

    /// The head of the ring by age.
    pub fn ages(self) -> Place
        ensures { result.number ≡ self.nodes }
    {
        Place { number: self.nodes }
    }
}
