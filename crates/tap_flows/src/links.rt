//! Nodes in rings that are linked both ways.

ghost use Rattle.std.specs.Prelude.{◌≡◌, ◌<◌, ◌≤◌, length, slice_index, vec_len, All, IfOk};
ghost use Rattle.tap_flows.specs.Rings.{AreAlone, unlinked_next, unlinked_previous, linked_next, linked_previous, moved_next, moved_previous};

use std::alloc::{AllocError, Global};

/// The number of a place: of a node, or of the head of a ring.
#[derive(Clone, Copy, Debug, PartialEq, Eq)]
pub(crate) struct Place {
    pub number: u32,
}

/// At each place the number of the next one in its ring, and of the previous one.
#[derive(Drop)]
pub(crate) struct Links {
    pub next: Vec<u32>,
    pub previous: Vec<u32>,
    pub ghost sized: { vec_len previous ≡ vec_len next },
    pub ghost next_within: { All (λ k. k < vec_len next) next.items },
    pub ghost previous_within: { All (λ k. k < vec_len next) previous.items },
}

impl Links {
    /// Places that are all alone.
    pub fn new(alloc: Global, places: u32) -> Result<Links, AllocError>
        ensures next { IfOk result (λ links. AreAlone links.next.items places) }
        ensures previous { IfOk result (λ links. AreAlone links.previous.items places) }
    {
        Ok(Links {
            next: own_numbers(alloc, places)?,
            previous: own_numbers(alloc, places)?,
        })
    }

    /// The place behind this one.
    pub fn next(&self, place: Place) -> Place
        requires { place.number < vec_len self.now.next }
        ensures following { result.number ≡ slice_index self.now.next.items place.number }
        ensures within { result.number < vec_len self.now.next }
    {
        Place {
            number: self.next[place.number as usize],
        }
    }

    /// Takes a node out of its ring.
    pub fn unlink(&mut self, node: Place)
        requires { node.number < vec_len self.old.next }
        ensures next { self.new.next.items ≡ unlinked_next self.old.next.items self.old.previous.items node.number }
        ensures previous { self.new.previous.items
            ≡ unlinked_previous self.old.next.items self.old.previous.items node.number }
    {
        let after = self.next[node.number as usize];
        let before = self.previous[node.number as usize];
        self.next[before as usize] = after;
        self.previous[after as usize] = before;
    }

    /// Puts a node at the end of a ring.
    pub fn link(&mut self, node: Place, head: Place)
        requires node { node.number < vec_len self.old.next }
        requires head { head.number < vec_len self.old.next }
        ensures next { self.new.next.items
            ≡ linked_next self.old.next.items self.old.previous.items node.number head.number }
        ensures previous { self.new.previous.items
            ≡ linked_previous self.old.next.items self.old.previous.items node.number head.number }
    {
        let last = self.previous[head.number as usize];
        self.next[last as usize] = node.number;
        self.previous[node.number as usize] = last;
        self.next[node.number as usize] = head.number;
        self.previous[head.number as usize] = node.number;
    }

    /// Takes a node out of its ring and puts it at the end of one.
    pub fn move_to(&mut self, node: Place, head: Place)
        requires node { node.number < vec_len self.old.next }
        requires head { head.number < vec_len self.old.next }
        ensures next { self.new.next.items
            ≡ moved_next self.old.next.items self.old.previous.items node.number head.number }
        ensures previous { self.new.previous.items
            ≡ moved_previous self.old.next.items self.old.previous.items node.number head.number }
    {
        self.unlink(node);
        self.link(node, head);
    }
}

/// The numbers from 0 up to `places`, in order.
fn own_numbers(alloc: Global, places: u32) -> Result<Vec<u32>, AllocError>
    ensures alone { IfOk result (λ links. AreAlone links.items places) }
    ensures within { IfOk result (λ links. All (λ k. k < places) links.items) }
{
    let mut links = Vec::with_capacity(alloc, places as usize)?;
    for place in 0..places {
        links.push(place)?;
    }
    Ok(links)
}
