//! The order of positions, as the contract of a function that does nothing.
ghost use Rattle.vhost_queue.specs.Laws.{BeginsInOrder, ServesInOrder, RewindsInOrder, DoneInOrder, PublishedInOrder};

/// The chains of a list of positions are published, then done, then gathered, and each call keeps
/// them so: the k-th has the k-th position after the base.
pub fn positions_stay_in_order()
    ensures begins { BeginsInOrder }
    ensures serves { ServesInOrder }
    ensures rewinds { RewindsInOrder }
    ensures done { DoneInOrder }
    ensures published { PublishedInOrder }
{}
