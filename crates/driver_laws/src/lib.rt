//! What ties a lawful driver to a device that walks its ring, as contracts of functions that do
//! nothing; `specs/Offers.antt` has the statements.
#![tactic(auto)]

ghost use Rattle.driver_laws.specs.Offers.{PostInIsFound, PostOutIsFound, PostOutIsRead, OfferIsFound, PostsOffer, PostsLeaveOffers, HarvestsLeaveOffers};

use guest_mem::{byte_laws, range_laws, write_laws};
use vring_split::field_laws;

/// What a driver posts is the next chain that a device finds at the driver's place, with the head that
/// the post told, and the posted pieces as its segments; and what a device reads from the segments of
/// posted bytes are these bytes.
pub fn posts_are_found()
    ensures posted_in { PostInIsFound }
    ensures posted_out { PostOutIsFound }
    ensures read { PostOutIsRead }
{
    byte_laws();
    range_laws();
    write_laws();
    field_laws();
}

/// Where the driver alone writes, a chain that was posted stays on offer, whatever is posted and
/// harvested, until its descriptors are free or its entry of the available ring is written again; and
/// a device finds it at its position as soon as the available index has passed it.
pub fn offers_stay()
    ensures found { OfferIsFound }
    ensures posts { PostsOffer }
    ensures others { PostsLeaveOffers }
    ensures harvests { HarvestsLeaveOffers }
{
    range_laws();
    write_laws();
    field_laws();
}
