//! Whole turns, by a caller that looks before each step whether it may be made.
//!
//! It remembers nothing between two steps but what it tests, so it serves programs that make turns one
//! after another. What a turn did is what its worker's steps say; here it is said that a report is that of
//! its worker, whose turn is over for the end that is reported: `specs/Reports.antt`. A step is made exactly
//! where it may be (`specs/Looking.antt`). That the loop ends no turn before its end is reckoned, not proved.
#![tactic(auto)]

mod sent;
mod taken;

pub use crate::sent::transmit;
pub use crate::taken::receive;

// More steps than a turn has, by this reckoning, which no clause states. A receive turn takes up to 256 frames
// as packets. For each it makes up to 1,024 fetches, of up to four steps each (a fetch, notices on, a fetch,
// notices off), also where the chains are given up then, and four more: it takes the frame in hand, copies it,
// lets it out, and publishes. For a last frame it fetches as often and puts it back. With the first step these
// are 256 * (4 * 1,024 + 4) + 4,200 at most, or 1,053,800. A transmit turn has fewer: seven for a packet.
const STEPS: u32 = 1 << 21;
