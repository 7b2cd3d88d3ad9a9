//! Worked examples of rings: a driver, a queue and a device that serve one ring, as their definitions
//! compute them.
#![tactic(auto)]

ghost use Rattle.example_rings.specs.Driving.{AreasAreLookedAt, PostsAreLookedAt, LowestFirst, PostIsWritten, StrayEnds};
ghost use Rattle.example_rings.specs.Serving.{NoticesWrap, TwoChains, OneChainIsRewound, ThreeHundred};
ghost use Rattle.example_rings.specs.Usual.{AddressesAgree, FrameIsFound, Harvested};

/// A driver with four descriptors meets each of its answers.
pub fn driving()
    ensures areas { AreasAreLookedAt }
    ensures posts { PostsAreLookedAt }
    ensures lowest { LowestFirst }
    ensures written { PostIsWritten }
    ensures stray { StrayEnds }
{}

/// Chains are served, done and published at their positions.
pub fn serving()
    ensures notices { NoticesWrap }
    ensures two_chains { TwoChains }
    ensures rewound { OneChainIsRewound }
    ensures positions { ThreeHundred }
{}

/// The usual start of a queue pair, from the driver's area to a harvest.
pub fn usual()
    ensures addresses { AddressesAgree }
    ensures found { FrameIsFound }
    ensures harvested { Harvested }
{}

#[cfg(test)]
mod tests;
