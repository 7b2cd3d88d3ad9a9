//! What holds of a driver's descriptors, as the contract of a function that does nothing.
ghost use Rattle.vring_drive.specs.Laws.{BeginsWhole, SendsWhole, TakesWhole, HarvestsWhole, AllFreeAgain};

/// Each descriptor is free or in one chain that is out, whatever is posted and harvested; so all are
/// free again once no chain is out.
pub fn descriptors_stay_whole()
    ensures begins { BeginsWhole }
    ensures sends { SendsWhole }
    ensures takes { TakesWhole }
    ensures harvests { HarvestsWhole }
    ensures free { AllFreeAgain }
{}
