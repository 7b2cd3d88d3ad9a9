//! What ties fields to bytes, as contracts of functions that do nothing.
ghost use Rattle.vring_split.specs.Laws.{DescIsReadBack, ElemIsReadBack, GoodIsTested};

/// What is written of a descriptor or a used element is read back.
pub fn field_laws()
    ensures desc { DescIsReadBack }
    ensures elem { ElemIsReadBack }
{}

/// The test of a layout says whether it is good.
pub fn good_laws()
    ensures { GoodIsTested }
{}
