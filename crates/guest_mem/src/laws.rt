//! What ties a memory's regions, its list of bytes and the byte at an address together, as contracts
//! of functions that do nothing.
ghost use Rattle.guest_mem.specs.Laws.{RangesAreTold, PartsAreCovered, CoveredFits, StretchesTell, SameBytesOneList, BytesAreLookedUp, PartsAreBytes, ByteAfterWrite, WritesBytes, WritesSoundly};
ghost use Rattle.guest_mem.specs.Examples.{RangesAreFound, WritesAreFound};

/// What the regions tell of a range is so of the byte at each of its addresses; the parts of a range
/// that is covered are covered, and it ends before the last address; and a range that starts in a stretch
/// of addresses is covered exactly where it ends in it.
pub fn range_laws()
    ensures told { RangesAreTold }
    ensures parts { PartsAreCovered }
    ensures fits { CoveredFits }
    ensures stretches { StretchesTell }
{}

/// A memory's list of bytes is the one with these bytes, and what is read from it are the bytes at
/// the addresses one by one; a part of these bytes is what is read of a part of the range.
pub fn byte_laws()
    ensures one_list { SameBytesOneList }
    ensures looked_up { BytesAreLookedUp }
    ensures parts { PartsAreBytes }
{}

/// A write changes the bytes of its addresses alone, and leaves a sound memory sound.
pub fn write_laws()
    ensures byte { ByteAfterWrite }
    ensures writes { WritesBytes }
    ensures sound { WritesSoundly }
{}

/// The definitions on worked examples: ranges over regions that touch, and a write over another.
pub fn worked_examples()
    ensures ranges { RangesAreFound }
    ensures writes { WritesAreFound }
{}
